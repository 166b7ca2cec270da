// The entries of a book, one at a time.
ghost use Rattle.std.specs.Prelude.{◌≡◌, ◌+◌, ◌≤◌, ◌<◌, length};
ghost use Rattle.common.specs.Lists.{up_to};
ghost use Rattle.book.specs.Words.{width, start_of, count_of, entry_words, entry_at, entries};
ghost use Rattle.book.specs.Sound.{held};

use super::status::Status;
use super::words::{ASKED, ENTRIES, ENTRY_COUNT, PARTS, SEQUENCE, STATUS, TILL, WIDTH};
use fares::Question;
use std::marker::Model;

// An entry, by its words where they stand in the book.
#[derive(Drop)]
pub struct Entry<'a> {
    words: &'a [u32; WIDTH],
}

impl<'a> Model for Entry<'a> {
    ghost use Rattle.book.specs.Words as entry_words;

    ghost Value = { entry_words.Entry };

    ghost view = { λ e. entry_words.entry_of e.words.now };
}

impl Entry<'_> {
    ghost use Rattle.common.specs.Lists.{same};
    ghost use Rattle.book.specs.Words.{question_of, question_words};
    ghost use Rattle.book.specs.Status.{status_of};

    pub fn till(&self) -> u32
        ensures { result ≡ self.now.till }
    {
        self.words[TILL]
    }

    pub fn sequence(&self) -> u32
        ensures { result ≡ self.now.sequence }
    {
        self.words[SEQUENCE]
    }

    // The question as it was asked.
    pub fn question(&self) -> Question
        ensures { result ≡ question_of self.now.asked }
    {
        let words = self.words;
        super::words::question_in(super::words::block(words, ASKED))
    }

    // Whether it is that of a question.
    pub fn asks(&self, q: Question) -> bool
        ensures { result ≡ same self.now.asked (question_words q) }
    {
        let words = self.words;
        super::words::says(super::words::block(words, ASKED), q)
    }

    pub fn parts(&self) -> [u32; 8]
        ensures { result ≡ self.now.parts }
    {
        let words = self.words;
        *super::words::block(words, PARTS)
    }

    // The word of the status: in a sound book 0 or 1.
    pub fn status_word(&self) -> u32
        ensures { result ≡ self.now.status }
    {
        self.words[STATUS]
    }

    pub fn status(&self) -> Status
        ensures { result ≡ status_of self.now.status }
    {
        self.status_word().into()
    }
}

// The entry at a place.
pub fn entry_at(book: &[u32], place: usize) -> Entry<'_>
    requires { start_of place + width ≤ length book.now }
    ensures { result ≡ entry_at book.now place }
{
    Entry {
        words: super::words::block(book, ENTRIES + place * WIDTH),
    }
}

// How many entries are in use.
pub fn count(book: &[u32]) -> usize
    ensures { result ≡ count_of book.now }
{
    if book.len() == 0 {
        return 0;
    }
    book[ENTRY_COUNT] as usize
}

// The words of the first entries, those of each as an array.
pub fn first(book: &[u32], n: usize) -> &[[u32; WIDTH]]
    requires { start_of n ≤ length book.now }
    ensures { result.now ≡ up_to (entry_words book.now) n }
{
    let (blocks, _rest) = book[ENTRIES..].as_chunks::<WIDTH>();
    &blocks[..n]
}

// Where the entry that has a number stands, if one has it.
pub fn find(book: &[u32], till: u32, sequence: u32) -> Option<usize>
    requires { start_of (count_of book.now) ≤ length book.now }
    ensures { result ≡ held till sequence (entries book.now) }
{
    super::numbers::find_in(first(book, count(book)), till, sequence)
}
