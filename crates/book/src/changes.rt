// The two changes that a book can have: one entry added, one cancelled.
ghost use Rattle.std.specs.Prelude.{◌≡◌, ◌+◌, ◌≤◌, ◌<◌, length};
ghost use Rattle.std.proofs.Math.Seq.{paste};
ghost use Rattle.book.specs.Words.{capacity, width, book_length, start_of, count_of, booking};
ghost use Rattle.book.specs.Changes.{added, cancelled_at};

use super::status::Status;
use super::words::{ASKED, ENTRIES, ENTRY_COUNT, PARTS, STATUS, WIDTH};
use fares::Question;

// Writes words from a place on.
fn put(book: &mut [u32], at: usize, words: &[u32])
    requires { at + length words.now ≤ length book.old }
    ensures { book.new ≡ paste book.old at words.now (length words.now) }
{
    let end = at + words.len();
    book[at..end].copy_from_slice(words);
}

// One entry at the end, and the count with it.
pub fn append(book: &mut [u32], till: u32, sequence: u32, q: Question, parts: [u32; 8])
    requires { (length book.old ≡ book_length) × (count_of book.old < capacity) }
    ensures { book.new ≡ added book.old (booking till sequence q parts) }
{
    let count = book[ENTRY_COUNT] as usize;
    let at = ENTRIES + count * WIDTH;
    let number = [till, sequence];
    let asked = super::words::question_words(q);
    let rest = [0u32; 3];
    put(book, at, &number);
    put(book, at + ASKED, &asked);
    put(book, at + PARTS, &parts);
    put(book, at + STATUS, &rest);
    book[ENTRY_COUNT] = (count + 1) as u32;
}

// Cancels an entry.
pub fn cancel_entry(book: &mut [u32], place: usize)
    requires { start_of place + width ≤ length book.old }
    ensures { book.new ≡ cancelled_at book.old place }
{
    let at = ENTRIES + place * WIDTH;
    book[at + STATUS] = Status::Cancelled.into();
}
