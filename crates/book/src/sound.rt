// When a book is sound, and a sale number within its limits.
ghost use Rattle.std.specs.Prelude.{◌≡◌, ◌≤◌, ◌<◌, map};
ghost use Rattle.std.specs.List.{list_all, range_with_len};
ghost use Rattle.common.specs.Lists.{every};
ghost use Rattle.fares.specs.Question.{leg_in_limits};
ghost use Rattle.book.specs.Words.{leg_of, question_of, entry_of};
ghost use Rattle.book.specs.Sound.{number_in_limits, asked_sound, entry_sound, sound_words};

use super::words::{
    ASKED, CAPACITY, COUNT, DAY, ENTRIES, ENTRY_COUNT, LEG_COUNT, LENGTH, OFFER, PARTS, PERSONS,
    QUESTION_WIDTH, SEQUENCE, SPARE, STATUS, TILL, WIDTH,
};

// Whether a sale number is within its limits.
pub fn is_number(till: u32, sequence: u64) -> bool
    ensures { result ≡ number_in_limits till sequence }
{
    matches!(till, 1..=65535) && matches!(sequence, 1..=4294967295)
}

// Whether leg j that words say is within its limits.
fn leg_in_limits(words: &[u32; QUESTION_WIDTH], j: usize) -> bool
    requires { j < 8 }
    ensures { result ≡ leg_in_limits (leg_of words.now j) }
{
    fares::limits::leg_in_limits(super::words::leg_in(words, j))
}

// Whether the first legs that they say are.
fn legs_in_limits(words: &[u32; QUESTION_WIDTH], count: usize) -> bool
    requires { count ≤ 8 }
    ensures { result ≡ list_all (λ j. leg_in_limits (leg_of words.now j)) (range_with_len 0 count) }
{
    (0..count).all(|j| leg_in_limits(words, j))
}

// Whether words are sound, given the cards that they say. They are looked at where they stand: a question made of them would have to be written first.
fn asked_sound(words: &[u32; QUESTION_WIDTH], cards: [u32; 4]) -> bool
    requires { cards ≡ (question_of words.now).cards }
    ensures { result ≡ asked_sound words.now }
{
    let count = words[COUNT];
    if !fares::limits::trip_in_limits(words[OFFER], words[DAY], words[PERSONS], count) {
        return false;
    }
    if !fares::limits::cards_in_limits(cards) {
        return false;
    }
    if !fares::limits::cards_differ(cards) {
        return false;
    }
    if !super::words::unused_zero(words, count as usize) {
        return false;
    }
    legs_in_limits(words, count as usize)
}

// Whether the words of an entry are sound.
fn entry_sound(words: &[u32; WIDTH]) -> bool
    ensures { result ≡ entry_sound (entry_of words.now) }
{
    if !is_number(words[TILL], words[SEQUENCE] as u64) {
        return false;
    }
    let asked = super::words::block(words, ASKED);
    let cards = super::words::cards_in(asked);
    if !asked_sound(asked, cards) {
        return false;
    }
    if !super::words::all_bounded(&words[PARTS..STATUS], fares::limits::part_bound(cards)) {
        return false;
    }
    let first = PARTS + (words[LEG_COUNT] as usize);
    if !super::words::all_zero(&words[first..STATUS]) {
        return false;
    }
    if 1 < words[STATUS] {
        return false;
    }
    super::words::all_zero(&words[SPARE..WIDTH])
}

fn entries_sound(entries: &[[u32; WIDTH]]) -> bool
    ensures { result ≡ every entry_sound (map entry_of entries.now) }
{
    for words in entries {
        if !entry_sound(words) {
            return false;
        }
    }
    true
}

// Whether a book is sound.
pub fn is_sound(book: &[u32]) -> bool
    ensures { result ≡ sound_words book.now }
{
    if book.len() != LENGTH {
        return false;
    }
    let count = book[ENTRY_COUNT] as usize;
    if CAPACITY < count {
        return false;
    }
    let entries = super::entries::first(book, count);
    if !entries_sound(entries) {
        return false;
    }
    if !super::numbers::numbers_differ(entries) {
        return false;
    }
    let unused = ENTRIES + count * WIDTH;
    super::words::all_zero(&book[unused..LENGTH])
}
