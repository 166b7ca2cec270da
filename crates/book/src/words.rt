// The words of a book and of its entries: the one table of places, each of which follows from the widths before it.
ghost use Rattle.std.specs.Prelude.{◌≡◌, ◌+◌, ◌≤◌, ◌<◌, ◌==◌, length, take, drop};
ghost use Rattle.std.specs.List.{count_by, zip};
ghost use Rattle.common.specs.Lists.{every, same, up_to};
ghost use Rattle.book.specs.Words.{question_width, leg_at, leg_of, question_words, question_of};
ghost use Rattle.book.specs.Sound.{is_zero, is_bounded};
ghost use Rattle.book.specs.Helpers.{leg_clear, legs_clear, unused_zero};

use fares::{Leg, Question};
use std::array;

// A question: offer, day, four cards, the leg count, six pairs of a category and its persons, and eight legs of four words.
pub const OFFER: usize = 0;

pub const DAY: usize = 1;

const CARDS: usize = 2;

const CARDS_WIDTH: usize = 4;

pub const COUNT: usize = CARDS + CARDS_WIDTH;

const PAIRS: usize = COUNT + 1;

pub const PERSONS: usize = PAIRS + 1;

const MORE_PAIRS: usize = PERSONS + 1;

const PAIRS_WIDTH: usize = 6 * 2;

const LEGS: usize = PAIRS + PAIRS_WIDTH;

pub const LEG_WIDTH: usize = 4;

pub const QUESTION_WIDTH: usize = LEGS + 8 * LEG_WIDTH;

// An entry: the till, the sequence, the question, eight parts, the status, and two words that are kept zero.
pub const TILL: usize = 0;

pub const SEQUENCE: usize = 1;

pub const ASKED: usize = 2;

pub const LEG_COUNT: usize = ASKED + COUNT;

pub const RAILWAYS: usize = ASKED + LEGS;

pub const PARTS: usize = ASKED + QUESTION_WIDTH;

pub const STATUS: usize = PARTS + 8;

pub const SPARE: usize = STATUS + 1;

pub const WIDTH: usize = SPARE + 2;

// A book: the count, and then the entries.
pub const ENTRY_COUNT: usize = 0;

pub const ENTRIES: usize = 1;

pub const CAPACITY: usize = 256;

pub const LENGTH: usize = ENTRIES + CAPACITY * WIDTH;

// Leg j of a question, zeros from the leg count on.
fn leg_at(q: Question, j: usize) -> Leg
    requires { j < 8 }
    ensures { result ≡ leg_at q j }
{
    let count = q.count as usize;
    if count <= j {
        return Leg::default();
    }
    let legs = q.legs;
    legs[j]
}

// The words of a question as a book keeps them.
pub fn question_words(q: Question) -> [u32; QUESTION_WIDTH]
    ensures { result ≡ question_words q }
{
    let mut words = [0u32; QUESTION_WIDTH];
    words[OFFER] = q.offer;
    words[DAY] = q.day;
    let cards = q.cards;
    words[CARDS] = cards[0];
    words[CARDS + 1] = cards[1];
    words[CARDS + 2] = cards[2];
    words[CARDS + 3] = cards[3];
    words[COUNT] = q.count;
    words[PERSONS] = q.persons;
    for j in 0..8 {
        let leg = leg_at(q, j);
        let at = LEGS + LEG_WIDTH * j;
        words[at] = leg.railway;
        words[at + 1] = leg.fare;
    }
    words
}

// Leg j that a question's words say.
pub fn leg_in(words: &[u32; QUESTION_WIDTH], j: usize) -> Leg
    requires { j < 8 }
    ensures { result ≡ leg_of words.now j }
{
    let at = LEGS + LEG_WIDTH * j;
    Leg {
        railway: words[at],
        fare: words[at + 1],
    }
}

// The cards that a question's words say.
pub fn cards_in(words: &[u32; QUESTION_WIDTH]) -> [u32; 4]
    ensures { result ≡ (question_of words.now).cards }
{
    [
        words[CARDS],
        words[CARDS + 1],
        words[CARDS + 2],
        words[CARDS + 3],
    ]
}

// The legs that a question's words say.
fn legs_in(words: &[u32; QUESTION_WIDTH]) -> [Leg; 8]
    ensures { result ≡ up_to (leg_of words.now) 8 }
{
    array::from_fn(|j| leg_in(words, j))
}

// The question that words say.
pub fn question_in(words: &[u32; QUESTION_WIDTH]) -> Question
    ensures { result ≡ question_of words.now }
{
    Question {
        offer: words[OFFER],
        day: words[DAY],
        persons: words[PERSONS],
        cards: cards_in(words),
        count: words[COUNT],
        legs: legs_in(words),
    }
}

// How many words of two questions are the same, place by place.
fn alike(words: &[u32; QUESTION_WIDTH], own: &[u32; QUESTION_WIDTH]) -> usize
    ensures { result ≡ count_by (λ p. p.0 == p.1) (zip words.now own.now) }
{
    words.iter().zip(own).filter(|(a, b)| **a == **b).count()
}

// Whether words are those of a question: as many are alike as there are, which a processor counts several at a time.
pub fn says(words: &[u32; QUESTION_WIDTH], q: Question) -> bool
    ensures { result ≡ same words.now (question_words q) }
{
    alike(words, &question_words(q)) == QUESTION_WIDTH
}

// Whether no word is above a bound. No early way out, as in `layout::rules::text`.
pub fn all_bounded(words: &[u32], bound: u32) -> bool
    ensures { result ≡ is_bounded bound words.now }
{
    let mut good = true;
    for word in words {
        good &= *word <= bound;
    }
    good
}

pub fn all_zero(words: &[u32]) -> bool
    ensures { result ≡ every is_zero words.now }
{
    all_bounded(words, 0)
}

// Whether the two words of leg j that are kept zero are.
fn leg_clear(words: &[u32; QUESTION_WIDTH], j: usize) -> bool
    requires { j < 8 }
    ensures { result ≡ leg_clear words.now j }
{
    let at = LEGS + LEG_WIDTH * j;
    words[at + 2] == 0 && words[at + 3] == 0
}

// Whether those of each of the first legs are.
fn legs_clear(words: &[u32; QUESTION_WIDTH], count: usize) -> bool
    requires { count ≤ 8 }
    ensures { result ≡ legs_clear words.now count }
{
    (0..count).all(|j| leg_clear(words, j))
}

// Whether what a question of so many legs does not use is zero.
#[tactic(auto, unfolding(crate::specs::Helpers::unused_zero))]
pub fn unused_zero(words: &[u32; QUESTION_WIDTH], count: usize) -> bool
    requires { count ≤ 8 }
    ensures { result ≡ unused_zero words.now count }
{
    words[PAIRS] == 0
        && all_zero(&words[MORE_PAIRS..LEGS])
        && all_zero(&words[LEGS + LEG_WIDTH * count..])
        && legs_clear(words, count)
}

// The N words from a place on, where they stand.
pub fn block<const N: usize>(words: &[u32], at: usize) -> &[u32; N]
    requires { at + N ≤ length words.now }
    ensures { result.now ≡ take N (drop at words.now) }
{
    words[at..].first_chunk::<N>().unwrap()
}
