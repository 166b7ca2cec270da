// The sale numbers of a book's entries: one looked for among them, and that they differ.
ghost use Rattle.std.specs.Prelude.{◌≡◌, ◌<◌, length, map, position};
ghost use Rattle.book.specs.Words.{entry_of};
ghost use Rattle.book.specs.Sound.{has_number, held, repeats, numbers_differ};
ghost use Rattle.book.specs.Helpers.{rank_of, RanksUpTo};

use super::words::{SEQUENCE, TILL, WIDTH};

// Whether an entry has a number. The sequence first: it is the one that tells the entries of a till apart.
fn has_number(words: &[u32; WIDTH], till: u32, sequence: u32) -> bool
    ensures { result ≡ has_number till sequence (entry_of words.now) }
{
    words[SEQUENCE] == sequence && words[TILL] == till
}

// Where the first of some entries that has a number stands.
pub fn find_in(entries: &[[u32; WIDTH]], till: u32, sequence: u32) -> Option<usize>
    ensures { result ≡ position (λ ws. has_number till sequence (entry_of ws)) entries.now }
{
    entries
        .iter()
        .position(|words| has_number(words, till, sequence))
}

// The sale number of an entry, as one number.
fn rank(words: &[u32; WIDTH]) -> u64
    ensures { result ≡ rank_of (entry_of words.now) }
{
    (words[TILL] as u64) * 4294967296 + (words[SEQUENCE] as u64)
}

// Whether entry i has the number of an earlier one, none of which ranks above `top`. Only a number that does not rank above them is looked for.
fn repeats_earlier(entries: &[[u32; WIDTH]], i: usize, top: u64) -> bool
    requires { (i < length entries.now) × RanksUpTo (map entry_of entries.now) i top }
    ensures { result ≡ repeats (map entry_of entries.now) i }
{
    let words = &entries[i];
    if top < rank(words) {
        return false;
    }
    find_in(&entries[..i], words[TILL], words[SEQUENCE]).is_some()
}

pub fn numbers_differ(entries: &[[u32; WIDTH]]) -> bool
    ensures { result ≡ numbers_differ (map entry_of entries.now) }
{
    let mut top: u64 = 0;
    for (i, words) in entries.iter().enumerate() {
        if repeats_earlier(entries, i, top) {
            return false;
        }
        top = top.max(rank(words));
    }
    true
}
