// Sums over the entries that are not cancelled.
ghost use Rattle.std.specs.Prelude.{◌≡◌, true};
ghost use Rattle.book.specs.Words.{entry_of, entries};
ghost use Rattle.book.specs.Sound.{sound_words};
ghost use Rattle.book.specs.Amounts.{live_amount, balance_of};
ghost use Rattle.book.specs.Helpers.{counts_for, counted};

use super::words::{ENTRY_COUNT, LEG_WIDTH, PARTS, RAILWAYS, STATUS, WIDTH};

// Whether a leg counts for a railway, as each does where none is named.
fn counts(leg: u32, railway: Option<u32>) -> bool
    ensures { result ≡ counts_for railway leg }
{
    railway.is_none_or(|own| leg == own)
}

// What an entry comes to for a railway, or for all; 0 if it is cancelled.
fn entry_owed(words: &[u32; WIDTH], railway: Option<u32>) -> u64
    ensures { result ≡ live_amount (counted railway) (entry_of words.now) }
{
    if words[STATUS] != 0 {
        return 0;
    }
    let mut sum: u64 = 0;
    for j in 0..8 {
        if counts(words[RAILWAYS + LEG_WIDTH * j], railway) {
            sum += words[PARTS + j] as u64;
        }
    }
    sum
}

// What a railway is owed over all entries of a sound book, or what all are.
pub fn owed(book: &[u32], railway: Option<u32>) -> u64
    requires { sound_words book.now ≡ true }
    ensures { result ≡ balance_of (counted railway) (entries book.now) }
{
    let count = book[ENTRY_COUNT] as usize;
    let mut sum: u64 = 0;
    for words in super::entries::first(book, count) {
        sum += entry_owed(words, railway);
    }
    sum
}
