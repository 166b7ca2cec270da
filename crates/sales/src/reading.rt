// The sales of a book as it has them: how many, one by its place, and one by its number. Nothing is changed.
ghost use Rattle.std.specs.Prelude.{◌≡◌};
ghost use Rattle.sales.specs.Reading.{booking_at, count_answer, entry_answer, find_answer};
ghost use Rattle.sales.specs.Helpers.{looked_up};

use super::Booking;
use book::entries::Entry;
use common::{Reason, Refusal};

// Where the sale of a number stands.
pub fn look_up(book: &[u32], till: u32, sequence: u64) -> Result<usize, Refusal>
    ensures { result ≡ looked_up book.now till sequence }
{
    if !book::sound::is_sound(book) {
        return Err(common::refuse(Reason::BookUnsound, 0, 0));
    }
    if !book::sound::is_number(till, sequence) {
        return Err(common::refuse(Reason::NumberOutside, 0, 0));
    }
    book::entries::find(book, till, sequence as u32).ok_or(common::refuse(
        Reason::SaleUnknown,
        0,
        0,
    ))
}

fn booking(sale: &Entry, entry: usize) -> Booking
    ensures { result ≡ booking_at entry sale.now }
{
    Booking {
        entry,
        till: sale.till(),
        sequence: sale.sequence(),
        question: sale.question(),
        parts: sale.parts(),
        status: sale.status(),
    }
}

// How many sales the book has.
pub fn count(book: &[u32]) -> Result<usize, Refusal>
    ensures { result ≡ count_answer book.now }
{
    if !book::sound::is_sound(book) {
        return Err(common::refuse(Reason::BookUnsound, 0, 0));
    }
    Ok(book::entries::count(book))
}

// The sale at an entry.
pub fn entry(book: &[u32], entry: usize) -> Result<Booking, Refusal>
    ensures { result ≡ entry_answer book.now entry }
{
    if !book::sound::is_sound(book) {
        return Err(common::refuse(Reason::BookUnsound, 0, 0));
    }
    if book::entries::count(book) <= entry {
        return Err(common::refuse(Reason::SaleUnknown, 0, 0));
    }
    Ok(booking(&book::entries::entry_at(book, entry), entry))
}

// The sale that has a number.
pub fn find(book: &[u32], till: u32, sequence: u64) -> Result<Booking, Refusal>
    ensures { result ≡ find_answer book.now till sequence }
{
    let entry = look_up(book, till, sequence)?;
    Ok(booking(&book::entries::entry_at(book, entry), entry))
}
