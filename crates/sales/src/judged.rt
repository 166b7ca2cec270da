// What a sale and a cancellation come to, before anything is written.
ghost use Rattle.std.specs.Prelude.{◌≡◌};
ghost use Rattle.sales.specs.Sales.{cancel_receipt, sale_answer, cancel_answer};
ghost use Rattle.sales.specs.Helpers.{again_answer, first_answer};

use super::reading::look_up;
use super::{Outcome, Receipt};
use book::Status;
use book::entries::Entry;
use common::{Reason, Refusal};
use fares::Question;

pub fn judge_sale(
    book: &[u32],
    bundle: &[u8],
    till: u32,
    sequence: u64,
    q: Question,
) -> Result<Receipt, Refusal>
    ensures { result ≡ sale_answer book.now till sequence bundle.now q }
{
    if !book::sound::is_sound(book) {
        return Err(common::refuse(Reason::BookUnsound, 0, 0));
    }
    if !book::sound::is_number(till, sequence) {
        return Err(common::refuse(Reason::NumberOutside, 0, 0));
    }
    if let Some(place) = book::entries::find(book, till, sequence as u32) {
        let entry = book::entries::entry_at(book, place);
        return sold_again(&entry, place, q);
    }
    let count = book::entries::count(book);
    if book::CAPACITY <= count {
        return Err(common::refuse(Reason::BookFull, 0, 0));
    }
    sold_first(bundle, q)
}

// A number that is in the book: the same sale again, or another one.
fn sold_again(entry: &Entry, place: usize, q: Question) -> Result<Receipt, Refusal>
    ensures { result ≡ again_answer entry.now place q }
{
    if !entry.asks(q) {
        return Err(common::refuse(Reason::NumberTaken, place, 0));
    }
    Ok(Receipt {
        outcome: Outcome::AlreadyBooked(entry.status()),
        parts: entry.parts(),
    })
}

// A new number: booked if the bundle gives it a fare.
fn sold_first(bundle: &[u8], q: Question) -> Result<Receipt, Refusal>
    ensures { result ≡ first_answer bundle.now q }
{
    let quote = fares::fare(bundle, q)?;
    let parts = quote.parts;
    Ok(Receipt {
        outcome: Outcome::Booked,
        parts,
    })
}

pub fn judge_cancel(book: &[u32], till: u32, sequence: u64) -> Result<Receipt, Refusal>
    ensures { result ≡ cancel_answer book.now till sequence }
{
    let place = look_up(book, till, sequence)?;
    Ok(cancelled(&book::entries::entry_at(book, place)))
}

// An entry that is to be cancelled: a live sale, or one that was cancelled before.
fn cancelled(entry: &Entry) -> Receipt
    ensures { result ≡ cancel_receipt entry.now }
{
    let outcome = match entry.status() {
        Status::Live => Outcome::Cancelled,
        Status::Cancelled => Outcome::AlreadyCancelled,
    };
    Receipt {
        outcome,
        parts: entry.parts(),
    }
}
