// Sales and cancellations, balances and the total: a sale that is sent again is never booked again.
#![tactic(auto)]

ghost use Rattle.std.specs.Prelude.{◌≡◌};
ghost use Rattle.sales.specs.Sales.{sale_answer, sale_words, cancel_answer, cancel_words};
ghost use Rattle.sales.specs.Balances.{balance_answer, total_answer};

mod judged;
pub mod reading;

use book::Status;
use common::{Reason, Refusal};

// What came of a sale or a cancellation that is not refused; `AlreadyBooked` has the status of the entry.
#[derive(Clone, Copy)]
pub enum Outcome {
    Booked,
    AlreadyBooked(Status),
    Cancelled,
    AlreadyCancelled,
}

// The outcome with the sale's parts.
#[derive(Clone, Copy)]
pub struct Receipt {
    pub outcome: Outcome,
    pub parts: [u32; 8],
}

// A sale as a book has it: which entry it is, its number, what was asked, the parts as first priced, and the status.
#[derive(Clone, Copy)]
pub struct Booking {
    pub entry: usize,
    pub till: u32,
    pub sequence: u32,
    pub question: fares::Question,
    pub parts: [u32; 8],
    pub status: Status,
}

// Books a sale, if its number is new and it can be priced.
pub fn sale(
    book: &mut [u32],
    bundle: &[u8],
    till: u32,
    sequence: u64,
    q: fares::Question,
) -> Result<Receipt, Refusal>
    ensures value { result ≡ sale_answer book.old till sequence bundle.now q }
    ensures book_after { book.new ≡ sale_words book.old till sequence bundle.now q }
{
    let receipt = judged::judge_sale(book, bundle, till, sequence, q)?;
    if let Outcome::Booked = receipt.outcome {
        book::changes::append(book, till, sequence as u32, q, receipt.parts);
    }
    Ok(receipt)
}

// Cancels a sale; its entry stays, so that its number is never booked again.
pub fn cancel(book: &mut [u32], till: u32, sequence: u64) -> Result<Receipt, Refusal>
    ensures value { result ≡ cancel_answer book.old till sequence }
    ensures book_after { book.new ≡ cancel_words book.old till sequence }
{
    let receipt = judged::judge_cancel(book, till, sequence)?;
    if let Outcome::Cancelled = receipt.outcome {
        let place = book::entries::find(book, till, sequence as u32).unwrap();
        book::changes::cancel_entry(book, place);
    }
    Ok(receipt)
}

// What a railway is owed.
pub fn balance(book: &[u32], railway: u32) -> Result<u64, Refusal>
    ensures { result ≡ balance_answer book.now railway }
{
    if !book::sound::is_sound(book) {
        return Err(common::refuse(Reason::BookUnsound, 0, 0));
    }
    if !layout::company::is_railway(railway) {
        return Err(common::refuse(Reason::OutsideLimits, 0, 0));
    }
    Ok(book::sums::owed(book, Some(railway)))
}

// What all railways are owed.
pub fn total(book: &[u32]) -> Result<u64, Refusal>
    ensures { result ≡ total_answer book.now }
{
    if !book::sound::is_sound(book) {
        return Err(common::refuse(Reason::BookUnsound, 0, 0));
    }
    Ok(book::sums::owed(book, None))
}
