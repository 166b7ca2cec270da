// The front door: what the engine answers, on one page.
//
// Every call checks all that it is lent, in the order of the scope document, and is refused by the first check that fails: with the check's number,
// place and detail and no amount, and with no word of the book changed. Places and details that are not named are 0.
//
//   verdict   1  the bundle has more than 1,048,576 bytes
//             2  a mark is unknown, or one byte is left: record
//             3  a record is shorter than its length: record
//             4  a field breaks its rule: record, field
//             5  another transferor than the first record's: record
//             6  a key is repeated: later record, first earlier one
//             7  a link is missing: record, 1 no RE of the code, 2 no CO, 3 no AR, 4 no ME of the offer
//   fare      as verdict, then
//            11  the question is outside its limits
//            17  a card is given twice
//            12  no CO of the offer for the railway or for all: leg
//            13  the day is outside that CO: leg
//            14  the persons are outside that CO's fields 28 and 29: leg
//            15  a condition is set that the engine does not read: leg, field
//   sale     21  the book is unsound
//            22  till or sequence is 0 or too large
//            23  the number is held by another question: entry
//            24  a new number, and 256 entries; then as fare
//   cancel   21, 22, and then
//            25  the number is not in the book
//   balance  21, and then
//            11  the railway is not 1 to 9999
//   total    21
//   count    21
//   entry    21, and then
//            25  the book has no such entry
//   find     21, 22, and then
//            25  the number is not in the book
//
// crates/offers/specs/Answers.antt says each answer in these numbers and values; crates/offers/proofs/Promises.antt what is proved of them.
#![tactic(auto)]

ghost use Rattle.std.specs.Prelude.{◌≡◌};
ghost use Rattle.bundle.specs.Verdict.{verdict_of};
ghost use Rattle.fares.specs.Fare.{fare_of};
ghost use Rattle.sales.specs.Sales.{sale_answer, sale_words, cancel_answer, cancel_words};
ghost use Rattle.sales.specs.Balances.{balance_answer, total_answer};
ghost use Rattle.sales.specs.Reading.{count_answer, entry_answer, find_answer};

// Why a call is refused: the reason, its place and its detail.
pub use common::{Reason, Refusal};

// What is asked of a fare, and what is answered: the parts and their sum.
pub use fares::{Leg, Question, Quote};

// What a sale or a cancellation answers: what came of it and the sale's parts.
pub use sales::{Outcome, Receipt};

// What is read of a book: a sale as it has it, and whether it is cancelled.
pub use book::Status;
pub use sales::Booking;

// Judges a bundle of any length: how many records it has, or the first fault.
pub fn verdict(bundle: &[u8]) -> Result<usize, Refusal>
    ensures { result ≡ verdict_of bundle.now }
{
    bundle::verdict(bundle)
}

// Prices a ticket, leg by leg.
pub fn fare(bundle: &[u8], question: Question) -> Result<Quote, Refusal>
    ensures { result ≡ fare_of bundle.now question }
{
    fares::fare(bundle, question)
}

// Books a sale, if its number is new and it can be priced.
pub fn sale(
    book: &mut [u32],
    bundle: &[u8],
    till: u32,
    sequence: u64,
    question: Question,
) -> Result<Receipt, Refusal>
    ensures value { result ≡ sale_answer book.old till sequence bundle.now question }
    ensures book_after { book.new ≡ sale_words book.old till sequence bundle.now question }
{
    sales::sale(book, bundle, till, sequence, question)
}

// Cancels a sale; its number stays in the book.
pub fn cancel(book: &mut [u32], till: u32, sequence: u64) -> Result<Receipt, Refusal>
    ensures value { result ≡ cancel_answer book.old till sequence }
    ensures book_after { book.new ≡ cancel_words book.old till sequence }
{
    sales::cancel(book, till, sequence)
}

// What a railway is owed.
pub fn balance(book: &[u32], railway: u32) -> Result<u64, Refusal>
    ensures { result ≡ balance_answer book.now railway }
{
    sales::balance(book, railway)
}

// What all railways are owed.
pub fn total(book: &[u32]) -> Result<u64, Refusal>
    ensures { result ≡ total_answer book.now }
{
    sales::total(book)
}

// How many sales the book has, cancelled ones too.
pub fn count(book: &[u32]) -> Result<usize, Refusal>
    ensures { result ≡ count_answer book.now }
{
    sales::reading::count(book)
}

// The sale at an entry, in the order of booking.
pub fn entry(book: &[u32], entry: usize) -> Result<Booking, Refusal>
    ensures { result ≡ entry_answer book.now entry }
{
    sales::reading::entry(book, entry)
}

// The sale that has a number. Nothing is booked.
pub fn find(book: &[u32], till: u32, sequence: u64) -> Result<Booking, Refusal>
    ensures { result ≡ find_answer book.now till sequence }
{
    sales::reading::find(book, till, sequence)
}
