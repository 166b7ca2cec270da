// The engine's calls for C, as include/offers.h declares them: numbers and structs of numbers, no enums.
#![tactic(auto)]

ghost use Rattle.std.specs.Prelude.{◌≡◌, ℕ, List, ◌∷◌};
ghost use Rattle.bundle.specs.Verdict.{verdict_of};
ghost use Rattle.fares.specs.Fare.{fare_of};
ghost use Rattle.sales.specs.Sales.{sale_answer, sale_words, cancel_answer, cancel_words};
ghost use Rattle.sales.specs.Balances.{balance_answer, total_answer};
ghost use Rattle.sales.specs.Reading.{count_answer, entry_answer, find_answer};
ghost use Rattle.offers.specs.Answers.{verdict_tells, fare_tells, outcome_values, receipt_tells, sum_tells, tally_tells};
ghost use Rattle.edge.specs.Replies.{judgement_reply, quote_reply, receipt_reply, sum_reply, tally_reply, booking_reply};

use common::Refusal;
use offers::{Booking, Leg, Outcome, Question, Quote, Receipt};

// Each reply has number, place and detail of a refusal, all 0 where there is none, and then the values.
#[repr(C)]
#[derive(Clone, Copy)]
pub struct JudgementReply {
    pub number: u64,
    pub place: u64,
    pub detail: u64,
    pub records: u64,
}

#[repr(C)]
#[derive(Clone, Copy)]
pub struct QuoteReply {
    pub number: u64,
    pub place: u64,
    pub detail: u64,
    pub fare: u64,
    pub parts: [u32; 8],
}

#[repr(C)]
#[derive(Clone, Copy)]
pub struct ReceiptReply {
    pub number: u64,
    pub place: u64,
    pub detail: u64,
    pub outcome: u32,
    pub cancelled: u32,
    pub parts: [u32; 8],
}

#[repr(C)]
#[derive(Clone, Copy)]
pub struct SumReply {
    pub number: u64,
    pub place: u64,
    pub detail: u64,
    pub amount: u64,
}

#[repr(C)]
#[derive(Clone, Copy)]
pub struct TallyReply {
    pub number: u64,
    pub place: u64,
    pub detail: u64,
    pub entries: u64,
}

#[repr(C)]
#[derive(Clone, Copy)]
pub struct BookingReply {
    pub number: u64,
    pub place: u64,
    pub detail: u64,
    pub entry: u64,
    pub sequence: u64,
    pub till: u32,
    pub status: u32,
    pub question: Question,
    pub parts: [u32; 8],
}

const REFUSED: u32 = 0;

const BOOKED: u32 = 1;

const ALREADY_BOOKED: u32 = 2;

const CANCELLED: u32 = 3;

const ALREADY_CANCELLED: u32 = 4;

impl From<Result<usize, Refusal>> for JudgementReply {
    ghost from_gives = { λ told reply. reply ≡ judgement_reply (verdict_tells told) };

    fn from(told: Result<usize, Refusal>) -> JudgementReply {
        match told {
            Ok(records) => JudgementReply {
                number: 0,
                place: 0,
                detail: 0,
                records: records as u64,
            },
            Err(why) => JudgementReply {
                number: u8::from(why.reason) as u64,
                place: why.place as u64,
                detail: why.detail as u64,
                records: 0,
            },
        }
    }
}

impl From<Result<Quote, Refusal>> for QuoteReply {
    ghost from_gives = { λ told reply. reply ≡ quote_reply (fare_tells told) };

    fn from(told: Result<Quote, Refusal>) -> QuoteReply {
        match told {
            Ok(quote) => {
                let parts = quote.parts;
                QuoteReply {
                    number: 0,
                    place: 0,
                    detail: 0,
                    fare: quote.fare,
                    parts,
                }
            }
            Err(why) => QuoteReply {
                number: u8::from(why.reason) as u64,
                place: why.place as u64,
                detail: why.detail as u64,
                fare: 0,
                parts: [0; 8],
            },
        }
    }
}

// What came of a sale or a cancellation as a number, and whether the sale is now cancelled.
fn outcome_values(outcome: Outcome) -> (u32, u32)
    ensures { (parts : List ℕ) → outcome_values outcome parts ≡ result.0 ∷ result.1 ∷ parts }
{
    match outcome {
        Outcome::Booked => (BOOKED, 0),
        Outcome::AlreadyBooked(status) => (ALREADY_BOOKED, status.into()),
        Outcome::Cancelled => (CANCELLED, 1),
        Outcome::AlreadyCancelled => (ALREADY_CANCELLED, 1),
    }
}

impl From<Result<Receipt, Refusal>> for ReceiptReply {
    ghost from_gives = { λ told reply. reply ≡ receipt_reply (receipt_tells told) };

    fn from(told: Result<Receipt, Refusal>) -> ReceiptReply {
        match told {
            Ok(receipt) => {
                let (outcome, cancelled) = outcome_values(receipt.outcome);
                let parts = receipt.parts;
                ReceiptReply {
                    number: 0,
                    place: 0,
                    detail: 0,
                    outcome,
                    cancelled,
                    parts,
                }
            }
            Err(why) => ReceiptReply {
                number: u8::from(why.reason) as u64,
                place: why.place as u64,
                detail: why.detail as u64,
                outcome: REFUSED,
                cancelled: 0,
                parts: [0; 8],
            },
        }
    }
}

impl From<Result<u64, Refusal>> for SumReply {
    ghost from_gives = { λ told reply. reply ≡ sum_reply (sum_tells told) };

    fn from(told: Result<u64, Refusal>) -> SumReply {
        match told {
            Ok(amount) => SumReply {
                number: 0,
                place: 0,
                detail: 0,
                amount,
            },
            Err(why) => SumReply {
                number: u8::from(why.reason) as u64,
                place: why.place as u64,
                detail: why.detail as u64,
                amount: 0,
            },
        }
    }
}

impl From<Result<usize, Refusal>> for TallyReply {
    ghost from_gives = { λ told reply. reply ≡ tally_reply (tally_tells told) };

    fn from(told: Result<usize, Refusal>) -> TallyReply {
        match told {
            Ok(entries) => TallyReply {
                number: 0,
                place: 0,
                detail: 0,
                entries: entries as u64,
            },
            Err(why) => TallyReply {
                number: u8::from(why.reason) as u64,
                place: why.place as u64,
                detail: why.detail as u64,
                entries: 0,
            },
        }
    }
}

// The question of a sale that is not told.
const NO_QUESTION: Question = Question {
    offer: 0,
    day: 0,
    persons: 0,
    cards: [0; 4],
    count: 0,
    legs: [Leg {
        railway: 0,
        fare: 0,
    }; 8],
};

impl From<Result<Booking, Refusal>> for BookingReply {
    ghost from_gives = { λ told reply. reply ≡ booking_reply told };

    fn from(told: Result<Booking, Refusal>) -> BookingReply {
        match told {
            Ok(booking) => {
                let question = booking.question;
                let parts = booking.parts;
                BookingReply {
                    number: 0,
                    place: 0,
                    detail: 0,
                    entry: booking.entry as u64,
                    sequence: booking.sequence as u64,
                    till: booking.till,
                    status: booking.status.into(),
                    question,
                    parts,
                }
            }
            Err(why) => BookingReply {
                number: u8::from(why.reason) as u64,
                place: why.place as u64,
                detail: why.detail as u64,
                entry: 0,
                sequence: 0,
                till: 0,
                status: 0,
                question: NO_QUESTION,
                parts: [0; 8],
            },
        }
    }
}

#[unsafe(no_mangle)]
pub extern "C" fn offers_verdict(bundle: &[u8]) -> JudgementReply
    ensures { result ≡ judgement_reply (verdict_tells (verdict_of bundle.now)) }
{
    offers::verdict(bundle).into()
}

#[unsafe(no_mangle)]
pub extern "C" fn offers_fare(bundle: &[u8], question: Question) -> QuoteReply
    ensures { result ≡ quote_reply (fare_tells (fare_of bundle.now question)) }
{
    offers::fare(bundle, question).into()
}

#[unsafe(no_mangle)]
pub extern "C" fn offers_sale(
    book: &mut [u32],
    bundle: &[u8],
    till: u32,
    sequence: u64,
    question: Question,
) -> ReceiptReply
    ensures value { result ≡ receipt_reply (receipt_tells (sale_answer book.old till sequence bundle.now question)) }
    ensures book_after { book.new ≡ sale_words book.old till sequence bundle.now question }
{
    offers::sale(book, bundle, till, sequence, question).into()
}

#[unsafe(no_mangle)]
pub extern "C" fn offers_cancel(book: &mut [u32], till: u32, sequence: u64) -> ReceiptReply
    ensures value { result ≡ receipt_reply (receipt_tells (cancel_answer book.old till sequence)) }
    ensures book_after { book.new ≡ cancel_words book.old till sequence }
{
    offers::cancel(book, till, sequence).into()
}

#[unsafe(no_mangle)]
pub extern "C" fn offers_balance(book: &[u32], railway: u32) -> SumReply
    ensures { result ≡ sum_reply (sum_tells (balance_answer book.now railway)) }
{
    offers::balance(book, railway).into()
}

#[unsafe(no_mangle)]
pub extern "C" fn offers_total(book: &[u32]) -> SumReply
    ensures { result ≡ sum_reply (sum_tells (total_answer book.now)) }
{
    offers::total(book).into()
}

#[unsafe(no_mangle)]
pub extern "C" fn offers_count(book: &[u32]) -> TallyReply
    ensures { result ≡ tally_reply (tally_tells (count_answer book.now)) }
{
    offers::count(book).into()
}

#[unsafe(no_mangle)]
pub extern "C" fn offers_entry(book: &[u32], entry: usize) -> BookingReply
    ensures { result ≡ booking_reply (entry_answer book.now entry) }
{
    offers::entry(book, entry).into()
}

#[unsafe(no_mangle)]
pub extern "C" fn offers_find(book: &[u32], till: u32, sequence: u64) -> BookingReply
    ensures { result ≡ booking_reply (find_answer book.now till sequence) }
{
    offers::find(book, till, sequence).into()
}
