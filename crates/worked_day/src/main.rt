// A day of one till, sold from the bundle on standard input: a sale, the sale sent again, its cancellation, the sale sent again; and a family's sale with
// two cards, sent again with the cards the other way round.
#![tactic(auto)]

use offers::{Leg, Outcome, Question, Receipt, Refusal, Status};
use std::io;

// The most bytes of the bundle that are read.
const LIMIT: usize = 4096;

// How many words a book has.
const WORDS: usize = 16385;

// One ticket over two railways.
fn ticket(persons: u32, cards: [u32; 4]) -> Question {
    let none = Leg::default();
    let first = Leg {
        railway: 1185,
        fare: 1010,
    };
    let second = Leg {
        railway: 1181,
        fare: 500,
    };
    Question {
        offer: 42,
        day: 20240615,
        persons,
        cards,
        count: 2,
        legs: [first, second, none, none, none, none, none, none],
    }
}

fn write_outcome(rt: &impl Print, outcome: Outcome) -> io::Result<()> {
    match outcome {
        Outcome::Booked => rt.print("booked"),
        Outcome::AlreadyBooked(Status::Live) => rt.print("already booked"),
        Outcome::AlreadyBooked(Status::Cancelled) => rt.print("already booked, cancelled"),
        Outcome::Cancelled => rt.print("cancelled"),
        Outcome::AlreadyCancelled => rt.print("already cancelled"),
    }
}

fn write_sum(rt: &impl Print, sum: Result<u64, Refusal>) -> io::Result<()> {
    match sum {
        Ok(cents) => print!(rt; " {cents}"),
        Err(why) => print!(rt; " NO {why}"),
    }
}

fn write_receipt(rt: &impl Print, receipt: Receipt) -> io::Result<()> {
    let parts = receipt.parts;
    let first = parts[0];
    let second = parts[1];
    write_outcome(rt, receipt.outcome)?;
    print!(rt; ": parts {first} {second}")
}

// What came of it with the parts of both railways, none where it is refused, and what the book then owes them and in all.
fn write_line(rt: &impl Print, told: Result<Receipt, Refusal>, book: &[u32]) -> io::Result<()> {
    match told {
        Ok(receipt) => write_receipt(rt, receipt)?,
        Err(why) => print!(rt; "NO {why}: parts 0 0")?,
    }
    rt.print("; balances")?;
    write_sum(rt, offers::balance(book, 1185))?;
    write_sum(rt, offers::balance(book, 1181))?;
    rt.print("; total")?;
    write_sum(rt, offers::total(book))?;
    rt.print("\n")
}

// What each step of the day comes to, in a book that starts empty.
fn sell(rt: &impl Print, book: &mut [u32], bundle: &[u8]) -> io::Result<()> {
    let sold = offers::sale(book, bundle, 1, 1, ticket(3, [0; 4]));
    write_line(rt, sold, book)?;
    let again = offers::sale(book, bundle, 1, 1, ticket(3, [0; 4]));
    write_line(rt, again, book)?;
    let cancelled = offers::cancel(book, 1, 1);
    write_line(rt, cancelled, book)?;
    let late = offers::sale(book, bundle, 1, 1, ticket(3, [0; 4]));
    write_line(rt, late, book)?;
    let family = offers::sale(book, bundle, 1, 2, ticket(2, [5, 7, 0, 0]));
    write_line(rt, family, book)?;
    let turned = offers::sale(book, bundle, 1, 2, ticket(2, [7, 5, 0, 0]));
    write_line(rt, turned, book)
}

// A read that fails ends the input.
fn main(rt: HostRuntime) -> io::Result<()> {
    let mut buffer = [0u8; LIMIT];
    let (n, _) = input::read_full(&mut rt.stdin(), &mut buffer);
    let mut book = [0u32; WORDS];
    sell(&rt, &mut book, &buffer[..n])
}
