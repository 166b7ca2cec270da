// The fare of a ticket, leg by leg.
#![tactic(auto)]

ghost use Rattle.std.specs.Prelude.{◌≡◌};
ghost use Rattle.bundle.specs.Records.{records_of};
ghost use Rattle.fares.specs.Fare.{fare_of};
ghost use Rattle.fares.specs.Helpers.{price_of};

mod cards;
mod legs;
pub mod limits;
mod records;
mod reductions;
mod rounding;

use common::{Reason, Refusal};

// A leg: its railway, and the plain fare per person in cents.
#[repr(C)]
#[derive(Clone, Copy, Default)]
pub struct Leg {
    pub railway: u32,
    pub fare: u32,
}

// What is asked: `day` is a number YYYYMMDD, a card 0 is none, and legs from `count` on are not looked at.
#[repr(C)]
#[derive(Clone, Copy)]
pub struct Question {
    pub offer: u32,
    pub day: u32,
    pub persons: u32,
    pub cards: [u32; 4],
    pub count: u32,
    pub legs: [Leg; 8],
}

// The parts of the legs in cents, zeros after them, and the fare as their sum.
#[derive(Clone, Copy)]
pub struct Quote {
    pub fare: u64,
    pub parts: [u32; 8],
}

// The fare from a bundle that was accepted.
fn price(bundle: &[u8], q: Question) -> Result<Quote, Refusal>
    ensures { result ≡ price_of (records_of bundle.now) q }
{
    if !limits::in_limits(q) {
        return Err(common::refuse(Reason::OutsideLimits, 0, 0));
    }
    let cards = q.cards;
    if !limits::cards_differ(cards) {
        return Err(common::refuse(Reason::CardTwice, 0, 0));
    }
    let legs = q.legs;
    let mut parts = [0u32; 8];
    let mut fare: u64 = 0;
    for k in 0..q.count as usize {
        let part = legs::price_leg(bundle, q, k, legs[k])?;
        parts[k] = part;
        fare += part as u64;
    }
    Ok(Quote { fare, parts })
}

// The fare of a ticket: the bundle's verdict, the question's limits, the legs from the first.
pub fn fare(bundle: &[u8], q: Question) -> Result<Quote, Refusal>
    ensures { result ≡ fare_of bundle.now q }
{
    bundle::verdict(bundle)?;
    price(bundle, q)
}
