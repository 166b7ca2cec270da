// One leg: what its records say of it, and its part of the fare.
ghost use Rattle.std.specs.Prelude.{◌≡◌, ◌≤◌};
ghost use Rattle.bundle.specs.Records.{records_of};
ghost use Rattle.fares.specs.Legs.{persons_fit, first_set, part_by};
ghost use Rattle.fares.specs.Helpers.{places_in, bodies_at, answer_of, answer_by};

use super::cards::after_cards;
use super::records::Cards;
use super::reductions::reduce;
use super::{Leg, Question};
use choice::Choice;
use common::{Reason, Refusal};

// The conditions that the engine does not read, by their fields.
const UNREAD: [u32; 5] = [27, 31, 32, 34, 35];

// The first of some fields that is Y.
fn first_set<'a>(fields: &'a [u32], co: &'a [u8]) -> Option<u32>
    ensures { result ≡ first_set fields.now co.now }
{
    fields
        .iter()
        .copied()
        .find(|field| layout::fields::is_yes(co, *field))
}

// Whether so many persons may travel.
fn persons_fit(co: &[u8], persons: u32) -> bool
    ensures { result ≡ persons_fit co.now persons }
{
    if persons < layout::fields::least_persons(co) {
        return false;
    }
    let most = layout::fields::most_persons(co);
    if most == 0 {
        return persons <= 99;
    }
    persons <= most
}

// The part: the plain fare after the CO and after the cards, times the persons.
fn part<'a>(bundle: &'a [u8], q: Question, leg: Leg, co: &'a [u8], cards: &Cards) -> u32
    requires { (leg.fare ≤ 999999) × (q.persons ≤ 99) }
    ensures { result ≡ part_by q leg co.now (bodies_at bundle.now (places_in cards.now)) }
{
    let reduced = reduce(leg.fare as u64, layout::fields::conditions_grant(co));
    let amount = after_cards(bundle, cards.as_slice(), reduced);
    (amount * q.persons as u64) as u32
}

// The leg by its CO and its cards: 14, then 15, then its part.
fn price_by<'a>(
    bundle: &'a [u8],
    q: Question,
    k: usize,
    leg: Leg,
    co: &'a [u8],
    cards: &Cards,
) -> Result<u32, Refusal>
    requires { (leg.fare ≤ 999999) × (q.persons ≤ 99) }
    ensures { result ≡ answer_by q k leg co.now (bodies_at bundle.now (places_in cards.now)) }
{
    if !persons_fit(co, q.persons) {
        return Err(common::refuse(Reason::PersonsOutside, k, 0));
    }
    if let Some(field) = first_set(&UNREAD, co) {
        return Err(common::refuse(Reason::ConditionUnread, k, field as usize));
    }
    Ok(part(bundle, q, leg, co, cards))
}

// Leg k: first its records are chosen, 12, then 13, and then it is priced from them.
pub fn price_leg(bundle: &[u8], q: Question, k: usize, leg: Leg) -> Result<u32, Refusal>
    requires { (leg.fare ≤ 999999) × (q.persons ≤ 99) }
    ensures { result ≡ answer_of (records_of bundle.now) q k leg }
{
    let records = super::records::choose(bundle, q, leg);
    match records.conditions {
        Choice::Nothing => Err(common::refuse(Reason::NoConditions, k, 0)),
        Choice::NotThatDay => Err(common::refuse(Reason::DayOutside, k, 0)),
        Choice::At(place) => {
            let co = bundle::walk::body_at(bundle, place);
            price_by(bundle, q, k, leg, co, &records.cards)
        }
    }
}
