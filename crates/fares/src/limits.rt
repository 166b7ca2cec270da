// The limits of a question.
ghost use Rattle.std.specs.Prelude.{◌≡◌, ◌==◌, eqb, not, length, drop, count_by};
ghost use Rattle.std.specs.List.{list_all};
ghost use Rattle.common.specs.Lists.{every, only, first_of};
ghost use Rattle.fares.specs.Question.{between, leg_in_limits, is_given, cards_in_limits, cards_differ, in_limits};
ghost use Rattle.fares.specs.Helpers.{trip_in_limits};
ghost use Rattle.fares.specs.Reductions.{part_bound};

use super::{Leg, Question};

fn is_between(v: u32, lowest: u32, highest: u32) -> bool
    ensures { result ≡ between lowest highest v }
{
    if v < lowest {
        return false;
    }
    v <= highest
}

pub fn leg_in_limits(leg: Leg) -> bool
    ensures { result ≡ leg_in_limits leg }
{
    if !layout::company::is_railway(leg.railway) {
        return false;
    }
    leg.fare <= 999999
}

fn legs_in_limits(legs: &[Leg]) -> bool
    ensures { result ≡ list_all leg_in_limits legs.now }
{
    legs.iter().all(|leg| leg_in_limits(*leg))
}

// Whether none of some slots is used.
fn none_given(slots: &[u32]) -> bool
    ensures { result ≡ list_all (λ card. card == 0) slots.now }
{
    slots.iter().all(|card| *card == 0)
}

// Whether one card is given at most: no slot but the first is used.
fn one_at_most(cards: [u32; 4]) -> bool
    ensures { result ≡ every (eqb 0) (drop 1 (first_of 0 4 cards)) }
{
    none_given(&cards[1..])
}

pub fn cards_in_limits(cards: [u32; 4]) -> bool
    ensures { result ≡ cards_in_limits (first_of 0 4 cards) }
{
    if one_at_most(cards) {
        return cards[0] <= 999;
    }
    for (k, card) in cards.iter().enumerate() {
        if *card == 0 {
            return none_given(&cards[k + 1..]);
        }
        if 999 < *card {
            return false;
        }
    }
    true
}

// Whether what a question says besides its cards and legs is within its limits.
pub fn trip_in_limits(offer: u32, day: u32, persons: u32, count: u32) -> bool
    ensures { result ≡ trip_in_limits offer day persons count }
{
    if !is_between(offer, 1, 99999) {
        return false;
    }
    if !layout::dates::is_day(day) {
        return false;
    }
    if !is_between(persons, 1, 99) {
        return false;
    }
    is_between(count, 1, 8)
}

pub fn in_limits(q: Question) -> bool
    ensures { result ≡ in_limits q }
{
    if !trip_in_limits(q.offer, q.day, q.persons, q.count) {
        return false;
    }
    let cards = q.cards;
    if !cards_in_limits(cards) {
        return false;
    }
    legs_in_limits(&q.legs[..q.count as usize])
}

// Whether no card is given twice.
pub fn cards_differ(cards: [u32; 4]) -> bool
    ensures { result ≡ cards_differ (first_of 0 4 cards) }
{
    if one_at_most(cards) {
        return true;
    }
    for (k, card) in cards.iter().enumerate() {
        if *card != 0 && cards[k + 1..].contains(card) {
            return false;
        }
    }
    true
}

fn card_count(cards: &[u32]) -> usize
    ensures { result ≡ count_by (λ card. not (card == 0)) cards.now }
{
    cards.iter().filter(|card| **card != 0).count()
}

// No part of a question with such cards is above this.
pub fn part_bound(cards: [u32; 4]) -> u32
    ensures { result ≡ part_bound (length (only is_given (first_of 0 4 cards))) }
{
    if one_at_most(cards) {
        return 99 * (999999 + 998 * 2);
    }
    99 * (999999 + 998 * (1 + card_count(&cards) as u32))
}
