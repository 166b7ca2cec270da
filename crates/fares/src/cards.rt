// What the cards of a leg make of its amount: the records that are applied together in their order, each other one alone, and the least of these.
ghost use Rattle.std.specs.Prelude.{◌≡◌, true, map, ◌≤◌, ◌<◌, length};
ghost use Rattle.arrayvec.specs.ArrayVec.{array_vec_len};
ghost use Rattle.common.specs.Lists.{every};
ghost use Rattle.common.specs.Rising.{insert as inserted};
ghost use Rattle.fares.specs.Reductions.{card_grants, reduce_by, reduce_all};
ghost use Rattle.fares.specs.Cards.{together_of, least_from, after_cards};
ghost use Rattle.fares.specs.Helpers.{bodies_at, step_of, rank_in, grant_of, factor_fits, alone_from};

use super::reductions::reduce;
use arrayvec::ArrayVec;
use layout::fields::Grant;
use std::mem;

// A record that is applied together with others: its rating and then its code say where it stands among them.
#[derive(Clone, Copy)]
pub struct Step {
    pub rank: u32,
    pub grant: Grant,
}

// What a row holds where it has no step.
impl Default for Step {
    fn default() -> Self {
        Step {
            rank: 0,
            grant: Grant {
                discount: 0,
                mode: 0,
                factor: 0,
            },
        }
    }
}

fn step_of(ar: &[u8]) -> Step
    ensures { result ≡ step_of ar.now }
{
    let rank = layout::fields::card_rating(ar) * 1000 + layout::fields::card_code(ar);
    Step {
        rank,
        grant: layout::fields::card_grant(ar),
    }
}

// One more in a row that rises: at each place the lower one stays, and the other goes on.
fn insert(row: &mut ArrayVec<Step, 4>, step: Step)
    requires { array_vec_len row.old < 4 }
    ensures { row.new.items ≡ inserted rank_in step row.old.items }
{
    let mut carried = step;
    for there in row.as_mut_slice() {
        if carried.rank < there.rank {
            carried = mem::replace(there, carried);
        }
    }
    row.push(carried);
}

// The records that are applied together.
fn together(bundle: &[u8], places: &[usize]) -> ArrayVec<Step, 4>
    requires { length places.now ≤ 4 }
    ensures { result.items ≡ map step_of (together_of (bodies_at bundle.now places.now)) }
{
    let mut row = ArrayVec::new();
    for place in places {
        let ar = bundle::walk::body_at(bundle, *place);
        if layout::fields::is_cumulative(ar) {
            insert(&mut row, step_of(ar));
        }
    }
    row
}

// One after the other, each rounded by itself.
fn after_row(row: &[Step], amount: u64) -> u64
    requires { (length row.now ≤ 4) × (amount ≤ 1000000000) × (every factor_fits row.now ≡ true) }
    ensures { result ≡ reduce_all amount (map grant_of row.now) }
{
    let mut left = amount;
    for step in row {
        left = reduce(left, step.grant);
    }
    left
}

// An AR alone.
fn after_alone(ar: &[u8], amount: u64) -> u64
    requires { amount ≤ 1000000000 }
    ensures { result ≡ reduce_by amount (card_grants ar.now) }
{
    reduce(amount, layout::fields::card_grant(ar))
}

// The least of an amount and of what each record leaves that is applied alone.
fn least_alone(bundle: &[u8], places: &[usize], amount: u64, first: u64) -> u64
    requires { amount ≤ 1000000000 }
    ensures { result ≡ least_from first (alone_from amount (bodies_at bundle.now places.now)) }
{
    let mut least = first;
    for place in places {
        let ar = bundle::walk::body_at(bundle, *place);
        if !layout::fields::is_cumulative(ar) {
            least = least.min(after_alone(ar, amount));
        }
    }
    least
}

// The amount per person after the cards: the least of what is permitted, and as it is where no record applies.
pub fn after_cards(bundle: &[u8], places: &[usize], amount: u64) -> u64
    requires { (length places.now ≤ 4) × (amount ≤ 1000000000) }
    ensures { result ≡ after_cards amount (bodies_at bundle.now places.now) }
{
    if places.is_empty() {
        return amount;
    }
    let alone = after_alone(bundle::walk::body_at(bundle, places[0]), amount);
    if places.len() == 1 {
        return alone;
    }
    let row = together(bundle, places);
    if row.is_empty() {
        return least_alone(bundle, places, amount, alone);
    }
    least_alone(bundle, places, amount, after_row(row.as_slice(), amount))
}
