// Which records clash with none before them. The places of these are kept in a table, each under the number of its record: records that clash have one
// number, so that a record need only be compared with those on the way of its own.
ghost use Rattle.std.specs.Prelude.{◌≡◌, IfSome};
ghost use Rattle.bundle.specs.Records.{rec};
ghost use Rattle.bundle.specs.Apart.{clashes_at, slot_clashes, IsFree, ApartTells};

use super::walk::Step;
use layout::Table;
use seen::Slots;

// Whether the record at a place clashes with a record of a table.
fn clashes_at<'a>(bundle: &'a [u8], place: usize, table: Table, r: &'a [u8]) -> bool
    ensures { result ≡ clashes_at bundle.now (rec table r.now) place }
{
    let here = super::walk::step_at(bundle, place);
    let Step::Whole(t, start, next) = here else {
        return false;
    };
    super::keys::clashes(table, r, t, &bundle[start..next])
}

// Whether the record whose place is in a slot does. One whose tag is not that of the number is not looked at.
#[tactic(auto, unfolding(crate::specs::Apart::slot_clashes))]
fn slot_clashes<'a>(
    bundle: &'a [u8],
    slots: &Slots,
    number: u64,
    table: Table,
    r: &'a [u8],
    slot: usize,
) -> bool
    ensures { result ≡ slot_clashes bundle.now slots.now.heads.now slots.now.lows.now number (rec table r.now) slot }
{
    if !seen::has_tag(slots.head(slot), number) {
        return false;
    }
    clashes_at(bundle, slots.value(slot), table, r)
}

// The first empty slot on the way of a number, if no record before it clashes.
fn free_slot<'a>(
    bundle: &'a [u8],
    slots: &Slots,
    number: u64,
    table: Table,
    r: &'a [u8],
) -> Option<usize>
    ensures { IfSome result (λ slot. IsFree bundle.now slots.now.heads.now slots.now.lows.now number (rec table r.now) slot) }
{
    let count = slots.heads.len();
    let mut slot = seen::home(count, number);
    for _ in 0..count {
        if slots.head(slot) == 0 {
            return Some(slot);
        }
        if slot_clashes(bundle, slots, number, table, r, slot) {
            return None;
        }
        slot = seen::slot_behind(count, slot);
    }
    None
}

// Whether the record at a place is found to clash with none before it, all of which are kept. It is then kept itself.
pub fn is_apart<'a>(
    bundle: &'a [u8],
    slots: &mut Slots,
    table: Table,
    r: &'a [u8],
    at: usize,
) -> bool
    ensures told { ApartTells bundle.now slots.old.heads.now slots.old.lows.now (rec table r.now) at result slots.new.heads.now slots.new.lows.now }
    ensures same_reference { (slots.new.heads.ghost_name ≡ slots.old.heads.ghost_name) × (slots.new.lows.ghost_name ≡ slots.old.lows.ghost_name) }
{
    let number = layout::fields::key_number(table, r);
    let Some(slot) = free_slot(bundle, slots, number, table, r) else {
        return false;
    };
    slots.put(slot, number, at)
}
