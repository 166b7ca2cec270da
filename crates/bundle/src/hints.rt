// Where a record is looked for first. A hint is the place of some record, seen there before it is believed; above the place stands a tag of the number that
// the record is looked for by, so that hints for several numbers can stand behind each other.
ghost use Rattle.std.specs.Prelude.{◌≡◌, get_or};
ghost use Rattle.bundle.specs.Hints.{hint_number, name_of, place_in, IsPlace, Hinted};

use super::walk::Step;
use layout::Table;

// A place is below this.
const PLACES: u64 = 2097152;

const TAGS: u64 = 2039;

// How many slots a hint may stand in, and how far one is from the next.
const TRIES: usize = 16;

const STRIDE: u64 = 509;

// What a record is looked for by: its code, or its offer.
#[tactic(auto, unfolding(crate::specs::Hints::name_of))]
fn name(coded: bool, table: Table, body: &[u8]) -> &[u8]
    ensures { result.now ≡ name_of coded table body.now }
{
    if coded {
        return layout::fields::code(table, body);
    }
    layout::fields::offer(body)
}

// One number for the table that is wanted and what its record is looked for by, which a record of some table says.
#[tactic(auto, unfolding(crate::specs::Hints::hint_number))]
pub fn number(wants: Table, coded: bool, table: Table, body: &[u8]) -> u64
    ensures { result ≡ hint_number wants coded table body.now }
{
    common::rank(name(coded, table, body)) + layout::number_of(wants) * layout::fields::TABLE_STEP
}

// Hints for a bundle, each the place of a record.
#[derive(Drop)]
pub struct Hints<'a> {
    pub bundle: &'a [u8],
    pub places: &'a mut [u32],
    ghost noted: { Hinted bundle.now places.now },
}

impl Hints<'_> {
    // The first slot of a number that is empty or has its tag. Any answer will do: whoever looks there sees what stands there.
    pub fn slot_of(&self, number: u64) -> usize {
        let count = self.places.len() as u64;
        if count == 0 {
            return 0;
        }
        let mut slot = number % count;
        for _ in 0..TRIES {
            let hint = self.places[slot as usize] as u64;
            if hint == 0 {
                return slot as usize;
            }
            if hint / PLACES == number % TAGS + 1 {
                return slot as usize;
            }
            slot = (slot + STRIDE) % count;
        }
        slot as usize
    }

    pub fn place_at(&self, slot: usize) -> usize
        ensures { (result ≡ place_in (get_or self.now.places.now slot 0)) × IsPlace self.now.bundle.now result }
    {
        if self.places.len() <= slot {
            return 0;
        }
        (self.places[slot] as u64 % PLACES) as usize
    }

    pub fn put(&mut self, slot: usize, number: u64, place: usize)
        requires { IsPlace self.old.bundle.now place }
        ensures { self.new.bundle.now ≡ self.old.bundle.now }
    {
        if self.places.len() <= slot {
            return;
        }
        if PLACES <= place as u64 {
            return;
        }
        self.places[slot] = ((number % TAGS + 1) * PLACES + place as u64) as u32;
    }

    // Keeps where a record stands, unless a record that is looked for by the same is kept already; one for all railways, which serves each, takes its place.
    fn note(&mut self, table: Table, body: &[u8], at: usize)
        requires { IsPlace self.old.bundle.now at }
        ensures { self.new.bundle.now ≡ self.old.bundle.now }
    {
        let number = number(table, table == Table::Re, table, body);
        let slot = self.slot_of(number);
        if self.place_at(slot) == 0 {
            self.put(slot, number, at);
            return;
        }
        if layout::company::is_all_railways(layout::fields::railway(body)) {
            self.put(slot, number, at);
        }
    }

    // Notes each record of a bundle.
    pub fn note_all(&mut self)
        ensures { self.new.bundle.now ≡ self.old.bundle.now }
    {
        let bundle = self.bundle;
        let mut at = 0;
        while let Step::Whole(table, start, next) = super::walk::step_at(bundle, at) {
            self.note(table, &bundle[start..next], at);
            at = next;
        }
    }
}
