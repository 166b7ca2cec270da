// A table of what was seen: values, each put into a slot under a number, and found again by it. Nothing here knows of railways.
#![tactic(auto)]

ghost use Rattle.std.specs.Prelude.{◌≡◌, get_or};
ghost use Rattle.seen.specs.Seen.{home_of, slot_behind, tag_of, has_tag, value_at, IsPut};

// A number is scattered over this range: its remainder by the greatest prime below it, times an odd number.
const RANGE: u64 = 4294967296;

const PRIME: u64 = 4294967291;

const FACTOR: u64 = 2869860233;

// A slot has a head and a low part. The low part has the low bits of a value; the head has the others, and below them a tag of the number. 0 is no tag, so
// that the head of an empty slot is 0.
const VALUES: usize = 1048576;

const LOWS: usize = 65536;

const STEP: usize = 16;

const TAGS: u64 = 15;

// The slot where a number is looked for first, among fewer slots than the range is wide.
pub fn home(slots: usize, number: u64) -> usize
    ensures { result ≡ home_of slots number }
{
    let scattered = number % PRIME * FACTOR % RANGE;
    (scattered * (slots as u64 % RANGE) / RANGE) as usize
}

// The slot where it is looked for next, around the end.
#[tactic(auto, unfolding(crate::specs::Seen::slot_behind))]
pub fn slot_behind(slots: usize, slot: usize) -> usize
    ensures { result ≡ slot_behind slots slot }
{
    if slot < slots.saturating_sub(1) {
        slot + 1
    } else {
        0
    }
}

fn tag_of(number: u64) -> usize
    ensures { result ≡ tag_of number }
{
    (number % TAGS + 1) as usize
}

// Whether what is in a slot may be of a number: its head has the number's tag.
pub fn has_tag(head: u8, number: u64) -> bool
    ensures { result ≡ has_tag head number }
{
    head as usize % STEP == tag_of(number)
}

// The head of a slot, 0 where there is none.
pub fn head_at(heads: &[u8], slot: usize) -> u8
    ensures { result ≡ get_or heads.now slot 0 }
{
    heads.get(slot).copied().unwrap_or(0)
}

fn low_at(lows: &[u16], slot: usize) -> u16
    ensures { result ≡ get_or lows.now slot 0 }
{
    lows.get(slot).copied().unwrap_or(0)
}

// The value in a slot.
pub fn value_at<'a>(heads: &'a [u8], lows: &'a [u16], slot: usize) -> usize
    ensures { result ≡ value_at heads.now lows.now slot }
{
    head_at(heads, slot) as usize / STEP * LOWS + low_at(lows, slot) as usize
}

// The slots of a table, in room that is lent. Heads and low parts lie in arrays of their own: together in one they would take four bytes a slot, not three.
#[derive(Drop)]
pub struct Slots<'a> {
    pub heads: &'a mut [u8],
    pub lows: &'a mut [u16],
}

impl<'a> Slots<'a> {
    pub fn head(&self, slot: usize) -> u8
        ensures { result ≡ get_or self.now.heads.now slot 0 }
    {
        head_at(self.heads, slot)
    }

    pub fn value(&self, slot: usize) -> usize
        ensures { result ≡ value_at self.now.heads.now self.now.lows.now slot }
    {
        value_at(self.heads, self.lows, slot)
    }

    // Puts a value under a number into a slot, and tells whether there is room for it.
    pub fn put(&mut self, slot: usize, number: u64, value: usize) -> bool
        ensures put { IsPut self.old.heads.now self.old.lows.now slot number value result self.new.heads.now self.new.lows.now }
        ensures same_reference { (self.new.heads.ghost_name ≡ self.old.heads.ghost_name) × (self.new.lows.ghost_name ≡ self.old.lows.ghost_name) }
    {
        if self.heads.len() <= slot {
            return false;
        }
        if self.lows.len() <= slot {
            return false;
        }
        if VALUES <= value {
            return false;
        }
        self.heads[slot] = (value / LOWS * STEP + tag_of(number)) as u8;
        self.lows[slot] = (value % LOWS) as u16;
        true
    }
}
