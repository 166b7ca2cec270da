// One record after the other.
ghost use Rattle.std.specs.Prelude.{◌≡◌, ◌+◌, ◌*◌, ◌<◌, get_or, drop};
ghost use Rattle.bundle.specs.Records.{table_of};
ghost use Rattle.bundle.specs.Helpers.{is_mark, step_at, body_at, place_behind};

use layout::Table;

// What stands at a place of a bundle: no known mark, too few bytes for its record, or a whole record: its table, where its body starts and
// where the next record does.
#[derive(Clone, Copy)]
pub enum Step {
    Unknown,
    Short,
    Whole(Table, usize, usize),
}

// Whether a mark stands at a place, whose two bytes are compared as one number.
fn is_mark(bundle: &[u8], at: usize, mark: &[u8; 2]) -> bool
    ensures { result ≡ is_mark (get_or mark.now 0 0) (get_or mark.now 1 0) (drop at bundle.now) }
{
    let n = bundle.len();
    if n < 2 {
        return false;
    }
    if n - 2 < at {
        return false;
    }
    two(bundle[at], bundle[at + 1]) == two(mark[0], mark[1])
}

// Two bytes as one number, which a machine loads at once. That the lower is a byte says that the number tells the two apart.
fn two(low: u8, high: u8) -> u32
    ensures { (result ≡ low + high * 256) × (low < 256) }
{
    low as u32 + high as u32 * 256
}

// The table that the mark at a place names, if it names one.
#[tactic(auto, unfolding(crate::specs::Records::table_of, crate::specs::Helpers::is_mark, layout::specs::Layout::table_at))]
pub fn table_at(bundle: &[u8], at: usize) -> Option<Table>
    ensures { result ≡ table_of (drop at bundle.now) }
{
    if is_mark(bundle, at, b"CO") {
        return Some(Table::Co);
    }
    if is_mark(bundle, at, b"RE") {
        return Some(Table::Re);
    }
    if is_mark(bundle, at, b"AR") {
        return Some(Table::Ar);
    }
    if is_mark(bundle, at, b"ME") {
        return Some(Table::Me);
    }
    None
}

pub fn step_at(bundle: &[u8], at: usize) -> Step
    ensures { result ≡ step_at bundle.now at }
{
    let Some(table) = table_at(bundle, at) else {
        return Step::Unknown;
    };
    let start = at + 2;
    let length = layout::length_of(table);
    if bundle.len() - start < length {
        return Step::Short;
    }
    Step::Whole(table, start, start + length)
}

// The body of the record whose mark stands at a place, nothing where no whole record starts there.
pub fn body_at(bundle: &[u8], place: usize) -> &[u8]
    ensures { result.now ≡ body_at bundle.now place }
{
    let here = step_at(bundle, place);
    let Step::Whole(_, start, next) = here else {
        return common::part(bundle, 0, 0);
    };
    &bundle[start..next]
}

// The place behind the record whose mark stands at a place, the bundle's start where no whole record starts there.
pub fn place_behind(bundle: &[u8], place: usize) -> usize
    ensures { result ≡ place_behind bundle.now place }
{
    let here = step_at(bundle, place);
    let Step::Whole(_, _, next) = here else {
        return 0;
    };
    next
}
