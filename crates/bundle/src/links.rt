// Links from a record to another.
ghost use Rattle.std.specs.Prelude.{◌≡◌, get_or, IfSome};
ghost use Rattle.common.specs.Lists.{any};
ghost use Rattle.bundle.specs.Records.{records_of, rec};
ghost use Rattle.bundle.specs.Links.{link as link_of, link_rows, no_link, is_asked, railway_serves, joins, serves, lacks};
ghost use Rattle.bundle.specs.Hints.{IsPlace, serves_at, Found, SearchTells, LinkTells};

use super::hints::Hints;
use super::walk::Step;
use layout::Table;

// How a record is joined with another: by its code, by its offer, or by its offer and a railway that serves it.
#[derive(Clone, Copy, PartialEq, Eq)]
pub enum Join {
    ByCode,
    ByOffer,
    ByOfferAndRailway,
}

// A record of `table`, where there is a flag a CO whose field `flag` is Y, wants a record of `wants` that is joined with it; else the detail is told.
#[derive(Clone, Copy)]
pub struct Link {
    pub table: Table,
    pub flag: Option<u32>,
    pub wants: Table,
    pub join: Join,
    pub detail: usize,
}

const LINKS: usize = 5;

// How many records are near: so few that no link takes much longer than by the walk from the start alone.
const NEAR: usize = 64;

fn row(table: Table, flag: Option<u32>, wants: Table, join: Join, detail: usize) -> Link
    ensures { result ≡ link_of table flag wants join detail }
{
    Link {
        table,
        flag,
        wants,
        join,
        detail,
    }
}

// A `match`, because a constant array would be built anew for each record.
fn link_at(k: usize) -> Link
    ensures { result ≡ get_or link_rows k no_link }
{
    match k {
        0 => row(Table::Ar, None, Table::Re, Join::ByCode, 1),
        1 => row(Table::Ar, None, Table::Co, Join::ByOffer, 2),
        2 => row(Table::Me, None, Table::Co, Join::ByOffer, 2),
        3 => row(Table::Co, Some(33), Table::Ar, Join::ByOfferAndRailway, 3),
        4 => row(Table::Co, Some(37), Table::Me, Join::ByOfferAndRailway, 4),
        _ => row(Table::Co, None, Table::Co, Join::ByCode, 0),
    }
}

// Whether a record wants what the link says.
#[tactic(auto, unfolding(crate::specs::Links::is_asked))]
fn asked(link: Link, table: Table, r: &[u8]) -> bool
    ensures { result ≡ is_asked link (rec table r.now) }
{
    if link.table != table {
        return false;
    }
    match link.flag {
        None => true,
        Some(field) => layout::fields::is_yes(r, field),
    }
}

// Whether the railway of q serves that of r: the same, or one of them is all railways.
#[tactic(auto, unfolding(crate::specs::Links::railway_serves))]
fn railway_serves<'a>(r: &'a [u8], q: &'a [u8]) -> bool
    ensures { result ≡ railway_serves r.now q.now }
{
    let own = layout::fields::railway(r);
    if layout::company::is_all_railways(own) {
        return true;
    }
    let other = layout::fields::railway(q);
    if common::same_bytes(other, own) {
        return true;
    }
    layout::company::is_all_railways(other)
}

// Whether a record q is joined with the record r.
#[tactic(auto, unfolding(crate::specs::Links::joins))]
fn are_joined<'a>(join: Join, t: Table, r: &'a [u8], u: Table, q: &'a [u8]) -> bool
    ensures { result ≡ joins join (rec t r.now) (rec u q.now) }
{
    match join {
        Join::ByCode => common::same_bytes(layout::fields::code(t, r), layout::fields::code(u, q)),
        Join::ByOffer => common::same_bytes(layout::fields::offer(r), layout::fields::offer(q)),
        Join::ByOfferAndRailway => {
            common::same_bytes(layout::fields::offer(r), layout::fields::offer(q))
                && railway_serves(r, q)
        }
    }
}

// Whether the record at a place is one that a record of a table wants by a link.
fn serves_at<'a>(bundle: &'a [u8], link: Link, table: Table, r: &'a [u8], place: usize) -> bool
    ensures { result ≡ serves_at bundle.now link (rec table r.now) place }
{
    let here = super::walk::step_at(bundle, place);
    let Step::Whole(t, start, next) = here else {
        return false;
    };
    if t != link.wants {
        return false;
    }
    are_joined(link.join, table, r, t, &bundle[start..next])
}

// The place of the first such record.
fn first_served<'a>(bundle: &'a [u8], link: Link, table: Table, r: &'a [u8]) -> Option<usize>
    ensures { SearchTells bundle.now link (rec table r.now) result }
{
    let mut at = 0;
    while let Step::Whole(t, start, next) = super::walk::step_at(bundle, at) {
        // the table first: most records are of another, and are passed without a call
        if t == link.wants {
            if are_joined(link.join, table, r, t, &bundle[start..next]) {
                return Some(at);
            }
        }
        at = next;
    }
    None
}

// The place of one among the next few records from a place on, around the bundle's end.
fn served_near<'a>(
    bundle: &'a [u8],
    link: Link,
    table: Table,
    r: &'a [u8],
    place: usize,
) -> Option<usize>
    requires { IsPlace bundle.now place }
    ensures { IfSome result (λ found. Found bundle.now link (rec table r.now) found) }
{
    let mut at = place;
    for _ in 0..NEAR {
        if serves_at(bundle, link, table, r, at) {
            return Some(at);
        }
        at = super::walk::place_behind(bundle, at);
    }
    None
}

// The place of such a record: near where one was last found, as in a bundle that is sorted, or else the first.
fn served<'a>(bundle: &'a [u8], link: Link, table: Table, r: &'a [u8], last: usize) -> Option<usize>
    requires { IsPlace bundle.now last }
    ensures { SearchTells bundle.now link (rec table r.now) result }
{
    if let Some(near) = served_near(bundle, link, table, r, last) {
        return Some(near);
    }
    first_served(bundle, link, table, r)
}

// Whether some record of the bundle is one that a record of a table wants by link k. It is looked for first where a hint says, if there is room for any;
// where one of link k was last found is the hint that stands in slot k.
fn is_served(hints: &mut Hints<'_>, table: Table, r: &[u8], k: usize) -> bool
    ensures { (result ≡ any (serves (get_or link_rows k no_link) (rec table r.now)) (records_of hints.old.bundle.now)) × (hints.new.bundle.now ≡ hints.old.bundle.now) }
{
    let link = link_at(k);
    let bundle = hints.bundle;
    if hints.places.len() == 0 {
        return first_served(bundle, link, table, r).is_some();
    }
    let number = super::hints::number(link.wants, link.join == Join::ByCode, table, r);
    let slot = hints.slot_of(number);
    let hint = hints.place_at(slot);
    if serves_at(bundle, link, table, r, hint) {
        hints.put(k, k as u64, hint);
        return true;
    }
    let last = hints.place_at(k);
    let Some(place) = served(bundle, link, table, r, last) else {
        return false;
    };
    hints.put(slot, number, place);
    hints.put(k, k as u64, place);
    true
}

// Whether a record of a table wants link k, and none of the bundle serves.
fn lacks_link(hints: &mut Hints<'_>, table: Table, r: &[u8], k: usize) -> bool
    ensures { (result ≡ lacks (records_of hints.old.bundle.now) (rec table r.now) k) × (hints.new.bundle.now ≡ hints.old.bundle.now) }
{
    if !asked(link_at(k), table, r) {
        return false;
    }
    !is_served(hints, table, r, k)
}

// The first link that a record of a table lacks.
pub fn missing_link(hints: &mut Hints<'_>, table: Table, r: &[u8]) -> Option<Link>
    ensures { LinkTells (records_of hints.old.bundle.now) (rec table r.now) result × (hints.new.bundle.now ≡ hints.old.bundle.now) }
{
    for k in 0..LINKS {
        if lacks_link(hints, table, r, k) {
            return Some(link_at(k));
        }
    }
    None
}
