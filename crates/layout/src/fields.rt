// Readers of a record's fields. Each says what it reads; the positions are those of the table of rows.
#![tactic(auto, unfolding(crate::specs::Fields::transferor_of, crate::specs::Fields::offer_of, crate::specs::Fields::railway_of, crate::specs::Fields::is_yes, crate::specs::Fields::number_in, crate::specs::Fields::byte_of, crate::specs::Fields::bytes_of, crate::specs::Fields::grant_in, crate::specs::Fields::row_of, crate::specs::Fields::row_with, crate::specs::Helpers::code_span, crate::specs::Helpers::key_length, crate::specs::Helpers::key_number, crate::specs::Layout::table_at, common::specs::Lists::sum))]

ghost use Rattle.std.specs.Prelude.{◌≡◌, true, false, []};
ghost use Rattle.common.specs.Digits.{number_of, value_of};
ghost use Rattle.layout.specs.Layout.{CO as inCO, AR as inAR};
ghost use Rattle.layout.specs.Numbered.{of_named};
ghost use Rattle.layout.specs.Fields.{field_at, number_in, is_yes, transferor_of, offer_of, railway_of, code_of, code_fits, same_key, first_day, last_day, holds_day, first_shared, last_shared, share_day, grant_in};
ghost use Rattle.layout.specs.Helpers.{code_span, key_length, named_key_number};

use super::named::NamesTable;
use super::{NoTable, Table};

// The bytes from a position on, which counts from 1.
pub fn field(body: &[u8], start: usize, length: usize) -> &[u8]
    ensures { result.now ≡ field_at start length body.now }
{
    common::part(body, start.saturating_sub(1), length)
}

// The number there, 0 where there is none.
fn number_at(body: &[u8], start: usize, length: usize) -> u32
    ensures { result ≡ value_of (number_of (field_at start length body.now)) }
{
    common::number(field(body, start, length)).unwrap_or(0)
}

// Field 1 of every table, and fields 2 and 3 of every table of offers.
pub fn transferor(body: &[u8]) -> &[u8]
    ensures { result.now ≡ transferor_of body.now }
{
    field(body, 1, 4)
}

pub fn offer(body: &[u8]) -> &[u8]
    ensures { result.now ≡ offer_of body.now }
{
    field(body, 5, 5)
}

pub fn offer_number(body: &[u8]) -> u32
    ensures { result ≡ value_of (number_of (offer_of body.now)) }
{
    number_at(body, 5, 5)
}

pub fn railway(body: &[u8]) -> &[u8]
    ensures { result.now ≡ railway_of body.now }
{
    field(body, 10, 4)
}

// Where a table's code stands and how many bytes it has, none for a table that has no code.
#[derive(Clone, Copy)]
struct Span(usize, usize);

fn code_span(table: Table) -> Span
    ensures { result ≡ code_span table }
{
    match table {
        Table::Co => Span(0, 0),
        Table::Re => Span(5, 3),
        Table::Ar => Span(14, 3),
        Table::Me => Span(0, 0),
    }
}

// The code of a record, nothing where its table has none or there is no table.
pub fn code<T: NamesTable>(table: T, body: &[u8]) -> &[u8]
    ensures { result.now ≡ of_named [] (λ t. code_of t body.now) (T.named table) }
{
    let Ok(table) = table.named() else {
        return &body[0..0];
    };
    let span = code_span(table);
    field(body, span.0, span.1)
}

// Whether a record has a code, if its table has one.
pub fn code_fits<T: NamesTable>(table: T, code: u32, body: &[u8]) -> bool
    ensures { result ≡ of_named true (λ t. code_fits t code body.now) (T.named table) }
{
    let Ok(table) = table.named() else {
        return true;
    };
    let span = code_span(table);
    if span.1 == 0 {
        return true;
    }
    number_at(body, span.0, span.1) == code
}

// How many bytes a table's key has. A `match`, as `length_of`: every pair asks for it.
fn key_length(table: Table) -> usize
    ensures { result ≡ key_length table }
{
    match table {
        Table::Co => 9,
        Table::Re => 3,
        Table::Ar => 12,
        Table::Me => 9,
    }
}

// What tells the numbers of one table from those of another.
pub const TABLE_STEP: u64 = 1000003;

// Whether two records of a table have the same key. Its fields stand one behind the other, so that they are compared at once.
pub fn same_key<'a, T: NamesTable>(table: T, a: &'a [u8], b: &'a [u8]) -> bool
    ensures { result ≡ of_named true (λ t. same_key t a.now b.now) (T.named table) }
{
    let Ok(table) = table.named() else {
        return true;
    };
    let n = key_length(table);
    common::same_bytes(field(a, 5, n), field(b, 5, n))
}

// One number for a record's table and key; a number that is no table's has no key.
pub fn key_number<T: NamesTable>(table: T, body: &[u8]) -> u64
    ensures { result ≡ named_key_number (T.named table) body.now }
{
    match table.named() {
        Ok(t) => common::rank(field(body, 5, key_length(t))) + super::number_of(t) * TABLE_STEP,
        Err(NoTable(number)) => number as u64 * TABLE_STEP,
    }
}

// The day there, 0 where there is none. Where there are eight bytes they are read without a loop, as their number is known.
fn day_at(body: &[u8], start: usize) -> u32
    ensures { result ≡ value_of (number_of (field_at start 8 body.now)) }
{
    let s = field(body, start, 8);
    if s.len() != 8 {
        return common::number(s).unwrap_or(0);
    }
    common::number(&s[0..8]).unwrap_or(0)
}

// The first and the last day of a record's period, 0 for no table: its last 18 bytes are the first day, the version and the last day.
pub fn first_day<T: NamesTable>(table: T, body: &[u8]) -> u32
    ensures { result ≡ of_named 0 (λ t. first_day t body.now) (T.named table) }
{
    let Ok(table) = table.named() else {
        return 0;
    };
    day_at(body, super::length_of(table).saturating_sub(17))
}

pub fn last_day<T: NamesTable>(table: T, body: &[u8]) -> u32
    ensures { result ≡ of_named 0 (λ t. last_day t body.now) (T.named table) }
{
    let Ok(table) = table.named() else {
        return 0;
    };
    day_at(body, super::length_of(table).saturating_sub(7))
}

// Whether a day lies in the period of a record.
pub fn holds_day<T: NamesTable>(table: T, body: &[u8], day: u32) -> bool
    ensures { result ≡ of_named false (λ t. holds_day t body.now day) (T.named table) }
{
    let Ok(table) = table.named() else {
        return false;
    };
    first_day(table, body) <= day && day <= last_day(table, body)
}

// The first day that the periods of two records of a table share, if they share any: the later first day.
pub fn first_shared_day<'a, T: NamesTable>(table: T, a: &'a [u8], b: &'a [u8]) -> u32
    ensures { result ≡ of_named 0 (λ t. first_shared t a.now b.now) (T.named table) }
{
    let Ok(table) = table.named() else {
        return 0;
    };
    first_day(table, a).max(first_day(table, b))
}

// The last: the earlier last day.
fn last_shared_day<'a>(table: Table, a: &'a [u8], b: &'a [u8]) -> u32
    ensures { result ≡ last_shared table a.now b.now }
{
    last_day(table, a).min(last_day(table, b))
}

// Whether they share any. Mostly one period is over before the other begins, and then the other days are not read.
pub fn share_day<'a, T: NamesTable>(table: T, a: &'a [u8], b: &'a [u8]) -> bool
    ensures { result ≡ of_named true (λ t. share_day t a.now b.now) (T.named table) }
{
    let Ok(table) = table.named() else {
        return true;
    };
    if last_day(table, b) < first_day(table, a) {
        return false;
    }
    if last_day(table, a) < first_day(table, b) {
        return false;
    }
    first_shared_day(table, a, b) <= last_shared_day(table, a, b)
}

// Whether a field of a CO is a flag that says Y.
pub fn is_yes(co: &[u8], field: u32) -> bool
    ensures { result ≡ is_yes inCO field co.now }
{
    match field {
        27 => common::byte_at(co, 114) == b'Y',
        31..=38 => common::byte_at(co, 120 + (field - 31) as usize) == b'Y',
        _ => false,
    }
}

// The fewest and the most persons of a CO, 0 where the field is blank.
pub fn least_persons(co: &[u8]) -> u32
    ensures { result ≡ number_in inCO 28 co.now }
{
    number_at(co, 115, 2)
}

pub fn most_persons(co: &[u8]) -> u32
    ensures { result ≡ number_in inCO 29 co.now }
{
    number_at(co, 117, 2)
}

// Whether an AR is applied together with others; its rating and its code.
pub fn is_cumulative(ar: &[u8]) -> bool
    ensures { result ≡ is_yes inAR 6 ar.now }
{
    common::byte_at(ar, 23) == b'Y'
}

pub fn card_rating(ar: &[u8]) -> u32
    ensures { result ≡ number_in inAR 7 ar.now }
{
    number_at(ar, 24, 3)
}

pub fn card_code(ar: &[u8]) -> u32
    ensures { result ≡ number_in inAR 4 ar.now }
{
    number_at(ar, 14, 3)
}

// What a record grants: the discount in thousandths of a percent, the rounding byte and the factor.
#[derive(Clone, Copy)]
pub struct Grant {
    pub discount: u32,
    pub mode: u8,
    pub factor: u32,
}

pub fn conditions_grant(co: &[u8]) -> Grant
    ensures { result ≡ grant_in inCO 39 40 41 co.now }
{
    Grant {
        discount: number_at(co, 128, 6),
        mode: common::byte_at(co, 134),
        factor: number_at(co, 135, 3),
    }
}

pub fn card_grant(ar: &[u8]) -> Grant
    ensures { result ≡ grant_in inAR 5 9 10 ar.now }
{
    Grant {
        discount: number_at(ar, 17, 6),
        mode: common::byte_at(ar, 28),
        factor: number_at(ar, 29, 3),
    }
}
