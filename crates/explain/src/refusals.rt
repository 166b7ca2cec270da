// Each refusal of a bundle in words: what is wrong, with which record, and what would be right.
use super::hints;
use super::places::{body_at, length_at, place_of};
use bundle::walk::table_at;
use common::{Reason, Refusal};
use layout::rows::Row;
use layout::{Table, fields, rows};
use names::field_names::{field_name, mark, table_name};
use names::field_rules::say_rule;
use names::words::{say_bytes, say_delivered, say_quoted, sum};
use std::io;

pub fn tell(rt: &impl Print, bundle: &[u8], why: Refusal) -> io::Result<()> {
    let record = why.place;
    let detail = why.detail;
    match why.reason {
        Reason::BundleTooLong => tell_too_long(rt)?,
        Reason::MarkUnknown => tell_no_mark(rt, bundle, record)?,
        Reason::RecordShort => tell_cut_short(rt, bundle, record)?,
        Reason::FieldBroken => tell_broken_field(rt, bundle, record, detail)?,
        Reason::OtherTransferor => tell_other_transferor(rt, bundle, record)?,
        Reason::KeyRepeated => tell_repeated_key(rt, bundle, record, detail)?,
        Reason::LinkMissing => tell_missing_link(rt, bundle, record, detail)?,
        _ => rt.print("There are no words for this number here.\n")?,
    }
    rt.print("Only this first fault is told. Once it is mended there may be another.\n")
}

fn tell_too_long(rt: &impl Print) -> io::Result<()> {
    rt.print("The bundle is too long: it has more than 1048576 bytes. ")?;
    rt.print("No record was looked at.\n")?;
    rt.print("Deliver fewer offers in one bundle. ")?;
    rt.print("Keep the records of an offer together, as they need each other.\n")
}

// What names a record within its table: offer and railway, or code, or all three.
fn say_key(rt: &impl Print, table: Option<Table>, body: &[u8]) -> io::Result<()> {
    if table == Some(Table::Re) {
        rt.print("code ")?;
        return say_bytes(rt, fields::code(Table::Re, body));
    }
    rt.print("offer ")?;
    say_bytes(rt, fields::offer(body))?;
    rt.print(", railway ")?;
    say_bytes(rt, fields::railway(body))?;
    if table == Some(Table::Ar) {
        rt.print(", code ")?;
        say_bytes(rt, fields::code(Table::Ar, body))?;
    }
    Ok(())
}

// Whether the last field of the key is there whole, in a record that may be cut short.
fn has_key(table: Option<Table>, body: &[u8]) -> bool {
    match table {
        Some(Table::Re) => fields::code(Table::Re, body).len() == 3,
        Some(Table::Ar) => fields::code(Table::Ar, body).len() == 3,
        _ => fields::railway(body).len() == 4,
    }
}

fn tell_record(rt: &impl Print, bundle: &[u8], record: usize, at: usize) -> io::Result<()> {
    let table = table_at(bundle, at);
    let body = body_at(bundle, at);
    print!(rt; "Record {record}, counted from 0, is of table ")?;
    rt.print(table_name(table))?;
    if has_key(table, body) {
        rt.print(": ")?;
        say_key(rt, table, body)?;
    }
    rt.print(".\n")?;
    print!(rt; "It starts with its mark at byte {at} of the bundle, counted from 0.\n")
}

fn tell_no_mark(rt: &impl Print, bundle: &[u8], record: usize) -> io::Result<()> {
    let at = place_of(bundle, record);
    let found = common::part(bundle, at, 2);
    rt.print("No record starts where one should.\n")?;
    print!(rt; "Record {record}, counted from 0, should start at byte {at} of the bundle, ")?;
    rt.print("counted from 0.\n")?;
    rt.print("A record starts with its mark, CO, RE, AR or ME. ")?;
    if found.len() < 2 {
        rt.print("Here a single byte is left: ")?;
    } else {
        rt.print("Here stand the bytes ")?;
    }
    say_quoted(rt, found)?;
    rt.print(".\n")?;
    hints::tell_mark_mistakes(rt, bundle, at)?;
    tell_record_before(rt, bundle, record)
}

fn tell_record_before(rt: &impl Print, bundle: &[u8], record: usize) -> io::Result<()> {
    if record == 0 {
        return Ok(());
    }
    rt.print("Look for a line end or another byte behind the record before it, ")?;
    rt.print("or whether that has the wrong length.\n")?;
    let before = record - 1;
    tell_record(rt, bundle, before, place_of(bundle, before))
}

fn tell_cut_short(rt: &impl Print, bundle: &[u8], record: usize) -> io::Result<()> {
    let at = place_of(bundle, record);
    let left = body_at(bundle, at).len();
    let length = length_at(bundle, at);
    let lacking = length.saturating_sub(left);
    rt.print("The bundle ends inside a record.\n")?;
    tell_record(rt, bundle, record, at)?;
    print!(rt; "Behind the mark it needs {length} bytes; the bundle has {left} left, ")?;
    print!(rt; "which is {lacking} too few.\n")?;
    rt.print("The usual causes: the delivery was cut off, or this record lost bytes. ")?;
    rt.print("Send it again.\n")
}

fn tell_broken_field(
    rt: &impl Print,
    bundle: &[u8],
    record: usize,
    field: usize,
) -> io::Result<()> {
    let at = place_of(bundle, record);
    let table = table_at(bundle, at);
    let body = body_at(bundle, at);
    let all = rows::all();
    let of_table = match table {
        Some(table) => rows::of_table(&all, table),
        None => &[],
    };
    let row = rows::of_field(of_table, field);
    rt.print("A field breaks its rule.\n")?;
    tell_record(rt, bundle, record, at)?;
    tell_field(rt, table, row, at)?;
    rt.print("Delivered: ")?;
    say_delivered(rt, fields::field(body, row.start, row.length))?;
    rt.print(".\n")?;
    say_rule(rt, of_table, field, body, at)?;
    hints::tell_field_mistakes(rt, bundle, at, row)
}

// A field's number and name, and where it stands in the record and in the bundle.
fn tell_field(rt: &impl Print, table: Option<Table>, row: Row, at: usize) -> io::Result<()> {
    let field = row.field;
    let start = row.start;
    let length = row.length;
    print!(rt; "Field {field}, ")?;
    rt.print(field_name(table, field))?;
    rt.print(": ")?;
    say_span(rt, "position", start, length)?;
    rt.print(" of the record, counted from 1 behind the mark; ")?;
    say_span(rt, "byte", sum(at, sum(start, 1)), length)?;
    rt.print(" of the bundle.\n")
}

// One place, or the first and the last of several.
fn say_span(rt: &impl Print, name: &str, first: usize, length: usize) -> io::Result<()> {
    rt.print(name)?;
    if length <= 1 {
        return print!(rt; " {first}");
    }
    let last = sum(first, length).saturating_sub(1);
    print!(rt; "s {first} to {last}")
}

fn tell_other_transferor(rt: &impl Print, bundle: &[u8], record: usize) -> io::Result<()> {
    let at = place_of(bundle, record);
    rt.print("The record has another transferor than record 0.\n")?;
    tell_record(rt, bundle, record, at)?;
    rt.print("Its field 1, transferor, is ")?;
    say_quoted(rt, fields::transferor(body_at(bundle, at)))?;
    rt.print("; that of record 0 is ")?;
    say_quoted(rt, fields::transferor(body_at(bundle, 0)))?;
    rt.print(". All records of a bundle have the same transferor.\n")?;
    rt.print("Take the record out, or correct its field 1.\n")
}

fn tell_repeated_key(
    rt: &impl Print,
    bundle: &[u8],
    record: usize,
    earlier: usize,
) -> io::Result<()> {
    let at = place_of(bundle, record);
    let before = place_of(bundle, earlier);
    let table = table_at(bundle, at);
    let body = body_at(bundle, at);
    let other = body_at(bundle, before);
    let shared = match table {
        Some(table) => fields::first_shared_day(table, body, other),
        None => 0,
    };
    rt.print("The record has the key of an earlier record, and the two periods overlap.\n")?;
    tell_record(rt, bundle, record, at)?;
    print!(rt; "Record {earlier}, at byte {before} of the bundle, has the same key: ")?;
    say_key(rt, table, other)?;
    rt.print(".\n")?;
    tell_period(rt, table, record, body)?;
    tell_period(rt, table, earlier, other)?;
    print!(rt; "The first day that is in both periods is {shared}.\n")?;
    rt.print("Records of one key may stand together only if no day is in two of their periods.\n")?;
    rt.print("Keep one of the two, or correct the first or the last day of one.\n")
}

fn tell_period(
    rt: &impl Print,
    table: Option<Table>,
    record: usize,
    body: &[u8],
) -> io::Result<()> {
    let (first, last) = match table {
        Some(table) => (
            fields::first_day(table, body),
            fields::last_day(table, body),
        ),
        None => (0, 0),
    };
    print!(rt; "Record {record} is valid from {first} to {last}, both days included.\n")
}

fn tell_missing_link(
    rt: &impl Print,
    bundle: &[u8],
    record: usize,
    detail: usize,
) -> io::Result<()> {
    let at = place_of(bundle, record);
    let table = table_at(bundle, at);
    let body = body_at(bundle, at);
    rt.print("The record needs another record that is not in the bundle.\n")?;
    tell_record(rt, bundle, record, at)?;
    match detail {
        1 => tell_code_wanted(rt, body)?,
        2 => tell_conditions_wanted(rt, table, body)?,
        3 => tell_flag_wants(rt, 33, Table::Ar, body)?,
        4 => tell_flag_wants(rt, 37, Table::Me, body)?,
        _ => rt.print("Another record")?,
    }
    rt.print(" is needed; there is none.\nAdd that record")?;
    if 2 < detail {
        rt.print(", or set the flag to N")?;
    }
    rt.print(".\n")
}

fn tell_code_wanted(rt: &impl Print, body: &[u8]) -> io::Result<()> {
    rt.print("An AR record needs the RE record of its code, so an RE record of code ")?;
    say_bytes(rt, fields::code(Table::Ar, body))
}

fn tell_conditions_wanted(rt: &impl Print, table: Option<Table>, body: &[u8]) -> io::Result<()> {
    rt.print("An ")?;
    rt.print(mark(table))?;
    rt.print(" record needs a CO record of its offer, so a CO record of offer ")?;
    say_bytes(rt, fields::offer(body))?;
    rt.print(" for any railway")
}

// A CO record's flag that is Y wants a record of its offer, for its railway or for all of them.
fn tell_flag_wants(rt: &impl Print, flag: u32, wants: Table, body: &[u8]) -> io::Result<()> {
    let railway = fields::railway(body);
    print!(rt; "Flag {flag}, ")?;
    rt.print(field_name(Some(Table::Co), flag))?;
    rt.print(", is Y, so an ")?;
    rt.print(mark(Some(wants)))?;
    rt.print(" record of offer ")?;
    say_bytes(rt, fields::offer(body))?;
    if layout::company::is_all_railways(railway) {
        rt.print(" for any railway")
    } else {
        rt.print(" for railway ")?;
        say_bytes(rt, railway)?;
        rt.print(" or 0000")
    }
}
