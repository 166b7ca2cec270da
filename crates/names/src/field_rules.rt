// What a field must be, in one sentence, with the figures of its row and of the fields that its rule looks back to.
use super::words::{say_digits, say_quoted, sum};
use layout::rows::Row;
use layout::rules::Rule;
use layout::{fields, rows, rules};
use std::io;

// The rule of a field of a record whose mark stands at a place of its bundle.
pub fn say_rule(
    rt: &impl Print,
    of_table: &[Row],
    field: usize,
    body: &[u8],
    at: usize,
) -> io::Result<()> {
    let row = rows::of_field(of_table, field);
    rt.print("It must be ")?;
    match row.rule {
        Rule::Text => say_text_rule(rt, body, row.start, row.length, at)?,
        Rule::Transferor => rt.print("four digits, 0001 to 9999")?,
        Rule::Railway => rt.print("four digits, 0000 to 9999, where 0000 stands for all railways")?,
        Rule::Number { least, most } => say_limits(rt, least, most, row.length)?,
        Rule::NumberOrBlank { least, most } => say_limits_or_blank(rt, least, most, row.length)?,
        Rule::Flag => rt.print("Y or N, in capitals")?,
        Rule::FlagOrBlank => rt.print("Y or N, in capitals, or blank")?,
        Rule::MostPersons => say_most_persons_rule(rt, of_table, field, body)?,
        Rule::Rounding => rt.print("one of + - 0 N")?,
        Rule::Factor => say_factor_rule(rt, of_table, field, body)?,
        Rule::FirstDay => say_day_rule(rt)?,
        Rule::LastDay => say_last_day_rule(rt, of_table, field, body)?,
        Rule::Unlisted => rt.print("as the layout says")?,
    }
    rt.print(".\n")
}

fn say_limits(rt: &impl Print, least: u32, most: u32, width: usize) -> io::Result<()> {
    rt.print("digits only, ")?;
    say_digits(rt, least, width)?;
    rt.print(" to ")?;
    say_digits(rt, most, width)
}

fn say_limits_or_blank(rt: &impl Print, least: u32, most: u32, width: usize) -> io::Result<()> {
    say_limits(rt, least, most, width)?;
    rt.print(", or all blank")
}

fn say_text_rule(
    rt: &impl Print,
    body: &[u8],
    start: usize,
    length: usize,
    at: usize,
) -> io::Result<()> {
    let position = sum(start, first_bad(fields::field(body, start, length)));
    let bad = common::byte_at(body, position);
    let place = sum(at, sum(position, 1));
    rt.print("text, of bytes 32 to 126 and 160 to 255 only; ")?;
    print!(rt; "the first other byte is {bad}, at position {position} of the record, ")?;
    print!(rt; "byte {place} of the bundle")
}

// The first byte of a text, from 0, that no text may have.
pub fn first_bad(text: &[u8]) -> usize {
    text.iter()
        .position(|b| !rules::text(&[*b]))
        .unwrap_or(text.len())
}

// The field that a rule looks back to: its number, and its bytes.
fn say_back(rt: &impl Print, of_table: &[Row], back: usize, body: &[u8]) -> io::Result<()> {
    let row = rows::of_field(of_table, back);
    print!(rt; " in field {back}, which is ")?;
    say_quoted(rt, fields::field(body, row.start, row.length))
}

fn say_most_persons_rule(
    rt: &impl Print,
    of_table: &[Row],
    field: usize,
    body: &[u8],
) -> io::Result<()> {
    say_limits_or_blank(rt, 1, 99, 2)?;
    rt.print(", and if it is 01 to 98, not below the minimum")?;
    say_back(rt, of_table, field.saturating_sub(1), body)
}

fn say_factor_rule(rt: &impl Print, of_table: &[Row], field: usize, body: &[u8]) -> io::Result<()> {
    let rounding = rows::of_field(of_table, field.saturating_sub(1));
    let least = if common::byte_at(body, rounding.start) == b'N' {
        0
    } else {
        1
    };
    say_limits(rt, least, 999, 3)?;
    rt.print(", under the rounding")?;
    say_back(rt, of_table, field.saturating_sub(1), body)?;
    rt.print("; 000 is for rounding N only")
}

fn say_day_rule(rt: &impl Print) -> io::Result<()> {
    rt.print("a real day, written YYYYMMDD, of the years 1583 to 9999")
}

fn say_last_day_rule(
    rt: &impl Print,
    of_table: &[Row],
    field: usize,
    body: &[u8],
) -> io::Result<()> {
    say_day_rule(rt)?;
    rt.print(", and not before the first day")?;
    say_back(rt, of_table, field.saturating_sub(2), body)
}
