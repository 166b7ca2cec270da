// What the usual mistakes look like: small letters, bytes too many or too few, and a file that was saved in other characters.
use super::places::body_at;
use bundle::walk::table_at;
use layout::rows::Row;
use layout::rules::Rule;
use layout::{Table, fields};
use names::field_names::mark;
use names::field_rules::first_bad;
use names::words::{say_length, say_quoted, sum};
use std::io;

// What may be wrong where a record should start and no mark stands.
pub fn tell_mark_mistakes(rt: &impl Print, bundle: &[u8], at: usize) -> io::Result<()> {
    let table = table_in_capitals(bundle, at);
    if table.is_some() {
        rt.print("Marks are capital letters: this would be the mark ")?;
        rt.print(mark(table))?;
        return rt.print(".\n");
    }
    tell_odd_byte(rt, bundle, at)?;
    tell_mark_nearby(rt, bundle, at)
}

// What may be wrong in a record of which a field breaks its rule.
pub fn tell_field_mistakes(rt: &impl Print, bundle: &[u8], at: usize, row: Row) -> io::Result<()> {
    let body = body_at(bundle, at);
    if matches!(row.rule, Rule::Text) {
        tell_characters(rt, fields::field(body, row.start, row.length))?;
    }
    let upto = sum(row.start, row.length).saturating_sub(1);
    tell_two_byte_letter(rt, common::part(body, 0, upto), sum(at, 2))?;
    tell_shift(rt, bundle, sum(sum(at, 2), body.len()))
}

// The table whose mark stands at a place, if one does, where small letters count as capital ones.
fn table_in_capitals(bundle: &[u8], at: usize) -> Option<Table> {
    let mark = [
        common::byte_at(bundle, sum(at, 1)).to_ascii_uppercase(),
        common::byte_at(bundle, sum(at, 2)).to_ascii_uppercase(),
    ];
    table_at(&mark, 0)
}

// A line end, or the byte that many files start with which were saved as UTF-8.
fn tell_odd_byte(rt: &impl Print, bundle: &[u8], at: usize) -> io::Result<()> {
    let odd = common::byte_at(bundle, sum(at, 1));
    if matches!(odd, b'\n' | b'\r') {
        rt.print("This is a line end. ")?;
        rt.print("Between records, and behind the last one, stands nothing.\n")?;
    }
    if at == 0 {
        if odd == 239 {
            rt.print("Many files that were saved as UTF-8 start with this byte. ")?;
            rt.print("A bundle is ISO 8859-1.\n")?;
        }
    }
    Ok(())
}

// How far from its place a mark is looked for: less than the shortest record, so that it is not the mark of the record before.
const REACH: usize = 48;

fn tell_mark_nearby(rt: &impl Print, bundle: &[u8], due: usize) -> io::Result<()> {
    let found = nearest_start(bundle, due);
    if found == due {
        return Ok(());
    }
    rt.print("A mark, ")?;
    rt.print(mark(table_at(bundle, found)))?;
    rt.print(", stands ")?;
    if due < found {
        say_length(rt, found.saturating_sub(due))?;
        print!(rt; " further on, at byte {found}: ")?;
        rt.print("what is before it is too long by as much.\n")
    } else {
        say_length(rt, due.saturating_sub(found))?;
        print!(rt; " earlier, at byte {found}: ")?;
        rt.print("what is before it is too short by as much.\n")
    }
}

// The place nearest to the one where a record should start at which one seems to, or that place itself if there is none.
fn nearest_start(bundle: &[u8], due: usize) -> usize {
    for distance in 1..=REACH {
        let further = sum(due, distance);
        if seems_start(bundle, further) {
            return further;
        }
        let earlier = due.saturating_sub(distance);
        if seems_start(bundle, earlier) {
            return earlier;
        }
    }
    due
}

// A mark may also stand in a text; behind that of a record stands a transferor.
fn seems_start(bundle: &[u8], at: usize) -> bool {
    if table_at(bundle, at).is_none() {
        return false;
    }
    let behind = common::part(bundle, sum(at, 2), 4);
    if behind.len() < 4 {
        return false;
    }
    layout::company::is_transferor(behind)
}

// Whether the record has bytes too many or too few shows by where the next one starts.
fn tell_shift(rt: &impl Print, bundle: &[u8], due: usize) -> io::Result<()> {
    if bundle.len() <= due {
        return Ok(());
    }
    if seems_start(bundle, due) {
        return Ok(());
    }
    if nearest_start(bundle, due) == due {
        return Ok(());
    }
    print!(rt; "The next record should start at byte {due}. ")?;
    tell_mark_nearby(rt, bundle, due)
}

// What the first byte is that a text may not have.
fn tell_characters(rt: &impl Print, text: &[u8]) -> io::Result<()> {
    let bad = common::byte_at(text, sum(first_bad(text), 1));
    rt.print("A bundle is ISO 8859-1, which has one byte for each character. ")?;
    print!(rt; "Byte {bad}")?;
    match bad {
        9 => rt.print(" is a tab, which no text may have.\n"),
        10 => rt.print(" is a line end, which no text may have.\n"),
        13 => rt.print(" is a line end, which no text may have.\n"),
        128..=159 => tell_foreign_byte(rt),
        _ => rt.print(" is no character.\n"),
    }
}

fn tell_foreign_byte(rt: &impl Print) -> io::Result<()> {
    rt.print(" is none of them: ")?;
    rt.print("UTF-8 has such bytes within characters of several bytes, ")?;
    rt.print("Windows-1252 has dashes, curved quotes and the like there.\n")
}

// The first two bytes that look like one letter in UTF-8, in the start of a record whose body starts at a place of the bundle.
fn tell_two_byte_letter(rt: &impl Print, start_of_body: &[u8], place: usize) -> io::Result<()> {
    let Some(i) = start_of_body.windows(2).position(is_two_byte_letter) else {
        return Ok(());
    };
    rt.print("The bytes ")?;
    say_quoted(rt, common::part(start_of_body, i, 2))?;
    let at = sum(place, i);
    print!(rt; " at byte {at} look like UTF-8, where a letter with an accent takes two bytes ")?;
    rt.print("and shifts what follows. Save the file as ISO 8859-1.\n")
}

fn is_two_byte_letter(two: &[u8]) -> bool {
    matches!(two, [194 | 195, 128..=191])
}
