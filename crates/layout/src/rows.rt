// THE table of the layout, one row for each field: its number, first position (from 1), length and rule. The record check walks it.
ghost use Rattle.std.specs.Prelude.{◌≡◌, [], take, drop, length, eqb};
ghost use Rattle.layout.specs.declared.rows.Row.{Row as SpecRow};
ghost use Rattle.layout.specs.Layout.{table_at, layout};
ghost use Rattle.layout.specs.Numbered.{of_named};
ghost use Rattle.layout.specs.Fields.{row_with};
ghost use Rattle.layout.specs.Rules.{first_broken};
ghost use Rattle.layout.specs.Helpers.{first_row, obeys_row};

use super::named::NamesTable;
use super::rules::Rule;
use super::{Table, fields, rules};

// How many rows there are.
const ROWS: usize = 57;

#[derive(Clone, Copy)]
pub struct Row {
    pub field: u32,
    pub start: usize,
    pub length: usize,
    pub rule: Rule,
}

#[rattlefmt::skip]
const LAYOUT: [Row; ROWS] = [
    // CO
    Row { field: 1, start: 1, length: 4, rule: Rule::Transferor },
    Row { field: 2, start: 5, length: 5, rule: Rule::Number { least: 1, most: 99999 } },
    Row { field: 3, start: 10, length: 4, rule: Rule::Railway },
    Row { field: 4, start: 14, length: 100, rule: Rule::Text },
    Row { field: 27, start: 114, length: 1, rule: Rule::FlagOrBlank },
    Row { field: 28, start: 115, length: 2, rule: Rule::NumberOrBlank { least: 0, most: 99 } },
    Row { field: 29, start: 117, length: 2, rule: Rule::MostPersons },
    Row { field: 30, start: 119, length: 1, rule: Rule::Number { least: 0, most: 9 } },
    Row { field: 31, start: 120, length: 1, rule: Rule::Flag },
    Row { field: 32, start: 121, length: 1, rule: Rule::Flag },
    Row { field: 33, start: 122, length: 1, rule: Rule::Flag },
    Row { field: 34, start: 123, length: 1, rule: Rule::Flag },
    Row { field: 35, start: 124, length: 1, rule: Rule::Flag },
    Row { field: 36, start: 125, length: 1, rule: Rule::Flag },
    Row { field: 37, start: 126, length: 1, rule: Rule::Flag },
    Row { field: 38, start: 127, length: 1, rule: Rule::Flag },
    Row { field: 39, start: 128, length: 6, rule: Rule::NumberOrBlank { least: 0, most: 100000 } },
    Row { field: 40, start: 134, length: 1, rule: Rule::Rounding },
    Row { field: 41, start: 135, length: 3, rule: Rule::Factor },
    Row { field: 42, start: 138, length: 8, rule: Rule::FirstDay },
    Row { field: 43, start: 146, length: 2, rule: Rule::Number { least: 1, most: 99 } },
    Row { field: 44, start: 148, length: 8, rule: Rule::LastDay },
    // RE
    Row { field: 1, start: 1, length: 4, rule: Rule::Transferor },
    Row { field: 2, start: 5, length: 3, rule: Rule::Number { least: 1, most: 999 } },
    Row { field: 3, start: 8, length: 30, rule: Rule::Text },
    Row { field: 4, start: 38, length: 30, rule: Rule::Text },
    Row { field: 5, start: 68, length: 30, rule: Rule::Text },
    Row { field: 6, start: 98, length: 30, rule: Rule::Text },
    Row { field: 7, start: 128, length: 30, rule: Rule::Text },
    Row { field: 8, start: 158, length: 265, rule: Rule::Text },
    Row { field: 9, start: 423, length: 8, rule: Rule::FirstDay },
    Row { field: 10, start: 431, length: 2, rule: Rule::Number { least: 1, most: 99 } },
    Row { field: 11, start: 433, length: 8, rule: Rule::LastDay },
    // AR
    Row { field: 1, start: 1, length: 4, rule: Rule::Transferor },
    Row { field: 2, start: 5, length: 5, rule: Rule::Number { least: 1, most: 99999 } },
    Row { field: 3, start: 10, length: 4, rule: Rule::Railway },
    Row { field: 4, start: 14, length: 3, rule: Rule::Number { least: 1, most: 999 } },
    Row { field: 5, start: 17, length: 6, rule: Rule::Number { least: 0, most: 100000 } },
    Row { field: 6, start: 23, length: 1, rule: Rule::Flag },
    Row { field: 7, start: 24, length: 3, rule: Rule::Number { least: 1, most: 999 } },
    Row { field: 8, start: 27, length: 1, rule: Rule::Flag },
    Row { field: 9, start: 28, length: 1, rule: Rule::Rounding },
    Row { field: 10, start: 29, length: 3, rule: Rule::Factor },
    Row { field: 11, start: 32, length: 8, rule: Rule::FirstDay },
    Row { field: 12, start: 40, length: 2, rule: Rule::Number { least: 1, most: 99 } },
    Row { field: 13, start: 42, length: 8, rule: Rule::LastDay },
    // ME
    Row { field: 1, start: 1, length: 4, rule: Rule::Transferor },
    Row { field: 2, start: 5, length: 5, rule: Rule::Number { least: 1, most: 99999 } },
    Row { field: 3, start: 10, length: 4, rule: Rule::Railway },
    Row { field: 4, start: 14, length: 240, rule: Rule::Text },
    Row { field: 5, start: 254, length: 240, rule: Rule::Text },
    Row { field: 6, start: 494, length: 240, rule: Rule::Text },
    Row { field: 7, start: 734, length: 240, rule: Rule::Text },
    Row { field: 8, start: 974, length: 240, rule: Rule::Text },
    Row { field: 9, start: 1214, length: 8, rule: Rule::FirstDay },
    Row { field: 10, start: 1222, length: 2, rule: Rule::Number { least: 1, most: 99 } },
    Row { field: 11, start: 1224, length: 8, rule: Rule::LastDay },
];

// What stands for a row where there is none.
const NO_ROW: Row = Row {
    field: 0,
    start: 0,
    length: 0,
    rule: Rule::Text,
};

// The table of rows. It is built where it is named, so a pass asks for it once and lends it on.
pub fn all() -> [Row; ROWS]
    ensures { result ≡ layout }
{
    LAYOUT
}

// The rows of a table among all, none for no table.
#[tactic(auto, unfolding(crate::specs::Helpers::first_row, common::specs::Lists::sum, crate::specs::Layout::table_at))]
pub fn of_table<T: NamesTable>(rows: &[Row; ROWS], table: T) -> &[Row]
    ensures { result.now ≡ of_named [] (λ t. take (length (table_at t).rows) (drop (first_row t) rows.now)) (T.named table) }
{
    let Ok(table) = table.named() else {
        return &rows[0..0];
    };
    match table {
        Table::Co => &rows[0..22],
        Table::Re => &rows[22..33],
        Table::Ar => &rows[33..46],
        Table::Me => &rows[46..57],
    }
}

// The field of the first row that a record breaks.
pub fn broken_field(rows: &[Row], body: &[u8]) -> Option<usize>
    ensures { result ≡ first_broken (obeys_row body.now) rows.now }
{
    for row in rows {
        if !obeys(row, body) {
            return Some(row.field as usize);
        }
    }
    None
}

// The row of a field among some rows, all zeros where there is none.
pub fn of_field(rows: &[Row], field: usize) -> Row
    ensures { result ≡ row_with (λ (row : SpecRow). eqb row.field field) rows.now }
{
    for row in rows {
        if row.field as usize == field {
            return *row;
        }
    }
    NO_ROW
}

// Whether a record keeps the rule of a row.
#[tactic(auto, unfolding(crate::specs::Helpers::obeys_row, crate::specs::Rules::kept_beside, crate::specs::Rules::ruled))]
fn obeys(row: &Row, body: &[u8]) -> bool
    ensures { result ≡ obeys_row body.now row.now }
{
    let start = row.start;
    let s = fields::field(body, start, row.length);
    match row.rule {
        Rule::Text => rules::text(s),
        Rule::Transferor => super::company::is_transferor(s),
        Rule::Railway => super::company::is_company(s),
        Rule::Number { least, most } => common::within(common::number(s), least, most),
        Rule::NumberOrBlank { least, most } => rules::number_or_blank(s, least, most),
        Rule::Flag => rules::flag(common::byte_at(body, start)),
        Rule::FlagOrBlank => rules::flag_or_blank(common::byte_at(body, start)),
        Rule::MostPersons => {
            rules::most_persons(fields::field(body, start.saturating_sub(2), 2), s)
        }
        Rule::Rounding => rules::rounding(common::byte_at(body, start)),
        Rule::Factor => rules::factor(common::byte_at(body, start.saturating_sub(1)), s),
        Rule::FirstDay => rules::first_day(s),
        Rule::LastDay => rules::last_day(fields::field(body, start.saturating_sub(10), 8), s),
        Rule::Unlisted => false,
    }
}
