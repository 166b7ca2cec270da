// One record: the tables, the layout of their fields, readers of fields by name, and the first field that breaks its rule.
#![tactic(auto)]

ghost use Rattle.std.specs.Prelude.{◌≡◌};
ghost use Rattle.layout.specs.Layout.{table_number, length_of};
ghost use Rattle.layout.specs.Numbered.{IsNumbered, of_named};

pub mod company;
pub mod dates;
pub mod fields;
pub mod named;
pub mod rows;
pub mod rules;

use named::NamesTable;

// The tables: conditions, types of discount, additional discounts, memos.
#[derive(Clone, Copy, PartialEq, Eq)]
pub enum Table {
    Co,
    Re,
    Ar,
    Me,
}

// The number of a table, in the order above.
pub fn number_of(table: Table) -> u64
    ensures { result ≡ table_number table }
{
    match table {
        Table::Co => 0,
        Table::Re => 1,
        Table::Ar => 2,
        Table::Me => 3,
    }
}

// A number that no table has.
#[derive(Clone, Copy)]
pub struct NoTable(pub u32);

impl TryFrom<u32> for Table {
    type Error = NoTable;

    ghost try_from_gives = { IsNumbered };

    fn try_from(number: u32) -> Result<Table, NoTable> {
        match number {
            0 => Ok(Table::Co),
            1 => Ok(Table::Re),
            2 => Ok(Table::Ar),
            3 => Ok(Table::Me),
            _ => Err(NoTable(number)),
        }
    }
}

// The length of a table's records without their mark, 0 for no table. A `match`, because a constant array would be built anew at each
// call, and the searches call this at every step.
#[tactic(auto, unfolding(crate::specs::Layout::length_of, crate::specs::Layout::end_of, crate::specs::Layout::table_at))]
pub fn length_of<T: NamesTable>(table: T) -> usize
    ensures { result ≡ of_named 0 length_of (T.named table) }
{
    let Ok(table) = table.named() else {
        return 0;
    };
    match table {
        Table::Co => 155,
        Table::Re => 440,
        Table::Ar => 49,
        Table::Me => 1231,
    }
}
