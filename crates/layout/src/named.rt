// What names a table: the table itself, or a number, which may be that of none.
ghost use Rattle.std.specs.Prelude.{◌≡◌, Result, Ok};
ghost use Rattle.layout.specs.declared.Table.{Table as SpecTable};
ghost use Rattle.layout.specs.declared.NoTable.{NoTable as SpecNoTable};
ghost use Rattle.layout.specs.Numbered.{numbered};

use super::{NoTable, Table};

pub trait NamesTable: Copy {
    ghost named: { Self → Result SpecTable SpecNoTable };

    fn named(self) -> Result<Table, NoTable>
        ensures { result ≡ named self };
}

impl NamesTable for Table {
    ghost named = { λ table. Ok table };

    fn named(self) -> Result<Table, NoTable> {
        Ok(self)
    }
}

impl NamesTable for u32 {
    ghost named = { numbered };

    fn named(self) -> Result<Table, NoTable> {
        Table::try_from(self)
    }
}
