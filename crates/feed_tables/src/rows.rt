// The records of a table after its header.

ghost use Rattle.std.specs.Prelude.{◌≡◌, ◌≤◌, ◌<◌, length};
ghost use Rattle.feed_tables.specs.Fields.{value_at};
ghost use Rattle.feed_tables.specs.Records.{rows_of};

use crate::table::Table;
use std::marker::Model;

/// The records of a table after its header, in order, which contracts see as the list of those that
/// are left.
#[derive(Drop)]
pub struct Rows<'a> {
    table: &'a Table,
    index: usize,
}

impl<'a> Model for Rows<'a> {
    ghost use Rattle.std.specs.Prelude.{List, ◌+◌, ◌≤◌, ◌<◌, drop, length};
    ghost use Rattle.feed_tables.specs.Records.{RowFields, numbered_from};

    ghost Value = { List RowFields };

    ghost view = { λ r. numbered_from (r.index + 1) (drop r.index r.table.now) };

    ghost invariant = { λ r. (0 < r.index) × (r.index ≤ length r.table.now) };
}

impl<'a> Rows<'a> {
    pub(crate) fn new(table: &'a Table) -> Rows<'a>
        requires { 0 < length table.now }
        ensures { result ≡ rows_of table.now }
    {
        Rows { table, index: 1 }
    }
}

impl<'a> Iterator for Rows<'a> {
    type Item = RowView<'a>;

    ghost use Rattle.std.specs.Iterator.{YieldsFirst, item_count};

    ghost remaining = { item_count (λ rows. rows) };

    ghost next_gives = { YieldsFirst (λ rows. rows) };

    fn next(&mut self) -> Option<RowView<'a>> {
        let table = self.table;
        let index = self.index;
        if index >= table.record_count() {
            return None;
        }
        self.index += 1;
        Some(RowView { table, index })
    }
}

/// A record of a table after its header. It lends its fields from the table's pool, and can't
/// outlive the table.
#[derive(Drop)]
pub struct RowView<'a> {
    table: &'a Table,
    index: usize,
}

impl<'a> Model for RowView<'a> {
    ghost use Rattle.std.specs.Prelude.{◌+◌, ◌^◌, ◌<◌, [], get_or, length};
    ghost use Rattle.feed_tables.specs.Records.{RowFields};

    ghost Value = { RowFields };

    ghost view = { λ r. record { number = r.index + 1; fields = get_or r.table.now r.index [] } };

    ghost invariant = { λ r. (0 < r.index) × (r.index < length r.table.now)
        × (r.index + 1 < 2 ^ 64) };
}

impl<'a> RowView<'a> {
    /// The field of a column, by the index that `Table::column` gives: empty where the record is
    /// too short. It has no spaces or tabs at its ends.
    pub fn field(&self, column: u32) -> &'a str
        ensures { result.now ≡ value_at self.now.fields column }
    {
        let table = self.table;
        table.field_at(self.index, column as usize)
    }

    /// The row number: the header has the number 1, and each record counts one.
    pub fn number(&self) -> u64
        ensures { result ≡ self.now.number }
    {
        self.index as u64 + 1
    }
}
