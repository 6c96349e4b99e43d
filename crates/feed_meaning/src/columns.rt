// The columns of a table.

ghost use Rattle.std.specs.Prelude.{◌≡◌, ◌≢◌, [], IfOk, fold, map};
ghost use Rattle.std.specs.Option.{option_map_or};
ghost use Rattle.feed_tables.specs.Fields.{value_at};
ghost use Rattle.feed_tables.specs.Records.{header_of, rows_of};
ghost use Rattle.feed_meaning.specs.Noted.{noted};
ghost use Rattle.feed_meaning.specs.Tables.{value_named};

use crate::ids::Ids;
use feed_tables::{RowView, Table};
use flex_model::NoMemory;
use std::alloc::Global;

/// A record's value of a column, which is empty where the table lacks the column.
pub fn value<'a>(row: &RowView<'a>, column: Option<u32>) -> &'a str
    ensures { result.now ≡ option_map_or (value_at row.now.fields) column [] }
{
    match column {
        Some(column) => row.field(column),
        None => "",
    }
}

/// The ids in a column of a table.
pub fn ids_in<'a>(alloc: Global, table: &'a Table, name: &str) -> Result<Ids<'a>, NoMemory>
    requires { name.now ≢ [] }
    ensures { IfOk result (λ ids. ids ≡ fold noted []
        (map (λ row. value_named (header_of table.now) row.fields name.now) (rows_of table.now))) }
{
    let column = table.column(name);
    let mut ids = Ids::new(alloc);
    for row in table.rows() {
        ids.note(value(&row, column))?;
    }
    Ok(ids)
}
