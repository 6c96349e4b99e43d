// The repeats of trips, by the records of frequencies.txt.

ghost use Rattle.std.specs.Prelude.{◌≡◌};
ghost use Rattle.feed_tables.specs.Records.{header_of};
ghost use Rattle.feed_load.specs.Repeats as Columns;
ghost use Rattle.feed_load.specs.Repeats.{repeat_at};

use crate::fields::{number_of, seconds_of};
use feed_meaning::value;
use feed_tables::{RowView, Table};
use flex_model::Repeat;

/// The columns of frequencies.txt that are read of a repeat.
#[derive(Clone, Copy)]
pub(crate) struct RepeatColumns {
    start: Option<u32>,
    end: Option<u32>,
    headway: Option<u32>,
}

/// The columns of a table.
pub(crate) fn repeat_columns(table: &Table) -> RepeatColumns
    ensures { result ≡ Columns.repeat_columns (header_of table.now) }
{
    RepeatColumns {
        start: table.column("start_time"),
        end: table.column("end_time"),
        headway: table.column("headway_secs"),
    }
}

/// The repeat of a record, with 0 where a text has no time or number.
pub(crate) fn repeat_of(row: &RowView<'_>, columns: RepeatColumns) -> Repeat
    ensures { result ≡ repeat_at columns row.now.fields }
{
    Repeat {
        first: seconds_of(value(row, columns.start)),
        end: seconds_of(value(row, columns.end)),
        headway: number_of(value(row, columns.headway)),
    }
}
