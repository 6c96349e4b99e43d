// The faults of each table beside the others.

ghost use Rattle.std.specs.Prelude.{◌≡◌, IfOk, true};
ghost use Rattle.std.specs.List.{flat_map};
ghost use Rattle.flex_model.specs.declared.fault.InputFile.TheVariants as InputFiles;
ghost use Rattle.feed_meaning.specs.FeedFaults.{links_of};
ghost use Rattle.feed_meaning.specs.FeedLinks.{Tables};
ghost use Rattle.feed_meaning.specs.Tables.{entries_of, faults_at};
ghost use Rattle.feed_rules.specs.Folders.{is_feed_table};
ghost use Rattle.feed_rules.specs.Links.{HaveGroupIds, StandFor};
ghost use Rattle.feed_rules.specs.Orders.{AreOrdersOf};

use crate::links::{LinkIds, stop_time_link_faults, trip_link_faults};
use crate::orders::TripOrder;
use crate::other_links::{
    booking_rule_link_faults, frequency_link_faults, group_link_faults, group_stop_link_faults,
    transfer_link_faults,
};
use feed_tables::Table;
use flex_model::{Fault, InputFile, Listed, NoMemory};
use std::alloc::Global;

/// The faults of a table beside the others, of whose ids it may name some. A table that names none has no such fault.
pub(crate) fn file_link_faults<'a>(
    alloc: Global,
    file: InputFile,
    table: &'a Table,
    ids: &LinkIds<'_>,
    order: &TripOrder<'a>,
) -> Result<Listed<Fault>, NoMemory>
    ensures { IfOk result (λ faults. (tables : Tables) → is_feed_table file ≡ true
        → StandFor ids.now tables → AreOrdersOf order.now (tables InputFiles.StopTimes)
        → HaveGroupIds file (entries_of table.now)
        → faults ≡ flat_map (λ e. faults_at file e.row (links_of file tables e.values))
        (entries_of table.now)) }
{
    match file {
        InputFile::Trips => trip_link_faults(alloc, table, ids),
        InputFile::StopTimes => stop_time_link_faults(alloc, table, ids, order),
        InputFile::LocationGroups => group_link_faults(alloc, table, ids),
        InputFile::LocationGroupStops => group_stop_link_faults(alloc, table, ids),
        InputFile::BookingRules => booking_rule_link_faults(alloc, table, ids),
        InputFile::Transfers => transfer_link_faults(alloc, table, ids),
        InputFile::Frequencies => frequency_link_faults(alloc, table, ids),
        _ => Ok(Listed::new(alloc)),
    }
}
