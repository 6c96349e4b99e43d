// The ids of a feed that its records name.

ghost use Rattle.std.specs.Prelude.{◌≢◌, [], IfOk};
ghost use Rattle.feed_load.specs.FeedTables.{AreAcceptedTables, tables_of};
ghost use Rattle.feed_load.specs.NamedIds.{AreColumnIds, AreIdsOf, AreZoneIds};

use crate::tables::FeedTables;
use crate::weekly::service_ids;
use feed_meaning::{Ids, ids_in};
use feed_rules::zone_ids;
use feed_tables::Table;
use flex_model::{Listed, NoMemory};
use geo_json::ZoneRecord;
use std::alloc::Global;

/// The ids of stops, zones, groups, booking rules and services.
#[derive(Drop)]
pub(crate) struct FeedIds<'a> {
    pub(crate) stops: Ids<'a>,
    pub(crate) zones: Ids<'a>,
    pub(crate) groups: Ids<'a>,
    pub(crate) booking_rules: Ids<'a>,
    pub(crate) services: Ids<'a>,
}

// The ids in a column of a table, if there is one.
fn column_ids<'a>(
    alloc: Global,
    table: Option<&'a Table>,
    column: &str,
) -> Result<Ids<'a>, NoMemory>
    requires { column.now ≢ [] }
    ensures { IfOk result (AreColumnIds table.entry column.now) }
{
    match table {
        Some(table) => ids_in(alloc, table, column),
        None => Ok(Ids::new(alloc)),
    }
}

// The ids of the zones, if there are any.
fn feed_zone_ids<'a>(
    alloc: Global,
    zones: Option<&'a Listed<ZoneRecord>>,
) -> Result<Ids<'a>, NoMemory>
    ensures { IfOk result (AreZoneIds zones.entry) }
{
    match zones {
        Some(zones) => zone_ids(alloc, zones),
        None => Ok(Ids::new(alloc)),
    }
}

/// The ids of the tables, each list in the order of its file.
pub(crate) fn feed_ids<'a>(alloc: Global, tables: FeedTables<'a>) -> Result<FeedIds<'a>, NoMemory>
    requires { AreAcceptedTables (tables_of tables) }
    ensures { IfOk result (λ ids. AreIdsOf ids (tables_of tables.entry)) }
{
    let stops = column_ids(alloc, tables.stops, "stop_id")?;
    let zones = feed_zone_ids(alloc, tables.zones)?;
    let groups = column_ids(alloc, tables.groups, "location_group_id")?;
    let booking_rules = column_ids(alloc, tables.booking_rules, "booking_rule_id")?;
    let services = service_ids(alloc, tables.calendar, tables.dates)?;
    Ok(FeedIds {
        stops,
        zones,
        groups,
        booking_rules,
        services,
    })
}
