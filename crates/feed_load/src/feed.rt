// The feed of tables and zones.

ghost use Rattle.std.specs.Prelude.{◌≡◌, IfOk};
ghost use Rattle.flex_model.specs.SoundFeed.{IsSoundFeed};
ghost use Rattle.feed_meaning.specs.FeedValue.{feed_of_tables};
ghost use Rattle.feed_load.specs.FeedTables.{AreAcceptedTables, tables_of, zone_features};

use crate::booking_rules::rules_of;
use crate::changes::changes_of;
use crate::groups::groups_of;
use crate::named_ids::feed_ids;
use crate::stops::stops_of;
use crate::tables::FeedTables;
use crate::weekly::all_services;
use crate::whole_trips::all_trips;
use crate::zones::zones_of;
use flex_model::{Feed, NoMemory};
use std::alloc::Global;

/// The feed of accepted tables and zones.
pub(crate) fn feed_of(alloc: Global, tables: FeedTables<'_>) -> Result<Feed, NoMemory>
    requires accepted { AreAcceptedTables (tables_of tables) }
    requires sound { IsSoundFeed (feed_of_tables (tables_of tables) (zone_features tables.zones)) }
    ensures { IfOk result (λ feed.
        feed ≡ feed_of_tables (tables_of tables.entry) (zone_features tables.entry.zones)) }
{
    let ids = feed_ids(alloc, tables)?;
    let stops = stops_of(alloc, tables.stops)?;
    let zones = zones_of(alloc, tables.zones, &stops)?;
    let groups = groups_of(alloc, tables.groups, tables.group_stops, &ids.stops)?;
    let services = all_services(alloc, tables.calendar, tables.dates, &ids.services)?;
    let rules = rules_of(alloc, tables.booking_rules, &ids.services)?;
    let trips = all_trips(
        alloc,
        tables.trips,
        tables.stop_times,
        tables.frequencies,
        &ids,
    )?;
    let changes = changes_of(alloc, tables.transfers, &stops, &ids.stops)?;
    Ok(Feed {
        stops,
        zones,
        groups,
        services,
        rules,
        trips,
        changes,
    })
}
