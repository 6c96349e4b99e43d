// The ids of the tables that records name.

ghost use Rattle.std.specs.Prelude.{◌≡◌, ◌≢◌, [], ℕ, List, IfOk, fold, map, true};
ghost use Rattle.std.specs.List.{list_any};
ghost use Rattle.std.specs.Str.{bytes_eq};
ghost use Rattle.flex_model.specs.declared.fault.InputFile.TheVariants as InputFiles;
ghost use Rattle.feed_tables.specs.Refusals.{is_given};
ghost use Rattle.feed_meaning.specs.FeedLinks.{Tables, is_station};
ghost use Rattle.feed_meaning.specs.Indexes.{HasIds};
ghost use Rattle.feed_meaning.specs.Noted.{noted};
ghost use Rattle.feed_rules.specs.Links.{ArePlaceIds, AreTablesOf, AreTripIds, StandFor, StandForColumn, records_in};
ghost use Rattle.feed_rules.specs.Zones.{zone_values};

use crate::links::LinkIds;
use crate::stations::stations_in;
use feed_meaning::{Ids, ids_in};
use feed_tables::Table;
use flex_model::{Listed, NoMemory};
use geo_json::ZoneRecord;
use std::alloc::Global;

/// The tables that records name, each where its file has records, and the zones.
#[derive(Clone, Copy)]
pub(crate) struct LinkTables<'a> {
    pub(crate) routes: Option<&'a Table>,
    pub(crate) calendar: Option<&'a Table>,
    pub(crate) dates: Option<&'a Table>,
    pub(crate) trips: Option<&'a Table>,
    pub(crate) stops: Option<&'a Table>,
    pub(crate) groups: Option<&'a Table>,
    pub(crate) booking_rules: Option<&'a Table>,
    pub(crate) zones: Option<&'a Listed<ZoneRecord>>,
}

// The ids in a column of a table, none where there is no table.
fn known_ids_in<'a>(
    alloc: Global,
    table: Option<&'a Table>,
    name: &str,
) -> Result<Ids<'a>, NoMemory>
    requires { name.now ≢ [] }
    ensures { IfOk result (λ ids. StandForColumn ids table.entry name.now) }
{
    match table {
        Some(table) => ids_in(alloc, table, name),
        None => Ok(Ids::new(alloc)),
    }
}

// The ids of the stops where one can't board, none where there is no table.
fn known_stations<'a>(alloc: Global, stops: Option<&'a Table>) -> Result<Ids<'a>, NoMemory>
    ensures { IfOk result (λ ids. (tables : Tables)
        → tables InputFiles.Stops ≡ records_in stops.entry
        → (text : List ℕ) → is_given text ≡ true
        → list_any (bytes_eq text) ids ≡ is_station tables text) }
{
    match stops {
        Some(stops) => stations_in(alloc, stops),
        None => Ok(Ids::new(alloc)),
    }
}

/// The ids of zones, each once, by their first appearance.
pub fn zone_ids<'a>(alloc: Global, zones: &'a Listed<ZoneRecord>) -> Result<Ids<'a>, NoMemory>
    ensures { IfOk result (λ ids. ids ≡ fold noted [] (map (λ zone. zone.id) zones.now)) }
{
    let mut ids = Ids::new(alloc);
    for zone in zones.as_slice() {
        ids.note(zone.id.as_str())?;
    }
    Ok(ids)
}

// The ids of the zones, none where there is no such file.
fn known_zones<'a>(
    alloc: Global,
    zones: Option<&'a Listed<ZoneRecord>>,
) -> Result<Ids<'a>, NoMemory>
    ensures { IfOk result (λ ids. (tables : Tables)
        → tables InputFiles.Locations ≡ zone_values zones.entry
        → HasIds ids tables InputFiles.Locations "id") }
{
    match zones {
        Some(zones) => zone_ids(alloc, zones),
        None => Ok(Ids::new(alloc)),
    }
}

// The ids that trips name.
#[derive(Drop)]
struct TripIds<'a> {
    routes: Ids<'a>,
    calendar: Ids<'a>,
    dates: Ids<'a>,
}

// The ids of places, and of the stops that are stations and the like.
#[derive(Drop)]
struct PlaceIds<'a> {
    stops: Ids<'a>,
    stations: Ids<'a>,
    groups: Ids<'a>,
    zones: Ids<'a>,
}

fn trip_ids<'a>(alloc: Global, found: &LinkTables<'a>) -> Result<TripIds<'a>, NoMemory>
    ensures { IfOk result (λ ids. (tables : Tables) → AreTablesOf found.now tables
        → AreTripIds ids tables) }
{
    let routes = known_ids_in(alloc, found.routes, "route_id")?;
    let calendar = known_ids_in(alloc, found.calendar, "service_id")?;
    let dates = known_ids_in(alloc, found.dates, "service_id")?;
    Ok(TripIds {
        routes,
        calendar,
        dates,
    })
}

fn place_ids<'a>(alloc: Global, found: &LinkTables<'a>) -> Result<PlaceIds<'a>, NoMemory>
    ensures { IfOk result (λ ids. (tables : Tables) → AreTablesOf found.now tables
        → ArePlaceIds ids tables) }
{
    let stops = known_ids_in(alloc, found.stops, "stop_id")?;
    let stations = known_stations(alloc, found.stops)?;
    let groups = known_ids_in(alloc, found.groups, "location_group_id")?;
    let zones = known_zones(alloc, found.zones)?;
    Ok(PlaceIds {
        stops,
        stations,
        groups,
        zones,
    })
}

/// The ids of the tables and zones that records name.
pub(crate) fn link_ids<'a>(alloc: Global, found: &LinkTables<'a>) -> Result<LinkIds<'a>, NoMemory>
    ensures { IfOk result (λ ids. (tables : Tables) → AreTablesOf found.now tables
        → StandFor ids tables) }
{
    let of_trips = trip_ids(alloc, found)?;
    let of_places = place_ids(alloc, found)?;
    let trips = known_ids_in(alloc, found.trips, "trip_id")?;
    let booking_rules = known_ids_in(alloc, found.booking_rules, "booking_rule_id")?;
    Ok(LinkIds {
        routes: of_trips.routes,
        calendar: of_trips.calendar,
        dates: of_trips.dates,
        trips,
        stops: of_places.stops,
        stations: of_places.stations,
        groups: of_places.groups,
        zones: of_places.zones,
        booking_rules,
    })
}
