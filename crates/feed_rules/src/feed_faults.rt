// The fault list of a feed.

ghost use Rattle.std.specs.Prelude.{◌≡◌, ◌++◌, ℕ, List, [], IfOk, OnOk, true};
ghost use Rattle.flex_model.specs.declared.fault.InputFile.TheVariants as InputFiles;
ghost use Rattle.feed_meaning.specs.FeedFaults.{Geo, feed_faults, feed_level_two, link_faults, tables};
ghost use Rattle.feed_meaning.specs.Folder.{Folder};
ghost use Rattle.feed_meaning.specs.Locations.{Scan, zones_of};
ghost use Rattle.feed_rules.specs.Folders.{ReadsFolder, found_zones, is_feed_file, is_feed_table};
ghost use Rattle.feed_rules.specs.Levels as Levels;
ghost use Rattle.feed_rules.specs.Links.{AreTablesOf, StandFor};
ghost use Rattle.feed_rules.specs.Orders.{AreOrdersOf};
ghost use Rattle.feed_rules.specs.Zones.{ScansFolder, TellsZones};

use crate::file_faults::table_faults;
use crate::file_links::file_link_faults;
use crate::folder::RawFeed;
use crate::found::is_found;
use crate::known_ids::{LinkTables, link_ids};
use crate::links::LinkIds;
use crate::orders::{TripOrder, trip_order};
use crate::zone_links::zone_link_faults;
use crate::zones::{are_found, zone_faults};
use flex_model::{Fault, InputFile, Listed, NoMemory};
use geo_json::features_are_few;
use std::alloc::Global;

// The files of a feed, in their order.
const FEED_FILES: [InputFile; 13] = [
    InputFile::Agency,
    InputFile::Stops,
    InputFile::Routes,
    InputFile::Trips,
    InputFile::StopTimes,
    InputFile::Calendar,
    InputFile::CalendarDates,
    InputFile::Locations,
    InputFile::LocationGroups,
    InputFile::LocationGroupStops,
    InputFile::BookingRules,
    InputFile::Transfers,
    InputFile::Frequencies,
];

// Whether the feed can't do without the table.
fn needs(raw: &RawFeed, file: InputFile) -> bool
    ensures { result ≡ Levels.needs raw.now file }
{
    match file {
        InputFile::Agency | InputFile::Routes | InputFile::Trips | InputFile::StopTimes => true,
        InputFile::Stops => !are_found(&raw.zones),
        InputFile::Calendar => !is_found(InputFile::CalendarDates, &raw.calendar_dates),
        _ => false,
    }
}

// Adds faults to others.
fn add_all(faults: &mut Listed<Fault>, more: &Listed<Fault>) -> Result<(), NoMemory>
    ensures { OnOk result (faults.new ≡ faults.old ++ more.now) }
{
    for fault in more.as_slice() {
        faults.push(*fault)?;
    }
    Ok(())
}

// The faults of a file by itself.
fn own_faults(alloc: Global, raw: &RawFeed, file: InputFile) -> Result<Listed<Fault>, NoMemory>
    ensures { IfOk result (λ faults. faults ≡ Levels.own_faults raw.now file) }
{
    if let InputFile::Locations = file {
        return zone_faults(alloc, &raw.zones);
    }
    match raw.found(file) {
        Some(found) => table_faults(alloc, file, needs(raw, file), found),
        None => Ok(Listed::new(alloc)),
    }
}

// The faults of the files by themselves.
fn level_one(alloc: Global, raw: &RawFeed) -> Result<Listed<Fault>, NoMemory>
    ensures { IfOk result (λ faults. faults ≡ Levels.level_one raw.now) }
{
    let mut faults = Listed::new(alloc);
    for file in FEED_FILES {
        let own = own_faults(alloc, raw, file)?;
        add_all(&mut faults, &own)?;
    }
    Ok(faults)
}

// The tables that records name, and the zones.
fn link_tables(raw: &RawFeed) -> LinkTables<'_>
    ensures { (geo : Geo) (folder : Folder) → ReadsFolder raw.now folder
        → TellsZones geo (folder InputFiles.Locations) (found_zones raw.now)
        → Levels.level_one raw.now ≡ []
        → AreTablesOf result (tables geo folder) }
{
    LinkTables {
        routes: raw.table(InputFile::Routes),
        calendar: raw.table(InputFile::Calendar),
        dates: raw.table(InputFile::CalendarDates),
        trips: raw.table(InputFile::Trips),
        stops: raw.table(InputFile::Stops),
        groups: raw.table(InputFile::LocationGroups),
        booking_rules: raw.table(InputFile::BookingRules),
        zones: raw.zones(),
    }
}

// The faults of the zones beside the tables, none where there are no zones.
fn own_zone_links(
    alloc: Global,
    raw: &RawFeed,
    ids: &LinkIds<'_>,
) -> Result<Listed<Fault>, NoMemory>
    ensures { IfOk result (λ faults. (geo : Geo) (folder : Folder) → ReadsFolder raw.now folder
        → TellsZones geo (folder InputFiles.Locations) (found_zones raw.now)
        → Levels.level_one raw.now ≡ []
        → StandFor ids.now (tables geo folder)
        → faults ≡ link_faults geo folder InputFiles.Locations) }
{
    match raw.zones() {
        Some(zones) => zone_link_faults(alloc, zones, ids),
        None => Ok(Listed::new(alloc)),
    }
}

// The faults of a table beside the other files, none where there is no such table.
fn own_table_links<'a>(
    alloc: Global,
    raw: &'a RawFeed,
    file: InputFile,
    ids: &LinkIds<'_>,
    order: &TripOrder<'a>,
) -> Result<Listed<Fault>, NoMemory>
    ensures { IfOk result (λ faults. (geo : Geo) (folder : Folder) → is_feed_table file ≡ true
        → ReadsFolder raw.now folder
        → Levels.level_one raw.now ≡ []
        → StandFor ids.now (tables geo folder)
        → AreOrdersOf order.now (tables geo folder InputFiles.StopTimes)
        → faults ≡ link_faults geo folder file) }
{
    match raw.table(file) {
        Some(table) => file_link_faults(alloc, file, table, ids, order),
        None => Ok(Listed::new(alloc)),
    }
}

// The faults of a file of the feed beside the other files.
fn own_links<'a>(
    alloc: Global,
    raw: &'a RawFeed,
    file: InputFile,
    ids: &LinkIds<'_>,
    order: &TripOrder<'a>,
) -> Result<Listed<Fault>, NoMemory>
    ensures { IfOk result (λ faults. (geo : Geo) (folder : Folder) → is_feed_file file ≡ true
        → ReadsFolder raw.now folder
        → TellsZones geo (folder InputFiles.Locations) (found_zones raw.now)
        → Levels.level_one raw.now ≡ []
        → StandFor ids.now (tables geo folder)
        → AreOrdersOf order.now (tables geo folder InputFiles.StopTimes)
        → faults ≡ link_faults geo folder file) }
{
    if let InputFile::Locations = file {
        return own_zone_links(alloc, raw, ids);
    }
    own_table_links(alloc, raw, file, ids, order)
}

// The faults between the files.
fn all_link_faults<'a>(
    alloc: Global,
    raw: &'a RawFeed,
    ids: &LinkIds<'_>,
    order: &TripOrder<'a>,
) -> Result<Listed<Fault>, NoMemory>
    ensures { IfOk result (λ faults. (geo : Geo) (folder : Folder) → ReadsFolder raw.now folder
        → TellsZones geo (folder InputFiles.Locations) (found_zones raw.now)
        → Levels.level_one raw.now ≡ []
        → StandFor ids.now (tables geo folder)
        → AreOrdersOf order.now (tables geo folder InputFiles.StopTimes)
        → faults ≡ feed_level_two geo folder) }
{
    let mut faults = Listed::new(alloc);
    for file in FEED_FILES {
        let own = own_links(alloc, raw, file, ids, order)?;
        add_all(&mut faults, &own)?;
    }
    Ok(faults)
}

// The faults between the files, where there are none of the files by themselves.
fn level_two(alloc: Global, raw: &RawFeed) -> Result<Listed<Fault>, NoMemory>
    ensures { IfOk result (λ faults. (geo : Geo) (folder : Folder) → ReadsFolder raw.now folder
        → TellsZones geo (folder InputFiles.Locations) (found_zones raw.now)
        → Levels.level_one raw.now ≡ []
        → faults ≡ feed_level_two geo folder) }
{
    let found = link_tables(raw);
    let Some(stop_times) = raw.table(InputFile::StopTimes) else {
        return Ok(Listed::new(alloc));
    };
    let ids = link_ids(alloc, &found)?;
    let order = trip_order(alloc, stop_times)?;
    all_link_faults(alloc, raw, &ids, &order)
}

/// The fault list of the feed: of the files by themselves, and where that is empty, of the files beside each other. It is
/// that of every way to scan the text of locations.geojson that agrees with the grammar of JSON.
pub fn faults(alloc: Global, raw: &RawFeed) -> Result<Listed<Fault>, NoMemory>
    ensures { IfOk result (λ faults. (scan : List ℕ → Scan) (folder : Folder)
        → ReadsFolder raw.now folder → ScansFolder scan folder
        → faults ≡ feed_faults (zones_of scan) folder) }
{
    features_are_few();
    let alone = level_one(alloc, raw)?;
    if !alone.is_empty() {
        return Ok(alone);
    }
    level_two(alloc, raw)
}
