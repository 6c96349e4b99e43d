// The tables of an accepted folder, or the faults of another.

ghost use Rattle.std.specs.Prelude.{◌≡◌, ℕ, List, [], IfOk};
ghost use Rattle.feed_meaning.specs.FeedFaults.{feed_faults};
ghost use Rattle.feed_meaning.specs.Folder.{Folder};
ghost use Rattle.feed_meaning.specs.Locations.{Scan, zones_of};
ghost use Rattle.feed_rules.specs.Folders.{ReadsFolder};
ghost use Rattle.feed_rules.specs.Zones.{ScansFolder};
ghost use Rattle.feed_load.specs.Judged.{AreFound, IsJudged};

use crate::tables::FeedTables;
use feed_rules::{RawFeed, faults};
use flex_model::{Fault, InputFile, Listed, NoMemory};
use geo_json::features_are_few;
use std::alloc::Global;

/// What a folder is found to be.
#[derive(Drop)]
pub(crate) enum Judged<'a> {
    /// It has no faults, and has these tables and zones.
    Accepted(FeedTables<'a>),
    /// It has these faults.
    Faulty(Listed<Fault>),
}

// The tables and zones that a feed is read from. A folder without faults has those that are needed.
fn found_tables(raw: &RawFeed) -> Option<FeedTables<'_>>
    ensures { (scan : List ℕ → Scan) (folder : Folder) → ReadsFolder raw.now folder
        → ScansFolder scan folder → feed_faults (zones_of scan) folder ≡ []
        → AreFound (zones_of scan) folder result }
{
    features_are_few();
    let trips = raw.table(InputFile::Trips)?;
    let stop_times = raw.table(InputFile::StopTimes)?;
    Some(FeedTables {
        stops: raw.table(InputFile::Stops),
        trips,
        stop_times,
        calendar: raw.table(InputFile::Calendar),
        dates: raw.table(InputFile::CalendarDates),
        zones: raw.zones(),
        groups: raw.table(InputFile::LocationGroups),
        group_stops: raw.table(InputFile::LocationGroupStops),
        booking_rules: raw.table(InputFile::BookingRules),
        transfers: raw.table(InputFile::Transfers),
        frequencies: raw.table(InputFile::Frequencies),
    })
}

/// Judges a folder by its tables: the tables where it has no faults, else its fault list.
pub(crate) fn judge(alloc: Global, raw: &RawFeed) -> Result<Judged<'_>, NoMemory>
    ensures { IfOk result (λ judged. (scan : List ℕ → Scan) (folder : Folder)
        → ReadsFolder raw.now folder → ScansFolder scan folder
        → IsJudged (zones_of scan) folder judged) }
{
    let found = faults(alloc, raw)?;
    if !found.is_empty() {
        return Ok(Judged::Faulty(found));
    }
    match found_tables(raw) {
        Some(tables) => Ok(Judged::Accepted(tables)),
        None => Ok(Judged::Faulty(found)),
    }
}
