// The trips of trips.txt, with their records by their numbers and their times filled.

ghost use Rattle.std.specs.Prelude.{◌≡◌, All, IfOk, length, map};
ghost use Rattle.std.specs.List.{AllZip};
ghost use Rattle.flex_model.specs.SoundTimes.{AreIds};
ghost use Rattle.flex_model.specs.declared.fault.InputFile.TheVariants as InputFiles;
ghost use Rattle.feed_meaning.specs.FeedLinks.{Tables};
ghost use Rattle.feed_meaning.specs.FeedValue.{trip_of};
ghost use Rattle.feed_rules.specs.Links.{records_in};
ghost use Rattle.feed_load.specs.Repeats.{HasHeadway};
ghost use Rattle.feed_load.specs.TableValues.{values_in};
ghost use Rattle.feed_load.specs.WholeTrips.{AreRowsOf, AreRowsWith, AreTripRecords, AreTripTables, IsWhole};

use crate::drafts::{Draft, row_with};
use crate::linear_times::{GivenRow, fill_times};
use crate::named_ids::FeedIds;
use crate::open_trips::{OpenTrip, open_trips};
use feed_tables::Table;
use flex_model::{Listed, NoMemory, Row, Trip};
use std::alloc::Global;

// The times that records give.
fn given_times(alloc: Global, drafts: &[Draft]) -> Result<Vec<GivenRow>, NoMemory>
    ensures { IfOk result (λ times. times.items ≡ map (λ draft. draft.given) drafts.now) }
{
    let times = drafts.iter().map(|draft| draft.given).collect(alloc)?;
    Ok(times)
}

// The rows of records with these times.
fn rows_with(alloc: Global, drafts: &[Draft], times: &[GivenRow]) -> Result<Listed<Row>, NoMemory>
    requires { length times.now ≡ length drafts.now }
    ensures { IfOk result (AreRowsWith drafts.now times.now) }
{
    let mut rows = Listed::new(alloc);
    for (index, draft) in drafts.iter().enumerate() {
        rows.push(row_with(draft, times[index]))?;
    }
    Ok(rows)
}

// The rows of a trip's records, with their times filled.
fn filled_rows(alloc: Global, drafts: &[Draft]) -> Result<Listed<Row>, NoMemory>
    ensures { IfOk result (AreRowsOf drafts.now) }
{
    let mut times = given_times(alloc, drafts)?;
    fill_times(times.as_mut_slice());
    rows_with(alloc, drafts, times.as_slice())
}

// The trip with its records by their numbers.
fn whole_trip(alloc: Global, trip: OpenTrip) -> Result<Trip, NoMemory>
    ensures { IfOk result (IsWhole trip) }
{
    let OpenTrip {
        id,
        service,
        repeats,
        drafts,
    } = trip;
    let mut drafts = drafts.into_vec();
    drafts.sort_by_key(|draft| draft.sequence)?;
    let rows = filled_rows(alloc, drafts.as_slice())?;
    Ok(Trip {
        id,
        service,
        frequent: !repeats.is_empty(),
        repeats,
        rows,
    })
}

// The trips with their records by their numbers.
fn whole_trips(alloc: Global, found: Vec<OpenTrip>) -> Result<Listed<Trip>, NoMemory>
    ensures { IfOk result (AllZip IsWhole found.items) }
{
    let mut trips = Listed::new(alloc);
    for trip in found {
        trips.push(whole_trip(alloc, trip)?)?;
    }
    Ok(trips)
}

/// The trips of trips.txt in the order of the file, each with its records by their numbers.
pub(crate) fn all_trips(
    alloc: Global,
    trips: &Table,
    stop_times: &Table,
    frequencies: Option<&Table>,
    ids: &FeedIds<'_>,
) -> Result<Listed<Trip>, NoMemory>
    requires ids { AreIds (map (λ r. r "trip_id") (values_in trips.now)) }
    requires records { AreTripRecords (values_in stop_times.now) }
    requires headways { All HasHeadway (records_in frequencies) }
    ensures { IfOk result (λ found. (tables : Tables)
        → AreTripTables trips.now stop_times.now frequencies.entry ids.now tables
        → found ≡ map (trip_of tables) (tables InputFiles.Trips)) }
{
    let found = open_trips(alloc, trips, stop_times, frequencies, ids)?;
    whole_trips(alloc, found)
}
