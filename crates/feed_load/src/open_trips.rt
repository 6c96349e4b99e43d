// The trips of trips.txt with their records as they stand in the files.

ghost use Rattle.std.specs.Prelude.{◌≡◌, [], ◌∷◌, IfOk, OnOk, map};
ghost use Rattle.flex_model.specs.SoundTimes.{AreIds};
ghost use Rattle.feed_rules.specs.Links.{records_in};
ghost use Rattle.feed_load.specs.OpenTrips as Opened;
ghost use Rattle.feed_load.specs.OpenTrips.{AreTripIds, empty_trip_by, open_trip, with_drafts, with_repeats};
ghost use Rattle.feed_load.specs.TableValues.{values_in};

use crate::drafts::{Draft, draft_columns, draft_of};
use crate::fields::text_of;
use crate::named_ids::FeedIds;
use crate::repeats::{repeat_columns, repeat_of};
use feed_meaning::{Ids, ids_in, value};
use feed_tables::Table;
use flex_model::{Listed, NoMemory, Repeat, Text};
use std::alloc::Global;

/// A trip whose records are still being gathered.
#[derive(Debug, Drop)]
pub(crate) struct OpenTrip {
    pub(crate) id: Text,
    pub(crate) service: u32,
    pub(crate) repeats: Listed<Repeat>,
    pub(crate) drafts: Listed<Draft>,
}

// A trip without records.
fn empty_trip(
    alloc: Global,
    id: &str,
    service: &str,
    service_ids: &Ids<'_>,
) -> Result<OpenTrip, NoMemory>
    ensures { IfOk result (λ trip. trip ≡ empty_trip_by service_ids.now id.now service.now) }
{
    Ok(OpenTrip {
        id: text_of(alloc, id)?,
        service: service_ids.index_of(service).unwrap_or(0),
        repeats: Listed::new(alloc),
        drafts: Listed::new(alloc),
    })
}

// The trips without records, in the order of the file.
fn empty_trips(
    alloc: Global,
    table: &Table,
    service_ids: &Ids<'_>,
) -> Result<Vec<OpenTrip>, NoMemory>
    ensures { IfOk result (λ trips.
        trips.items ≡ map (Opened.empty_trip service_ids.now) (values_in table.now)) }
{
    let trip_id = table.column("trip_id");
    let service_id = table.column("service_id");
    let mut trips = Vec::new(alloc);
    for row in table.rows() {
        let id = value(&row, trip_id);
        let service = value(&row, service_id);
        trips.push(empty_trip(alloc, id, service, service_ids)?)?;
    }
    Ok(trips)
}

// Adds a record of stop_times.txt at the end of a trip.
fn add_draft(trip: &mut OpenTrip, draft: Draft) -> Result<(), NoMemory>
    ensures { OnOk result (trip.new ≡ with_drafts (draft ∷ []) trip.old) }
{
    trip.drafts.push(draft)
}

// Adds a repeat at the end of a trip.
fn add_repeat(trip: &mut OpenTrip, repeat: Repeat) -> Result<(), NoMemory>
    ensures { OnOk result (trip.new ≡ with_repeats (repeat ∷ []) trip.old) }
{
    trip.repeats.push(repeat)
}

// The trips with their records of stop_times.txt: one pass over the table, in which each record
// goes to its trip.
fn with_stop_times(
    mut trips: Vec<OpenTrip>,
    trip_ids: &Ids<'_>,
    stop_times: &Table,
    ids: &FeedIds<'_>,
) -> Result<Vec<OpenTrip>, NoMemory>
    requires { AreTripIds trip_ids.now trips.items }
    ensures { IfOk result (λ found. found.items
        ≡ map (Opened.with_stop_times ids.now (values_in stop_times.now)) trips.items) }
{
    let trip_id = stop_times.column("trip_id");
    let columns = draft_columns(stop_times);
    for row in stop_times.rows() {
        let Some(index) = trip_ids.index_of(value(&row, trip_id)) else {
            continue;
        };
        let draft = draft_of(&row, columns, ids);
        add_draft(&mut trips[index as usize], draft)?;
    }
    Ok(trips)
}

// The trips with their records of frequencies.txt, in such a pass too.
fn with_frequencies(
    mut trips: Vec<OpenTrip>,
    trip_ids: &Ids<'_>,
    frequencies: &Table,
) -> Result<Vec<OpenTrip>, NoMemory>
    requires { AreTripIds trip_ids.now trips.items }
    ensures { IfOk result (λ found. found.items
        ≡ map (Opened.with_frequencies (values_in frequencies.now)) trips.items) }
{
    let trip_id = frequencies.column("trip_id");
    let columns = repeat_columns(frequencies);
    for row in frequencies.rows() {
        let Some(index) = trip_ids.index_of(value(&row, trip_id)) else {
            continue;
        };
        let repeat = repeat_of(&row, columns);
        add_repeat(&mut trips[index as usize], repeat)?;
    }
    Ok(trips)
}

/// The trips with their records as they stand in the files: one pass over each file.
pub(crate) fn open_trips(
    alloc: Global,
    trips: &Table,
    stop_times: &Table,
    frequencies: Option<&Table>,
    ids: &FeedIds<'_>,
) -> Result<Vec<OpenTrip>, NoMemory>
    requires { AreIds (map (λ r. r "trip_id") (values_in trips.now)) }
    ensures { IfOk result (λ found. found.items
        ≡ map (open_trip ids.now (records_in frequencies.entry) (values_in stop_times.now))
        (values_in trips.now)) }
{
    let trip_ids = ids_in(alloc, trips, "trip_id")?;
    let empty = empty_trips(alloc, trips, &ids.services)?;
    let gathered = with_stop_times(empty, &trip_ids, stop_times, ids)?;
    match frequencies {
        Some(table) => with_frequencies(gathered, &trip_ids, table),
        None => Ok(gathered),
    }
}
