// The departures of a feed, in the order of its records.

ghost use Rattle.std.specs.Prelude.{◌≡◌, ◌↔◌, ◌⊎◌, ◌<◌, ◌^◌, All, Contains, IfOk, IsTrue, OnOk, length};
ghost use Rattle.flex_model.specs.Ride.{HasTimes};
ghost use Rattle.flex_model.specs.SoundFeed.{IsSoundFeed};
ghost use Rattle.ride_index.specs.Departures.{HasDepartures, IsAmong, IsBoardedAt, RunsSo};

use crate::departure::{Departure, DepartureKind, departure_at};
use flex_model::{Feed, NoMemory, Row, Trip};
use freq_trips::is_timed;
use std::alloc::Global;

// Adds the departure at a record, where there is one.
fn add_departure(
    row: &Row,
    trip: u32,
    at: u32,
    kind: DepartureKind,
    found: &mut Vec<Departure>,
) -> Result<(), NoMemory>
    ensures { OnOk result ((departure : Departure) → Contains found.new.items departure
        ↔ (Contains found.old.items departure ⊎ ((departure.trip ≡ trip)
        × (departure.row ≡ at) × IsBoardedAt kind row.now departure.named departure.departs))) }
{
    let Some(departure) = departure_at(row, trip, at, kind) else {
        return Ok(());
    };
    found.push(departure)?;
    Ok(())
}

// Adds the departures among the records of a trip.
fn add_rows(
    rows: &[Row],
    trip: u32,
    kind: DepartureKind,
    found: &mut Vec<Departure>,
) -> Result<(), NoMemory>
    requires { length rows.now < 2 ^ 32 }
    ensures { OnOk result ((departure : Departure) → Contains found.new.items departure
        ↔ (Contains found.old.items departure ⊎ IsAmong kind rows.now trip departure)) }
{
    for at in 0..rows.len() {
        add_departure(&rows[at], trip, at as u32, kind, found)?;
    }
    Ok(())
}

// Whether no record has a window.
fn are_timed(rows: &[Row]) -> bool
    ensures { IsTrue result ↔ All (λ row. HasTimes row.timing) rows.now }
{
    rows.iter().all(|row| is_timed(row.timing))
}

// Whether the trip has rides from records of the kind.
fn runs_so(trip: &Trip, kind: DepartureKind) -> bool
    ensures { IsTrue result ↔ RunsSo kind trip.now }
{
    match kind {
        DepartureKind::AtStarts => trip.frequent && are_timed(trip.rows.as_slice()),
        DepartureKind::BesideWindow => !trip.frequent && !are_timed(trip.rows.as_slice()),
        _ => !trip.frequent,
    }
}

// Adds the departures of the kind of a trip.
fn add_trip(
    trip: &Trip,
    number: u32,
    kind: DepartureKind,
    found: &mut Vec<Departure>,
) -> Result<(), NoMemory>
    requires { length trip.now.rows < 2 ^ 32 }
    ensures { OnOk result ((departure : Departure) → Contains found.new.items departure
        ↔ (Contains found.old.items departure
        ⊎ (RunsSo kind trip.now × IsAmong kind trip.now.rows number departure))) }
{
    if !runs_so(trip, kind) {
        return Ok(());
    }
    add_rows(trip.rows.as_slice(), number, kind, found)?;
    Ok(())
}

// The feed's departures of the kind.
pub(crate) fn all_departures(
    alloc: Global,
    feed: &Feed,
    kind: DepartureKind,
) -> Result<Vec<Departure>, NoMemory>
    requires { IsSoundFeed feed.now }
    ensures { IfOk result (λ found. HasDepartures feed.now kind found.items) }
{
    let trips = feed.trips.as_slice();
    let mut found = Vec::new(alloc);
    for number in 0..trips.len() {
        add_trip(&trips[number], number as u32, kind, &mut found)?;
    }
    Ok(found)
}
