// The rides between records with times that leave with a departure.

ghost use Rattle.std.specs.Prelude.{◌≡◌, ◌↔◌, ◌⊎◌, ◌+ℤ◌, ◌≤ℤ◌, ◌<◌, ℕ, pos, None, Contains, IfNone, IfSome, OnOk, OnSome, length};
ghost use Rattle.flex_model.specs.Ride as Rides;
ghost use Rattle.flex_model.specs.ServiceDay.{BeginsAt};
ghost use Rattle.flex_model.specs.SoundFeed.{IsSoundFeed};
ghost use Rattle.flex_model.specs.SoundQuery.{IsSoundDayTable};
ghost use Rattle.flex_model.specs.declared.ride.Ride.{Ride};
ghost use Rattle.flex_model.specs.declared.times.Times.{Times};
ghost use Rattle.service_days.specs.Running.{IsRunning};
ghost use Rattle.fixed_trips.specs.Timed.{MayRun};
ghost use Rattle.ride_index.specs.ActiveDays.{AreActiveDays};
ghost use Rattle.ride_index.specs.Boarded.{GainsBut, IsNeedless};
ghost use Rattle.ride_index.specs.Departures.{IsDeparture, IsTimedDeparture};
ghost use Rattle.ride_index.specs.declared.departure.DepartureKind.TheVariants.{Once};
ghost use Rattle.ride_index.specs.TimedRides.{IsRideWith, IsZero, boarded_with};

use crate::active_days::ActiveDays;
use crate::alightings::{add_alightings, moment_after};
use crate::boarded::{Boarded, Carried};
use crate::departure::Departure;
use flex_model::{DayTable, Feed, Moment, NoMemory, Place, Ride, Trip};
use freq_trips::shift;
use service_days::begin;

// The moment from which the times of a trip count that starts so, on a day that begins then.
pub(crate) fn zero_of(base: Moment, trip: &Trip, start: Option<u32>) -> Moment
    requires low { pos 0 ≤ℤ (base +ℤ pos 100000) }
    requires high { base ≤ℤ pos 10000000000 }
    ensures value { result ≡ base +ℤ Rides.shift trip.now start }
    ensures bounds { IsZero result }
{
    base + shift(trip, start)
}

// The ride that boards with the departure, before it is known where it alights.
fn boarded_ride(departure: &Departure, day: i32, start: Option<u32>, departs: Moment) -> Ride
    ensures { result ≡ boarded_with departure.now day start departs }
{
    Ride {
        trip: departure.trip,
        day,
        start,
        from_row: departure.row,
        to_row: departure.row,
        board: Place::Stop(departure.named),
        alight: Place::Stop(departure.named),
        departs,
        arrives: departs,
    }
}

// When the day begins, where the trip runs on it.
pub(crate) fn running_base(
    feed: &Feed,
    days: &DayTable,
    active: &ActiveDays,
    trip: &Trip,
    day: i32,
) -> Option<Moment>
    requires days { IsSoundDayTable days.now }
    requires active { AreActiveDays feed.now days.now active.now }
    requires service { trip.now.service < length feed.now.services }
    ensures begins { IfSome result (BeginsAt days.now day) }
    ensures running { OnSome result (IsRunning feed.now days.now trip.now day) }
    ensures none { IfNone result (IsRunning feed.now days.now trip.now day → ⊥) }
    ensures low { IfSome result (λ base. pos 0 ≤ℤ (base +ℤ pos 100000)) }
    ensures high { IfSome result (λ base. base ≤ℤ pos 10000000000) }
{
    if !active.is_running(feed, days, trip, day) {
        return None;
    }
    begin(days, day)
}

// Adds the rides that leave with the departure on the day, which begins then, where the trip starts
// so and may run.
pub(crate) fn add_started(
    feed: &Feed,
    days: &DayTable,
    trip: &Trip,
    departure: &Departure,
    day: i32,
    base: Moment,
    start: Option<u32>,
    limit: Moment,
    found: &mut Vec<Ride>,
) -> Result<(), NoMemory>
    requires feed { IsSoundFeed feed.now }
    requires departure { IsTimedDeparture feed.now trip.now departure.now }
    requires begins { BeginsAt days.now day base }
    requires may_run { MayRun feed.now days.now trip.now day start }
    requires low { pos 0 ≤ℤ (base +ℤ pos 100000) }
    requires high { base ≤ℤ pos 10000000000 }
    ensures { OnOk result ((times : Times) (ride : Ride) → Contains found.new.items ride
        ↔ (Contains found.old.items ride
        ⊎ IsRideWith feed.now times days.now departure.now day start limit ride)) }
{
    let zero = zero_of(base, trip, start);
    let boarded = boarded_ride(departure, day, start, moment_after(zero, departure.departs));
    add_alightings(trip.rows.as_slice(), &boarded, zero, limit, found)?;
    Ok(())
}

/// Adds the rides that leave with the departure on the day, alight at records with times and arrive
/// by the limit: each of them once, and no others. The departure is of a trip that `frequencies.txt`
/// doesn't name.
pub fn add_rides(
    feed: &Feed,
    days: &DayTable,
    active: &ActiveDays,
    departure: &Departure,
    day: i32,
    limit: Moment,
    found: &mut Vec<Ride>,
) -> Result<(), NoMemory>
    requires feed { IsSoundFeed feed.now }
    requires days { IsSoundDayTable days.now }
    requires active { AreActiveDays feed.now days.now active.now }
    requires departure { IsDeparture feed.now Once departure.now }
    ensures { OnOk result ((times : Times) (ride : Ride) → Contains found.new.items ride
        ↔ (Contains found.old.items ride
        ⊎ IsRideWith feed.now times days.now departure.now day None limit ride)) }
{
    let trip = &feed.trips[departure.trip as usize];
    let Some(base) = running_base(feed, days, active, trip, day) else {
        return Ok(());
    };
    add_started(feed, days, trip, departure, day, base, None, limit, found)?;
    Ok(())
}

// Adds the rides that leave with the departure on the day, alight at records with times and arrive
// by the limit, unless they are needless, coming with what is carried. The departure is of a trip that
// `frequencies.txt` doesn't name.
pub(crate) fn add_needed_rides(
    feed: &Feed,
    days: &DayTable,
    active: &ActiveDays,
    departure: &Departure,
    day: i32,
    limit: Moment,
    carried: &Carried,
    boarded: &mut Boarded,
    found: &mut Vec<Ride>,
) -> Result<(), NoMemory>
    requires feed { IsSoundFeed feed.now }
    requires days { IsSoundDayTable days.now }
    requires active { AreActiveDays feed.now days.now active.now }
    requires departure { IsDeparture feed.now Once departure.now }
    ensures points { boarded.new.0 ≡ boarded.old.0 }
    ensures rides { OnOk result ((times : Times) → GainsBut
        (IsRideWith feed.now times days.now departure.now day None limit)
        (IsNeedless feed.now times days.now boarded.old.0 carried.now)
        found.old.items found.new.items) }
{
    let trip = &feed.trips[departure.trip as usize];
    let Some(base) = running_base(feed, days, active, trip, day) else {
        return Ok(());
    };
    let zero = zero_of(base, trip, None);
    let number = boarded.number_of(departure.trip, day);
    if boarded.skips(number, carried, trip.rows.as_slice(), departure, zero) {
        return Ok(());
    }
    add_started(feed, days, trip, departure, day, base, None, limit, found)?;
    Ok(())
}
