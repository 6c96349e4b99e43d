// The rides at the starts of a trip that `frequencies.txt` names.

ghost use Rattle.std.specs.Prelude.{◌≡◌, ◌↔◌, ◌⊎◌, ◌+ℤ◌, ◌≤ℤ◌, ◌<◌, ◌≤◌, ℕ, pos, Some, Contains, OnOk};
ghost use Rattle.flex_model.specs.ServiceDay.{BeginsAt};
ghost use Rattle.flex_model.specs.SoundFeed.{IsSoundFeed};
ghost use Rattle.flex_model.specs.SoundQuery.{IsSoundDayTable};
ghost use Rattle.flex_model.specs.declared.ride.Ride.{Ride};
ghost use Rattle.flex_model.specs.declared.times.Times.{Times};
ghost use Rattle.service_days.specs.Running.{IsRunning};
ghost use Rattle.ride_index.specs.ActiveDays.{AreActiveDays};
ghost use Rattle.ride_index.specs.Departures.{IsDeparture, IsTimedDeparture, RunsSo};
ghost use Rattle.ride_index.specs.declared.departure.DepartureKind.TheVariants.{AtStarts};
ghost use Rattle.ride_index.specs.TimedRides.{IsRideAtStart, IsRideBetween};

use crate::active_days::ActiveDays;
use crate::alightings::moment_after;
use crate::departure::Departure;
use crate::rides::{add_started, running_base, zero_of};
use crate::times::{first_time, time_after};
use flex_model::{DayTable, Feed, Moment, NoMemory, Ride, Trip};
use freq_trips::next_start;

// Adds the rides that leave with the departure on the day, which begins then, at starts of the trip
// no less than the one and less than the other, where the trip runs on the day.
fn add_between(
    feed: &Feed,
    days: &DayTable,
    trip: &Trip,
    departure: &Departure,
    day: i32,
    base: Moment,
    from: u32,
    until: u32,
    limit: Moment,
    found: &mut Vec<Ride>,
) -> Result<(), NoMemory>
    requires feed { IsSoundFeed feed.now }
    requires departure { IsTimedDeparture feed.now trip.now departure.now }
    requires begins { BeginsAt days.now day base }
    requires running { IsRunning feed.now days.now trip.now day }
    requires runs_so { RunsSo AtStarts trip.now }
    requires low { pos 0 ≤ℤ (base +ℤ pos 100000) }
    requires high { base ≤ℤ pos 10000000000 }
    ensures { OnOk result ((times : Times) (ride : Ride) → Contains found.new.items ride
        ↔ (Contains found.old.items ride ⊎
        IsRideBetween feed.now times days.now departure.now day from until limit ride)) }
{
    let mut least = from;
    while least < until {
        let Some(start) = next_start(trip, least) else {
            return Ok(());
        };
        if until <= start {
            return Ok(());
        }
        add_started(
            feed,
            days,
            trip,
            departure,
            day,
            base,
            Some(start),
            limit,
            found,
        )?;
        least = start + 1;
    }
    Ok(())
}

/// Adds the rides that leave with the departure on the day at the moment or later, alight at records
/// with times and arrive by the limit: for each start of its trip each of them once, and no others.
/// The departure is of a trip that `frequencies.txt` names.
pub fn add_rides_at_starts(
    feed: &Feed,
    days: &DayTable,
    active: &ActiveDays,
    departure: &Departure,
    day: i32,
    earliest: Moment,
    limit: Moment,
    found: &mut Vec<Ride>,
) -> Result<(), NoMemory>
    requires feed { IsSoundFeed feed.now }
    requires days { IsSoundDayTable days.now }
    requires active { AreActiveDays feed.now days.now active.now }
    requires departure { IsDeparture feed.now AtStarts departure.now }
    ensures { OnOk result ((times : Times) (ride : Ride) → Contains found.new.items ride
        ↔ (Contains found.old.items ride ⊎
        IsRideAtStart feed.now times days.now departure.now day earliest limit ride)) }
{
    let trip = &feed.trips[departure.trip as usize];
    let Some(base) = running_base(feed, days, active, trip, day) else {
        return Ok(());
    };
    let origin = moment_after(zero_of(base, trip, Some(0)), departure.departs);
    let from = first_time(origin, earliest);
    let until = time_after(origin, limit);
    add_between(
        feed, days, trip, departure, day, base, from, until, limit, found,
    )?;
    Ok(())
}
