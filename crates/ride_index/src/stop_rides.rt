// The rides between records with times from a stop.

ghost use Rattle.std.specs.Prelude.{◌≡◌, ◌↔◌, ◌⊎◌, ◌<◌, ◌+ℤ◌, ◌+◌, ℕ, pos, Some, None, Contains, OnOk};
ghost use Rattle.flex_model.specs.ServiceDay.{BeginsAt};
ghost use Rattle.flex_model.specs.SoundFeed.{IsSoundFeed};
ghost use Rattle.flex_model.specs.SoundQuery.{IsSoundDayTable};
ghost use Rattle.flex_model.specs.declared.ride.Ride.{Ride};
ghost use Rattle.flex_model.specs.declared.times.Times.{Times};
ghost use Rattle.ride_index.specs.ActiveDays.{AreActiveDays};
ghost use Rattle.ride_index.specs.Boarded.{GainsBut, IsNeedless};
ghost use Rattle.ride_index.specs.Index.{IsIndexOf};
ghost use Rattle.ride_index.specs.TimedRides.{IsTimedRide};

use crate::active_days::{ActiveDays, day_after};
use crate::boarded::{Boarded, Carried};
use crate::index::RideIndex;
use crate::rides::add_needed_rides;
use crate::started::add_rides_at_starts;
use crate::times::{END_OF_TIMES, first_time, time_after};
use flex_model::{DayTable, Feed, Moment, NoMemory, Ride};
use service_days::{begin, first_travel_day};

// Adds the rides without a start of one service day from the stop, which begins then.
fn add_day_once(
    index: &RideIndex,
    feed: &Feed,
    days: &DayTable,
    active: &ActiveDays,
    day: i32,
    base: Moment,
    stop: u32,
    earliest: Moment,
    limit: Moment,
    carried: &Carried,
    boarded: &mut Boarded,
    found: &mut Vec<Ride>,
) -> Result<(), NoMemory>
    requires index { IsIndexOf feed.now index.now }
    requires feed { IsSoundFeed feed.now }
    requires days { IsSoundDayTable days.now }
    requires active { AreActiveDays feed.now days.now active.now }
    requires begins { BeginsAt days.now day base }
    ensures points { boarded.new.0 ≡ boarded.old.0 }
    ensures rides { OnOk result ((times : Times) → GainsBut
        (λ ride. IsTimedRide feed.now times days.now stop earliest limit ride
        × (ride.day ≡ day) × (ride.start ≡ None))
        (IsNeedless feed.now times days.now boarded.old.0 carried.now)
        found.old.items found.new.items) }
{
    let from = first_time(base, earliest);
    let until = time_after(base, limit);
    if until <= from {
        return Ok(());
    }
    let departures = index.once.between(stop, from, until);
    for departure in departures {
        add_needed_rides(
            feed, days, active, departure, day, limit, carried, boarded, found,
        )?;
    }
    Ok(())
}

// Adds the rides with a start of one service day from the stop.
fn add_day_at_starts(
    index: &RideIndex,
    feed: &Feed,
    days: &DayTable,
    active: &ActiveDays,
    day: i32,
    stop: u32,
    earliest: Moment,
    limit: Moment,
    found: &mut Vec<Ride>,
) -> Result<(), NoMemory>
    requires index { IsIndexOf feed.now index.now }
    requires feed { IsSoundFeed feed.now }
    requires days { IsSoundDayTable days.now }
    requires active { AreActiveDays feed.now days.now active.now }
    ensures { OnOk result ((times : Times) (ride : Ride) → Contains found.new.items ride
        ↔ (Contains found.old.items ride
        ⊎ (IsTimedRide feed.now times days.now stop earliest limit ride
        × (ride.day ≡ day) × ((start : ℕ) × (ride.start ≡ Some start))))) }
{
    let departures = index.at_starts.between(stop, 0, END_OF_TIMES);
    for departure in departures {
        add_rides_at_starts(feed, days, active, departure, day, earliest, limit, found)?;
    }
    Ok(())
}

// Adds the rides of one service day from the stop.
fn add_day(
    index: &RideIndex,
    feed: &Feed,
    days: &DayTable,
    active: &ActiveDays,
    day: i32,
    stop: u32,
    earliest: Moment,
    limit: Moment,
    carried: &Carried,
    boarded: &mut Boarded,
    found: &mut Vec<Ride>,
) -> Result<(), NoMemory>
    requires index { IsIndexOf feed.now index.now }
    requires feed { IsSoundFeed feed.now }
    requires days { IsSoundDayTable days.now }
    requires active { AreActiveDays feed.now days.now active.now }
    ensures points { boarded.new.0 ≡ boarded.old.0 }
    ensures rides { OnOk result ((times : Times) → GainsBut
        (λ ride. IsTimedRide feed.now times days.now stop earliest limit ride
        × (ride.day ≡ day))
        (IsNeedless feed.now times days.now boarded.old.0 carried.now)
        found.old.items found.new.items) }
{
    let Some(base) = begin(days, day) else {
        return Ok(());
    };
    add_day_once(
        index, feed, days, active, day, base, stop, earliest, limit, carried, boarded, found,
    )?;
    add_day_at_starts(index, feed, days, active, day, stop, earliest, limit, found)?;
    Ok(())
}

/// Adds rides from the stop that leave at the moment or later, arrive by the limit and go between two
/// records with times: all of them, on all travel days and at all starts, but some that are needless,
/// coming with what is carried.
pub fn add_timed_rides(
    index: &RideIndex,
    feed: &Feed,
    days: &DayTable,
    active: &ActiveDays,
    stop: u32,
    earliest: Moment,
    limit: Moment,
    carried: &Carried,
    boarded: &mut Boarded,
    found: &mut Vec<Ride>,
) -> Result<(), NoMemory>
    requires index { IsIndexOf feed.now index.now }
    requires feed { IsSoundFeed feed.now }
    requires days { IsSoundDayTable days.now }
    requires active { AreActiveDays feed.now days.now active.now }
    ensures points { boarded.new.0 ≡ boarded.old.0 }
    ensures rides { OnOk result ((times : Times) → GainsBut
        (IsTimedRide feed.now times days.now stop earliest limit)
        (IsNeedless feed.now times days.now boarded.old.0 carried.now)
        found.old.items found.new.items) }
{
    let first = first_travel_day(days);
    for ahead in 0..22_u32 {
        let day = day_after(first, ahead);
        add_day(
            index, feed, days, active, day, stop, earliest, limit, carried, boarded, found,
        )?;
    }
    Ok(())
}
