// Whether a ride leaves and arrives as its records say.

ghost use Rattle.std.specs.Prelude.{◌↔◌, IsTrue};
ghost use Rattle.flex_model.specs.Flaw.{HasDirectTime, OnRecords};
ghost use Rattle.flex_model.specs.Ride as spec;
ghost use Rattle.flex_model.specs.SoundQuery.{IsSoundDayTable};
ghost use Rattle.flex_model.specs.Times.{AreRisingTimes};
ghost use Rattle.journey_judge.specs.Timings.{LeavesTime};

use crate::records::records_of;
use crate::windows::{arrives_in_window, is_after, is_by, is_moment, leaves_in_window};
use flex_model::{DayTable, Feed, Ride, Times, Timing, direct};
use freq_trips::{is_timed, shift};

// Whether the ride leaves as the record says where it is boarded.
fn leaves(days: &DayTable, ride: &Ride, by: i64, boarding: Timing) -> bool
    requires { IsSoundDayTable days.now }
    ensures { IsTrue result ↔ spec.Leaves days.now ride.now by boarding }
{
    match boarding {
        Timing::Times { departs, .. } => is_moment(days, ride.day, by, departs, ride.departs),
        Timing::Window { start, end } => leaves_in_window(days, ride, start, end),
    }
}

// Whether there is a direct time between the ride's places, where one of the records has a window.
fn has_direct(times: &Times, ride: &Ride, boarding: Timing, alighting: Timing) -> bool
    requires { AreRisingTimes times.now }
    ensures { IsTrue result ↔ HasDirectTime times.now ride.now boarding alighting }
{
    if is_timed(boarding) && is_timed(alighting) {
        return true;
    }
    direct(times, ride.board, ride.alight).is_some()
}

// Whether the ride takes just the direct time between its places.
fn takes_direct_time(times: &Times, ride: &Ride) -> bool
    requires { AreRisingTimes times.now }
    ensures { IsTrue result ↔ spec.TakesDirectTime times.now ride.now }
{
    let Some(seconds) = direct(times, ride.board, ride.alight) else {
        return false;
    };
    is_after(ride.departs, seconds, ride.arrives)
}

// Whether the direct time between the ride's places fits into it.
fn fits_direct_time(times: &Times, ride: &Ride) -> bool
    requires { AreRisingTimes times.now }
    ensures { IsTrue result ↔ spec.FitsDirectTime times.now ride.now }
{
    let Some(seconds) = direct(times, ride.board, ride.alight) else {
        return false;
    };
    is_by(ride.departs, seconds, ride.arrives)
}

// Whether the ride leaves enough time to arrive, where the record has a window at which it is
// boarded.
fn leaves_time(times: &Times, ride: &Ride, boarding: Timing) -> bool
    requires { AreRisingTimes times.now }
    ensures { IsTrue result ↔ LeavesTime times.now ride.now boarding }
{
    match boarding {
        Timing::Times { .. } => true,
        Timing::Window { .. } => fits_direct_time(times, ride),
    }
}

// Whether the ride arrives as the records say.
fn arrives(
    times: &Times,
    days: &DayTable,
    ride: &Ride,
    by: i64,
    boarding: Timing,
    alighting: Timing,
) -> bool
    requires times { AreRisingTimes times.now }
    requires days { IsSoundDayTable days.now }
    ensures { IsTrue result ↔ spec.Arrives times.now days.now ride.now by boarding alighting }
{
    match alighting {
        Timing::Times { arrives, .. } => {
            if !leaves_time(times, ride, boarding) {
                return false;
            }
            is_moment(days, ride.day, by, arrives, ride.arrives)
        }
        Timing::Window { start, end } => {
            if !takes_direct_time(times, ride) {
                return false;
            }
            arrives_in_window(days, ride, start, end)
        }
    }
}

/// Whether the ride leaves when it should.
pub fn departs_rightly(feed: &Feed, days: &DayTable, ride: &Ride) -> bool
    requires { IsSoundDayTable days.now }
    ensures { IsTrue result ↔ OnRecords feed.now ride.now (λ trip boarding alighting.
        spec.Leaves days.now ride.now (spec.shift trip ride.now.start) boarding.timing) }
{
    let Some(records) = records_of(feed, ride) else {
        return false;
    };
    leaves(
        days,
        ride,
        shift(records.trip, ride.start),
        records.boarding.timing,
    )
}

/// Whether the ride has a direct time, where it needs one.
pub fn has_direct_time(feed: &Feed, times: &Times, ride: &Ride) -> bool
    requires { AreRisingTimes times.now }
    ensures { IsTrue result ↔ OnRecords feed.now ride.now (λ trip boarding alighting.
        HasDirectTime times.now ride.now boarding.timing alighting.timing) }
{
    let Some(records) = records_of(feed, ride) else {
        return false;
    };
    has_direct(
        times,
        ride,
        records.boarding.timing,
        records.alighting.timing,
    )
}

/// Whether the ride arrives when it should.
pub fn arrives_rightly(feed: &Feed, times: &Times, days: &DayTable, ride: &Ride) -> bool
    requires times { AreRisingTimes times.now }
    requires days { IsSoundDayTable days.now }
    ensures { IsTrue result ↔ OnRecords feed.now ride.now (λ trip boarding alighting.
        spec.Arrives times.now days.now ride.now (spec.shift trip ride.now.start)
        boarding.timing alighting.timing) }
{
    let Some(records) = records_of(feed, ride) else {
        return false;
    };
    let by = shift(records.trip, ride.start);
    arrives(
        times,
        days,
        ride,
        by,
        records.boarding.timing,
        records.alighting.timing,
    )
}
