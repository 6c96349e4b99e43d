// The departures of a run that count for one who books.

ghost use Rattle.std.specs.Prelude.{◌≡◌, ◌↔◌, ◌<◌, ◌≤◌, ◌+◌, ℕ, ℤ, IfNone, IfSome};
ghost use Rattle.flex_model.specs.declared.moment.Deadline.{Deadline};
ghost use Rattle.flex_model.specs.Booking.{IsBookable, IsDeadline};
ghost use Rattle.flex_model.specs.Run.{IsInRuns};
ghost use Rattle.flex_model.specs.ServiceDay.{IsTravelDay};
ghost use Rattle.flex_model.specs.SoundFeed.{IsSoundFeed, IsSoundWay};
ghost use Rattle.flex_model.specs.SoundQuery.{IsSoundDayTable};
ghost use Rattle.booking_rules.specs.Departures.{HasOneAtMoment, IsCoveredBy, IsKept, IsOpen, IsOpenUntil, LeavesInRange};
ghost use Rattle.booking_rules.specs.Departures as Departures;
ghost use Rattle.booking_rules.specs.Ends.{CanBookEnd, HasRows};
ghost use Rattle.booking_rules.specs.Narrowing.{IsNthOpen, RisesFor, kept_of, last_number};
ghost use Rattle.booking_rules.specs.Narrowing as Narrowing;
ghost use Rattle.booking_rules.specs.Openings.{IsInRange};

use crate::bookings::{bookable, ways_of};
use crate::closings::closing;
use crate::minutes::{minutes_to_deadline, minutes_until, minutes_until_open};
use crate::openings::opening;
use flex_model::{Arrives, DayTable, Deadline, Feed, Moment, Ride, Run, Way};

// The departure of the run with this number, counted from 0.
fn nth_departure(run: &Run, number: u32) -> Moment
    requires { IsInRange (Departures.nth_departure run.now number) }
    ensures { result ≡ Departures.nth_departure run.now number }
{
    run.first + 60 * i64::from(number)
}

// The ride at the departure of the run with this number.
fn nth_ride(ride: &Ride, run: &Run, number: u32) -> Ride
    requires { IsInRange (Departures.nth_departure run.now number) }
    ensures { result ≡ Narrowing.nth_ride ride.now run.now number }
{
    Ride {
        departs: nth_departure(run, number),
        ..*ride
    }
}

// The deadline at the last departure of the run, where it is open. There is none where no departure
// is.
fn latest_deadline(
    feed: &Feed,
    days: &DayTable,
    ride: &Ride,
    run: &Run,
    now: Moment,
    earliest: Moment,
) -> Option<Deadline>
    requires feed { IsSoundFeed feed.now }
    requires days { IsSoundDayTable days.now }
    requires rows { HasRows feed.now ride.now }
    requires day { IsTravelDay days.now ride.now.day }
    requires some { 0 < run.now.count }
    requires departs { LeavesInRange run.now }
    ensures last { IfSome result (λ latest.
        IsNthOpen feed.now days.now ride.now run.now now earliest (last_number run.now)
        × IsDeadline feed.now days.now (Narrowing.nth_ride ride.now run.now (last_number run.now))
        latest) }
    ensures none { IfNone result ((k : ℕ) → k < run.now.count
        → IsNthOpen feed.now days.now ride.now run.now now earliest k → ⊥) }
{
    let last = run.count - 1;
    if nth_departure(run, last) < earliest {
        return None;
    }
    bookable(feed, days, &nth_ride(ride, run, last), now)
}

// From which departure of the run on this end of the ride can be booked, where it can be at the
// last one.
fn first_of_end(feed: &Feed, days: &DayTable, ride: &Ride, run: &Run, way: Way, now: Moment) -> u32
    requires feed { IsSoundFeed feed.now }
    requires days { IsSoundDayTable days.now }
    requires way { IsSoundWay feed.now way }
    requires day { IsTravelDay days.now ride.now.day }
    requires some { 0 < run.now.count }
    requires departs { LeavesInRange run.now }
    requires last { CanBookEnd feed.now days.now
        (Narrowing.nth_ride ride.now run.now (last_number run.now)) way now }
    ensures { (k : ℕ) → k < run.now.count → (result ≤ k)
        ↔ CanBookEnd feed.now days.now (Narrowing.nth_ride ride.now run.now k) way now }
{
    let Way::Book(rule) = way else {
        return 0;
    };
    let Some(closes) = closing(feed, days, rule, ride.day, run.first) else {
        return 0;
    };
    let opens = opening(feed, days, rule, ride.day, run.first);
    minutes_until(closes, now).max(minutes_until_open(closes, opens))
}

// From which departure on those of the run are open, where the last one is.
fn first_open(
    feed: &Feed,
    days: &DayTable,
    ride: &Ride,
    run: &Run,
    now: Moment,
    earliest: Moment,
) -> u32
    requires feed { IsSoundFeed feed.now }
    requires days { IsSoundDayTable days.now }
    requires rows { HasRows feed.now ride.now }
    requires day { IsTravelDay days.now ride.now.day }
    requires some { 0 < run.now.count }
    requires departs { LeavesInRange run.now }
    requires last { IsNthOpen feed.now days.now ride.now run.now now earliest
        (last_number run.now) }
    ensures { (k : ℕ) → k < run.now.count → (result ≤ k)
        ↔ IsNthOpen feed.now days.now ride.now run.now now earliest k }
{
    let (pickup, drop_off) = ways_of(feed, ride);
    let boarding = first_of_end(feed, days, ride, run, pickup, now);
    let alighting = first_of_end(feed, days, ride, run, drop_off, now);
    minutes_until(run.first, earliest)
        .max(boarding)
        .max(alighting)
}

// For how many minutes the deadline rises from this departure of the run on, which can be booked,
// up to that of the last departure.
fn minutes_of_rise(
    feed: &Feed,
    days: &DayTable,
    ride: &Ride,
    run: &Run,
    now: Moment,
    latest: Deadline,
    first: u32,
) -> u32
    requires feed { IsSoundFeed feed.now }
    requires days { IsSoundDayTable days.now }
    requires rows { HasRows feed.now ride.now }
    requires day { IsTravelDay days.now ride.now.day }
    requires first { first < run.now.count }
    requires departs { LeavesInRange run.now }
    requires booked { IsBookable feed.now days.now (Narrowing.nth_ride ride.now run.now first) now }
    requires latest { IsDeadline feed.now days.now
        (Narrowing.nth_ride ride.now run.now (last_number run.now)) latest }
    ensures { RisesFor feed.now days.now ride.now run.now latest first result }
{
    let Some(deadline) = bookable(feed, days, &nth_ride(ride, run, first), now) else {
        return 0;
    };
    minutes_to_deadline(deadline, latest)
}

// What counts of the run, where it is open from the first departure on and the deadline rises for
// so many minutes from there.
fn kept(run: &Run, first: u32, minutes: u32) -> Run
    requires within { first + minutes < run.now.count }
    requires departs { LeavesInRange run.now }
    ensures { result ≡ kept_of run.now first minutes run.now.arrives }
{
    match run.arrives {
        Arrives::After(_) => Run {
            first: nth_departure(run, first),
            count: minutes + 1,
            arrives: run.arrives,
        },
        Arrives::At(_) => Run {
            first: nth_departure(run, first + minutes),
            count: 1,
            arrives: run.arrives,
        },
    }
}

/// The departures of the run that count for one who books at `now` or later and leaves at
/// `earliest` or later, both in seconds since 1970-01-01T00:00:00Z, as one run, without memory. A
/// departure counts where it can be booked then, and no other one that can be booked has a deadline
/// that is no earlier and an arrival that is no later, and differs in one of them. Of those that
/// agree in both, the earliest is kept alone. There is none exactly where no departure from
/// `earliest` on can be booked. The ride gives the trip, service day, start, records and places;
/// its moments aren't looked at. The run has a departure, and all of them lie from 0 to
/// 10,000,000,000. This project's own.
pub fn narrow(
    feed: &Feed,
    days: &DayTable,
    ride: &Ride,
    run: &Run,
    now: Moment,
    earliest: Moment,
) -> Option<Run>
    requires feed { IsSoundFeed feed.now }
    requires days { IsSoundDayTable days.now }
    requires rows { HasRows feed.now ride.now }
    requires day { IsTravelDay days.now ride.now.day }
    requires some { 0 < run.now.count }
    requires departs { LeavesInRange run.now }
    ensures kept { (departs arrives : ℤ) → IsInRuns result departs arrives
        ↔ IsKept feed.now days.now ride.now run.now now earliest departs arrives }
    ensures some { IfSome result (λ kept. 0 < kept.count) }
    ensures arrives { IfSome result (λ kept. kept.arrives ≡ run.now.arrives) }
    ensures single { IfSome result HasOneAtMoment }
    ensures none { IfNone result ((departs arrives : ℤ)
        → IsOpen feed.now days.now ride.now run.now now earliest departs arrives → ⊥) }

    // What is kept covers each departure that can be booked.
    ensures covered { IfSome result (λ kept. (departs arrives : ℤ) (deadline : Deadline)
        → IsOpenUntil feed.now days.now ride.now run.now now earliest departs arrives deadline
        → IsCoveredBy feed.now days.now ride.now kept arrives deadline) }

    // A bound, for the sums of callers.
    ensures departs { IfSome result LeavesInRange }
{
    let latest = latest_deadline(feed, days, ride, run, now, earliest)?;
    let first = first_open(feed, days, ride, run, now, earliest);
    let minutes = minutes_of_rise(feed, days, ride, run, now, latest, first);
    Some(kept(run, first, minutes))
}
