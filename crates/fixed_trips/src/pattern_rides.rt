// The first ride of the trips of a pattern.

ghost use Rattle.std.specs.Prelude.{◌≡◌, ◌↔◌, ◌≤ℤ◌, All, IsTrue, Some, false};
ghost use Rattle.flex_model.specs.Place.{Serves};
ghost use Rattle.flex_model.specs.SoundFeed.{IsSoundFeed};
ghost use Rattle.flex_model.specs.SoundQuery.{IsSoundDayTable};
ghost use Rattle.flex_model.specs.declared.feed.Feed.{Feed};
ghost use Rattle.flex_model.specs.declared.place.Place.{Place};
ghost use Rattle.flex_model.specs.declared.ride.Ride.{Ride};
ghost use Rattle.flex_model.specs.declared.times.Times.{Times};
ghost use Rattle.fixed_trips.specs.PatternParts.{IsEarlier, IsPatternTrip, IsRideOfOne, IsRideOfTrip, IsTripRide};
ghost use Rattle.fixed_trips.specs.Patterns.{ComesNoLater, IsFirst};
ghost use Rattle.fixed_trips.specs.Timed.{NamesStop};

use crate::pattern_trips::PatternTrip;
use crate::run::fixed_run;
use flex_model::{Arrives, DayTable, Feed, Moment, Place, Ride, Spot};
use service_days::first_travel_day;

// The stop that is named.
fn stop_named(at: Spot) -> Option<Place>
    requires { NamesStop at }
    ensures { (feed : Feed) (times : Times) (place : Place)
        → (result ≡ Some place) ↔ Serves feed times at place }
{
    match at {
        Spot::Stop(stop) => Some(Place::Stop(stop)),
        _ => None,
    }
}

// The ride of the trip on the day between the two records, if it is permitted.
fn ride_on(
    feed: &Feed,
    days: &DayTable,
    trip: u32,
    day: i32,
    from_row: u32,
    to_row: u32,
) -> Option<Ride>
    requires feed { IsSoundFeed feed.now }
    requires days { IsSoundDayTable days.now }
    requires trip { IsPatternTrip feed.now trip }
    ensures { (times : Times) (ride : Ride) → (result ≡ Some ride)
        ↔ IsTripRide feed.now times days.now trip day from_row to_row ride }
{
    let rows = feed.trips[trip as usize].rows.as_slice();
    let Some(boarding) = rows.get(from_row as usize) else {
        return None;
    };
    let Some(alighting) = rows.get(to_row as usize) else {
        return None;
    };
    let Some(board) = stop_named(boarding.spot) else {
        return None;
    };
    let Some(alight) = stop_named(alighting.spot) else {
        return None;
    };
    let Some(run) = fixed_run(feed, days, trip, day, None, from_row, to_row, board, alight) else {
        return None;
    };
    let Arrives::At(arrives) = run.arrives else {
        return None;
    };
    Some(Ride {
        trip,
        day,
        start: None,
        from_row,
        to_row,
        board,
        alight,
        departs: run.first,
        arrives,
    })
}

// The ride, where it leaves no earlier than this.
fn from_then(ride: Option<Ride>, earliest: Moment) -> Option<Ride>
    ensures { (x : Ride) → (result ≡ Some x) ↔ ((ride ≡ Some x) × (earliest ≤ℤ x.departs)) }
{
    let Some(found) = ride else {
        return None;
    };
    if found.departs < earliest {
        return None;
    }
    Some(found)
}

// Whether the one ride comes no later than the other.
fn comes_no_later(a: &Ride, b: &Ride) -> bool
    ensures yes { IsTrue result → ComesNoLater a.now b.now }
    ensures no { result ≡ false → ComesNoLater b.now a.now }
{
    if a.arrives != b.arrives {
        return a.arrives < b.arrives;
    }
    if a.trip != b.trip {
        return a.trip < b.trip;
    }
    a.day <= b.day
}

// The ride that comes first.
fn earlier(a: Option<Ride>, b: Option<Ride>) -> Option<Ride>
    ensures { IsEarlier a b result }
{
    let Some(first) = a else {
        return b;
    };
    let Some(second) = b else {
        return a;
    };
    if comes_no_later(&first, &second) {
        return a;
    }
    b
}

// The first ride of the trip between the two records that leaves no earlier than this.
fn first_of_trip(
    feed: &Feed,
    days: &DayTable,
    trip: u32,
    from_row: u32,
    to_row: u32,
    earliest: Moment,
) -> Option<Ride>
    requires feed { IsSoundFeed feed.now }
    requires days { IsSoundDayTable days.now }
    requires trip { IsPatternTrip feed.now trip }
    ensures { (times : Times) → IsFirst (IsRideOfTrip feed.now times days.now trip from_row
        to_row earliest) result }
{
    let first = first_travel_day(days);
    let mut found = None;
    for day in first..first + 22 {
        let ride = ride_on(feed, days, trip, day, from_row, to_row);
        found = earlier(found, from_then(ride, earliest));
    }
    found
}

// The first ride of these trips between the two records that leaves no earlier than this.
pub(crate) fn first_of_trips(
    feed: &Feed,
    days: &DayTable,
    trips: &[PatternTrip],
    from_row: u32,
    to_row: u32,
    earliest: Moment,
) -> Option<Ride>
    requires feed { IsSoundFeed feed.now }
    requires days { IsSoundDayTable days.now }
    requires trips { All (λ trip. IsPatternTrip feed.now trip.trip) trips.now }
    ensures { (times : Times) → IsFirst (IsRideOfOne feed.now times days.now trips.now
        from_row to_row earliest) result }
{
    let mut found = None;
    for number in 0..trips.len() {
        let trip = trips[number].trip;
        let ride = first_of_trip(feed, days, trip, from_row, to_row, earliest);
        found = earlier(found, ride);
    }
    found
}
