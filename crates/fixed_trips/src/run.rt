// The ride between two records with times.

ghost use Rattle.std.specs.Prelude.{◌≡◌, ◌↔◌, ◌<◌, ◌^◌, ◌≤ℤ◌, ◌+ℤ◌, ℤ, pos, IfSome, IsTrue, Some, unsigned_abs};
ghost use Rattle.flex_model.specs.Place.{Serves};
ghost use Rattle.flex_model.specs.Ride.{HasTimes, IsShiftedMoment};
ghost use Rattle.flex_model.specs.Run.{IsInRuns, IsRunOf, Leg};
ghost use Rattle.flex_model.specs.SoundFeed.{IsSoundFeed};
ghost use Rattle.flex_model.specs.SoundQuery.{IsSoundDayTable};
ghost use Rattle.flex_model.specs.declared.feed.Feed.{Feed};
ghost use Rattle.flex_model.specs.declared.times.Times.{Times};
ghost use Rattle.fixed_trips.specs.Timed.{HasTimedRow, HasTiming, IsSingle, MayRide, NamesStop};

use crate::starts::may_run;
use flex_model::{Arrives, DayTable, Feed, Moment, Place, Row, Run, Spot, Timing, Way};
use freq_trips::shift;
use service_days::moment;

// Whether the record names just this place.
fn is_at(row: &Row, place: Place) -> bool
    requires { NamesStop row.now.spot }
    ensures { (feed : Feed) (times : Times) → IsTrue result ↔ Serves feed times row.now.spot place }
{
    match row.spot {
        Spot::Stop(stop) => place == Place::Stop(stop),
        _ => false,
    }
}

// Whether one may board at the one record and place, and alight at the other.
fn may_ride(boarding: &Row, alighting: &Row, board: Place, alight: Place) -> bool
    requires boards { NamesStop boarding.now.spot }
    requires alights { NamesStop alighting.now.spot }
    ensures { (feed : Feed) (times : Times)
        → IsTrue result ↔ MayRide feed times boarding.now alighting.now board alight }
{
    if boarding.pickup == Way::No || alighting.drop_off == Way::No {
        return false;
    }
    is_at(boarding, board) && is_at(alighting, alight)
}

// The moment of a time of the day that is shifted by so many seconds.
fn shifted_moment(days: &DayTable, day: i32, time: u32, by: i64) -> Option<Moment>
    requires days { IsSoundDayTable days.now }
    requires by { unsigned_abs by < 2 ^ 32 }
    ensures moments { (moment : ℤ) → IsShiftedMoment days.now day by time moment
        ↔ (result ≡ Some moment) }
    ensures low { IfSome result (λ moment. pos 0 ≤ℤ (moment +ℤ pos 5000000000)) }
    ensures high { IfSome result (λ moment. moment ≤ℤ pos 30000000000) }
{
    Some(moment(days, day, time)? + by)
}

// The ride of the day that leaves and arrives at the times of the records, shifted by so many
// seconds.
fn timed_run(days: &DayTable, day: i32, by: i64, boarding: Timing, alighting: Timing) -> Option<Run>
    requires days { IsSoundDayTable days.now }
    requires by { unsigned_abs by < 2 ^ 32 }
    requires boards { HasTimes boarding }
    requires alights { HasTimes alighting }
    ensures rides { (times : Times) (leg : Leg) (departs arrives : ℤ) → leg.day ≡ day
        → IsInRuns result departs arrives
        ↔ HasTiming times days.now leg by boarding alighting departs arrives }
    ensures single { IfSome result IsSingle }
{
    let Timing::Times { departs, .. } = boarding else {
        return None;
    };
    let Timing::Times { arrives, .. } = alighting else {
        return None;
    };
    let first = shifted_moment(days, day, departs, by)?;
    let last = shifted_moment(days, day, arrives, by)?;
    Some(Run {
        first,
        count: 1,
        arrives: Arrives::At(last),
    })
}

/// The run of the trip on the service day with this start, in seconds of that day, from the one
/// record to the other, between the two places: the one permitted ride. It leaves at the departure
/// of the one record and arrives at the arrival of the other, both later by as much as the start is
/// later than the departure of the trip's first record. Both records have times. There is none
/// where no such ride is permitted: where the records are not in order, the trip does not run on
/// the day, the start is none of its starts or is missing where it has some, a record of a trip
/// with starts has a window, a record does not name its place, or one may not board or alight
/// there.
pub fn fixed_run(
    feed: &Feed,
    days: &DayTable,
    trip: u32,
    day: i32,
    start: Option<u32>,
    from_row: u32,
    to_row: u32,
    board: Place,
    alight: Place,
) -> Option<Run>
    requires feed { IsSoundFeed feed.now }
    requires days { IsSoundDayTable days.now }
    requires from_row { HasTimedRow feed.now trip from_row }
    requires to_row { HasTimedRow feed.now trip to_row }
    ensures rides { (times : Times) → IsRunOf feed.now times days.now (record {
      trip = trip;
      day = day;
      start = start;
      from_row = from_row;
      to_row = to_row;
      board = board;
      alight = alight;
    }) result }
    ensures single { IfSome result IsSingle }
{
    let trip_record = &feed.trips[trip as usize];
    let rows = trip_record.rows.as_slice();
    let boarding = &rows[from_row as usize];
    let alighting = &rows[to_row as usize];
    if to_row <= from_row
        || !may_run(feed, days, trip_record, day, start)
        || !may_ride(boarding, alighting, board, alight)
    {
        return None;
    }
    let by = shift(trip_record, start);
    timed_run(days, day, by, boarding.timing, alighting.timing)
}
