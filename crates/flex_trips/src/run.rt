// The rides between two records of a trip of which at least one has a window.

ghost use Rattle.std.specs.Prelude.{◌≡◌, ◌↔◌, IsTrue, None, Some, slice_get};
ghost use Rattle.flex_model.specs.Run.{IsRunOf};
ghost use Rattle.flex_model.specs.SoundFeed.{IsSoundFeed};
ghost use Rattle.flex_model.specs.SoundQuery.{IsSoundDayTable};
ghost use Rattle.flex_model.specs.SoundTimes.{AreSoundTimes};
ghost use Rattle.flex_model.specs.declared.trip.Trip.{Trip};
ghost use Rattle.flex_trips.specs.Windows.{HasWindowRow, MayRide};
ghost use Rattle.service_days.specs.Running.{IsRunning};

use crate::timing::timed_run;
use flex_model::{DayTable, Feed, Place, Row, Run, Times, Way};
use service_days::is_running;
use zone_test::serves;

// Whether one may board at the one record and place, and alight at the other.
fn may_ride(
    feed: &Feed,
    times: &Times,
    boarding: &Row,
    alighting: &Row,
    board: Place,
    alight: Place,
) -> bool
    requires feed { IsSoundFeed feed.now }
    requires times { AreSoundTimes feed.now times.now }
    ensures { IsTrue result
        ↔ MayRide feed.now times.now boarding.now alighting.now board alight }
{
    if boarding.pickup == Way::No || alighting.drop_off == Way::No {
        return false;
    }
    serves(feed, times, boarding.spot, board) && serves(feed, times, alighting.spot, alight)
}

/// The run of the trip on the service day from the one record to the other, between the two places,
/// as `flex_run` gives it, for a caller who knows that the trip's service runs on the day: its dates
/// aren't gone through again.
pub fn running_flex_run(
    feed: &Feed,
    times: &Times,
    days: &DayTable,
    trip: u32,
    day: i32,
    from_row: u32,
    to_row: u32,
    board: Place,
    alight: Place,
) -> Option<Run>
    requires feed { IsSoundFeed feed.now }
    requires times { AreSoundTimes feed.now times.now }
    requires days { IsSoundDayTable days.now }
    requires rows { HasWindowRow feed.now trip from_row to_row }
    requires running { (its : Trip) → slice_get feed.now.trips trip ≡ Some its
        → IsRunning feed.now days.now its day }
    ensures { IsRunOf feed.now times.now days.now (record {
      trip = trip;
      day = day;
      start = None;
      from_row = from_row;
      to_row = to_row;
      board = board;
      alight = alight;
    }) result }
{
    let trip_record = &feed.trips[trip as usize];
    let rows = trip_record.rows.as_slice();
    let boarding = &rows[from_row as usize];
    let alighting = &rows[to_row as usize];
    if to_row <= from_row {
        return None;
    }
    if trip_record.frequent {
        return None;
    }
    if !may_ride(feed, times, boarding, alighting, board, alight) {
        return None;
    }
    timed_run(
        times,
        days,
        day,
        board,
        alight,
        boarding.timing,
        alighting.timing,
    )
}

/// The run of the trip on the service day from the one record to the other, between the two places:
/// all permitted rides, without memory. At least one of the records has a window. The rides leave
/// on whole minutes of the window, ends included, or at the departure of a record with times. Each
/// arrives after the direct time, within the window of the second record, ends included; or all
/// arrive at the arrival of a record with times, for which each leaves early enough. Windows may go
/// past midnight, up to 167:59:59. There is none where no such ride is permitted: where the records
/// are not in order, `frequencies.txt` names the trip, the trip does not run on the day, a record
/// does not serve its place, one may not board or alight there, the list of direct times lacks the
/// two places in this order, or no minute is early and late enough.
pub fn flex_run(
    feed: &Feed,
    times: &Times,
    days: &DayTable,
    trip: u32,
    day: i32,
    from_row: u32,
    to_row: u32,
    board: Place,
    alight: Place,
) -> Option<Run>
    requires feed { IsSoundFeed feed.now }
    requires times { AreSoundTimes feed.now times.now }
    requires days { IsSoundDayTable days.now }
    requires rows { HasWindowRow feed.now trip from_row to_row }
    ensures { IsRunOf feed.now times.now days.now (record {
      trip = trip;
      day = day;
      start = None;
      from_row = from_row;
      to_row = to_row;
      board = board;
      alight = alight;
    }) result }
{
    if !is_running(feed, days, &feed.trips[trip as usize], day) {
        return None;
    }
    running_flex_run(
        feed, times, days, trip, day, from_row, to_row, board, alight,
    )
}
