// The days and starts of a trip.

ghost use Rattle.std.specs.Prelude.{◌↔◌, ◌<◌, All, IsTrue, length};
ghost use Rattle.flex_model.specs.SoundFeed.{IsSoundRepeat};
ghost use Rattle.flex_model.specs.SoundQuery.{IsSoundDayTable};
ghost use Rattle.fixed_trips.specs.Timed.{MayRun};

use flex_model::{DayTable, Feed, Trip};
use freq_trips::starts_rightly;
use service_days::{active, is_travel_day};

// Whether rides of the trip that start so may run on the day.
pub(crate) fn may_run(
    feed: &Feed,
    days: &DayTable,
    trip: &Trip,
    day: i32,
    start: Option<u32>,
) -> bool
    requires days { IsSoundDayTable days.now }
    requires service { trip.now.service < length feed.now.services }
    requires repeats { All IsSoundRepeat trip.now.repeats }
    ensures { IsTrue result ↔ MayRun feed.now days.now trip.now day start }
{
    if !is_travel_day(days, day) {
        return false;
    }
    if !starts_rightly(trip, start) {
        return false;
    }
    active(&feed.services[trip.service as usize], day)
}
