// Whether a ride is permitted.

ghost use Rattle.std.specs.Prelude.{◌≡◌, ◌↔◌, Err, IsOk, IsTrue};
ghost use Rattle.flex_model.specs.Flaw.{IsFirstFlaw, Passes};
ghost use Rattle.flex_model.specs.Ride.{IsPermittedRide};
ghost use Rattle.flex_model.specs.SoundFeed.{IsSoundFeed};
ghost use Rattle.flex_model.specs.SoundQuery.{IsSoundDayTable};
ghost use Rattle.flex_model.specs.SoundTimes.{AreSoundTimes};
ghost use Rattle.flex_model.specs.declared.flaw.RideFlaw.{RideFlaw};

use crate::records::{is_active_then, is_alighted, is_boarded, records_of, trip_of};
use crate::starts::is_started;
use crate::timing::{arrives_rightly, departs_rightly, has_direct_time};
use flex_model::{DayTable, Feed, Ride, RideFlaw, Times};
use service_days::is_travel_day;

// The tests of a ride, in the order in which they are tried.
const TESTS: [RideFlaw; 10] = [
    RideFlaw::NoTrip,
    RideFlaw::NoRow,
    RideFlaw::NoDay,
    RideFlaw::NotActive,
    RideFlaw::Frequent,
    RideFlaw::NotBoarded,
    RideFlaw::NotAlighted,
    RideFlaw::WrongDeparture,
    RideFlaw::NoDirect,
    RideFlaw::WrongArrival,
];

/// Whether the ride is permitted, told without memory. Any numbers may stand in it. The flaw is the
/// first test that it fails, in the order of `RideFlaw`. This project's own.
pub fn judge_ride(feed: &Feed, times: &Times, days: &DayTable, ride: &Ride) -> Result<(), RideFlaw>
    requires feed { IsSoundFeed feed.now }
    requires times { AreSoundTimes feed.now times.now }
    requires days { IsSoundDayTable days.now }
    ensures ok { IsOk result ↔ IsPermittedRide feed.now times.now days.now ride.now }
    ensures flaw { (flaw : RideFlaw)
        → (result ≡ Err flaw) ↔ IsFirstFlaw feed.now times.now days.now ride.now flaw }
{
    for flaw in TESTS {
        if !passes(feed, times, days, ride, flaw) {
            return Err(flaw);
        }
    }
    Ok(())
}

// Whether the ride passes the test that the flaw is named for.
fn passes(feed: &Feed, times: &Times, days: &DayTable, ride: &Ride, flaw: RideFlaw) -> bool
    requires feed { IsSoundFeed feed.now }
    requires times { AreSoundTimes feed.now times.now }
    requires days { IsSoundDayTable days.now }
    ensures { IsTrue result ↔ Passes feed.now times.now days.now ride.now flaw }
{
    match flaw {
        RideFlaw::NoTrip => trip_of(feed, ride).is_some(),
        RideFlaw::NoRow => records_of(feed, ride).is_some(),
        RideFlaw::NoDay => is_travel_day(days, ride.day),
        RideFlaw::NotActive => is_active_then(feed, ride),
        RideFlaw::Frequent => is_started(feed, ride),
        RideFlaw::NotBoarded => is_boarded(feed, times, ride),
        RideFlaw::NotAlighted => is_alighted(feed, times, ride),
        RideFlaw::WrongDeparture => departs_rightly(feed, days, ride),
        RideFlaw::NoDirect => has_direct_time(feed, times, ride),
        RideFlaw::WrongArrival => arrives_rightly(feed, times, days, ride),
    }
}
