// The way to a ride of a journey, and how far one walks on it.

ghost use Rattle.std.specs.Prelude.{◌≡◌, ◌↔◌, ◌<◌, ℕ, AllPairs, Some, length, slice_get};
ghost use Rattle.flex_model.specs.Flaw.{IsReadyAt, IsWay, no_way_to};
ghost use Rattle.flex_model.specs.Journey as spec;
ghost use Rattle.flex_model.specs.SoundFeed.{IsChangeBefore};
ghost use Rattle.flex_model.specs.Times.{AreRisingTimes};
ghost use Rattle.flex_model.specs.declared.ride.Ride.{Ride};
ghost use Rattle.journey_judge.specs.Tallies.{IsWalkOfWay};

use flex_model::{Feed, JourneyFlaw, Moment, Place, Query, Ride, Times};
use transfers::{access, change};

/// That there is no way to the ride with the number.
pub fn no_way(number: u32) -> JourneyFlaw
    ensures { result ≡ no_way_to number }
{
    if number == 1 {
        return JourneyFlaw::NoAccess;
    }
    JourneyFlaw::NoChange(number)
}

/// The seconds of the way to the ride at the index: of an access, or of a change from the ride
/// before it.
pub fn way(feed: &Feed, times: &Times, query: &Query, rides: &[Ride], k: usize) -> Option<u32>
    requires changes { AllPairs IsChangeBefore feed.now.changes }
    requires times { AreRisingTimes times.now }
    requires within { k < length rides.now }
    ensures { (ride : Ride) (seconds : ℕ) → slice_get rides.now k ≡ Some ride
        → IsWay feed.now times.now query.entry.now rides.now k ride seconds
        ↔ (result ≡ Some seconds) }
{
    let board = rides[k].board;
    if k == 0 {
        return access(times, query, board);
    }
    change(feed, rides[k - 1].alight, board)
}

/// From when on the way to the ride at the index counts: the query's departure, or the arrival of
/// the ride before it.
pub fn ready_at(query: &Query, rides: &[Ride], k: usize) -> Moment
    requires { k < length rides.now }
    ensures { IsReadyAt query.entry.now rides.now k result }
{
    if k == 0 {
        return query.depart;
    }
    rides[k - 1].arrives
}

/// How much walking counts for the query: none where it doesn't ask for it.
pub fn counted(query: &Query, seconds: u32) -> u32
    ensures { result ≡ spec.counted query.entry.now seconds }
{
    if query.walking { seconds } else { 0 }
}

// The seconds of a change that are walked: none within a stop.
fn change_walk(a: Place, b: Place, seconds: u32) -> u32
    ensures { result ≡ spec.change_walk a b seconds }
{
    let Place::Stop(from) = a else {
        return 0;
    };
    let Place::Stop(to) = b else {
        return 0;
    };
    if from == to { 0 } else { seconds }
}

/// How much walking counts on the way of so many seconds to the ride at the index.
pub fn walk_of_way(query: &Query, rides: &[Ride], k: usize, seconds: u32) -> u32
    requires { k < length rides.now }
    ensures { (ride : Ride) → slice_get rides.now k ≡ Some ride
        → IsWalkOfWay query.entry.now rides.now k ride seconds result }
{
    if k == 0 {
        return counted(query, seconds);
    }
    counted(
        query,
        change_walk(rides[k - 1].alight, rides[k].board, seconds),
    )
}
