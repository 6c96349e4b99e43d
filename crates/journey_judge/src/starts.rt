// Starts of rides.

ghost use Rattle.std.specs.Prelude.{◌↔◌, IsTrue};
ghost use Rattle.flex_model.specs.Flaw.{OnTrip};
ghost use Rattle.flex_model.specs.Ride.{StartsRightly};
ghost use Rattle.flex_model.specs.SoundFeed.{IsSoundFeed};

use crate::records::trip_of;
use flex_model::{Feed, Ride};
use freq_trips::starts_rightly;

/// Whether the ride starts as its trip does: at a start of a trip that `frequencies.txt` names, if
/// that has no window, and without one on any other trip.
pub fn is_started(feed: &Feed, ride: &Ride) -> bool
    requires { IsSoundFeed feed.now }
    ensures { IsTrue result
        ↔ OnTrip feed.now ride.now (λ trip. StartsRightly trip ride.now.start) }
{
    let Some(trip) = trip_of(feed, ride) else {
        return false;
    };
    starts_rightly(trip, ride.start)
}
