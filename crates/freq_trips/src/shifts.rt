// How a ride of a trip may start, and how much later than its records say it then runs.

ghost use Rattle.std.specs.Prelude.{◌≡◌, ◌↔◌, ◌<◌, ◌^◌, All, IsTrue, unsigned_abs};
ghost use Rattle.flex_model.specs.Ride.{HasTimes, StartsRightly};
ghost use Rattle.flex_model.specs.Ride as Rides;
ghost use Rattle.flex_model.specs.SoundFeed.{IsSoundRepeat};

use crate::starts::is_start;
use flex_model::{Row, Timing, Trip};

/// Whether a record with this timing has times, and no window.
pub fn is_timed(timing: Timing) -> bool
    ensures { IsTrue result ↔ HasTimes timing }
{
    match timing {
        Timing::Times { .. } => true,
        Timing::Window { .. } => false,
    }
}

// Whether no record has a window.
fn are_timed(rows: &[Row]) -> bool
    ensures { IsTrue result ↔ All (λ row. HasTimes row.timing) rows.now }
{
    rows.iter().all(|row| is_timed(row.timing))
}

/// Whether a ride of the trip can start so, in seconds of the service day: at one of its starts where
/// `frequencies.txt` names it and none of its records has a window, and without a start where the file
/// doesn't name it.
pub fn starts_rightly(trip: &Trip, start: Option<u32>) -> bool
    requires { All IsSoundRepeat trip.now.repeats }
    ensures { IsTrue result ↔ StartsRightly trip.now start }
{
    let Some(seconds) = start else {
        return !trip.frequent;
    };
    trip.frequent && is_start(trip, seconds) && are_timed(trip.rows.as_slice())
}

// The departure of a record with times, and 0 for a window.
fn departure_of(timing: Timing) -> u32
    ensures { result ≡ Rides.departure_of timing }
{
    match timing {
        Timing::Times { departs, .. } => departs,
        Timing::Window { .. } => 0,
    }
}

// The departure of the first record.
fn first_departure(rows: &[Row]) -> u32
    ensures { result ≡ Rides.first_departure rows.now }
{
    match rows.first() {
        Some(row) => departure_of(row.timing),
        None => 0,
    }
}

/// How many seconds later than its records say a ride of the trip runs that starts so. It may be
/// negative, and is 0 for a ride without a start.
pub fn shift(trip: &Trip, start: Option<u32>) -> i64
    ensures value { result ≡ Rides.shift trip.now start }
    ensures near { unsigned_abs result < 2 ^ 32 }
{
    match start {
        Some(seconds) => i64::from(seconds) - i64::from(first_departure(trip.rows.as_slice())),
        None => 0,
    }
}
