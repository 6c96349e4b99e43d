// The starts of a trip, by its repeats.

ghost use Rattle.std.specs.Prelude.{◌≡◌, ◌↔◌, ◌<◌, All, IsTrue};
ghost use Rattle.flex_model.specs.Ride.{IsStart};
ghost use Rattle.flex_model.specs.SoundFeed.{IsSoundRepeat};
ghost use Rattle.freq_trips.specs.Starts.{IsLeastFrom, IsStartOf};
ghost use Rattle.freq_trips.specs.Starts as Starts;

use flex_model::{Repeat, Trip};

/// Whether the trip starts then, in seconds of the service day.
pub fn is_start(trip: &Trip, seconds: u32) -> bool
    requires { All IsSoundRepeat trip.now.repeats }
    ensures { IsTrue result ↔ IsStart trip.now seconds }
{
    next_start(trip, seconds) == Some(seconds)
}

/// The least start of the trip that is no less than `least`, both in seconds of the service day.
/// There is none exactly where each of its starts is less.
pub fn next_start(trip: &Trip, least: u32) -> Option<u32>
    requires { All IsSoundRepeat trip.now.repeats }
    ensures { IsLeastFrom (IsStart trip.now) least result }
{
    let mut next = None;
    for repeat in trip.repeats.as_slice() {
        next = sooner(next, next_of(repeat, least));
    }
    next
}

// The least start of the repeat that is no less than `least`.
fn next_of(repeat: &Repeat, least: u32) -> Option<u32>
    requires { 0 < repeat.now.headway }
    ensures { IsLeastFrom (IsStartOf repeat.now) least result }
{
    let headway = u64::from(repeat.headway);
    let past = u64::from(least.saturating_sub(repeat.first));
    let start = u64::from(repeat.first) + past.div_ceil(headway) * headway;
    if start < u64::from(repeat.end) {
        Some(start as u32)
    } else {
        None
    }
}

// The lesser of the two starts, where there are any.
fn sooner(a: Option<u32>, b: Option<u32>) -> Option<u32>
    ensures { result ≡ Starts.sooner a b }
{
    match (a, b) {
        (Some(a), Some(b)) => Some(a.min(b)),
        (Some(a), None) => Some(a),
        (None, b) => b,
    }
}
