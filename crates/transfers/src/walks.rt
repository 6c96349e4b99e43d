// The ways from the origin and to the destination.

ghost use Rattle.std.specs.Prelude.{◌≡◌, ◌↔◌, ℕ, IsTrue, Some};
ghost use Rattle.flex_model.specs.Change.{HasAccess, HasEgress};
ghost use Rattle.flex_model.specs.Times.{AreRisingTimes};

use flex_model::{Place, Query, Times, walk};

/// The seconds from the query's origin to the place, without memory: 0 at the origin itself, and at another stop the walk
/// from the origin. There is none where the walks lack the pair, and at a point that isn't the origin. This project's own.
pub fn access(times: &Times, query: &Query, place: Place) -> Option<u32>
    requires { AreRisingTimes times.now }
    ensures { (seconds : ℕ) → HasAccess times.now query.entry.now place seconds
        ↔ (result ≡ Some seconds) }
{
    if is_same(place, query.origin) {
        return Some(0);
    }
    match place {
        Place::Stop(_) => walk(times, query.origin, place),
        Place::Point(_) => None,
    }
}

/// The seconds from the place to the query's destination, without memory: 0 at the destination itself, and from another
/// stop the walk to the destination. There is none where the walks lack the pair, and from a point that isn't the
/// destination. This project's own.
pub fn egress(times: &Times, query: &Query, place: Place) -> Option<u32>
    requires { AreRisingTimes times.now }
    ensures { (seconds : ℕ) → HasEgress times.now query.entry.now place seconds
        ↔ (result ≡ Some seconds) }
{
    if is_same(place, query.destination) {
        return Some(0);
    }
    match place {
        Place::Stop(_) => walk(times, place, query.destination),
        Place::Point(_) => None,
    }
}

// Whether the two are one place.
fn is_same(a: Place, b: Place) -> bool
    ensures { IsTrue result ↔ (a ≡ b) }
{
    a == b
}
