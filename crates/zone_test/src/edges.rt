// A point and an edge of a ring.

ghost use Rattle.std.specs.Prelude.{◌≡◌, ◌&&◌, int_le, int_lt, pos};
ghost use Rattle.flex_model.specs.SoundTimes.{IsOnGlobe};
ghost use Rattle.flex_model.specs.Zone as spec;

use crate::cross::cross;
use flex_model::Position;

// Whether x lies between a and b, ends included.
fn is_between(a: &i64, b: &i64, x: &i64) -> bool
    ensures { result ≡ spec.is_between a.now b.now x.now }
{
    (*a <= *x && *x <= *b) || (*b <= *x && *x <= *a)
}

/// Whether the point lies on the edge, ends included.
pub fn is_on_edge(point: &Position, from: &Position, to: &Position) -> bool
    requires point { IsOnGlobe point.now }
    requires from { IsOnGlobe from.now }
    requires to { IsOnGlobe to.now }
    ensures { result ≡ spec.is_on_edge point.now (from.now, to.now) }
{
    cross(point, from, to) == 0
        && (is_between(&from.lon, &to.lon, &point.lon)
            && is_between(&from.lat, &to.lat, &point.lat))
}

/// Whether the half-line eastwards from the point crosses the edge. An edge with an end at the point's latitude counts
/// only if its other end is farther north.
pub fn is_crossed(point: &Position, from: &Position, to: &Position) -> bool
    requires point { IsOnGlobe point.now }
    requires from { IsOnGlobe from.now }
    requires to { IsOnGlobe to.now }
    ensures { result ≡ spec.is_crossed point.now (from.now, to.now) }
{
    let side = cross(point, from, to);
    is_crossed_northwards(&from.lat, &to.lat, &point.lat, &side)
        || is_crossed_southwards(&from.lat, &to.lat, &point.lat, &side)
}

// Whether the edge goes north past the latitude, east of the point.
fn is_crossed_northwards(from: &i64, to: &i64, lat: &i64, side: &i128) -> bool
    ensures { result ≡ (int_le from.now lat.now
        && (int_lt lat.now to.now && int_lt (pos 0) side.now)) }
{
    *from <= *lat && (*lat < *to && 0 < *side)
}

// Whether the edge goes south past the latitude, east of the point.
fn is_crossed_southwards(from: &i64, to: &i64, lat: &i64, side: &i128) -> bool
    ensures { result ≡ (int_lt lat.now from.now
        && (int_le to.now lat.now && int_lt side.now (pos 0))) }
{
    *lat < *from && (*to <= *lat && *side < 0)
}
