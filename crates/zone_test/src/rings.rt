// A point and a ring.

ghost use Rattle.std.specs.Prelude.{◌≡◌, All};
ghost use Rattle.std.specs.List.{list_any};
ghost use Rattle.flex_model.specs.SoundTimes.{IsOnGlobe};
ghost use Rattle.flex_model.specs.Zone as spec;

use crate::edges::{is_crossed, is_on_edge};
use flex_model::{Position, Ring};

/// Whether the point lies on an edge of the ring.
pub fn is_on_ring(ring: &Ring, point: &Position) -> bool
    requires ring { All IsOnGlobe ring.now.corners }
    requires point { IsOnGlobe point.now }
    ensures { result ≡ list_any (spec.is_on_edge point.now) (spec.edges ring.now) }
{
    let corners = ring.corners.as_slice();
    for at in 0..corners.len().saturating_sub(1) {
        if is_on_edge(point, &corners[at], &corners[at + 1]) {
            return true;
        }
    }
    false
}

/// Whether the half-line eastwards from the point crosses an odd number of edges of the ring.
pub fn is_surrounded(ring: &Ring, point: &Position) -> bool
    requires ring { All IsOnGlobe ring.now.corners }
    requires point { IsOnGlobe point.now }
    ensures { result ≡ spec.is_odd (spec.crossings point.now ring.now) }
{
    let corners = ring.corners.as_slice();
    let mut crossings: usize = 0;
    for at in 0..corners.len().saturating_sub(1) {
        if is_crossed(point, &corners[at], &corners[at + 1]) {
            crossings += 1;
        }
    }
    crossings % 2 == 1
}
