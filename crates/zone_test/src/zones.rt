// Points and stops in zones.

ghost use Rattle.std.specs.Prelude.{◌≡◌, ◌↔◌, ◌<◌, ◌^◌, ◌&&◌, ◌||◌, ℕ, All, Contains, IfOk, length, not};
ghost use Rattle.std.specs.List.{list_all};
ghost use Rattle.flex_model.specs.SoundFeed.{AreRising, IsSoundPolygon};
ghost use Rattle.flex_model.specs.SoundTimes.{IsOnGlobe};
ghost use Rattle.flex_model.specs.Zone as spec;
ghost use Rattle.zone_test.specs.Served.{IsServed};

use crate::rings::{is_on_ring, is_surrounded};
use crate::zone_index::ZoneIndex;
use flex_model::{Listed, NoMemory, Polygon, Position, Ring, Stop};
use std::alloc::Global;

/// Whether the point lies in the zone of these polygons, without memory. A point on an edge does, be it of a hole. The
/// polygons are those of RFC 7946; the test in the plane of longitude and latitude is this project's own.
pub fn contains(polygons: &Listed<Polygon>, point: Position) -> bool
    requires polygons { All IsSoundPolygon polygons.now }
    requires point { IsOnGlobe point }
    ensures { result ≡ spec.is_in_zone polygons.now point }
{
    for polygon in polygons.as_slice() {
        if is_in_polygon(polygon, &point) {
            return true;
        }
    }
    false
}

// Whether the point lies in the polygon or on its boundary.
fn is_in_polygon(polygon: &Polygon, point: &Position) -> bool
    requires polygon { IsSoundPolygon polygon.now }
    requires point { IsOnGlobe point.now }
    ensures { result ≡ (spec.is_on_boundary point.now polygon.now.rings
        || spec.is_inside point.now polygon.now.rings) }
{
    let rings = polygon.rings.as_slice();
    is_on_boundary(rings, point) || is_inside(rings, point)
}

// Whether the point lies on an edge of some ring.
fn is_on_boundary(rings: &[Ring], point: &Position) -> bool
    requires rings { All (λ ring. All IsOnGlobe ring.corners) rings.now }
    requires point { IsOnGlobe point.now }
    ensures { result ≡ spec.is_on_boundary point.now rings.now }
{
    for ring in rings {
        if is_on_ring(ring, point) {
            return true;
        }
    }
    false
}

// Whether the first ring surrounds the point, and no other one does.
fn is_inside(rings: &[Ring], point: &Position) -> bool
    requires rings { All (λ ring. All IsOnGlobe ring.corners) rings.now }
    requires point { IsOnGlobe point.now }
    ensures { result ≡ spec.is_inside point.now rings.now }
{
    let [exterior, holes @ ..] = rings else {
        return false;
    };
    is_surrounded(exterior, point) && is_outside_all(holes, point)
}

// Whether none of the rings surrounds the point.
fn is_outside_all(holes: &[Ring], point: &Position) -> bool
    requires holes { All (λ ring. All IsOnGlobe ring.corners) holes.now }
    requires point { IsOnGlobe point.now }
    ensures { result ≡ list_all (λ hole. not
        (spec.is_odd (spec.crossings point.now hole))) holes.now }
{
    for hole in holes {
        if is_surrounded(hole, point) {
            return false;
        }
    }
    true
}

/// The numbers of the stops that can be boarded and lie in the zone of these polygons, rising.
pub fn zone_stops(
    alloc: Global,
    polygons: &Listed<Polygon>,
    stops: &Listed<Stop>,
) -> Result<Listed<u32>, NoMemory>
    requires polygons { All IsSoundPolygon polygons.now }
    requires on_globe { All (λ stop. IsOnGlobe stop.at) stops.now }
    requires few { length stops.now < 2 ^ 32 }
    ensures { IfOk result (λ numbers. AreRising numbers
        × ((s : ℕ) → Contains numbers s ↔ IsServed polygons.now stops.now s)) }
{
    let index = ZoneIndex::build(alloc, polygons)?;
    let mut numbers = Listed::new(alloc);
    let stops = stops.as_slice();
    for at in 0..stops.len() {
        if is_served(&index, &stops[at]) {
            numbers.push(at as u32)?;
        }
    }
    Ok(numbers)
}

// Whether the stop can be boarded and lies in the zone of these polygons.
fn is_served(index: &ZoneIndex, stop: &Stop) -> bool
    requires { IsOnGlobe stop.now.at }
    ensures { result ≡ (stop.now.boards && spec.is_in_zone index.now stop.now.at) }
{
    stop.boards && index.contains(stop.at)
}
