// A zone with the slabs of its rings.

ghost use Rattle.std.specs.Prelude.{◌≡◌, ◌||◌, ◌&&◌, All, IfOk, not};
ghost use Rattle.std.specs.List.{list_all};
ghost use Rattle.flex_model.specs.SoundFeed.{IsSoundPolygon};
ghost use Rattle.flex_model.specs.SoundTimes.{IsOnGlobe};
ghost use Rattle.flex_model.specs.Zone as spec;

use crate::ring_index::RingIndex;
use flex_model::{Listed, NoMemory, Polygon, Position};
use std::alloc::Global;
use std::marker::Model;

// A polygon whose edges are found by their latitudes. Contracts see the polygon.
#[derive(Drop)]
struct PolygonIndex {
    rings: Listed<RingIndex>,
}

impl Model for PolygonIndex {
    ghost use Rattle.flex_model.specs.declared.place.Polygon.{Polygon};

    ghost Value = { Polygon };

    ghost view = { λ index. record { rings = index.rings } };
}

impl PolygonIndex {
    // Puts the edges of each ring into slabs.
    fn build(alloc: Global, polygon: &Polygon) -> Result<PolygonIndex, NoMemory>
        requires { IsSoundPolygon polygon.now }
        ensures { IfOk result (λ index. index ≡ polygon.now) }
    {
        let mut rings = Listed::new(alloc);
        for ring in polygon.rings.as_slice() {
            rings.push(RingIndex::build(alloc, ring)?)?;
        }
        Ok(PolygonIndex { rings })
    }

    // Whether the point lies in the polygon or on its boundary.
    fn contains(&self, point: &Position) -> bool
        requires { IsOnGlobe point.now }
        ensures { result ≡ (spec.is_on_boundary point.now self.now.rings
            || spec.is_inside point.now self.now.rings) }
    {
        let rings = self.rings.as_slice();
        has_on_boundary(rings, point) || has_inside(rings, point)
    }
}

// Whether the point lies on an edge of some ring.
fn has_on_boundary(rings: &[RingIndex], point: &Position) -> bool
    requires { IsOnGlobe point.now }
    ensures { result ≡ spec.is_on_boundary point.now rings.now }
{
    for ring in rings {
        if ring.has_on_edge(point) {
            return true;
        }
    }
    false
}

// Whether the first ring surrounds the point, and no other one does.
fn has_inside(rings: &[RingIndex], point: &Position) -> bool
    requires { IsOnGlobe point.now }
    ensures { result ≡ spec.is_inside point.now rings.now }
{
    let [exterior, holes @ ..] = rings else {
        return false;
    };
    exterior.surrounds(point) && has_outside_all(holes, point)
}

// Whether none of the rings surrounds the point.
fn has_outside_all(holes: &[RingIndex], point: &Position) -> bool
    requires { IsOnGlobe point.now }
    ensures { result ≡ list_all (λ hole. not
        (spec.is_odd (spec.crossings point.now hole))) holes.now }
{
    for hole in holes {
        if hole.surrounds(point) {
            return false;
        }
    }
    true
}

/// The polygons of a zone, made ready for many points: the edges of each ring stand in slabs between the latitudes of its
/// corners. Contracts see the polygons.
#[derive(Drop)]
pub struct ZoneIndex {
    polygons: Listed<PolygonIndex>,
}

impl Model for ZoneIndex {
    ghost use Rattle.std.specs.Prelude.{List};
    ghost use Rattle.flex_model.specs.declared.place.Polygon.{Polygon};

    ghost Value = { List Polygon };

    ghost view = { λ index. index.polygons };
}

impl ZoneIndex {
    /// Makes the polygons ready.
    pub fn build(alloc: Global, polygons: &Listed<Polygon>) -> Result<ZoneIndex, NoMemory>
        requires { All IsSoundPolygon polygons.now }
        ensures { IfOk result (λ index. index ≡ polygons.now) }
    {
        let mut indices = Listed::new(alloc);
        for polygon in polygons.as_slice() {
            indices.push(PolygonIndex::build(alloc, polygon)?)?;
        }
        Ok(ZoneIndex { polygons: indices })
    }

    /// Whether the point lies in the zone of these polygons, without memory: the very answer of `contains`. In each ring
    /// its slab is looked up by halving, and only the edges of that slab are tried.
    pub fn contains(&self, point: Position) -> bool
        requires { IsOnGlobe point }
        ensures { result ≡ spec.is_in_zone self.now point }
    {
        for polygon in self.polygons.as_slice() {
            if polygon.contains(&point) {
                return true;
            }
        }
        false
    }
}
