// Polygons of a geometry.

ghost use Rattle.std.specs.Prelude.{◌≡◌, List, [], ◌∷◌, IfOk, IsTrue, map};
ghost use Rattle.std.specs.List.{flat_map};
ghost use Rattle.feed_meaning.specs.Locations.{Json, corners, is_filled_array, polygon_checks, polygon_of, ring_checks};
ghost use Rattle.geo_json.specs.Forms.{parts};
ghost use Rattle.geo_json.specs.Scans.{IsJsonOf, is_array_value};
ghost use Rattle.geo_json.specs.Steps.{ring_of};
ghost use Rattle.geo_json.specs.There.{IsThere, is_value};
ghost use Rattle.geo_json.specs.Walks.{TellsFirst};

use crate::form::Form;
use crate::members::fault_at;
use crate::refusal::WalkRefusal;
use crate::rings::read_ring;
use crate::values::{is_array, items};
use flex_model::{FaultCode, Listed, Polygon, Ring};
use json_text::JsonText;
use std::alloc::Global;

/// Whether the value is an array with an item.
pub(crate) fn is_filled(json: &JsonText<'_>, node: u32) -> bool
    requires { IsThere json.now is_value node }
    ensures value { (j : Json) → IsJsonOf json.now j → result ≡ is_filled_array j node }
    ensures array { IsTrue result → IsThere json.now is_array_value node }
{
    if !is_array(json, node) {
        return false;
    }
    let mut items = items(json, node);
    items.next().is_some()
}

/// Reads the rings of a polygon.
fn read_rings(alloc: Global, json: &JsonText<'_>, polygon: u32) -> Result<Listed<Ring>, WalkRefusal>
    requires { IsThere json.now is_array_value polygon }
    ensures faults { (j : Json) → IsJsonOf json.now j
        → TellsFirst (flat_map (ring_checks j) (j.items polygon)) result }
    ensures value { (j : Json) → IsJsonOf json.now j
        → IfOk result (λ value. value ≡ map (ring_of j) (j.items polygon)) }
{
    let mut rings = Listed::new(alloc);
    for ring in items(json, polygon) {
        let ring = read_ring(alloc, json, ring)?;
        rings.push(ring)?;
    }
    Ok(rings)
}

/// Reads a polygon: one ring or more.
fn read_polygon(alloc: Global, json: &JsonText<'_>, polygon: u32) -> Result<Polygon, WalkRefusal>
    requires { IsThere json.now is_value polygon }
    ensures faults { (j : Json) → IsJsonOf json.now j
        → TellsFirst (polygon_checks j polygon) result }
    ensures value { (j : Json) → IsJsonOf json.now j
        → IfOk result (λ value. value ≡ polygon_of j polygon) }
{
    if !is_filled(json, polygon) {
        return Err(fault_at(json, polygon, FaultCode::GeoShape));
    }
    let rings = read_rings(alloc, json, polygon)?;
    Ok(Polygon { rings })
}

/// Reads the one polygon of a geometry that is a polygon.
fn read_one(
    alloc: Global,
    json: &JsonText<'_>,
    polygon: u32,
) -> Result<Listed<Polygon>, WalkRefusal>
    requires { IsThere json.now is_value polygon }
    ensures faults { (j : Json) → IsJsonOf json.now j
        → TellsFirst (flat_map (polygon_checks j) (polygon ∷ [])) result }
    ensures value { (j : Json) → IsJsonOf json.now j
        → IfOk result (λ value. value ≡ polygon_of j polygon ∷ []) }
{
    let polygon = read_polygon(alloc, json, polygon)?;
    let mut polygons = Listed::new(alloc);
    polygons.push(polygon)?;
    Ok(polygons)
}

/// Reads the polygons of a geometry that is several.
fn read_several(
    alloc: Global,
    json: &JsonText<'_>,
    array: u32,
) -> Result<Listed<Polygon>, WalkRefusal>
    requires { IsThere json.now is_array_value array }
    ensures faults { (j : Json) → IsJsonOf json.now j
        → TellsFirst (flat_map (polygon_checks j) (j.items array)) result }
    ensures value { (j : Json) → IsJsonOf json.now j
        → IfOk result (λ value. value ≡ map (polygon_of j) (j.items array)) }
{
    let mut polygons = Listed::new(alloc);
    for polygon in items(json, array) {
        let polygon = read_polygon(alloc, json, polygon)?;
        polygons.push(polygon)?;
    }
    Ok(polygons)
}

/// Reads the polygons that coordinates hold.
pub(crate) fn read_polygons(
    alloc: Global,
    json: &JsonText<'_>,
    form: Form,
    coordinates: u32,
) -> Result<Listed<Polygon>, WalkRefusal>
    requires array { IsThere json.now is_array_value coordinates }
    requires value { IsThere json.now is_value coordinates }
    ensures faults { (j : Json) → IsJsonOf json.now j
        → TellsFirst (flat_map (polygon_checks j) (parts form j coordinates)) result }
    ensures value { (j : Json) → IsJsonOf json.now j
        → IfOk result (λ value. value ≡ map (polygon_of j) (parts form j coordinates)) }
{
    match form {
        Form::Polygon => read_one(alloc, json, coordinates),
        Form::MultiPolygon => read_several(alloc, json, coordinates),
    }
}
