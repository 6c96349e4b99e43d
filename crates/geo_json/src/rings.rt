// Rings of a polygon.

ghost use Rattle.std.specs.Prelude.{◌≡◌, List, IfOk};
ghost use Rattle.std.specs.List.{flat_map};
ghost use Rattle.feed_meaning.specs.Locations as Locations;
ghost use Rattle.feed_meaning.specs.Locations.{Json, corners, position_checks, ring_checks};
ghost use Rattle.geo_json.specs.Scans.{IsJsonOf, is_array_value};
ghost use Rattle.geo_json.specs.There.{IsThere, is_value};
ghost use Rattle.geo_json.specs.Walks.{TellsFirst};

use crate::members::fault_at;
use crate::positions::read_position;
use crate::refusal::WalkRefusal;
use crate::values::{is_array, items};
use flex_model::{FaultCode, Listed, Position, Ring};
use json_text::JsonText;
use std::alloc::Global;

/// How many positions a ring has at least, the last of which is the first again (RFC 7946).
const FEWEST_POSITIONS: usize = 4;

/// Reads the positions of a ring.
fn read_corners(
    alloc: Global,
    json: &JsonText<'_>,
    ring: u32,
) -> Result<Listed<Position>, WalkRefusal>
    requires { IsThere json.now is_array_value ring }
    ensures faults { (j : Json) → IsJsonOf json.now j
        → TellsFirst (flat_map (position_checks j) (j.items ring)) result }
    ensures value { (j : Json) → IsJsonOf json.now j
        → IfOk result (λ value. value ≡ corners j ring) }
{
    let mut corners = Listed::new(alloc);
    for position in items(json, ring) {
        let corner = read_position(json, position)?;
        corners.push(corner)?;
    }
    Ok(corners)
}

/// Whether the last corner is the first one again.
fn closes(corners: &[Position]) -> bool
    ensures { result ≡ Locations.closes corners.now }
{
    match (corners.first(), corners.last()) {
        (Some(first), Some(last)) => first == last,
        _ => true,
    }
}

/// Reads a ring: four positions or more, of which the last is the first again.
pub(crate) fn read_ring(alloc: Global, json: &JsonText<'_>, ring: u32) -> Result<Ring, WalkRefusal>
    requires { IsThere json.now is_value ring }
    ensures faults { (j : Json) → IsJsonOf json.now j → TellsFirst (ring_checks j ring) result }
    ensures value { (j : Json) → IsJsonOf json.now j
        → IfOk result (λ value. value ≡ record { corners = corners j ring }) }
{
    if !is_array(json, ring) {
        return Err(fault_at(json, ring, FaultCode::GeoShape));
    }
    let corners = read_corners(alloc, json, ring)?;
    if corners.len() < FEWEST_POSITIONS {
        return Err(fault_at(json, ring, FaultCode::RingShort));
    }
    if !closes(corners.as_slice()) {
        return Err(fault_at(json, ring, FaultCode::RingOpen));
    }
    Ok(Ring { corners })
}
