// Features of a collection.

ghost use Rattle.std.specs.Prelude.{◌≡◌, ◌&&◌, List, [], ◌∷◌, ◌++◌, IfOk, codes, length, map, nat_lt};
ghost use Rattle.feed_meaning.specs.Locations as Locations;
ghost use Rattle.feed_meaning.specs.Locations.{Json, check_member, feature_checks, feature_of, geometry_checks, polygon_of};
ghost use Rattle.geo_json.specs.Features.{own_checks};
ghost use Rattle.geo_json.specs.Scans.{IsJsonOf, is_object_value, is_string_value};
ghost use Rattle.geo_json.specs.There.{IsThere, is_value};
ghost use Rattle.geo_json.specs.Walks.{TellsFirst};
ghost use Rattle.geo_json.specs.Zones.{feature_in};

use crate::form::form_of;
use crate::lines::Lines;
use crate::members::{array_member, fault_at, object_member, required, text_member};
use crate::polygons::{is_filled, read_polygons};
use crate::record::ZoneRecord;
use crate::refusal::WalkRefusal;
use crate::values::{is_object, is_string, place, text};
use flex_model::{FaultCode, Listed, NoMemory, Polygon, Text};
use json_text::JsonText;
use std::alloc::Global;

/// Reads the polygons of a geometry.
fn read_geometry(
    alloc: Global,
    json: &JsonText<'_>,
    geometry: u32,
) -> Result<Listed<Polygon>, WalkRefusal>
    requires { IsThere json.now is_object_value geometry }
    ensures faults { (j : Json) → IsJsonOf json.now j
        → TellsFirst (geometry_checks j geometry) result }
    ensures value { (j : Json) → IsJsonOf json.now j
        → IfOk result (λ value. value ≡ map (polygon_of j) (Locations.polygons j geometry)) }
{
    let form = form_of(json, geometry)?;
    let coordinates = array_member(json, geometry, "coordinates")?;
    if !is_filled(json, coordinates) {
        return Err(fault_at(json, coordinates, FaultCode::GeoShape));
    }
    read_polygons(alloc, json, form, coordinates)
}

/// The id of a feature: a string that isn't empty.
fn id_member(json: &JsonText<'_>, feature: u32) -> Result<u32, WalkRefusal>
    requires { IsThere json.now is_object_value feature }
    ensures faults { (j : Json) → IsJsonOf json.now j
        → TellsFirst
        (check_member j feature "id" (λ v. j.is_word v && nat_lt 0 (length (j.text v))) ∷ [])
        result }
    ensures value { (j : Json) → IsJsonOf json.now j
        → IfOk result (λ value. value ≡ Locations.member j feature "id") }
    ensures there { IfOk result (IsThere json.now is_string_value) }
{
    let id = required(json, feature, "id")?;
    if !is_string(json, id) || text(json, id).is_empty() {
        return Err(fault_at(json, id, FaultCode::GeoShape));
    }
    Ok(id)
}

/// What a feature has of its own.
#[derive(Clone, Copy, Debug)]
struct Parts {
    id: u32,
    geometry: u32,
}

/// Checks a feature without its geometry.
fn own_parts(json: &JsonText<'_>, feature: u32) -> Result<Parts, WalkRefusal>
    requires { IsThere json.now is_value feature }
    ensures faults { (j : Json) → IsJsonOf json.now j → TellsFirst (own_checks j feature) result }
    ensures id { (j : Json) → IsJsonOf json.now j
        → IfOk result (λ parts. parts.id ≡ Locations.member j feature "id") }
    ensures geometry { (j : Json) → IsJsonOf json.now j
        → IfOk result (λ parts. parts.geometry ≡ Locations.member j feature "geometry") }
    ensures id_there { IfOk result (λ parts. IsThere json.now is_string_value parts.id) }
    ensures geometry_there { IfOk result
        (λ parts. IsThere json.now is_object_value parts.geometry) }
{
    if !is_object(json, feature) {
        return Err(fault_at(json, feature, FaultCode::GeoShape));
    }
    text_member(json, feature, "type", "Feature")?;
    let id = id_member(json, feature)?;
    let geometry = object_member(json, feature, "geometry")?;
    Ok(Parts { id, geometry })
}

/// A text of its own.
fn text_from(alloc: Global, piece: &str) -> Result<Text, NoMemory>
    ensures { IfOk result (λ own. own ≡ piece.now) }
{
    let mut own = Text::new(alloc);
    own.append(piece)?;
    Ok(own)
}

/// Reads a feature.
pub(crate) fn read_feature(
    alloc: Global,
    json: &JsonText<'_>,
    lines: &mut Lines<'_>,
    feature: u32,
) -> Result<ZoneRecord, WalkRefusal>
    requires { IsThere json.now is_value feature }
    ensures faults { (j : Json) → IsJsonOf json.now j
        → TellsFirst (feature_checks j feature) result }
    ensures value { (j : Json) → IsJsonOf json.now j
        → IfOk result (λ zone. feature_in zone ≡ feature_of lines.old j feature) }
    ensures same { lines.new ≡ lines.old }
{
    let parts = own_parts(json, feature)?;
    let polygons = read_geometry(alloc, json, parts.geometry)?;
    let id = text_from(alloc, text(json, parts.id))?;
    let line = lines.line_at(place(json, feature));
    Ok(ZoneRecord { line, id, polygons })
}
