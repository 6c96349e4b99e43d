// Reading the zones of a text.

ghost use Rattle.std.specs.Prelude.{◌≡◌, ◌^◌, ◌<◌, length, map, IfOk};
ghost use Rattle.std.specs.List.{flat_map};
ghost use Rattle.feed_meaning.specs.Locations as Locations;
ghost use Rattle.feed_meaning.specs.Locations.{Json, Scan, checks, feature_checks, feature_nodes, feature_of, zones_of_scan};
ghost use Rattle.geo_json.specs.Features.{root_checks, scan_checks, scan_features};
ghost use Rattle.geo_json.specs.Scans.{IsJsonOf, IsScanOf, is_array_value};
ghost use Rattle.geo_json.specs.There.{IsThere};
ghost use Rattle.geo_json.specs.Walks.{TellsFirst};
ghost use Rattle.geo_json.specs.Zones.{AreZones, feature_in};

use crate::features::read_feature;
use crate::lines::Lines;
use crate::members::{array_member, fault_at, text_member};
use crate::record::ZoneRecord;
use crate::refusal::{GeoRefusal, WalkRefusal};
use crate::values::{is_object, items, root};
use flex_model::{FaultCode, Listed};
use json_text::JsonText;
use std::alloc::Global;

/// The array of a collection's features.
fn feature_array(json: &JsonText<'_>) -> Result<u32, WalkRefusal>
    ensures faults { (j : Json) → IsJsonOf json.now j → TellsFirst (root_checks j) result }
    ensures value { (j : Json) → IsJsonOf json.now j
        → IfOk result (λ value. value ≡ Locations.member j j.root "features") }
    ensures there { IfOk result (IsThere json.now is_array_value) }
{
    let collection = root(json);
    if !is_object(json, collection) {
        return Err(fault_at(json, collection, FaultCode::GeoShape));
    }
    text_member(json, collection, "type", "FeatureCollection")?;
    array_member(json, collection, "features")
}

/// Reads each feature of an array.
fn read_each(
    alloc: Global,
    json: &JsonText<'_>,
    text: &str,
    array: u32,
) -> Result<Listed<ZoneRecord>, WalkRefusal>
    requires short { length text.now < 2 ^ 32 }
    requires array { IsThere json.now is_array_value array }
    ensures faults { (j : Json) → IsJsonOf json.now j
        → TellsFirst (flat_map (feature_checks j) (j.items array)) result }
    ensures value { (j : Json) → IsJsonOf json.now j
        → IfOk result (λ zones. map feature_in zones
        ≡ map (feature_of text.now j) (j.items array)) }
    ensures few { IfOk result (λ zones. length zones < 2 ^ 32) }
{
    let mut lines = Lines::new(text);
    let mut zones = Listed::new(alloc);
    for feature in items(json, array) {
        let zone = read_feature(alloc, json, &mut lines, feature)?;
        zones.push(zone)?;
    }
    Ok(zones)
}

/// Reads the features of a collection.
fn read_features(
    alloc: Global,
    json: &JsonText<'_>,
    text: &str,
) -> Result<Listed<ZoneRecord>, WalkRefusal>
    requires { length text.now < 2 ^ 32 }
    ensures faults { (j : Json) → IsJsonOf json.now j → TellsFirst (checks j) result }
    ensures value { (j : Json) → IsJsonOf json.now j
        → IfOk result (λ zones. map feature_in zones
        ≡ map (feature_of text.now j) (feature_nodes j)) }
    ensures few { IfOk result (λ zones. length zones < 2 ^ 32) }
{
    let array = feature_array(json)?;
    read_each(alloc, json, text, array)
}

/// Scans a text and reads its features.
fn read_text(alloc: Global, text: &str) -> Result<Listed<ZoneRecord>, WalkRefusal>
    requires { length text.now < 2 ^ 32 }
    ensures faults { (scan : Scan) → IsScanOf text.now scan → TellsFirst (scan_checks scan) result }
    ensures value { (scan : Scan) → IsScanOf text.now scan
        → IfOk result (λ zones. map feature_in zones ≡ scan_features text.now scan) }
    ensures few { IfOk result (λ zones. length zones < 2 ^ 32) }
{
    match JsonText::scan(alloc, text) {
        Ok(json) => read_features(alloc, &json, text),
        Err(refusal) => Err(WalkRefusal::of_scan(refusal)),
    }
}

/// Reads the zones of a GeoJSON text (RFC 7946): the features of a collection, each with an id, a
/// polygon or several, and closed rings of four positions or more. The first thing that is wrong
/// refuses the text: where it is no JSON (RFC 8259) or opens more than 64 arrays and objects at
/// once, otherwise the first fault in the order of the text, with the line of the value that is at
/// fault, or of its object where a member is missing. Of members with one name the first counts.
/// Whether two features have one id isn't looked at.
pub fn read_zones(alloc: Global, text: &str) -> Result<Listed<ZoneRecord>, GeoRefusal>
    requires { length text.now < 2 ^ 32 }
    ensures zones { (scan : Scan) → IsScanOf text.now scan
        → AreZones (zones_of_scan text.now scan) result }
    ensures few { IfOk result (λ zones. length zones < 2 ^ 32) }
{
    match read_text(alloc, text) {
        Ok(zones) => Ok(zones),
        Err(refusal) => Err(refusal.located(text)),
    }
}
