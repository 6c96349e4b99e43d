// Forms of a geometry.

ghost use Rattle.std.specs.Prelude.{◌≡◌, ◌||◌, [], ◌∷◌, IfOk, codes};
ghost use Rattle.feed_meaning.specs.Locations as Locations;
ghost use Rattle.feed_meaning.specs.Locations.{Json};
ghost use Rattle.geo_json.specs.Forms.{form_in};
ghost use Rattle.geo_json.specs.Scans.{IsJsonOf, is_object_value};
ghost use Rattle.geo_json.specs.There.{IsThere};
ghost use Rattle.geo_json.specs.Walks.{TellsFirst};

use crate::members::{fault_at, required};
use crate::refusal::WalkRefusal;
use crate::values::has_text;
use flex_model::FaultCode;
use json_text::JsonText;

/// What the coordinates of a geometry are: the rings of a polygon, or several polygons.
#[derive(Clone, Copy, Debug, PartialEq, Eq)]
pub(crate) enum Form {
    Polygon,
    MultiPolygon,
}

/// The form that a geometry's type tells.
pub(crate) fn form_of(json: &JsonText<'_>, geometry: u32) -> Result<Form, WalkRefusal>
    requires { IsThere json.now is_object_value geometry }
    ensures faults { (j : Json) → IsJsonOf json.now j
        → TellsFirst
        (Locations.check_member j geometry "type"
        (λ v. Locations.is_word j "Polygon" v || Locations.is_word j "MultiPolygon" v) ∷ [])
        result }
    ensures value { (j : Json) → IsJsonOf json.now j
        → IfOk result (λ form. form ≡ form_in j geometry) }
{
    let value = required(json, geometry, "type")?;
    if has_text(json, value, "Polygon") {
        return Ok(Form::Polygon);
    }
    if has_text(json, value, "MultiPolygon") {
        return Ok(Form::MultiPolygon);
    }
    Err(fault_at(json, value, FaultCode::GeoShape))
}
