// Members that an object needs.

ghost use Rattle.std.specs.Prelude.{◌≡◌, [], ◌∷◌, None, Some, IfErr, IfOk, unwrap_or};
ghost use Rattle.feed_meaning.specs.Locations.{Json};
ghost use Rattle.geo_json.specs.Scans.{IsJsonOf, is_array_value, is_object_value};
ghost use Rattle.geo_json.specs.There.{IsThere, is_value};
ghost use Rattle.geo_json.specs.Walks.{TellsFirst, check_named, has_text};

use crate::refusal::WalkRefusal;
use crate::values::{has_text, is_array, is_object, member, place};
use flex_model::FaultCode;
use json_text::JsonText;

/// The fault of a value, at its first byte.
pub(crate) fn fault_at(json: &JsonText<'_>, node: u32, code: FaultCode) -> WalkRefusal
    requires { IsThere json.now is_value node }
    ensures { (j : Json) → IsJsonOf json.now j → result ≡ WalkRefusal.Fault code (j.place node) }
{
    WalkRefusal::Fault {
        code,
        place: place(json, node),
    }
}

/// The value of the first member with the name, or the fault of an object that has none.
pub(crate) fn required(json: &JsonText<'_>, object: u32, name: &str) -> Result<u32, WalkRefusal>
    requires { IsThere json.now is_object_value object }
    ensures found { (j : Json) → IsJsonOf json.now j
        → IfOk result (λ value. j.member object name.now ≡ Some value) }
    ensures missing { (j : Json) → IsJsonOf json.now j
        → IfErr result (λ refusal. (j.member object name.now ≡ None)
        × (refusal ≡ WalkRefusal.Fault FaultCode.GeoShape (j.place object))) }
    ensures there { IfOk result (IsThere json.now is_value) }
{
    let Some(value) = member(json, object, name) else {
        return Err(fault_at(json, object, FaultCode::GeoShape));
    };
    Ok(value)
}

/// Checks that the member is a string of this text.
pub(crate) fn text_member(
    json: &JsonText<'_>,
    object: u32,
    name: &str,
    text: &str,
) -> Result<(), WalkRefusal>
    requires { IsThere json.now is_object_value object }
    ensures { (j : Json) → IsJsonOf json.now j
        → TellsFirst (check_named j object name.now (has_text j text.now) ∷ []) result }
{
    let value = required(json, object, name)?;
    if !has_text(json, value, text) {
        return Err(fault_at(json, value, FaultCode::GeoShape));
    }
    Ok(())
}

/// The value of a member that is an array.
pub(crate) fn array_member(json: &JsonText<'_>, object: u32, name: &str) -> Result<u32, WalkRefusal>
    requires { IsThere json.now is_object_value object }
    ensures faults { (j : Json) → IsJsonOf json.now j
        → TellsFirst (check_named j object name.now j.is_array ∷ []) result }
    ensures value { (j : Json) → IsJsonOf json.now j
        → IfOk result (λ value. value ≡ unwrap_or (j.member object name.now) object) }
    ensures there { IfOk result (IsThere json.now is_array_value) }
{
    let value = required(json, object, name)?;
    if !is_array(json, value) {
        return Err(fault_at(json, value, FaultCode::GeoShape));
    }
    Ok(value)
}

/// The value of a member that is an object.
pub(crate) fn object_member(
    json: &JsonText<'_>,
    object: u32,
    name: &str,
) -> Result<u32, WalkRefusal>
    requires { IsThere json.now is_object_value object }
    ensures faults { (j : Json) → IsJsonOf json.now j
        → TellsFirst (check_named j object name.now j.is_object ∷ []) result }
    ensures value { (j : Json) → IsJsonOf json.now j
        → IfOk result (λ value. value ≡ unwrap_or (j.member object name.now) object) }
    ensures there { IfOk result (IsThere json.now is_object_value) }
{
    let value = required(json, object, name)?;
    if !is_object(json, value) {
        return Err(fault_at(json, value, FaultCode::GeoShape));
    }
    Ok(value)
}
