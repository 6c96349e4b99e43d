// Positions of a ring.

ghost use Rattle.std.specs.Prelude.{◌≡◌, ◌&&◌, List, [], ◌∷◌, ℕ, None, Some, IfErr, IfOk, IfSome, MatchOption, false, is_some, length, nat_le};
ghost use Rattle.feed_meaning.specs.Locations.{Json, latitude, longitude, position_checks, position_of};
ghost use Rattle.field_text.specs.Grammars.{degree};
ghost use Rattle.geo_json.specs.Scans.{IsJsonOf, is_array_value, is_number_value};
ghost use Rattle.geo_json.specs.There.{IsThere, is_value};
ghost use Rattle.geo_json.specs.Walks.{TellsFirst};

use crate::members::fault_at;
use crate::refusal::WalkRefusal;
use crate::values::{digits, is_array, is_number, items};
use field_text::read_degree;
use flex_model::limits::{GREATEST_LATITUDE, GREATEST_LONGITUDE};
use flex_model::{FaultCode, Position};
use json_text::JsonText;

/// The first two items of an array, where it has two.
fn first_two(json: &JsonText<'_>, array: u32) -> Option<(u32, u32)>
    requires { IsThere json.now is_array_value array }
    ensures items { (j : Json) → IsJsonOf json.now j
        → MatchOption result (nat_le 2 (length (j.items array)) ≡ false)
        (λ two. (more : List ℕ) × (j.items array ≡ two.0 ∷ two.1 ∷ more)) }
    ensures there { IfSome result
        (λ two. IsThere json.now is_value two.0 × IsThere json.now is_value two.1) }
{
    let mut items = items(json, array);
    let first = items.next()?;
    let second = items.next()?;
    Some((first, second))
}

/// The longitude and the latitude of a position, where it has the shape of one: an array that
/// begins with two numbers.
fn coordinates(json: &JsonText<'_>, position: u32) -> Option<(u32, u32)>
    requires { IsThere json.now is_value position }
    ensures shape { (j : Json) → IsJsonOf json.now j → is_some result
        ≡ (j.is_array position && nat_le 2 (length (j.items position))
        && j.is_number (longitude j position) && j.is_number (latitude j position)) }
    ensures value { (j : Json) → IsJsonOf json.now j → IfSome result
        (λ two. (two.0 ≡ longitude j position) × (two.1 ≡ latitude j position)) }
    ensures there { IfSome result
        (λ two. IsThere json.now is_number_value two.0 × IsThere json.now is_number_value two.1) }
{
    if !is_array(json, position) {
        return None;
    }
    let (longitude, latitude) = first_two(json, position)?;
    if !is_number(json, longitude) || !is_number(json, latitude) {
        return None;
    }
    Some((longitude, latitude))
}

/// A longitude, in units of 10^-15 degree.
fn longitude_of(text: &str) -> Option<i64>
    ensures { result ≡ degree 180 text.now }
{
    read_degree(text, GREATEST_LONGITUDE).ok()
}

/// A latitude, in units of 10^-15 degree.
fn latitude_of(text: &str) -> Option<i64>
    ensures { result ≡ degree 90 text.now }
{
    read_degree(text, GREATEST_LATITUDE).ok()
}

/// The degree that a number tells, or the fault of a number that tells none.
fn told_by(json: &JsonText<'_>, number: u32, degree: Option<i64>) -> Result<i64, WalkRefusal>
    requires { IsThere json.now is_value number }
    ensures fault { (j : Json) → IsJsonOf json.now j
        → IfErr result (λ refusal. (degree ≡ None)
        × (refusal ≡ WalkRefusal.Fault FaultCode.BadCoordinate (j.place number))) }
    ensures value { IfOk result (λ value. degree ≡ Some value) }
{
    match degree {
        Some(degree) => Ok(degree),
        None => Err(fault_at(json, number, FaultCode::BadCoordinate)),
    }
}

/// Reads a position: its first two items are its longitude and its latitude, and others are passed
/// over.
pub(crate) fn read_position(json: &JsonText<'_>, position: u32) -> Result<Position, WalkRefusal>
    requires { IsThere json.now is_value position }
    ensures faults { (j : Json) → IsJsonOf json.now j
        → TellsFirst (position_checks j position) result }
    ensures value { (j : Json) → IsJsonOf json.now j
        → IfOk result (λ value. value ≡ position_of j position) }
{
    let Some((longitude, latitude)) = coordinates(json, position) else {
        return Err(fault_at(json, position, FaultCode::GeoShape));
    };
    let lon = told_by(json, longitude, longitude_of(digits(json, longitude)))?;
    let lat = told_by(json, latitude, latitude_of(digits(json, latitude)))?;
    Ok(Position { lon, lat })
}
