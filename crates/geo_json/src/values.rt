// The values of a scanned text.

ghost use Rattle.std.specs.Prelude.{◌≡◌, ◌&&◌, suc, IfSome, IsTrue};
ghost use Rattle.std.specs.Str.{bytes_eq};
ghost use Rattle.feed_meaning.specs.Locations.{Json};
ghost use Rattle.geo_json.specs.Scans.{IsJsonOf, is_array_value, is_number_value, is_object_value, is_string_value};
ghost use Rattle.geo_json.specs.There.{AreThere, IsThere, is_value};

use json_text::{JsonItems, JsonKind, JsonText};

/// The node of the text's value.
pub(crate) fn root(json: &JsonText<'_>) -> u32
    ensures value { (j : Json) → IsJsonOf json.now j → result ≡ j.root }
    ensures there { IsThere json.now is_value result }
{
    json.root()
}

/// The offset of the value's first byte.
pub(crate) fn place(json: &JsonText<'_>, node: u32) -> u64
    requires { IsThere json.now is_value node }
    ensures { (j : Json) → IsJsonOf json.now j → result ≡ j.place node }
{
    json.place(node)
}

pub(crate) fn is_object(json: &JsonText<'_>, node: u32) -> bool
    requires { IsThere json.now is_value node }
    ensures value { (j : Json) → IsJsonOf json.now j → result ≡ j.is_object node }
    ensures object { IsTrue result → IsThere json.now is_object_value node }
{
    matches!(json.kind(node), JsonKind::Object)
}

pub(crate) fn is_array(json: &JsonText<'_>, node: u32) -> bool
    requires { IsThere json.now is_value node }
    ensures value { (j : Json) → IsJsonOf json.now j → result ≡ j.is_array node }
    ensures array { IsTrue result → IsThere json.now is_array_value node }
{
    matches!(json.kind(node), JsonKind::Array)
}

pub(crate) fn is_string(json: &JsonText<'_>, node: u32) -> bool
    requires { IsThere json.now is_value node }
    ensures value { (j : Json) → IsJsonOf json.now j → result ≡ j.is_word node }
    ensures string { IsTrue result → IsThere json.now is_string_value node }
{
    matches!(json.kind(node), JsonKind::String)
}

pub(crate) fn is_number(json: &JsonText<'_>, node: u32) -> bool
    requires { IsThere json.now is_value node }
    ensures value { (j : Json) → IsJsonOf json.now j → result ≡ j.is_number node }
    ensures number { IsTrue result → IsThere json.now is_number_value node }
{
    matches!(json.kind(node), JsonKind::Number)
}

/// A string's text, with its escapes read.
pub(crate) fn text<'a>(json: &'a JsonText<'_>, string: u32) -> &'a str
    requires { IsThere json.now is_string_value string }
    ensures { (j : Json) → IsJsonOf json.now j → result.now ≡ j.text string }
{
    json.text_of(string)
}

/// A number's own characters.
pub(crate) fn digits<'a>(json: &'a JsonText<'_>, number: u32) -> &'a str
    requires { IsThere json.now is_number_value number }
    ensures { (j : Json) → IsJsonOf json.now j → result.now ≡ j.digits number }
{
    json.number_of(number)
}

/// The items of an array.
pub(crate) fn items<'a>(json: &'a JsonText<'_>, array: u32) -> JsonItems<'a>
    requires { IsThere json.now is_array_value array }
    ensures value { (j : Json) → IsJsonOf json.now j → result ≡ j.items array }
    ensures there { AreThere json.now (suc array) result }
{
    json.items(array)
}

/// The value of the first member with the name.
pub(crate) fn member(json: &JsonText<'_>, object: u32, name: &str) -> Option<u32>
    requires { IsThere json.now is_object_value object }
    ensures value { (j : Json) → IsJsonOf json.now j → result ≡ j.member object name.now }
    ensures there { IfSome result (IsThere json.now is_value) }
{
    json.member(object, name)
}

/// Whether the value is a string of this text.
pub(crate) fn has_text(json: &JsonText<'_>, node: u32, wanted: &str) -> bool
    requires { IsThere json.now is_value node }
    ensures { (j : Json) → IsJsonOf json.now j
        → result ≡ (j.is_word node && bytes_eq (j.text node) wanted.now) }
{
    is_string(json, node) && text(json, node) == wanted
}
