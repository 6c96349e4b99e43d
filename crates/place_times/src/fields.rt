// The values of fields.

ghost use Rattle.std.specs.Prelude.{◌≡◌, ◌<◌, ◌^◌, IfOk, is_none, unwrap_or};
ghost use Rattle.field_text.specs.Grammars;
ghost use Rattle.feed_meaning.specs.FeedValue.{coordinate};

use field_text::{read_count, read_degree};
use flex_model::limits::{GREATEST_LATITUDE, GREATEST_LONGITUDE};
use flex_model::{NoMemory, Text};
use std::alloc::Global;

/// Whether a text has no value of its kind.
pub(crate) fn is_no<T: Copy>(value: Option<T>) -> bool
    ensures { result ≡ is_none value }
{
    value.is_none()
}

/// A text of its own.
pub(crate) fn text_of(alloc: Global, text: &str) -> Result<Text, NoMemory>
    ensures { IfOk result (λ own. own ≡ text.now) }
{
    let mut own = Text::new(alloc);
    own.append(text)?;
    Ok(own)
}

/// A latitude, in units of 10^-15 degree.
pub(crate) fn latitude(text: &str) -> Option<i64>
    ensures { result ≡ Grammars.degree 90 text.now }
{
    read_degree(text, GREATEST_LATITUDE).ok()
}

/// A longitude, in units of 10^-15 degree.
pub(crate) fn longitude(text: &str) -> Option<i64>
    ensures { result ≡ Grammars.degree 180 text.now }
{
    read_degree(text, GREATEST_LONGITUDE).ok()
}

/// A longitude, and 0 where the text has none.
pub(crate) fn longitude_or_zero(text: &str) -> i64
    ensures { result ≡ coordinate 180 text.now }
{
    match read_degree(text, GREATEST_LONGITUDE) {
        Ok(degree) => degree,
        Err(_) => 0,
    }
}

/// A latitude, and 0 where the text has none.
pub(crate) fn latitude_or_zero(text: &str) -> i64
    ensures { result ≡ coordinate 90 text.now }
{
    match read_degree(text, GREATEST_LATITUDE) {
        Ok(degree) => degree,
        Err(_) => 0,
    }
}

/// A number of seconds up to the greatest one.
pub(crate) fn seconds_within(text: &str, most: u64) -> Option<u32>
    requires { most < 2 ^ 32 }
    ensures { result ≡ Grammars.count most text.now }
{
    match read_count(text, most) {
        Ok(number) => Some(number as u32),
        Err(_) => None,
    }
}

/// A number of seconds up to the greatest one, and 0 where the text has none.
pub(crate) fn seconds_or_zero(text: &str, most: u64) -> u32
    requires { most < 2 ^ 32 }
    ensures { result ≡ unwrap_or (Grammars.count most text.now) 0 }
{
    match seconds_within(text, most) {
        Some(number) => number,
        None => 0,
    }
}
