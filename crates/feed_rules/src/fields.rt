// The values of fields, where they have one.

ghost use Rattle.std.specs.Prelude.{◌≡◌, ◌<◌, is_none};
ghost use Rattle.field_text.specs.Grammars;
ghost use Rattle.feed_meaning.specs.FeedRules;

use field_text::{read_count, read_date, read_degree, read_time};
use flex_model::limits::{GREATEST_LATITUDE, GREATEST_LONGITUDE, GREATEST_SEQUENCE};

/// Whether a text has no value of its kind.
pub(crate) fn is_no<T: Copy>(value: Option<T>) -> bool
    ensures { result ≡ is_none value }
{
    value.is_none()
}

/// A time of a service day, in seconds.
pub(crate) fn time(text: &str) -> Option<u32>
    ensures { result ≡ Grammars.time text.now }
{
    read_time(text).ok()
}

/// A date, in days since 1970-01-01.
pub(crate) fn date(text: &str) -> Option<i32>
    ensures { result ≡ Grammars.date text.now }
{
    read_date(text).ok()
}

/// A stop_sequence.
pub(crate) fn sequence(text: &str) -> Option<u32>
    ensures { result ≡ FeedRules.sequence text.now }
{
    match read_count(text, GREATEST_SEQUENCE) {
        Ok(number) => Some(number as u32),
        Err(_) => None,
    }
}

/// One digit from the least to the greatest.
pub(crate) fn choice(text: &str, least: u64, greatest: u64) -> Option<u32>
    requires { greatest < 10 }
    ensures { result ≡ Grammars.choice least greatest text.now }
{
    if text.len() != 1 {
        return None;
    }
    let Ok(number) = read_count(text, greatest) else {
        return None;
    };
    if number < least {
        return None;
    }
    Some(number as u32)
}

/// A latitude, in units of 10^-15 degree.
pub(crate) fn latitude(text: &str) -> Option<i64>
    ensures { result ≡ Grammars.degree 90 text.now }
{
    read_degree(text, GREATEST_LATITUDE).ok()
}

/// A longitude, in units of 10^-15 degree.
pub(crate) fn longitude(text: &str) -> Option<i64>
    ensures { result ≡ Grammars.degree 180 text.now }
{
    read_degree(text, GREATEST_LONGITUDE).ok()
}
