// The values of fields, and what stands in where a text has none.

ghost use Rattle.std.specs.Prelude.{◌≡◌, IfOk, pos, unwrap_or};
ghost use Rattle.feed_meaning.specs.FeedRules.{sequence};
ghost use Rattle.feed_meaning.specs.FeedValue.{coordinate};
ghost use Rattle.feed_meaning.specs.FeedValue as Value;
ghost use Rattle.feed_load.specs.Columns.{number_within};

use field_text::{read_count, read_date, read_degree, read_time};
use flex_model::limits::{GREATEST_LATITUDE, GREATEST_LONGITUDE, GREATEST_SEQUENCE};
use flex_model::{NoMemory, Text};
use std::alloc::Global;

// The greatest number that is kept.
const MOST_NUMBER: u64 = 4_294_967_295;

/// A text of its own.
pub(crate) fn text_of(alloc: Global, text: &str) -> Result<Text, NoMemory>
    ensures { IfOk result (λ own. own ≡ text.now) }
{
    let mut own = Text::new(alloc);
    own.append(text)?;
    Ok(own)
}

/// A longitude, and 0 where the text has none.
pub(crate) fn longitude(text: &str) -> i64
    ensures { result ≡ coordinate 180 text.now }
{
    match read_degree(text, GREATEST_LONGITUDE) {
        Ok(degree) => degree,
        Err(_) => 0,
    }
}

/// A latitude, and 0 where the text has none.
pub(crate) fn latitude(text: &str) -> i64
    ensures { result ≡ coordinate 90 text.now }
{
    match read_degree(text, GREATEST_LATITUDE) {
        Ok(degree) => degree,
        Err(_) => 0,
    }
}

/// A date in days since 1970-01-01, and 0 where the text has none.
pub(crate) fn day(text: &str) -> i32
    ensures { result ≡ Value.day text.now }
{
    match read_date(text) {
        Ok(day) => day,
        Err(_) => 0,
    }
}

/// A stop_sequence, and 0 where the text has none.
pub(crate) fn sequence_of(text: &str) -> u32
    ensures { result ≡ unwrap_or (sequence text.now) 0 }
{
    match read_count(text, GREATEST_SEQUENCE) {
        Ok(number) => number as u32,
        Err(_) => 0,
    }
}

/// A number that fits 32 bits, and 0 where the text has none.
pub(crate) fn number_of(text: &str) -> u32
    ensures { result ≡ number_within text.now }
{
    match read_count(text, MOST_NUMBER) {
        Ok(number) => number as u32,
        Err(_) => 0,
    }
}

/// The seconds of a time, and 0 where the text has none.
pub(crate) fn seconds_of(text: &str) -> u32
    ensures { result ≡ Value.seconds text.now }
{
    match read_time(text) {
        Ok(seconds) => seconds,
        Err(_) => 0,
    }
}
