//! The readers of the words of printed lines. None of them takes memory.

ghost use Rattle.std.specs.Prelude.{◌≡◌, ◌≢◌, ◌++◌, ◌<◌, ℕ, List, IfNone, IfSome, position};
ghost use Rattle.std.specs.Result.{result_ok};
ghost use Rattle.std.specs.Str.{bytes_eq};
ghost use Rattle.field_text.specs.Grammars as Grammars;
ghost use Rattle.field_text.specs.Grammars.{escape, escaped_byte};
ghost use Rattle.flex_model.specs.SoundFeed.{IsSoundFeed};
ghost use Rattle.flex_model.specs.SoundTimes.{AreSoundTimes};
ghost use Rattle.query_io.specs.Lines.{deadline_in, has_leading_zero, number_in, place_in};

use field_text::{BadMoment, BadNumber, read_count, read_moment};
use flex_model::{Deadline, Feed, Place, Point, Stop, Times};

// A hexadecimal digit, with capital letters.
fn hex_digit(n: u8) -> u8
    requires { n < 16 }
    ensures { result ≡ Grammars.hex_digit n }
{
    if n < 10 { b'0' + n } else { b'A' + (n - 10) }
}

// What follows the escape of a byte at the front of a text.
fn after_escaped(text: &[u8], byte: u8) -> Option<&[u8]>
    ensures none { IfNone result ((rest : List ℕ) → text.now ≢ escaped_byte byte ++ rest) }
    ensures some { IfSome result (λ rest. text.now ≡ escaped_byte byte ++ rest.now) }
{
    if byte.is_ascii_graphic() && byte != b'%' {
        text.strip_prefix(&[byte])
    } else {
        text.strip_prefix(&[b'%', hex_digit(byte / 16), hex_digit(byte % 16)])
    }
}

// Whether a text is the escape of an id.
fn is_escape_of(text: &str, id: &str) -> bool
    ensures { result ≡ bytes_eq text.now (escape id.now) }
{
    let mut rest = text.as_bytes();
    for byte in id.as_bytes() {
        match after_escaped(rest, *byte) {
            Some(after) => rest = after,
            None => return false,
        }
    }
    rest.is_empty()
}

// Whether a text begins with a zero and goes on.
fn has_leading_zero(text: &[u8]) -> bool
    ensures { result ≡ has_leading_zero text.now }
{
    text.len() > 1 && text[0] == b'0'
}

/// Reads a number as it is printed: in decimal digits without a sign and without leading zeros, and
/// up to the greatest. Every other text is a `BadNumber`.
pub fn read_number(text: &str, greatest: u64) -> Result<u64, BadNumber>
    ensures { result_ok result ≡ number_in greatest text.now }
{
    if has_leading_zero(text.as_bytes()) {
        return Err(BadNumber);
    }
    read_count(text, greatest)
}

/// Reads a deadline: `never`, or a moment of the years 1980 to 2209 as YYYY-MM-DDTHH:MM:SSZ. Every
/// other text is a `BadMoment`.
pub fn read_deadline(text: &str) -> Result<Deadline, BadMoment>
    ensures { result_ok result ≡ deadline_in text.now }
{
    if text == "never" {
        return Ok(Deadline::Never);
    }
    match read_moment(text) {
        Ok(moment) => Ok(Deadline::At(moment)),
        Err(bad) => Err(bad),
    }
}

// The number of the stop whose escaped id a text is.
fn stop_named(stops: &[Stop], text: &str) -> Option<usize>
    ensures { result ≡ position (λ stop. bytes_eq text.now (escape stop.id)) stops.now }
{
    for i in 0..stops.len() {
        if is_escape_of(text, stops[i].id.as_str()) {
            return Some(i);
        }
    }
    None
}

// The number of the point whose escaped id a text is.
fn point_named(points: &[Point], text: &str) -> Option<usize>
    ensures { result ≡ position (λ point. bytes_eq text.now (escape point.id)) points.now }
{
    for i in 0..points.len() {
        if is_escape_of(text, points[i].id.as_str()) {
            return Some(i);
        }
    }
    None
}

/// Finds the stop or the point whose escaped id a text is, by a look through all of them. There is
/// none exactly where the text is the escape of the id of no stop and no point.
pub fn read_place(feed: &Feed, times: &Times, text: &str) -> Option<Place>
    requires feed { IsSoundFeed feed.now }
    requires times { AreSoundTimes feed.now times.now }
    ensures { result ≡ place_in feed.now times.now text.now }
{
    if let Some(stop) = stop_named(feed.stops.as_slice(), text) {
        return Some(Place::Stop(stop as u32));
    }
    match point_named(times.points.as_slice(), text) {
        Some(point) => Some(Place::Point(point as u32)),
        None => None,
    }
}
