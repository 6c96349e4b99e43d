// Times of a service day as GTFS writes them.

ghost use Rattle.std.specs.Prelude.{◌≡◌, ◌==◌, ◌<◌, IfOk};
ghost use Rattle.std.specs.List.{after_first, before_first};
ghost use Rattle.std.specs.Result.{result_ok};
ghost use Rattle.field_text.specs.Grammars.{time};

use crate::digits::digits_within;
use crate::parts::split_at_byte;
use flex_model::limits::GREATEST_HOURS;

/// A text that is no time.
#[derive(Clone, Copy, Debug, PartialEq, Eq)]
pub struct BadTime;

// The seconds of a time.
fn seconds_of(text: &[u8]) -> Option<u32>
    ensures { result ≡ time text.now }
{
    let (hours, rest) = split_at_byte(text, b':');
    let (minutes, seconds) = split_at_byte(rest, b':');
    let hours = digits_within(hours, 1, 3, GREATEST_HOURS)?;
    let minutes = digits_within(minutes, 2, 2, 59)?;
    let seconds = digits_within(seconds, 2, 2, 59)?;
    Some((3_600 * hours + 60 * minutes + seconds) as u32)
}

/// Reads a time of a service day, as GTFS writes times, in seconds after its begin: hours of one to
/// three digits, minutes and seconds of two, up to 167:59:59. Every other text is a `BadTime`.
pub fn read_time(text: &str) -> Result<u32, BadTime>
    ensures value { result_ok result ≡ time text.now }
    ensures bound { IfOk result (λ seconds. seconds < 604_800) }
{
    seconds_of(text.as_bytes()).ok_or(BadTime)
}
