// Moments in UTC.

ghost use Rattle.std.specs.Prelude.{◌≡◌, ◌+◌, ◌*◌, ◌&&◌, ◌++◌, ◌<◌, length, nat_le};
ghost use Rattle.std.specs.Prelude.{IfOk, OnErr, OnOk};
ghost use Rattle.std.specs.Bool.{OnTrue};
ghost use Rattle.std.specs.Result.{result_ok};
ghost use Rattle.field_text.specs.Grammars as Grammars;
ghost use Rattle.field_text.specs.Grammars.{moment, number, some_if};
ghost use Rattle.field_text.specs.Texts.{IsPrintableMoment, clock_text, moment_text};

use crate::ascii::ascii_text;
use crate::calendar::{civil_parts, four_digits, two_digits};
use crate::date::day_of_parts;
use crate::digits::number_after;
use flex_model::limits::{FIRST_YEAR, LAST_YEAR};
use flex_model::{Moment, NoMemory, Text};

/// A text that is no moment of the years 1980 to 2209.
#[derive(Clone, Copy, Debug, PartialEq, Eq)]
pub struct BadMoment;

// Whether a byte is a digit where a 0 is expected, and elsewhere the expected byte.
fn is_as_expected(expected: u8, byte: u8) -> bool
    ensures { result ≡ Grammars.is_as_expected expected byte }
{
    if expected == b'0' {
        byte.is_ascii_digit()
    } else {
        expected == byte
    }
}

// Whether a text has a digit wherever the pattern has a 0, and elsewhere the pattern's own bytes.
fn is_shaped(pattern: &[u8], text: &[u8]) -> bool
    ensures value { result ≡ Grammars.is_shaped pattern.now text.now }
    ensures same_length { OnTrue result (length text.now ≡ length pattern.now) }
{
    if pattern.len() != text.len() {
        return false;
    }
    for i in 0..pattern.len() {
        if !is_as_expected(pattern[i], text[i]) {
            return false;
        }
    }
    true
}

// The second of the day at a time whose parts have digits alone.
fn second_of_parts(hours: &[u8], minutes: &[u8], seconds: &[u8]) -> Option<u32>
    ensures { let hours = number hours.now in
        let minutes = number minutes.now in
        let seconds = number seconds.now in
        result ≡ some_if (nat_le hours 23 && nat_le minutes 59 && nat_le seconds 59)
        (3600 * hours + 60 * minutes + seconds) }
{
    let hours = number_after(0, hours, 23)?;
    let minutes = number_after(0, minutes, 59)?;
    let seconds = number_after(0, seconds, 59)?;
    Some((3_600 * hours + 60 * minutes + seconds) as u32)
}

// The seconds since 1970-01-01T00:00:00Z of a moment.
fn moment_of(text: &[u8]) -> Option<Moment>
    ensures { result ≡ moment 1980 2209 text.now }
{
    if !is_shaped(b"0000-00-00T00:00:00Z", text) {
        return None;
    }
    let day = day_of_parts(
        FIRST_YEAR,
        LAST_YEAR,
        &text[0..4],
        &text[5..7],
        &text[8..10],
    )?;
    let second = second_of_parts(&text[11..13], &text[14..16], &text[17..19])?;
    Some(86_400 * i64::from(day) + i64::from(second))
}

// What is printed of a time of the day.
fn clock_bytes(second: u32) -> [u8; 8]
    requires { second < 86_400 }
    ensures { result ≡ clock_text second }
{
    let [h0, h1] = two_digits((second / 3_600) as u8);
    let [m0, m1] = two_digits((second / 60 % 60) as u8);
    let [s0, s1] = two_digits((second % 60) as u8);
    [h0, h1, b':', m0, m1, b':', s0, s1]
}

// What is printed of a moment.
fn moment_bytes(moment: Moment) -> [u8; 20]
    requires { IsPrintableMoment moment }
    ensures { result ≡ moment_text moment }
{
    let (year, month, day) = civil_parts(moment.div_euclid(86_400));
    let clock = clock_bytes(moment.rem_euclid(86_400) as u32);
    let [y0, y1, y2, y3] = four_digits(year);
    let [m0, m1] = two_digits(month);
    let [d0, d1] = two_digits(day);
    let [c0, c1, c2, c3, c4, c5, c6, c7] = clock;
    [
        y0, y1, y2, y3, b'-', m0, m1, b'-', d0, d1, b'T', c0, c1, c2, c3, c4, c5, c6, c7, b'Z',
    ]
}

/// Reads a moment of the years 1980 to 2209 as YYYY-MM-DDTHH:MM:SSZ, in seconds since
/// 1970-01-01T00:00:00Z. Every other text is a `BadMoment`.
pub fn read_moment(text: &str) -> Result<Moment, BadMoment>
    ensures value { result_ok result ≡ moment 1980 2209 text.now }
    ensures bound { IfOk result (λ m. IsPrintableMoment m) }
{
    moment_of(text.as_bytes()).ok_or(BadMoment)
}

/// Appends a moment of the years 1980 to 2209 as YYYY-MM-DDTHH:MM:SSZ, which is 20 bytes.
pub fn write_moment(moment: Moment, into: &mut Text) -> Result<(), NoMemory>
    requires { IsPrintableMoment moment }
    ensures ok { OnOk result (into.new ≡ into.old ++ moment_text moment) }
    ensures err { OnErr result (into.new ≡ into.old) }
{
    into.append(ascii_text(&moment_bytes(moment)))
}
