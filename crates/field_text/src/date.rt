// Dates as GTFS writes them.

ghost use Rattle.std.specs.Prelude.{◌≡◌, ◌&&◌, ◌++◌, ◌≤◌, IfOk, OnErr, OnOk, pos};
ghost use Rattle.std.specs.Result.{result_ok};
ghost use Rattle.jiff_core.specs.Calendar.{days_from_civil, days_in_month};
ghost use Rattle.field_text.specs.Grammars.{date, is_civil, lies_in, number, some_if};
ghost use Rattle.field_text.specs.Texts.{IsPrintableDay, date_text};

use crate::ascii::ascii_text;
use crate::calendar::{civil_parts, four_digits, two_digits};
use crate::digits::{has_digits, number_after};
use flex_model::{NoMemory, Text};
use jiff_core::civil::Date;

/// A text that is no date.
#[derive(Clone, Copy, Debug, PartialEq, Eq)]
pub struct BadDate;

// The days since 1970-01-01 of a date of the calendar.
fn civil_day(year: u64, month: u64, day: u64) -> Option<i32>
    requires year { year ≤ 9999 }
    requires month { month ≤ 12 }
    requires day { day ≤ 31 }
    ensures { result ≡
        some_if (lies_in 1 12 month && lies_in 1 (days_in_month (pos year) month) day)
        (days_from_civil (pos year) month day) }
{
    match Date::new(year as i16, month as i8, day as i8) {
        Ok(date) => Some(date.to_unix_epoch_day()),
        Err(_) => None,
    }
}

// The days since 1970-01-01 of a date whose parts have digits alone, in a year from the first to
// the last.
pub(crate) fn day_of_parts(
    first: u64,
    last: u64,
    year: &[u8],
    month: &[u8],
    day: &[u8],
) -> Option<i32>
    requires { last ≤ 9999 }
    ensures { let year = number year.now in
        let month = number month.now in
        let day = number day.now in
        result ≡ some_if (is_civil first last year month day)
        (days_from_civil (pos year) month day) }
{
    let year = number_after(0, year, last)?;
    let month = number_after(0, month, 12)?;
    let day = number_after(0, day, 31)?;
    if year < first {
        return None;
    }
    civil_day(year, month, day)
}

// The days since 1970-01-01 of a date.
fn day_of(text: &[u8]) -> Option<i32>
    ensures { result ≡ date text.now }
{
    if !has_digits(text, 8, 8) {
        return None;
    }
    day_of_parts(1, 9999, &text[0..4], &text[4..6], &text[6..8])
}

// What is printed of a day.
fn date_bytes(day: i32) -> [u8; 8]
    requires { IsPrintableDay day }
    ensures { result ≡ date_text day }
{
    let (year, month, day) = civil_parts(i64::from(day));
    let [y0, y1, y2, y3] = four_digits(year);
    let [m0, m1] = two_digits(month);
    let [d0, d1] = two_digits(day);
    [y0, y1, y2, y3, m0, m1, d0, d1]
}

/// Reads a date of the years 0001 to 9999 as YYYYMMDD, as GTFS writes dates, in days since
/// 1970-01-01. Every other text is a `BadDate`.
pub fn read_date(text: &str) -> Result<i32, BadDate>
    ensures value { result_ok result ≡ date text.now }
    ensures bound { IfOk result (λ day. IsPrintableDay day) }
{
    day_of(text.as_bytes()).ok_or(BadDate)
}

/// Appends a day of the years 0001 to 9999, in days since 1970-01-01, as YYYYMMDD.
pub fn write_date(day: i32, into: &mut Text) -> Result<(), NoMemory>
    requires { IsPrintableDay day }
    ensures ok { OnOk result (into.new ≡ into.old ++ date_text day) }
    ensures err { OnErr result (into.new ≡ into.old) }
{
    into.append(ascii_text(&date_bytes(day)))
}
