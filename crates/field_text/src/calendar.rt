// Day numbers as dates of the calendar, and the digits that are printed of them.

ghost use Rattle.std.specs.Prelude.{◌≡◌, ◌≤◌, ◌<◌};
ghost use Rattle.field_text.specs.Texts.{IsPrintableDay, last_digits};
ghost use Rattle.field_text.specs.Texts.{day_of_month, month_of, year_of};

use jiff_core::civil::Date;

// The year, the month and the day of the month of a day number.
pub(crate) fn civil_parts(day: i64) -> (u16, u8, u8)
    requires { IsPrintableDay day }
    ensures year { result.0 ≡ year_of day }
    ensures month { result.1 ≡ month_of day }
    ensures day { result.2 ≡ day_of_month day }
{
    let date = Date::from_unix_epoch_day(day).unwrap();
    (date.year as u16, date.month, date.day)
}

// The last two digits of a number.
pub(crate) fn two_digits(number: u8) -> [u8; 2]
    ensures { result ≡ last_digits 2 number }
{
    [b'0' + number / 10 % 10, b'0' + number % 10]
}

// The last four digits of a number.
pub(crate) fn four_digits(number: u16) -> [u8; 4]
    ensures { result ≡ last_digits 4 number }
{
    let [thousands, hundreds] = two_digits((number / 100 % 100) as u8);
    let [tens, ones] = two_digits((number % 100) as u8);
    [thousands, hundreds, tens, ones]
}
