// The days of a table.

ghost use Rattle.std.specs.Prelude.{◌≡◌, ◌↔◌, ◌+ℤ◌, ◌≤ℤ◌, ℤ, pos, IfSome, IsTrue, Some};
ghost use Rattle.flex_model.specs.ServiceDay.{BeginsAt, IsMoment, IsTravelDay};
ghost use Rattle.flex_model.specs.SoundQuery.{IsSoundDayTable};

use flex_model::limits::{TABLE_DAYS, TRAVEL_DAYS};
use flex_model::{DayTable, Moment};

/// The first of the 22 travel days of the table, which are its last days.
pub fn first_travel_day(days: &DayTable) -> i32
    requires { IsSoundDayTable days.now }
    ensures { (day : ℤ) → IsTravelDay days.now day
        ↔ ((result ≤ℤ day) × (day ≤ℤ (result +ℤ pos 21))) }
{
    days.first + (TABLE_DAYS - TRAVEL_DAYS) as i32
}

/// Whether the day is one of the 22 travel days of the table.
pub fn is_travel_day(days: &DayTable, day: i32) -> bool
    requires { IsSoundDayTable days.now }
    ensures { IsTrue result ↔ IsTravelDay days.now day }
{
    let first = first_travel_day(days);
    first <= day && i64::from(day) < i64::from(first) + TRAVEL_DAYS as i64
}

/// The moment at which the service day begins, 12 hours before its noon. A day that the table lacks has none.
pub fn begin(days: &DayTable, day: i32) -> Option<Moment>
    requires { IsSoundDayTable days.now }
    ensures begins { (base : ℤ) → BeginsAt days.now day base ↔ (result ≡ Some base) }

    // Bounds, for the sums of callers.
    ensures low { IfSome result (λ base. pos 0 ≤ℤ (base +ℤ pos 100000)) }
    ensures high { IfSome result (λ base. base ≤ℤ pos 10000000000) }
{
    let index = i64::from(day) - i64::from(days.first);
    if index < 0 || TABLE_DAYS as i64 <= index {
        return None;
    }
    Some(days.base[index as usize])
}

/// The moment of a time of the service day, in seconds after its begin, which may be 24 hours and more. A day that
/// the table lacks has none.
pub fn moment(days: &DayTable, day: i32, time: u32) -> Option<Moment>
    requires { IsSoundDayTable days.now }
    ensures moments { (moment : ℤ) → IsMoment days.now day time moment ↔ (result ≡ Some moment) }

    // Bounds, for the sums of callers.
    ensures low { IfSome result (λ moment. pos 0 ≤ℤ (moment +ℤ pos 100000)) }
    ensures high { IfSome result (λ moment. moment ≤ℤ pos 20000000000) }
{
    Some(begin(days, day)? + i64::from(time))
}
