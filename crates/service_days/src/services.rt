// The days of a service.

ghost use Rattle.std.specs.Prelude.{◌≡◌, ◌≤ℤ◌, ◌+ℤ◌, pos, IsTrue};
ghost use Rattle.std.specs.List.{list_any};
ghost use Rattle.std.specs.Ordering.{int_eq};
ghost use Rattle.flex_model.specs.ServiceDay.{is_active, runs_weekly, weekday};

use flex_model::Service;

// The weekday of the day: 0 is Monday.
fn weekday_of(day: i64) -> usize
    requires { day ≤ℤ pos 4294967296 }
    ensures { result ≡ weekday day }
{
    (day + 3).rem_euclid(7) as usize
}

// Whether the day is one of these.
fn has_day(days: &[i32], day: i64) -> bool
    ensures value { result ≡ list_any (int_eq day) days.now }
    ensures low { IsTrue result → pos 0 ≤ℤ (day +ℤ pos 2147483648) }
{
    days.iter().any(|other| day == i64::from(*other))
}

// Whether the weekly rule has the day.
fn is_in_week(service: &Service, day: i64) -> bool
    requires { day ≤ℤ pos 4294967296 }
    ensures value { result ≡ runs_weekly service.now day }
    ensures low { IsTrue result → pos 0 ≤ℤ (day +ℤ pos 2147483648) }
{
    let has_flag = service.flags[weekday_of(day)];
    has_flag && (i64::from(service.first) <= day && day <= i64::from(service.last))
}

// The same as `active`, of days that its type may not hold. On none of those before its least day the service runs.
pub(crate) fn runs_on(service: &Service, day: i64) -> bool
    requires { day ≤ℤ pos 4294967296 }
    ensures value { result ≡ is_active service.now day }
    ensures low { IsTrue result → pos 0 ≤ℤ (day +ℤ pos 2147483648) }
{
    has_day(service.added.as_slice(), day)
        || (is_in_week(service, day) && !has_day(service.removed.as_slice(), day))
}

/// Whether the service runs on the day, which counts from 1970-01-01. A date that adds the day decides,
/// then one that removes it, then the weekly rule (GTFS Schedule reference, `calendar_dates.txt`).
pub fn active(service: &Service, day: i32) -> bool
    ensures { result ≡ is_active service.now day }
{
    runs_on(service, i64::from(day))
}
