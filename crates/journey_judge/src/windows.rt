// Moments of a service day, and windows of them. Any moments may be asked about, so sums are
// checked.

ghost use Rattle.std.specs.Prelude.{◌≡◌, ◌↔◌, ◌*◌, ◌^◌, ◌<◌, ◌≤◌, ◌+ℤ◌, ◌≤ℤ◌, ℕ, ℤ, pos, IsTrue, Some};
ghost use Rattle.flex_model.specs.Ride.{ArrivesInWindow, IsShiftedMoment, LeavesInWindow};
ghost use Rattle.flex_model.specs.SoundQuery.{IsSoundDayTable};

use flex_model::{DayTable, Moment, Ride};
use service_days::{begin, moment};

// Whether the later moment comes just so many seconds after the earlier one.
fn is_shifted(earlier: Moment, by: i64, later: Moment) -> bool
    ensures { IsTrue result ↔ (later ≡ earlier +ℤ by) }
{
    let Some(then) = earlier.checked_add(by) else {
        return false;
    };
    then == later
}

/// Whether the one moment comes just so many seconds after the other.
pub fn is_after(earlier: Moment, seconds: u32, later: Moment) -> bool
    ensures { IsTrue result ↔ (later ≡ earlier +ℤ pos seconds) }
{
    is_shifted(earlier, i64::from(seconds), later)
}

/// The moment so many seconds after this one, unless it is past the limit.
pub fn after(moment: Moment, seconds: u32, limit: Moment) -> Option<Moment>
    ensures { (later : ℤ)
        → ((later ≡ moment +ℤ pos seconds) × (later ≤ℤ limit)) ↔ (result ≡ Some later) }
{
    let later = moment.checked_add(i64::from(seconds))?;
    if later <= limit { Some(later) } else { None }
}

/// Whether the moment so many seconds after this one isn't past the limit.
pub fn is_by(moment: Moment, seconds: u32, limit: Moment) -> bool
    ensures { IsTrue result ↔ ((moment +ℤ pos seconds) ≤ℤ limit) }
{
    after(moment, seconds, limit).is_some()
}

/// Whether this is the moment of the time of the day, which is shifted so.
pub fn is_moment(days: &DayTable, day: i32, by: i64, time: u32, then: Moment) -> bool
    requires { IsSoundDayTable days.now }
    ensures { IsTrue result ↔ IsShiftedMoment days.now day by time then }
{
    let Some(scheduled) = moment(days, day, time) else {
        return false;
    };
    is_shifted(scheduled, by, then)
}

// The time of a day that begins then, where the moment isn't before it, nor too long after it for
// the type.
fn time_since(base: Moment, then: Moment) -> Option<u32>
    ensures { (time : ℕ) → ((then ≡ base +ℤ pos time) × (time < 2 ^ 32)) ↔ (result ≡ Some time) }
{
    let seconds = then.checked_sub(base)?;
    if seconds < 0 || i64::from(u32::MAX) < seconds {
        return None;
    }
    Some(seconds as u32)
}

// Whether the time is a whole minute of the window.
fn is_minute_of(time: u32, start: u32, end: u32) -> bool
    ensures { IsTrue result
        ↔ ((minute : ℕ) × (start ≤ 60 * minute) × (60 * minute ≤ end) × (time ≡ 60 * minute)) }
{
    if time < start || end < time {
        return false;
    }
    time % 60 == 0
}

/// Whether the ride leaves on a whole minute of the window, ends included.
pub fn leaves_in_window(days: &DayTable, ride: &Ride, start: u32, end: u32) -> bool
    requires { IsSoundDayTable days.now }
    ensures { IsTrue result ↔ LeavesInWindow days.now ride.now start end }
{
    let Some(base) = begin(days, ride.day) else {
        return false;
    };
    let Some(time) = time_since(base, ride.departs) else {
        return false;
    };
    is_minute_of(time, start, end)
}

/// Whether the ride arrives within the window, ends included.
pub fn arrives_in_window(days: &DayTable, ride: &Ride, start: u32, end: u32) -> bool
    requires { IsSoundDayTable days.now }
    ensures { IsTrue result ↔ ArrivesInWindow days.now ride.now start end }
{
    let Some(earliest) = moment(days, ride.day, start) else {
        return false;
    };
    let Some(latest) = moment(days, ride.day, end) else {
        return false;
    };
    if ride.arrives < earliest {
        return false;
    }
    ride.arrives <= latest
}
