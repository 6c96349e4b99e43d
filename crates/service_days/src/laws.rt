// Laws of the definitions alone: each function has an empty body, and its contract is the law.

ghost use Rattle.service_days.specs.Bases.{UtcDaysBeginAtMidnight};

/// In UTC the days of a departure's table are those from 1,520 days before its day to 5 days after it, and each of
/// them begins at its midnight.
pub fn utc_days_begin_at_midnight()
    ensures { UtcDaysBeginAtMidnight }
{}
