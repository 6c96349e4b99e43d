// Times of the service day at and around moments.

ghost use Rattle.std.specs.Prelude.{◌↔◌, ◌<◌, ◌≤◌, ◌≤ℤ◌, ◌+ℤ◌, ℕ, pos};

use flex_model::Moment;

// Times of the service day are below this in a sound feed: 168 hours.
pub(crate) const END_OF_TIMES: u32 = 604_800;

// The first time of a service day that is at the moment or later, where times count from this base.
pub(crate) fn first_time(base: Moment, moment: Moment) -> u32
    ensures { (time : ℕ) → time < 604800
        → (result ≤ time) ↔ (moment ≤ℤ (base +ℤ pos time)) }
{
    let gap = i128::from(moment) - i128::from(base);
    if gap <= 0 {
        return 0;
    }
    if 604_800 <= gap {
        return END_OF_TIMES;
    }
    gap as u32
}

// The time of a service day before which all are at the moment or earlier, where times count from
// this base.
pub(crate) fn time_after(base: Moment, moment: Moment) -> u32
    ensures { (time : ℕ) → time < 604800
        → (time < result) ↔ ((base +ℤ pos time) ≤ℤ moment) }
{
    let gap = i128::from(moment) - i128::from(base);
    if gap < 0 {
        return 0;
    }
    if 604_799 <= gap {
        return END_OF_TIMES;
    }
    gap as u32 + 1
}
