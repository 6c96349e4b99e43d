// Minutes from one moment to another.

ghost use Rattle.std.specs.Prelude.{◌↔◌, ◌≤◌, ◌*◌, ◌≤ℤ◌, ◌+ℤ◌, ℕ, pos};
ghost use Rattle.flex_model.specs.Deadline.{IsNoLater};
ghost use Rattle.booking_rules.specs.Departures.{later};
ghost use Rattle.booking_rules.specs.Openings.{OpensBefore};

use crate::opens::Opening;
use flex_model::{Deadline, Moment};

// After how many minutes the one moment is no less than the other.
pub(crate) fn minutes_until(from: Moment, to: Moment) -> u32
    requires { to ≤ℤ (from +ℤ pos 10000000000) }
    ensures { (k : ℕ) → (result ≤ k) ↔ (to ≤ℤ (from +ℤ pos (60 * k))) }
{
    if to <= from {
        return 0;
    }
    ((to - from) as u64).div_ceil(60) as u32
}

// After how many minutes the moment isn't before the opening.
pub(crate) fn minutes_until_open(from: Moment, opening: Opening) -> u32
    requires { OpensBefore opening (from +ℤ pos 10000000000) }
    ensures { (k : ℕ) → (result ≤ k) ↔ OpensBefore opening (from +ℤ pos (60 * k)) }
{
    match opening {
        Opening::From(opens) => minutes_until(from, opens),
        Opening::Always | Opening::Never => 0,
    }
}

// After how many minutes the one deadline is no earlier than the other.
pub(crate) fn minutes_to_deadline(from: Deadline, to: Deadline) -> u32
    requires { IsNoLater to (later from 10000000000) }
    ensures { (k : ℕ) → (result ≤ k) ↔ IsNoLater to (later from (60 * k)) }
{
    match (from, to) {
        (Deadline::At(from), Deadline::At(to)) => minutes_until(from, to),
        _ => 0,
    }
}
