// When rides with a window leave, in seconds of the service day.

ghost use Rattle.std.specs.Prelude.{◌≡◌, ◌↔◌, ◌<◌, ◌≤◌, ℕ, IfSome};
ghost use Rattle.flex_trips.specs.Windows.{IsAmong, IsDeparture, IsWholeMinute, LeavesAt};
ghost use Rattle.flex_trips.specs.Windows as Windows;

use flex_model::Timing;

/// Departures a minute apart.
#[derive(Clone, Copy, Debug, PartialEq, Eq)]
pub(crate) struct Departures {
    /// The first of them, in seconds of the service day.
    pub first: u32,
    /// How many there are.
    pub count: u32,
}

// The whole minutes from the one second of the day to the other, ends included.
fn whole_minutes(from: u32, to: u32) -> Option<Departures>
    ensures each { (second : ℕ)
        → IsAmong result second ↔ (IsWholeMinute second × (from ≤ second) × (second ≤ to)) }
    ensures some { IfSome result (λ departures. 0 < departures.count) }
{
    let first = from.div_ceil(60);
    let last = to / 60;
    if last < first {
        return None;
    }
    Some(Departures {
        first: first * 60,
        count: last - first + 1,
    })
}

// The departure, where it lies between the two seconds of the day, ends included.
fn one_departure(departs: u32, from: u32, to: u32) -> Option<Departures>
    ensures each { (second : ℕ)
        → IsAmong result second ↔ ((second ≡ departs) × (from ≤ second) × (second ≤ to)) }
    ensures some { IfSome result (λ departures. 0 < departures.count) }
{
    if departs < from || to < departs {
        return None;
    }
    Some(Departures {
        first: departs,
        count: 1,
    })
}

// The departures from the record between the two seconds of the day, ends included.
fn departures_between(boarding: Timing, from: u32, to: u32) -> Option<Departures>
    ensures each { (second : ℕ)
        → IsAmong result second ↔ (LeavesAt boarding second × (from ≤ second) × (second ≤ to)) }
    ensures some { IfSome result (λ departures. 0 < departures.count) }
{
    match boarding {
        Timing::Times { departs, .. } => one_departure(departs, from, to),
        Timing::Window { start, end } => whole_minutes(start.max(from), end.min(to)),
    }
}

// The first second of the day at which one who alights at the record may reach it.
fn earliest_arrival(alighting: Timing) -> u32
    ensures { result ≡ Windows.earliest_arrival alighting }
{
    match alighting {
        Timing::Times { .. } => 0,
        Timing::Window { start, .. } => start,
    }
}

// The last second of the day at which one who alights at the record may reach it.
fn latest_arrival(alighting: Timing) -> u32
    ensures { result ≡ Windows.latest_arrival alighting }
{
    match alighting {
        Timing::Times { arrives, .. } => arrives,
        Timing::Window { end, .. } => end,
    }
}

/// The departures from the one record with which one who rides for so many seconds alights at the
/// other.
pub(crate) fn departures_of(seconds: u32, boarding: Timing, alighting: Timing) -> Option<Departures>
    ensures each { (second : ℕ)
        → IsAmong result second ↔ IsDeparture seconds boarding alighting second }
    ensures some { IfSome result (λ departures. 0 < departures.count) }
{
    let earliest = earliest_arrival(alighting).saturating_sub(seconds);
    let latest = latest_arrival(alighting).checked_sub(seconds)?;
    departures_between(boarding, earliest, latest)
}
