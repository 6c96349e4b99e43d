// Departures of trips.

ghost use Rattle.std.specs.Prelude.{◌≡◌, ◌↔◌, ℕ, Some};
ghost use Rattle.ride_index.specs.Departures.{IsBoardedAt, LeavesFrom, spot_of};

use flex_model::{Row, Spot, Timing, Way};

/// Which departures a list has.
#[derive(Clone, Copy, Debug, PartialEq, Eq)]
pub enum DepartureKind {
    /// Records with times, of trips that `frequencies.txt` doesn't name.
    Once,
    /// Records with times, of trips that it names and that have no window.
    AtStarts,
    /// Records with times, of trips that it doesn't name and that have a window.
    BesideWindow,
    /// Records with a window that name a stop, of trips that it doesn't name.
    StopWindow,
    /// The same for records that name a group of stops.
    GroupWindow,
    /// The same for records that name a zone.
    ZoneWindow,
}

/// A departure of a trip: a record at which one may board.
#[derive(Clone, Copy, Debug, PartialEq, Eq)]
pub struct Departure {
    /// The number in the feed of what the record names: a stop, or with a window also a group or a zone.
    pub named: u32,
    /// The departure time of the record, or the start of its window, in seconds of the service day. A ride with a start is
    /// shifted from it.
    pub departs: u32,
    /// The number of the trip in the feed.
    pub trip: u32,
    /// Which record of the trip it is, counted from 0 in the order of `stop_sequence`.
    pub row: u32,
}

// Whether the record names what the kind is about, and its number.
fn number_of(at: Spot, kind: DepartureKind) -> Option<u32>
    ensures { (number : ℕ) → (result ≡ Some number) ↔ (at ≡ spot_of kind number) }
{
    match (kind, at) {
        (DepartureKind::Once, Spot::Stop(number)) => Some(number),
        (DepartureKind::AtStarts, Spot::Stop(number)) => Some(number),
        (DepartureKind::BesideWindow, Spot::Stop(number)) => Some(number),
        (DepartureKind::StopWindow, Spot::Stop(number)) => Some(number),
        (DepartureKind::GroupWindow, Spot::Group(number)) => Some(number),
        (DepartureKind::ZoneWindow, Spot::Zone(number)) => Some(number),
        _ => None,
    }
}

// When one may first board at a record of the kind.
fn time_of(timing: Timing, kind: DepartureKind) -> Option<u32>
    ensures { (time : ℕ) → (result ≡ Some time) ↔ LeavesFrom kind timing time }
{
    match (kind, timing) {
        (DepartureKind::Once, Timing::Times { departs, .. }) => Some(departs),
        (DepartureKind::AtStarts, Timing::Times { departs, .. }) => Some(departs),
        (DepartureKind::BesideWindow, Timing::Times { departs, .. }) => Some(departs),
        (DepartureKind::StopWindow, Timing::Window { start, .. }) => Some(start),
        (DepartureKind::GroupWindow, Timing::Window { start, .. }) => Some(start),
        (DepartureKind::ZoneWindow, Timing::Window { start, .. }) => Some(start),
        _ => None,
    }
}

// The departure at a record of a trip, if there is one of the kind.
pub(crate) fn departure_at(row: &Row, trip: u32, at: u32, kind: DepartureKind) -> Option<Departure>
    ensures { (departure : Departure) → (result ≡ Some departure)
        ↔ ((departure.trip ≡ trip) × (departure.row ≡ at)
        × IsBoardedAt kind row.now departure.named departure.departs) }
{
    if row.pickup == Way::No {
        return None;
    }
    let Some(named) = number_of(row.spot, kind) else {
        return None;
    };
    let Some(departs) = time_of(row.timing, kind) else {
        return None;
    };
    Some(Departure {
        named,
        departs,
        trip,
        row: at,
    })
}
