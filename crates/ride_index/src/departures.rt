// The departures of a feed in order, and those of a stop between two times.

ghost use Rattle.std.specs.Prelude.{◌≡◌, ◌↔◌, ◌≤◌, Contains, IfOk, false, length, true};
ghost use Rattle.std.specs.List.Sorted.{IsPartitionPoint};
ghost use Rattle.flex_model.specs.SoundFeed.{IsSoundFeed};
ghost use Rattle.ride_index.specs.Departures.{AreInOrder, HasDepartures, IsWithin, comes_before};

use crate::departure::{Departure, DepartureKind};
use crate::listing::all_departures;
use crate::number_lists::in_order;
use flex_model::{Feed, Listed, NoMemory};
use std::alloc::Global;
use std::marker::Model;

/// The departures of the trips of a feed that run once a day, or of those that run at starts, by their stops, and at
/// each stop by their times of the service day. Contracts see it as the list of them.
#[derive(Debug, Drop)]
pub struct DepartureList {
    departures: Listed<Departure>,
}

impl Model for DepartureList {
    ghost use Rattle.std.specs.Prelude.{List};
    ghost use Rattle.ride_index.specs.declared.departure.Departure.{Departure};
    ghost use Rattle.ride_index.specs.Departures.{AreInOrder};

    ghost Value = { List Departure };

    ghost view = { λ it. it.departures };

    ghost invariant = { λ it. AreInOrder it.departures };
}

// Whether the departure is from a lesser stop, or from this one and before the time.
fn is_before(departure: &Departure, named: u32, time: u32) -> bool
    ensures { result ≡ comes_before named time departure.now }
{
    departure.named < named || (departure.named == named && departure.departs < time)
}

// How many departures come before those of the stop from the time on.
fn count_before(departures: &[Departure], named: u32, time: u32) -> usize
    requires { AreInOrder departures.now }
    ensures bound { result ≤ length departures.now }
    ensures point { IsPartitionPoint (λ departure. comes_before named time departure ≡ true)
        (λ departure. comes_before named time departure ≡ false) departures.now result }
{
    departures.partition_point(move |departure| is_before(departure, named, time))
}

// The departures of the stop between the two times.
fn slice_between(departures: &[Departure], named: u32, from: u32, until: u32) -> &[Departure]
    requires { AreInOrder departures.now }
    ensures { (departure : Departure) → Contains result.now departure
        ↔ (Contains departures.now departure × IsWithin named from until departure) }
{
    let start = count_before(departures, named, from);
    let end = count_before(departures, named, until);
    if end < start {
        return &departures[start..start];
    }
    &departures[start..end]
}

impl DepartureList {
    /// The departures of the trips that `frequencies.txt` names and that have no window, or of those that it doesn't
    /// name.
    pub fn build(alloc: Global, feed: &Feed, kind: DepartureKind) -> Result<DepartureList, NoMemory>
        requires { IsSoundFeed feed.now }
        ensures { IfOk result (HasDepartures feed.now kind) }
    {
        let found = all_departures(alloc, feed, kind)?;
        let departures = in_order(alloc, found.as_slice())?;
        Ok(DepartureList { departures })
    }

    /// The departures of the stop that leave no earlier than `from` and before `until`, in seconds of the service day,
    /// rising by their times, without memory.
    pub fn between(&self, named: u32, from: u32, until: u32) -> &[Departure]
        ensures { (departure : Departure) → Contains result.now departure
            ↔ (Contains self.now departure × IsWithin named from until departure) }
    {
        slice_between(self.departures.as_slice(), named, from, until)
    }
}
