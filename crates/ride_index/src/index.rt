// What is looked up to find the rides from a place.

ghost use Rattle.std.specs.Prelude.{IfOk};
ghost use Rattle.flex_model.specs.SoundFeed.{IsSoundFeed};
ghost use Rattle.ride_index.specs.Index.{IsIndexOf};

use crate::departure::DepartureKind;
use crate::departures::DepartureList;
use crate::members::MemberList;
use flex_model::{Feed, NoMemory};
use std::alloc::Global;

/// What is looked up to find the rides from a place. It is built once for a feed, and serves every query.
#[derive(Debug, Drop)]
pub struct RideIndex {
    /// The departures at records with times of the trips that `frequencies.txt` doesn't name.
    pub once: DepartureList,
    /// Those of the trips that it names, where these have no window.
    pub at_starts: DepartureList,
    /// Those at records with times, of trips that it doesn't name and that have a window.
    pub beside_windows: DepartureList,
    /// Those at records with a window that name a stop.
    pub stop_windows: DepartureList,
    /// The same for groups.
    pub group_windows: DepartureList,
    /// The same for zones.
    pub zone_windows: DepartureList,
    /// The stops of groups.
    pub group_members: MemberList,
    /// The stops of zones.
    pub zone_members: MemberList,
}

impl RideIndex {
    /// The index of a feed.
    pub fn build(alloc: Global, feed: &Feed) -> Result<RideIndex, NoMemory>
        requires { IsSoundFeed feed.now }
        ensures { IfOk result (IsIndexOf feed.now) }
    {
        Ok(RideIndex {
            once: DepartureList::build(alloc, feed, DepartureKind::Once)?,
            at_starts: DepartureList::build(alloc, feed, DepartureKind::AtStarts)?,
            beside_windows: DepartureList::build(alloc, feed, DepartureKind::BesideWindow)?,
            stop_windows: DepartureList::build(alloc, feed, DepartureKind::StopWindow)?,
            group_windows: DepartureList::build(alloc, feed, DepartureKind::GroupWindow)?,
            zone_windows: DepartureList::build(alloc, feed, DepartureKind::ZoneWindow)?,
            group_members: MemberList::of_groups(alloc, feed)?,
            zone_members: MemberList::of_zones(alloc, feed)?,
        })
    }
}
