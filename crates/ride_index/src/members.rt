// Which groups and zones have a stop.

ghost use Rattle.std.specs.Prelude.{◌≡◌, ◌↔◌, ◌⊎◌, ◌<◌, ◌≤◌, Contains, IfOk, IsPermutation, OnOk, length};
ghost use Rattle.std.specs.List.Sorted.{IsPartitionPoint};
ghost use Rattle.flex_model.specs.SoundFeed.{IsSoundFeed};
ghost use Rattle.ride_index.specs.Members.{AreByStop, HasGroupStops, HasMembers, HasZoneStops};

use flex_model::{Feed, Listed, NoMemory};
use std::alloc::Global;
use std::marker::Model;

/// That a group or a zone has a stop.
#[derive(Clone, Copy, Debug, PartialEq, Eq)]
pub struct Member {
    /// The number in the feed of the stop.
    pub stop: u32,
    /// The number in the feed of the group or the zone.
    pub named: u32,
}

/// The stops of groups, or those of zones, by their numbers, so that not each group and zone is tried at each stop. Contracts
/// see it as the list of them.
#[derive(Debug, Drop)]
pub struct MemberList {
    members: Listed<Member>,
}

impl Model for MemberList {
    ghost use Rattle.std.specs.Prelude.{List};
    ghost use Rattle.ride_index.specs.declared.members.Member.{Member};
    ghost use Rattle.ride_index.specs.Members.{AreByStop};

    ghost Value = { List Member };

    ghost view = { λ it. it.members };

    ghost invariant = { λ it. AreByStop it.members };
}

// Adds the stops of the group or zone with this number.
fn add_stops(stops: &[u32], named: u32, found: &mut Vec<Member>) -> Result<(), NoMemory>
    ensures { OnOk result ((member : Member) → Contains found.new.items member
        ↔ (Contains found.old.items member
        ⊎ ((member.named ≡ named) × Contains stops.now member.stop))) }
{
    for stop in stops {
        found.push(Member { stop: *stop, named })?;
    }
    Ok(())
}

// The stops of the groups.
fn members_of_groups(alloc: Global, feed: &Feed) -> Result<Vec<Member>, NoMemory>
    requires { IsSoundFeed feed.now }
    ensures { IfOk result (λ found. HasMembers (HasGroupStops feed.now) found.items) }
{
    let groups = feed.groups.as_slice();
    let mut found = Vec::new(alloc);
    for number in 0..groups.len() {
        add_stops(groups[number].members.as_slice(), number as u32, &mut found)?;
    }
    Ok(found)
}

// The stops of the zones.
fn members_of_zones(alloc: Global, feed: &Feed) -> Result<Vec<Member>, NoMemory>
    requires { IsSoundFeed feed.now }
    ensures { IfOk result (λ found. HasMembers (HasZoneStops feed.now) found.items) }
{
    let zones = feed.zones.as_slice();
    let mut found = Vec::new(alloc);
    for number in 0..zones.len() {
        add_stops(zones[number].stops.as_slice(), number as u32, &mut found)?;
    }
    Ok(found)
}

// The members in the order of their stops.
fn in_order(members: Vec<Member>) -> Result<Listed<Member>, NoMemory>
    ensures moved { IfOk result (IsPermutation members.items) }
    ensures sorted { IfOk result AreByStop }
{
    let mut members = members;
    members.sort_by_key(|member| member.stop)?;
    Ok(Listed::from_vec(members))
}

// How many members have a lesser stop.
fn count_before(members: &[Member], stop: u32) -> usize
    requires { AreByStop members.now }
    ensures bound { result ≤ length members.now }
    ensures point { IsPartitionPoint (λ member. member.stop < stop)
        (λ member. stop ≤ member.stop) members.now result }
{
    members.partition_point(move |member| member.stop < stop)
}

// How many members have this stop or a lesser one.
fn count_up_to(members: &[Member], stop: u32) -> usize
    requires { AreByStop members.now }
    ensures bound { result ≤ length members.now }
    ensures point { IsPartitionPoint (λ member. member.stop ≤ stop)
        (λ member. stop < member.stop) members.now result }
{
    members.partition_point(move |member| member.stop <= stop)
}

// The members with the stop.
fn slice_of(members: &[Member], stop: u32) -> &[Member]
    requires { AreByStop members.now }
    ensures { (member : Member) → Contains result.now member
        ↔ (Contains members.now member × (member.stop ≡ stop)) }
{
    let start = count_before(members, stop);
    let end = count_up_to(members, stop);
    if end < start {
        return &members[start..start];
    }
    &members[start..end]
}

impl MemberList {
    /// The stops of the groups of a feed.
    pub fn of_groups(alloc: Global, feed: &Feed) -> Result<MemberList, NoMemory>
        requires { IsSoundFeed feed.now }
        ensures { IfOk result (HasMembers (HasGroupStops feed.now)) }
    {
        let members = in_order(members_of_groups(alloc, feed)?)?;
        Ok(MemberList { members })
    }

    /// The stops of the zones of a feed.
    pub fn of_zones(alloc: Global, feed: &Feed) -> Result<MemberList, NoMemory>
        requires { IsSoundFeed feed.now }
        ensures { IfOk result (HasMembers (HasZoneStops feed.now)) }
    {
        let members = in_order(members_of_zones(alloc, feed)?)?;
        Ok(MemberList { members })
    }

    /// The groups or zones that have the stop, without memory.
    pub fn at(&self, stop: u32) -> &[Member]
        ensures { (member : Member) → Contains result.now member
            ↔ (Contains self.now member × (member.stop ≡ stop)) }
    {
        slice_of(self.members.as_slice(), stop)
    }
}
