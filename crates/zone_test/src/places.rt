// The places that a record of a trip serves.

ghost use Rattle.std.specs.Prelude.{◌≡◌, ◌↔◌, All, Contains, IsTrue, Some, slice_get};
ghost use Rattle.std.specs.Option.{option_copied};
ghost use Rattle.flex_model.specs.Place.{HasBoards, IsMember, LiesAt, Serves};
ghost use Rattle.flex_model.specs.SoundFeed.{AreRising, IsSoundFeed, IsSoundPolygon};
ghost use Rattle.flex_model.specs.SoundTimes.{AreSoundTimes, IsOnGlobe};
ghost use Rattle.flex_model.specs.Zone as spec;
ghost use Rattle.flex_model.specs.declared.place.Group.{Group};
ghost use Rattle.flex_model.specs.declared.place.Point.{Point};
ghost use Rattle.flex_model.specs.declared.place.Position.{Position};
ghost use Rattle.flex_model.specs.declared.place.Zone.{Zone};

use crate::zones::contains;
use flex_model::{Feed, Group, Listed, Place, Polygon, Spot, Times, Zone};

/// Whether a record of a trip that names this serves the place, without memory (GTFS Schedule reference, `stop_times.txt`;
/// that points are places is this project's own). Any numbers may stand in both. A stop or a group is looked up in the feed,
/// and the stops of a zone are those that the feed lists; a point of the times is tried against the zone's polygons.
pub fn serves(feed: &Feed, times: &Times, spot: Spot, place: Place) -> bool
    requires feed { IsSoundFeed feed.now }
    requires times { AreSoundTimes feed.now times.now }
    ensures { IsTrue result ↔ Serves feed.now times.now spot place }
{
    match spot {
        Spot::Stop(stop) => place == Place::Stop(stop),
        Spot::Group(group) => is_in_group(feed, group, place),
        Spot::Zone(zone) => is_in_zone(feed, times, zone, place),
    }
}

// Whether the place is a stop of the group that can be boarded.
fn is_in_group(feed: &Feed, group: u32, place: Place) -> bool
    requires { IsSoundFeed feed.now }
    ensures { IsTrue result ↔ ((its : Group) × (slice_get feed.now.groups group ≡ Some its)
        × IsMember feed.now its place) }
{
    let Place::Stop(stop) = place else {
        return false;
    };
    let Some(its) = group_of(feed, group) else {
        return false;
    };
    has_number(its.members.as_slice(), stop) && can_board(feed, stop)
}

// The group with this number.
fn group_of(feed: &Feed, group: u32) -> Option<&Group>
    ensures { option_copied result ≡ slice_get feed.now.groups group }
{
    feed.groups.get(group as usize)
}

// Whether the rising numbers have this one.
fn has_number(numbers: &[u32], number: u32) -> bool
    requires { AreRising numbers.now }
    ensures { IsTrue result ↔ Contains numbers.now number }
{
    numbers.binary_search(&number).is_ok()
}

// Whether the feed has the stop, and it can be boarded.
fn can_board(feed: &Feed, stop: u32) -> bool
    ensures { IsTrue result ↔ HasBoards feed.now stop }
{
    let Some(its) = feed.stops.get(stop as usize) else {
        return false;
    };
    its.boards
}

// Whether the place is a stop that can be boarded or a point, and lies in the zone.
fn is_in_zone(feed: &Feed, times: &Times, zone: u32, place: Place) -> bool
    requires feed { IsSoundFeed feed.now }
    requires times { AreSoundTimes feed.now times.now }
    ensures { IsTrue result ↔ ((its : Zone) × (position : Position)
        × (slice_get feed.now.zones zone ≡ Some its)
        × LiesAt feed.now times.now place position
        × IsTrue (spec.is_in_zone its.polygons position)) }
{
    let Some(its) = zone_of(feed, zone) else {
        return false;
    };
    match place {
        Place::Stop(stop) => has_number(its.stops.as_slice(), stop),
        Place::Point(point) => has_point(times, &its.polygons, point),
    }
}

// The zone with this number.
fn zone_of(feed: &Feed, zone: u32) -> Option<&Zone>
    ensures { option_copied result ≡ slice_get feed.now.zones zone }
{
    feed.zones.get(zone as usize)
}

// Whether the times have the point, and it lies in the zone of these polygons.
fn has_point(times: &Times, polygons: &Listed<Polygon>, point: u32) -> bool
    requires times { All (λ point. IsOnGlobe point.at) times.now.points }
    requires polygons { All IsSoundPolygon polygons.now }
    ensures { IsTrue result ↔ ((its : Point) × (slice_get times.now.points point ≡ Some its)
        × IsTrue (spec.is_in_zone polygons.now its.at)) }
{
    let Some(its) = times.points.get(point as usize) else {
        return false;
    };
    contains(polygons, its.at)
}
