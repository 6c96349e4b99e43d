// Points and stops in zones, edge by edge and through an index, one degree further east than the usual ones, so that no coordinate
// is negative.

ghost use Rattle.std.specs.Prelude.{All, IfOk, OnOk, ◌≡◌, ◌<◌, ◌≤◌, ◌^◌, ◌*◌, ◌+◌, length};
ghost use Rattle.flex_model.specs.SoundFeed.{IsSoundPolygon};
ghost use Rattle.flex_model.specs.SoundTimes.{IsOnGlobe};

use flex_model::{Listed, NoMemory, Polygon, Position, Ring, Stop, Text};
use std::alloc::Global;
use std::test::Fail;
use zone_test::{ZoneIndex, contains, zone_stops};

// A degree, in the units of coordinates.
const DEGREE: i64 = 1_000_000_000_000_000;

// The point at so many degrees, of which there are at most 90.
fn at(lon: u8, lat: u8) -> Position
    ensures { IsOnGlobe result }
{
    Position {
        lon: i64::from(lon % 91) * DEGREE,
        lat: i64::from(lat % 91) * DEGREE,
    }
}

// The ring of these corners.
fn ring(alloc: Global, corners: &[(u8, u8)]) -> Result<Ring, NoMemory>
    ensures { IfOk result (λ ring. All IsOnGlobe ring.corners) }
{
    let mut list = Listed::new(alloc);
    for corner in corners {
        list.push(at(corner.0, corner.1))?;
    }
    Ok(Ring { corners: list })
}

// The zone of one polygon with these rings, the exterior first.
fn zone(alloc: Global, exterior: Ring, hole: Ring) -> Result<Listed<Polygon>, NoMemory>
    requires exterior { All IsOnGlobe exterior.corners }
    requires hole { All IsOnGlobe hole.corners }
    ensures { IfOk result (λ polygons. All IsSoundPolygon polygons) }
{
    let mut rings = Listed::new(alloc);
    rings.push(exterior)?;
    rings.push(hole)?;
    let mut polygons = Listed::new(alloc);
    polygons.push(Polygon { rings })?;
    Ok(polygons)
}

// A square with a hole, and a triangle with a hole of no corners.
#[test]
fn points_lie_in_zones(rt: HostRuntime) -> Result<(), Fail> {
    let alloc = rt.alloc();
    let exterior = ring(alloc, &[(1, 0), (11, 0), (11, 10), (1, 10), (1, 0)])?;
    let hole = ring(alloc, &[(5, 4), (7, 4), (7, 6), (5, 6), (5, 4)])?;
    let square = zone(alloc, exterior, hole)?;
    let exterior = ring(alloc, &[(1, 0), (5, 2), (1, 4), (1, 0)])?;
    let triangle = zone(alloc, exterior, ring(alloc, &[])?)?;
    let index = ZoneIndex::build(alloc, &square)?;
    for (lon, lat, is_inside) in [
        (1, 5, true),
        (5, 5, true),
        (6, 5, false),
        (3, 4, true),
        (4, 10, true),
        (12, 10, false),
    ] {
        assert_eq!(rt; contains(&square, at(lon, lat)), is_inside);
        assert_eq!(rt; index.contains(at(lon, lat)), is_inside);
    }
    let index = ZoneIndex::build(alloc, &triangle)?;
    for (lon, is_inside) in [(2, true), (0, false)] {
        assert_eq!(rt; contains(&triangle, at(lon, 2)), is_inside);
        assert_eq!(rt; index.contains(at(lon, 2)), is_inside);
    }
    Ok(())
}

// Adds a stop at so many degrees.
fn add_stop(alloc: Global, stops: &mut Listed<Stop>, lon: u8, lat: u8) -> Result<(), NoMemory>
    requires { All (λ stop. IsOnGlobe stop.at) stops.old }
    ensures globe { OnOk result (All (λ stop. IsOnGlobe stop.at) stops.new) }
    ensures few { OnOk result (length stops.new ≡ length stops.old + 1) }
{
    stops.push(Stop {
        id: Text::new(alloc),
        at: at(lon, lat),
        boards: true,
    })?;
    Ok(())
}

// Two of three stops lie in a square.
#[test]
fn stops_lie_in_a_zone(rt: HostRuntime) -> Result<(), Fail> {
    let alloc = rt.alloc();
    let exterior = ring(alloc, &[(1, 0), (11, 0), (11, 10), (1, 10), (1, 0)])?;
    let square = zone(alloc, exterior, ring(alloc, &[])?)?;
    let mut stops = Listed::new(alloc);
    add_stop(alloc, &mut stops, 2, 5)?;
    add_stop(alloc, &mut stops, 3, 5)?;
    add_stop(alloc, &mut stops, 50, 50)?;
    let numbers = zone_stops(alloc, &square, &stops)?;
    assert!(rt; numbers.as_slice() == [0, 1].as_slice());
    Ok(())
}

// The distance between the steps of the ladder.
const STEP: u64 = 20_000_000_000;

// How many steps the ladder has on either side.
const STEPS: u64 = 500_000;

// The point north and east of the origin.
fn place(lon: u64, lat: u64) -> Position
    requires lon { lon ≤ 180 * 10 ^ 15 }
    requires lat { lat ≤ 90 * 10 ^ 15 }
    ensures { IsOnGlobe result }
{
    Position {
        lon: lon as i64,
        lat: lat as i64,
    }
}

// Up at longitude 0.
fn climb(corners: &mut Listed<Position>) -> Result<(), NoMemory>
    requires { All IsOnGlobe corners.old }
    ensures { All IsOnGlobe corners.new }
{
    for step in 0..STEPS {
        corners.push(place(0, step * STEP))?;
    }
    Ok(())
}

// Down at longitude 1.
fn descend(corners: &mut Listed<Position>) -> Result<(), NoMemory>
    requires { All IsOnGlobe corners.old }
    ensures { All IsOnGlobe corners.new }
{
    for step in 0..STEPS {
        corners.push(place(1_000_000_000_000_000, (STEPS - 1 - step) * STEP))?;
    }
    Ok(())
}

// A ring of 1,000,001 corners.
fn ladder(alloc: Global) -> Result<Ring, NoMemory>
    ensures { IfOk result (λ ring. All IsOnGlobe ring.corners) }
{
    let mut corners = Listed::new(alloc);
    climb(&mut corners)?;
    descend(&mut corners)?;
    corners.push(place(0, 0))?;
    Ok(Ring { corners })
}

// A stop at the height of each step, by turns inside and outside of the ladder.
fn stops_beside(alloc: Global) -> Result<Listed<Stop>, NoMemory>
    ensures on_globe { IfOk result (All (λ stop. IsOnGlobe stop.at)) }
    ensures few { IfOk result (λ stops. length stops ≡ 500000) }
{
    let mut stops = Listed::new(alloc);
    for step in 0..STEPS {
        stops.push(Stop {
            id: Text::new(alloc),
            at: place(
                500_000_000_000_000 + step % 2 * 1_500_000_000_000_000,
                step * STEP,
            ),
            boards: true,
        })?;
    }
    Ok(stops)
}

// Half a million stops beside a ring of a million corners: each stop against each edge would not end in time.
#[test]
fn stops_of_a_large_zone_are_found(rt: HostRuntime) -> Result<(), Fail> {
    let alloc = rt.alloc();
    let polygons = zone(alloc, ladder(alloc)?, ring(alloc, &[])?)?;
    let stops = stops_beside(alloc)?;
    let numbers = zone_stops(alloc, &polygons, &stops)?;
    assert_eq!(rt; numbers.len(), 250_000);
    let mut next = 0;
    for number in numbers.as_slice() {
        assert_eq!(rt; *number, next);
        next = next.wrapping_add(2);
    }
    Ok(())
}

// Teeth from the far south to the far north.
fn teeth(corners: &mut Listed<Position>) -> Result<(), NoMemory>
    requires { All IsOnGlobe corners.old }
    ensures { All IsOnGlobe corners.new }
{
    for tooth in 0..2_000_u64 {
        corners.push(place(tooth * 1_000_000, 10 + tooth))?;
        corners.push(place(tooth * 1_000_000 + 500_000, 80_000_000_000_000_000 - tooth))?;
    }
    Ok(())
}

// A ring of long edges, for which slabs are joined.
fn saw(alloc: Global) -> Result<Ring, NoMemory>
    ensures { IfOk result (λ ring. All IsOnGlobe ring.corners) }
{
    let mut corners = Listed::new(alloc);
    teeth(&mut corners)?;
    corners.push(place(0, 0))?;
    corners.push(place(0, 10))?;
    Ok(Ring { corners })
}

// With and without an index the answer is one.
#[test]
fn an_index_answers_as_all_edges_do(rt: HostRuntime) -> Result<(), Fail> {
    let alloc = rt.alloc();
    let polygons = zone(alloc, saw(alloc)?, ring(alloc, &[])?)?;
    let index = ZoneIndex::build(alloc, &polygons)?;
    for point in 0..200_u64 {
        let point = place(point * 10_000_000, point * 400_000_000_000_000);
        assert_eq!(rt; index.contains(point), contains(&polygons, point));
    }
    Ok(())
}
