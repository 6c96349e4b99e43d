// The patterns of trips, numbered by their first trips.

ghost use Rattle.std.specs.Prelude.{◌≡◌, ◌↔◌, ◌<◌, All, IfOk, IsTrue, length, map};
ghost use Rattle.std.specs.BTreeMap.{btree_map_len};
ghost use Rattle.flex_model.specs.SoundFeed.{IsSoundFeed};
ghost use Rattle.fixed_trips.specs.PatternParts as Parts;
ghost use Rattle.fixed_trips.specs.PatternParts.{IsCountOf, IsNoted, IsNumbered};
ghost use Rattle.fixed_trips.specs.Patterns.{ArePatternsOf, HasPattern, IsPatternRow, NeedsNoBooking};
ghost use Rattle.fixed_trips.specs.Timed.{NamesStop};

use flex_model::{Feed, NoMemory, Row, Spot, Trip, Way};
use freq_trips::is_timed;
use std::alloc::Global;
use std::collections::BTreeMap;

// What tells patterns apart at a record: the number of the stop, and whether one may board and alight.
type Call = (u32, bool, bool);

// The patterns of the trips of a feed, and how many there are.
#[derive(Drop)]
pub(crate) struct Numbering {
    pub(crate) patterns: Vec<Option<u32>>,
    pub(crate) count: u32,
}

fn needs_no_booking(way: Way) -> bool
    ensures { IsTrue result ↔ NeedsNoBooking way }
{
    match way {
        Way::No => true,
        Way::Free => true,
        Way::Book(_) => false,
    }
}

fn names_stop(at: Spot) -> bool
    ensures { IsTrue result ↔ NamesStop at }
{
    match at {
        Spot::Stop(_) => true,
        _ => false,
    }
}

// Whether a pattern can have the record.
fn is_pattern_row(row: &Row) -> bool
    ensures { IsTrue result ↔ IsPatternRow row.now }
{
    is_timed(row.timing)
        && names_stop(row.spot)
        && needs_no_booking(row.pickup)
        && needs_no_booking(row.drop_off)
}

fn are_pattern_rows(rows: &[Row]) -> bool
    ensures { IsTrue result ↔ All IsPatternRow rows.now }
{
    for row in rows {
        if !is_pattern_row(row) {
            return false;
        }
    }
    true
}

// Whether the trip belongs to a pattern.
fn has_pattern(trip: &Trip) -> bool
    ensures { IsTrue result ↔ HasPattern trip.now }
{
    !trip.frequent && are_pattern_rows(trip.rows.as_slice())
}

fn number_named(at: Spot) -> u32
    ensures { result ≡ Parts.number_named at }
{
    match at {
        Spot::Stop(number) => number,
        Spot::Group(number) => number,
        Spot::Zone(number) => number,
    }
}

fn is_offered(way: Way) -> bool
    ensures { result ≡ Parts.is_offered way }
{
    match way {
        Way::No => false,
        Way::Free => true,
        Way::Book(_) => true,
    }
}

fn call_at(row: &Row) -> Call
    ensures { result ≡ Parts.key_call row.now }
{
    (
        number_named(row.spot),
        is_offered(row.pickup),
        is_offered(row.drop_off),
    )
}

// What tells the pattern of a trip with these records from others.
fn calls_of(alloc: Global, rows: &[Row]) -> Result<Vec<Call>, NoMemory>
    ensures { IfOk result (λ calls. calls.items ≡ map Parts.key_call rows.now) }
{
    let mut calls = Vec::new(alloc);
    for row in rows {
        calls.push(call_at(row))?;
    }
    Ok(calls)
}

// The number of the pattern with these calls, which gets the next one where it was not met.
fn number_calls(met: &mut BTreeMap<Vec<Call>, u32>, calls: Vec<Call>) -> Result<u32, NoMemory>
    requires { btree_map_len met.old < 4294967295 }
    ensures { IfOk result (IsNoted calls.items met.old met.new) }
{
    if let Some(number) = met.get(&calls) {
        return Ok(*number);
    }
    let number = met.len() as u32;
    met.insert(calls, number)?;
    Ok(number)
}

// The number of the trip's pattern, if it belongs to one.
fn number_trip(
    alloc: Global,
    trip: &Trip,
    met: &mut BTreeMap<Vec<Call>, u32>,
) -> Result<Option<u32>, NoMemory>
    requires { btree_map_len met.old < 4294967295 }
    ensures { IfOk result (IsNumbered trip.now met.old met.new) }
{
    if !has_pattern(trip) {
        return Ok(None);
    }
    let calls = calls_of(alloc, trip.rows.as_slice())?;
    let number = number_calls(met, calls)?;
    Ok(Some(number))
}

// The patterns of the feed's trips.
pub(crate) fn patterns_of(alloc: Global, feed: &Feed) -> Result<Numbering, NoMemory>
    requires { IsSoundFeed feed.now }
    ensures patterns { IfOk result (λ found. ArePatternsOf feed.now found.patterns.items) }
    ensures count { IfOk result (λ found. IsCountOf found.patterns.items found.count) }
{
    let trips = feed.trips.as_slice();
    let mut met = BTreeMap::new(alloc);
    let mut patterns = Vec::new(alloc);
    for number in 0..trips.len() {
        patterns.push(number_trip(alloc, &trips[number], &mut met)?)?;
    }
    Ok(Numbering {
        patterns,
        count: met.len() as u32,
    })
}
