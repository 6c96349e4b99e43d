// The trips of each pattern.

ghost use Rattle.std.specs.Prelude.{◌≡◌, ◌↔◌, ◌≤◌, ◌<◌, ◌^◌, Contains, IfOk, IsPermutation, length};
ghost use Rattle.std.specs.List.Sorted.{IsPartitionPoint};
ghost use Rattle.fixed_trips.specs.PatternParts.{AreInOrder, HasPatternTrips};

use flex_model::{Listed, NoMemory};
use std::alloc::Global;

// A trip and its pattern.
#[derive(Clone, Copy, Debug, PartialEq, Eq)]
pub(crate) struct PatternTrip {
    pub(crate) pattern: u32,
    pub(crate) trip: u32,
}

// The trips with a pattern, in their order.
fn all_pattern_trips(alloc: Global, patterns: &[Option<u32>]) -> Result<Vec<PatternTrip>, NoMemory>
    requires { length patterns.now < 2 ^ 32 }
    ensures { IfOk result (λ trips. HasPatternTrips patterns.now trips.items) }
{
    let mut trips = Vec::new(alloc);
    for trip in 0..patterns.len() {
        if let Some(pattern) = patterns[trip] {
            trips.push(PatternTrip {
                pattern,
                trip: trip as u32,
            })?;
        }
    }
    Ok(trips)
}

// The trips in the order of their patterns.
fn in_order(trips: Vec<PatternTrip>) -> Result<Listed<PatternTrip>, NoMemory>
    ensures moved { IfOk result (IsPermutation trips.items) }
    ensures sorted { IfOk result AreInOrder }
{
    let mut trips = trips;
    trips.sort_by_key(|trip| trip.pattern)?;
    Ok(Listed::from_vec(trips))
}

// The trips with a pattern, in the order of their patterns.
pub(crate) fn pattern_trips_of(
    alloc: Global,
    patterns: &[Option<u32>],
) -> Result<Listed<PatternTrip>, NoMemory>
    requires { length patterns.now < 2 ^ 32 }
    ensures trips { IfOk result (HasPatternTrips patterns.now) }
    ensures sorted { IfOk result AreInOrder }
{
    Ok(in_order(all_pattern_trips(alloc, patterns)?)?)
}

// How many trips have a lesser pattern.
fn count_before(trips: &[PatternTrip], pattern: u32) -> usize
    requires { AreInOrder trips.now }
    ensures bound { result ≤ length trips.now }
    ensures point { IsPartitionPoint (λ trip. trip.pattern < pattern)
        (λ trip. pattern ≤ trip.pattern) trips.now result }
{
    trips.partition_point(move |trip| trip.pattern < pattern)
}

// How many trips have this pattern or a lesser one.
fn count_up_to(trips: &[PatternTrip], pattern: u32) -> usize
    requires { AreInOrder trips.now }
    ensures bound { result ≤ length trips.now }
    ensures point { IsPartitionPoint (λ trip. trip.pattern ≤ pattern)
        (λ trip. pattern < trip.pattern) trips.now result }
{
    trips.partition_point(move |trip| trip.pattern <= pattern)
}

// The trips of the pattern.
pub(crate) fn trips_with(trips: &[PatternTrip], pattern: u32) -> &[PatternTrip]
    requires { AreInOrder trips.now }
    ensures { (trip : PatternTrip) → Contains result.now trip
        ↔ (Contains trips.now trip × (trip.pattern ≡ pattern)) }
{
    let start = count_before(trips, pattern);
    let end = count_up_to(trips, pattern);
    if end < start {
        return &trips[start..start];
    }
    &trips[start..end]
}
