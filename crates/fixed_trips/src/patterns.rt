// The patterns of a feed's trips, and the first rides of a pattern.

ghost use Rattle.std.specs.Prelude.{◌≡◌, ◌↔◌, ◌<◌, ℕ, Contains, IfOk, Some};
ghost use Rattle.flex_model.specs.SoundFeed.{IsSoundFeed};
ghost use Rattle.flex_model.specs.SoundQuery.{IsSoundDayTable};
ghost use Rattle.flex_model.specs.declared.times.Times.{Times};
ghost use Rattle.fixed_trips.specs.Patterns.{ArePatternsOf, IsFirst, IsOfPattern, IsPatternRide};

use crate::numbering::patterns_of;
use crate::pattern_rides::first_of_trips;
use crate::pattern_trips::{PatternTrip, pattern_trips_of, trips_with};
use flex_model::{DayTable, Feed, Listed, Moment, NoMemory, Ride};
use std::alloc::Global;
use std::marker::Model;

/// The patterns of a feed's trips. A trip belongs to a pattern where `frequencies.txt` doesn't name it and each of its
/// records has times, names a stop, and can be boarded and left without a booking or not at all. Trips of one pattern agree
/// in the number of their records, and in the stops and ways of each. Patterns are numbered from 0 by the first of their
/// trips. This project's own. Contracts see the table as the list of the trips' patterns.
#[derive(Debug, Drop)]
pub struct PatternTable {
    // The pattern of each trip that belongs to one.
    patterns: Listed<Option<u32>>,
    // The trips that belong to one, in the order of their patterns.
    trips: Listed<PatternTrip>,
    count: u32,
}

impl Model for PatternTable {
    ghost use Rattle.std.specs.Prelude.{ℕ, List, Option};
    ghost use Rattle.fixed_trips.specs.PatternParts.{IsTable};

    ghost Value = { List (Option ℕ) };

    ghost view = { λ table. table.patterns };

    ghost invariant = { λ table. IsTable table.patterns table.trips table.count };
}

impl PatternTable {
    /// The patterns of the feed's trips.
    pub fn build(alloc: Global, feed: &Feed) -> Result<PatternTable, NoMemory>
        requires { IsSoundFeed feed.now }
        ensures { IfOk result (ArePatternsOf feed.now) }
    {
        let found = patterns_of(alloc, feed)?;
        let trips = pattern_trips_of(alloc, found.patterns.as_slice())?;
        let count = found.count;
        Ok(PatternTable {
            patterns: Listed::from_vec(found.patterns),
            trips,
            count,
        })
    }

    /// How many patterns there are, without memory.
    pub fn count(&self) -> u32
        ensures { (pattern : ℕ) → (pattern < result) ↔ Contains self.now (Some pattern) }
    {
        self.count
    }

    /// The pattern of the trip with this number in the feed, without memory. There is none where it belongs to none.
    pub fn pattern_of(&self, trip: u32) -> Option<u32>
        ensures { (pattern : ℕ) → (result ≡ Some pattern) ↔ IsOfPattern self.now trip pattern }
    {
        let Some(pattern) = self.patterns.get(trip as usize) else {
            return None;
        };
        *pattern
    }

    /// Of the permitted rides of the pattern's trips between the two records that leave at or after `earliest`, the one
    /// with the least arrival, then the least trip, and then the least day, without memory. There is none where there is no
    /// such ride, as where the first of the records isn't before the second. The feed is that of which the table was built.
    pub fn first_from(
        &self,
        feed: &Feed,
        days: &DayTable,
        pattern: u32,
        from_row: u32,
        to_row: u32,
        earliest: Moment,
    ) -> Option<Ride>
        requires feed { IsSoundFeed feed.now }
        requires days { IsSoundDayTable days.now }
        requires table { ArePatternsOf feed.now self.now }
        ensures { (times : Times) → IsFirst (IsPatternRide feed.now times days.now self.now pattern
            from_row to_row earliest) result }
    {
        let trips = trips_with(self.trips.as_slice(), pattern);
        first_of_trips(feed, days, trips, from_row, to_row, earliest)
    }
}
