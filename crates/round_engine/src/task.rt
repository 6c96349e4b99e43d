// What is searched, and what is looked up for it.

use flex_model::{DayTable, Feed, Query, Times};
use ride_index::{ActiveDays, RideIndex};

/// A feed with its times and days, and a query.
#[derive(Clone, Copy)]
pub(crate) struct Task<'s> {
    pub(crate) feed: &'s Feed,
    pub(crate) times: &'s Times,
    pub(crate) days: &'s DayTable,
    pub(crate) query: &'s Query,
}

/// What is looked up to find the rides from a place.
#[derive(Clone, Copy)]
pub(crate) struct Lookups<'s> {
    pub(crate) index: &'s RideIndex,
    pub(crate) active: &'s ActiveDays,
}
