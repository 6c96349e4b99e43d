// What is checked, and what is looked up for it.

use crate::labels::RoundLabel;
use bound_cert::CertPart;
use flex_model::{DayTable, Feed, Query, Times};
use ride_index::{ActiveDays, RideIndex};

/// A feed with its times and days, a query, and a part of a certificate for it.
#[derive(Clone, Copy)]
pub(crate) struct Task<'s> {
    pub(crate) feed: &'s Feed,
    pub(crate) times: &'s Times,
    pub(crate) days: &'s DayTable,
    pub(crate) query: &'s Query,
    pub(crate) part: &'s CertPart,
}

/// What is looked up for it.
#[derive(Clone, Copy)]
pub(crate) struct Lookups<'s> {
    pub(crate) index: &'s RideIndex,
    pub(crate) active: &'s ActiveDays,
    /// The labels of the part, in the order of their places.
    pub(crate) labels: &'s [RoundLabel],
}
