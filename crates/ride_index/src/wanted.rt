// Which rides are wanted.

use crate::active_days::ActiveDays;
use flex_model::{DayTable, Feed, Moment, Place, Times};

/// Which rides are wanted: those from a place that leave at a moment or later, arrive by another one, can be booked when
/// asked, and alight at a stop or at the destination.
#[derive(Clone, Copy)]
pub struct Wanted<'s> {
    /// The feed.
    pub feed: &'s Feed,
    /// The times folder that is given with it.
    pub times: &'s Times,
    /// The days of the query.
    pub days: &'s DayTable,
    /// On which of its travel days the services are active.
    pub active: &'s ActiveDays,
    /// When is asked: rides can still be booked then. In seconds since 1970-01-01T00:00:00Z, as all moments here.
    pub asked: Moment,
    /// The destination of the query, which may be a point.
    pub destination: Place,
    /// From where.
    pub place: Place,
    /// When the rides leave, at the earliest.
    pub earliest: Moment,
    /// When they arrive, at the latest.
    pub limit: Moment,
}
