// Runs of rides that are offered from a place.

use flex_model::{Deadline, Ride};

/// Rides of one trip, day and start between two records and two places that leave a minute apart. Each arrives a minute
/// after the one before it, and closes for booking a minute later, up to the latest deadline.
#[derive(Clone, Copy, Debug, PartialEq, Eq)]
pub struct OfferedRun {
    /// The first of them.
    pub ride: Ride,
    /// How many there are, at least 1.
    pub count: u32,
    /// Until when the first can be booked.
    pub closes: Deadline,
    /// Until when the last can be booked. None of them can be booked later than this.
    pub latest: Deadline,
}
