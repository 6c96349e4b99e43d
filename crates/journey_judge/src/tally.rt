// What is told of the rides of a journey that were tried so far.

use flex_model::Deadline;

/// What rides of a journey add to its triple.
#[derive(Clone, Copy, PartialEq, Eq)]
pub struct Tally {
    /// The least deadline of the rides.
    pub deadline: Deadline,
    /// How many seconds of the ways to the rides count as walking.
    pub walk: u32,
}
