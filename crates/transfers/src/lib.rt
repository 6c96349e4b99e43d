//! Changes between rides, the walks from the origin and to the destination, and what begins at a place.
#![tactic(auto)]

mod changes;
mod spans;
mod walks;

pub use changes::{change, changes_from};
pub use spans::spans_from;
pub use walks::{access, egress};
