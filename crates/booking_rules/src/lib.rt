//! When bookings of rides open and close, and until when a ride can be booked.
#![tactic(auto)]

mod bookings;
mod closings;
mod laws;
mod minutes;
mod narrowing;
mod notices;
mod openings;
mod opens;

pub use bookings::bookable;
pub use closings::closing;
pub use laws::{deadlines_rise_to_the_latest, later_rides_can_be_booked};
pub use narrowing::narrow;
pub use openings::opening;
pub use opens::Opening;
