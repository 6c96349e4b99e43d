//! The judges: whether a ride or a journey is permitted, told without any search. They are plain
//! and slow by design and take no memory. Of what finds journeys they use only days, starts, zones,
//! bookings and ways.
#![tactic(auto)]

mod journey;
mod records;
mod ride;
mod starts;
mod tally;
mod timing;
mod ways;
mod windows;

pub use journey::judge_journey;
pub use ride::judge_ride;
