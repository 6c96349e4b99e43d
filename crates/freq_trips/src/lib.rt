//! Starts of trips that `frequencies.txt` repeats, and how much later than their records say rides run then.
#![tactic(auto)]

mod shifts;
mod starts;

pub use shifts::{is_timed, shift, starts_rightly};
pub use starts::{is_start, next_start};
