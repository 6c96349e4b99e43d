//! Rides from or to records with windows.
#![tactic(auto)]

mod departures;
mod run;
mod timing;

pub use run::{flex_run, running_flex_run};
