//! The times of a folder: points, direct and walking times, and the zone.
#![tactic(auto)]

mod fetch;
mod fields;
mod file_faults;
mod folder;
mod found;
mod links;
mod pairs;
mod places;
mod point_records;
mod read;
mod span_records;
mod spans;

pub use folder::{LoadedTimes, load_times};
