//! The feed of a folder.
#![tactic(auto)]

mod accepted;
mod booking_rules;
mod changes;
mod drafts;
mod feed;
mod fetch;
mod fields;
mod folder;
mod groups;
mod linear_times;
mod named_ids;
mod open_trips;
mod repeats;
mod stops;
mod tables;
mod weekly;
mod weeks;
mod whole_trips;
mod zones;

pub use folder::{Loaded, load};
pub use linear_times::{GivenRow, fill_times};
