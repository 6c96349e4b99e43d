//! The fault lists of a feed folder.
#![tactic(auto)]

mod agency;
mod booking_rules;
mod calendar;
mod calendar_dates;
mod feed_faults;
mod fields;
mod file_faults;
mod file_links;
mod folder;
mod found;
mod frequencies;
mod keys;
mod known_ids;
mod links;
mod location_group_stops;
mod location_groups;
mod orders;
mod other_links;
mod routes;
mod sequences;
mod stations;
mod stop_times;
mod stops;
mod transfers;
mod trips;
mod zone_links;
mod zones;

pub use feed_faults::faults;
pub use folder::{FeedBytes, RawFeed};
pub use known_ids::zone_ids;
