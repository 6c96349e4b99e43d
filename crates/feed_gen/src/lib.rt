//! The demo feed with its times and queries, generated from a number.
#![tactic(auto)]

mod demo;
mod draws;
mod feed;
mod laws;
mod queries;
mod stop_times;
mod times;

pub use demo::generate;
pub use laws::{demo_feeds_have_no_faults, demo_queries_have_no_faults, demo_times_have_no_faults};
