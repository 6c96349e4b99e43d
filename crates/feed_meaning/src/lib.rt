//! What the bytes of a feed folder, a times folder and a query file mean: their fault lists, and
//! the feed, the times and the queries that they hold. Definitions for the contracts of readers,
//! and what readers share.
#![tactic(auto)]

mod columns;
mod faults;
mod fetch;
mod files;
mod ids;
mod laws;
mod words;

pub use columns::{ids_in, value};
pub use faults::{add_faults, add_missing_columns, refusal_fault, rule};
pub use fetch::{fetch_file, fetch_input};
pub use files::{byte_limit, code_name, file_name, may_be_blank};
pub use ids::Ids;
pub use laws::{
    accepted_feeds_are_sound, accepted_queries_are_sound, accepted_times_are_sound,
    walked_features_are_sound,
};
pub use words::{is_bad, is_empty, is_given, is_later, is_text};
