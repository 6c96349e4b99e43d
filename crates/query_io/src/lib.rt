//! Queries and answers as text.
#![tactic(auto)]

mod answers;
mod laws;
pub mod lines;
mod printed_ride;
mod queries;
mod query_fields;
mod query_places;
mod query_records;
mod word;

pub use answers::{write_answers, write_named_answers};
pub use flex_model::RawFile;
pub use laws::exact_answers_are_printable;
pub use printed_ride::{place_id, sequence, start_word};
pub use queries::{ReadQueries, read_queries};
pub use word::{Word, word_if, write_line};
