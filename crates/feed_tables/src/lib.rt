//! The records of a table's bytes, lent from one pool of text.
#![tactic(auto)]

mod fields;
mod pool;
mod records;
mod refusal;
mod rows;
mod table;

pub use refusal::TableRefusal;
pub use rows::{RowView, Rows};
pub use table::Table;
