//! Bags of the best pairs of journeys so far.
#![tactic(auto)]

mod bag;
mod indices;
mod pairs;

pub use bag::{Bag, Offered};
pub use flex_model::Pair;
pub use pairs::covers;
