//! The search by rounds: which places are reached by how many rides, and the best ways to the destination.
#![tactic(auto)]

mod bags;
mod boarding;
mod ends;
mod engine;
mod label;
mod laws;
mod moments;
mod offer;
mod place_bag;
mod places;
mod step;
mod table;
mod task;

pub use engine::{search, search_with};
pub use label::{Final, Label};
pub use laws::{finals_are_in_order, searches_begin, searches_end, searches_go_on};
pub use table::RoundTable;
