//! JSON texts, read exactly as RFC 8259 says, with the places of their values.
#![tactic(auto)]

mod byte;
mod copies;
mod items;
mod json;
mod kind;
mod laws;
mod members;
mod moves;
mod refusal;
mod row;
mod scanner;
mod state;
mod strings;
mod unescape;

pub use items::JsonItems;
pub use json::JsonText;
pub use kind::JsonKind;
pub use laws::{
    depth_is_found, fault_is_found, items_are_nodes, machine_accepts_the_grammar,
    machine_accepts_within, members_are_nodes, prefix_is_alive, stack_is_the_depth,
    texts_are_unambiguous,
};
pub use refusal::ScanRefusal;
