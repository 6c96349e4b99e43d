//! The checker of certificates. It stands on the judges and on the index of rides, and uses nothing
//! of what searches for journeys.
#![tactic(auto)]

mod answers;
mod checker;
mod ends;
mod held;
mod labels;
mod laws;
mod made;
mod numbers;
mod reason;
mod refusal;
mod rides;
mod task;
mod ways;

pub use checker::check;
pub use laws::{reasons_are_failed_tests, reasons_are_printable, valid_parts_pass};
pub use reason::{Reason, Verdict};
pub use refusal::write_refusal;
