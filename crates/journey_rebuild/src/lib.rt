//! What a search found: journeys with their rides, first ride first, and the part of a certificate.
#![tactic(auto)]

mod answers;
mod laws;
mod part;
mod rides;
mod rounds;

pub use answers::exact_answers;
pub use laws::found_parts_are_printable;
pub use part::find_part;
pub use rides::{answers_of, rebuild};
