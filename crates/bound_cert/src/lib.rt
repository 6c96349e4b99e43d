//! Certificates of answers as text, both ways.
#![tactic(auto)]

mod cert;
mod error;
mod held;
mod held_part;
mod known;
mod last_words;
mod laws;
mod line_values;
mod line_words;
mod read;
mod read_lines;
mod ride_values;
mod write;

pub use cert::{Cert, CertLabel, CertPart, CertRound};
pub use error::CertError;
pub use held::look_at;
pub use held_part::look_at_part;
pub use laws::{certificates_are_read_by_lines, syntax_faults_have_one_line};
pub use read::read_cert;
pub use write::{write_cert, write_heading, write_part};
