//! The fields of feeds, times and queries: their grammars, their readers, and the texts that are
//! printed.
#![tactic(auto)]

mod ascii;
mod calendar;
mod count;
mod date;
mod degree;
mod digits;
mod escape;
mod laws;
mod moment;
mod number;
mod numeral;
mod parts;
mod time;
mod unescape;

pub use count::{BadNumber, read_count};
pub use date::{BadDate, read_date, write_date};
pub use degree::{BadCoordinate, read_degree};
pub use escape::escape_id;
pub use laws::{
    dates_are_read_back, dates_have_one_spelling, escapes_are_of_one_id, escapes_are_read_back,
    moments_are_read_back, moments_have_one_spelling, numbers_are_read_back,
};
pub use moment::{BadMoment, read_moment, write_moment};
pub use number::write_number;
pub use time::{BadTime, read_time};
pub use unescape::{UnescapeError, unescape_id};
