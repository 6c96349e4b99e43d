// Words of a line: numbers, and the last words that not every line has.

ghost use Rattle.std.specs.Prelude.{◌≡◌, map};
ghost use Rattle.bound_cert.specs.Given.{GivesWord};
ghost use Rattle.bound_cert.specs.LineWords as Lines;
ghost use Rattle.query_io.specs.Lines.{id_in, number_in};

use field_text::{UnescapeError, unescape_id};
use flex_model::{NoMemory, Text};
use query_io::lines::read_number;
use std::alloc::Global;

// A count.
pub(crate) fn count_of(text: &str) -> Option<u64>
    ensures { result ≡ Lines.count_in text.now }
{
    read_number(text, u64::MAX).ok()
}

// A number of 32 bits.
pub(crate) fn small_of(text: &str) -> Option<u32>
    ensures { result ≡ Lines.small_in text.now }
{
    match read_number(text, 4_294_967_295) {
        Ok(number) => Some(number as u32),
        Err(_) => None,
    }
}

// A number of transfers.
pub(crate) fn transfers_of(text: &str) -> Option<u8>
    ensures { result ≡ number_in 7 text.now }
{
    match read_number(text, 7) {
        Ok(number) => Some(number as u8),
        Err(_) => None,
    }
}

// The version of a certificate: whether some part asks for walking.
pub(crate) fn version_of(text: &str) -> Option<bool>
    ensures { result ≡ Lines.version_in text.now }
{
    if text == "1" {
        return Some(false);
    }
    if text == "2" {
        return Some(true);
    }
    None
}

// Whether a query asks for walking, as its last words say.
pub(crate) fn walking_of(last: &[&str]) -> Option<bool>
    ensures { result ≡ Lines.walking_in (map (λ word. word.now) last.now) }
{
    if last.is_empty() {
        return Some(false);
    }
    let [word] = last else {
        return None;
    };
    if *word != "walking" {
        return None;
    }
    Some(true)
}

// The walk of a line, as its last words say.
pub(crate) fn walk_of(walking: bool, last: &[&str]) -> Option<u32>
    ensures { result ≡ Lines.walk_in walking (map (λ word. word.now) last.now) }
{
    if !walking {
        return if last.is_empty() { Some(0) } else { None };
    }
    let [word] = last else {
        return None;
    };
    small_of(word)
}

// The start of a ride, as its last words say.
pub(crate) fn start_of(frequent: bool, last: &[&str]) -> Option<Option<u32>>
    ensures { result ≡ Lines.start_in frequent (map (λ word. word.now) last.now) }
{
    if !frequent {
        return if last.is_empty() { Some(None) } else { None };
    }
    let [word] = last else {
        return None;
    };
    match small_of(word) {
        Some(start) => Some(Some(start)),
        None => None,
    }
}

// The id of which a text is the escape.
pub(crate) fn id_of(alloc: Global, text: &str) -> Result<Option<Text>, NoMemory>
    ensures { GivesWord result (id_in text.now) }
{
    let mut id = Text::new(alloc);
    match unescape_id(alloc, text, &mut id) {
        Ok(()) => Ok(Some(id)),
        Err(UnescapeError::BadEscape) => Ok(None),
        Err(UnescapeError::NoMemory) => Err(NoMemory),
    }
}
