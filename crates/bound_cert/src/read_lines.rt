// Reading the lines of a certificate.

ghost use Rattle.std.specs.Prelude.{◌≡◌};
ghost use Rattle.bound_cert.specs.Given.{Gives};
ghost use Rattle.bound_cert.specs.Known.{IsKnown};
ghost use Rattle.bound_cert.specs.LineWords as Lines;
ghost use Rattle.bound_cert.specs.Reading.{line_at};

use crate::cert::CertLabel;
use crate::error::ReadError;
use crate::known::Known;
use crate::line_values::{
    Asking, heading_of, label_count_of, label_of, query_of, round_count_of, triple_of,
};
use crate::line_words::read_words;
use crate::ride_values::ride_of;
use flex_model::{Ride, Text, Triple};
use std::alloc::Global;

// The first line of a certificate: whether some part asks for walking, and the number of its parts.
pub(crate) fn read_heading(alloc: Global, bytes: &[u8]) -> Result<((bool, u64), &[u8]), ReadError>
    ensures { Gives (λ x. (x.0, x.1.now)) result (line_at Lines.heading_in bytes.now) }
{
    let (words, rest) = read_words(alloc, bytes)?;
    match heading_of(words.as_slice()) {
        Some(heading) => Ok((heading, rest)),
        None => Err(ReadError::Bad { left: bytes.len() }),
    }
}

// The first line of a part: the id of its query, whether that asks for walking, and the number of
// its answers.
pub(crate) fn read_query(
    alloc: Global,
    asking: Asking,
    has_rides: bool,
    bytes: &[u8],
) -> Result<((Text, (bool, u64)), &[u8]), ReadError>
    ensures { Gives (λ x. (x.0, x.1.now)) result
        (line_at (Lines.query_in asking.may_ask asking.may_not has_rides) bytes.now) }
{
    let (words, rest) = read_words(alloc, bytes)?;
    let query = query_of(alloc, asking, has_rides, words.as_slice())?;
    match query {
        Some(query) => Ok((query, rest)),
        None => Err(ReadError::Bad { left: bytes.len() }),
    }
}

// The line of a journey.
pub(crate) fn read_triple(
    alloc: Global,
    walking: bool,
    bytes: &[u8],
) -> Result<(Triple, &[u8]), ReadError>
    ensures { Gives (λ x. (x.0, x.1.now)) result
        (line_at (Lines.triple_in walking) bytes.now) }
{
    let (words, rest) = read_words(alloc, bytes)?;
    match triple_of(walking, words.as_slice()) {
        Some(triple) => Ok((triple, rest)),
        None => Err(ReadError::Bad { left: bytes.len() }),
    }
}

// The line of a ride.
pub(crate) fn read_ride<'a>(
    alloc: Global,
    known: &Known<'_>,
    bytes: &'a [u8],
) -> Result<(Ride, &'a [u8]), ReadError>
    requires { IsKnown known.now }
    ensures { Gives (λ x. (x.0, x.1.now)) result
        (line_at (Lines.ride_in known.now.feed.now known.now.times.now) bytes.now) }
{
    let (words, rest) = read_words(alloc, bytes)?;
    match ride_of(known, words.as_slice()) {
        Some(ride) => Ok((ride, rest)),
        None => Err(ReadError::Bad { left: bytes.len() }),
    }
}

// The line that counts a part's rounds.
pub(crate) fn read_round_count(alloc: Global, bytes: &[u8]) -> Result<(u64, &[u8]), ReadError>
    ensures { Gives (λ x. (x.0, x.1.now)) result (line_at Lines.round_count_in bytes.now) }
{
    let (words, rest) = read_words(alloc, bytes)?;
    match round_count_of(words.as_slice()) {
        Some(count) => Ok((count, rest)),
        None => Err(ReadError::Bad { left: bytes.len() }),
    }
}

// The first line of a round: the number of its labels.
pub(crate) fn read_label_count(
    alloc: Global,
    round: u64,
    has_places: bool,
    bytes: &[u8],
) -> Result<(u64, &[u8]), ReadError>
    ensures { Gives (λ x. (x.0, x.1.now)) result
        (line_at (Lines.label_count_in round has_places) bytes.now) }
{
    let (words, rest) = read_words(alloc, bytes)?;
    match label_count_of(round, has_places, words.as_slice()) {
        Some(count) => Ok((count, rest)),
        None => Err(ReadError::Bad { left: bytes.len() }),
    }
}

// The line of a label.
pub(crate) fn read_label<'a>(
    alloc: Global,
    known: &Known<'_>,
    walking: bool,
    bytes: &'a [u8],
) -> Result<(CertLabel, &'a [u8]), ReadError>
    requires { IsKnown known.now }
    ensures { Gives (λ x. (x.0, x.1.now)) result
        (line_at (Lines.label_in known.now.feed.now known.now.times.now walking) bytes.now) }
{
    let (words, rest) = read_words(alloc, bytes)?;
    match label_of(known, walking, words.as_slice()) {
        Some(label) => Ok((label, rest)),
        None => Err(ReadError::Bad { left: bytes.len() }),
    }
}
