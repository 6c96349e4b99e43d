// What single lines tell, from their words.

ghost use Rattle.std.specs.Prelude.{◌≡◌, ◌==◌, ◌&&◌, ◌||◌, map};
ghost use Rattle.std.specs.Option.{option_map};
ghost use Rattle.bound_cert.specs.Given.{GivesWord};
ghost use Rattle.bound_cert.specs.Known.{IsKnown};
ghost use Rattle.bound_cert.specs.LineWords as Lines;
ghost use Rattle.bound_cert.specs.LineWords.{is_allowed};

use crate::cert::CertLabel;
use crate::known::{Known, place_of, row_at, trip_of};
use crate::last_words::{
    count_of, id_of, small_of, start_of, transfers_of, version_of, walk_of, walking_of,
};
use field_text::{read_date, read_moment};
use flex_model::{Deadline, Moment, NoMemory, Place, Ride, Row, Text, Triple};
use query_io::lines::read_deadline;
use std::alloc::Global;

// The version and the count of these parts, where both are there.
fn heading_from(two: Option<bool>, count: Option<u64>) -> Option<(bool, u64)>
    ensures { result ≡ Lines.heading_from two count }
{
    match (two, count) {
        (Some(two), Some(count)) => {
            if two && count == 0 {
                return None;
            }
            Some((two, count))
        }
        _ => None,
    }
}

// flexcert VERSION COUNT: whether some part asks for walking, and the count of the parts
#[tactic(auto, unfolding(crate::specs::LineWords::heading_in))]
pub(crate) fn heading_of(words: &[&str]) -> Option<(bool, u64)>
    ensures { result ≡ Lines.heading_in (map (λ word. word.now) words.now) }
{
    let [kind, version, count] = words else {
        return None;
    };
    if *kind != "flexcert" {
        return None;
    }
    heading_from(version_of(version), count_of(count))
}

// The first line of a part: which query may stand there.
#[derive(Clone, Copy)]
pub(crate) struct Asking {
    // Whether it may ask for walking.
    pub(crate) may_ask: bool,
    // Whether it may not ask.
    pub(crate) may_not: bool,
}

// Whether a query may ask for walking as it does, and may have so many answers.
fn is_query_allowed(asking: Asking, has_rides: bool, walking: bool, count: u64) -> bool
    ensures { result ≡ (is_allowed asking.may_ask asking.may_not walking
        && ((count == 0) || has_rides)) }
{
    let allowed = if walking {
        asking.may_ask
    } else {
        asking.may_not
    };
    allowed && (count == 0 || has_rides)
}

// The parts of a query line, where they are there and allowed.
fn query_from<'a>(
    asking: Asking,
    has_rides: bool,
    id: &'a str,
    count: Option<u64>,
    walking: Option<bool>,
) -> Option<(&'a str, bool, u64)>
    ensures { option_map (λ x. (x.0.now, (x.1, x.2))) result
        ≡ Lines.query_from asking.may_ask asking.may_not has_rides id.entry.now count walking }
{
    match (count, walking) {
        (Some(count), Some(walking)) => {
            if !is_query_allowed(asking, has_rides, walking, count) {
                return None;
            }
            Some((id, walking, count))
        }
        _ => None,
    }
}

// The escaped id of a query line, whether it asks for walking, and its count.
#[tactic(auto, unfolding(crate::specs::LineWords::query_words_in))]
fn query_words<'a>(
    asking: Asking,
    has_rides: bool,
    words: &[&'a str],
) -> Option<(&'a str, bool, u64)>
    ensures { option_map (λ x. (x.0.now, (x.1, x.2))) result
        ≡ Lines.query_words_in asking.may_ask asking.may_not has_rides
        (map (λ word. word.now) words.now) }
{
    let [kind, id, count, last @ ..] = words else {
        return None;
    };
    if *kind != "query" {
        return None;
    }
    query_from(asking, has_rides, id, count_of(count), walking_of(last))
}

// query ID COUNT, and walking: the id, whether it asks for walking, and the count
pub(crate) fn query_of(
    alloc: Global,
    asking: Asking,
    has_rides: bool,
    words: &[&str],
) -> Result<Option<(Text, (bool, u64))>, NoMemory>
    ensures { GivesWord result (Lines.query_in asking.may_ask asking.may_not has_rides
        (map (λ word. word.now) words.now)) }
{
    let Some((id, walking, count)) = query_words(asking, has_rides, words) else {
        return Ok(None);
    };
    let id = id_of(alloc, id)?;
    match id {
        Some(id) => Ok(Some((id, (walking, count)))),
        None => Ok(None),
    }
}

// The triple of these parts, where all are there.
fn triple_from(
    deadline: Option<Deadline>,
    arrival: Option<Moment>,
    transfers: Option<u8>,
    walk: Option<u32>,
) -> Option<Triple>
    ensures { result ≡ Lines.triple_from deadline arrival transfers walk }
{
    match (deadline, arrival, transfers, walk) {
        (Some(deadline), Some(arrival), Some(transfers), Some(walk)) => Some(Triple {
            deadline,
            arrival,
            transfers,
            walk,
        }),
        _ => None,
    }
}

// journey DEADLINE ARRIVAL TRANSFERS, and WALK: the triple
#[tactic(auto, unfolding(crate::specs::LineWords::triple_in))]
pub(crate) fn triple_of(walking: bool, words: &[&str]) -> Option<Triple>
    ensures { result ≡ Lines.triple_in walking (map (λ word. word.now) words.now) }
{
    let [kind, deadline, arrival, transfers, last @ ..] = words else {
        return None;
    };
    if *kind != "journey" {
        return None;
    }
    let deadline = read_deadline(deadline).ok();
    let arrival = read_moment(arrival).ok();
    triple_from(
        deadline,
        arrival,
        transfers_of(transfers),
        walk_of(walking, last),
    )
}

// rounds COUNT: the count
#[tactic(auto, unfolding(crate::specs::LineWords::round_count_in))]
pub(crate) fn round_count_of(words: &[&str]) -> Option<u64>
    ensures { result ≡ Lines.round_count_in (map (λ word. word.now) words.now) }
{
    let [kind, count] = words else {
        return None;
    };
    if *kind != "rounds" {
        return None;
    }
    count_of(count)
}

// The count of a round's line, where the number is that of the round.
fn label_count_from(
    round: u64,
    has_places: bool,
    number: Option<u64>,
    count: Option<u64>,
) -> Option<u64>
    ensures { result ≡ Lines.label_count_from round has_places number count }
{
    match (number, count) {
        (Some(number), Some(count)) => {
            if number != round {
                return None;
            }
            if count != 0 && !has_places {
                return None;
            }
            Some(count)
        }
        _ => None,
    }
}

// round K COUNT: the count
#[tactic(auto, unfolding(crate::specs::LineWords::label_count_in))]
pub(crate) fn label_count_of(round: u64, has_places: bool, words: &[&str]) -> Option<u64>
    ensures { result ≡ Lines.label_count_in round has_places (map (λ word. word.now) words.now) }
{
    let [kind, number, count] = words else {
        return None;
    };
    if *kind != "round" {
        return None;
    }
    label_count_from(round, has_places, count_of(number), count_of(count))
}

// The label of these parts, where all are there.
fn label_from(
    place: Option<Place>,
    deadline: Option<Deadline>,
    arrival: Option<Moment>,
    walk: Option<u32>,
) -> Option<CertLabel>
    ensures { result ≡ Lines.label_from place deadline arrival walk }
{
    match (place, deadline, arrival, walk) {
        (Some(place), Some(deadline), Some(arrival), Some(walk)) => Some(CertLabel {
            place,
            deadline,
            arrival,
            walk,
        }),
        _ => None,
    }
}

// label PLACE DEADLINE ARRIVAL, and WALK: the label
#[tactic(auto, unfolding(crate::specs::LineWords::label_in))]
pub(crate) fn label_of(known: &Known<'_>, walking: bool, words: &[&str]) -> Option<CertLabel>
    requires { IsKnown known.now }
    ensures { result ≡ Lines.label_in known.now.feed.now known.now.times.now walking
        (map (λ word. word.now) words.now) }
{
    let [kind, place, deadline, arrival, last @ ..] = words else {
        return None;
    };
    if *kind != "label" {
        return None;
    }
    let deadline = read_deadline(deadline).ok();
    let arrival = read_moment(arrival).ok();
    label_from(
        place_of(known, place),
        deadline,
        arrival,
        walk_of(walking, last),
    )
}
