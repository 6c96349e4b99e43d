// The places and trips of a feed and its times, found by their escaped ids in an index.

ghost use Rattle.std.specs.Prelude.{◌≡◌, ◌≢◌, ◌==◌, ◌<◌, ◌≤◌, ◌^◌, ℕ, [], All, AllPairs, IfOk};
ghost use Rattle.std.specs.Prelude.{IfSome, fold, length, map, position, slice_index_or};
ghost use Rattle.bound_cert.specs.Known.{AreEscapes, IsKnown};
ghost use Rattle.bound_cert.specs.Laws.{AreHeld};
ghost use Rattle.bound_cert.specs.LineWords as Lines;
ghost use Rattle.feed_meaning.specs.Noted.{noted};
ghost use Rattle.field_text.specs.Grammars.{escape};
ghost use Rattle.flex_model.specs.SoundFeed.{IsSoundFeed};
ghost use Rattle.flex_model.specs.SoundTimes.{AreSoundTimes};
ghost use Rattle.flex_model.specs.declared.trip.Row.{Row as TheRow};
ghost use Rattle.query_io.specs.Lines.{place_in, trip_in};

use feed_meaning::Ids;
use field_text::escape_id;
use flex_model::{Feed, Listed, NoMemory, Place, Point, Row, Stop, Text, Times, Trip};
use std::alloc::Global;

// The escaped ids of stops, points and trips, in the order of their lists.
#[derive(Drop)]
pub(crate) struct Escapes {
    pub(crate) stops: Listed<Text>,
    pub(crate) points: Listed<Text>,
    pub(crate) trips: Listed<Text>,
}

// A feed and its times, with an index of the escaped ids.
#[derive(Drop)]
pub(crate) struct Known<'a> {
    pub(crate) feed: &'a Feed,
    pub(crate) times: &'a Times,
    pub(crate) stops: Ids<'a>,
    pub(crate) points: Ids<'a>,
    pub(crate) trips: Ids<'a>,
    // Whether there is a stop or a point.
    pub(crate) has_places: bool,
    // Whether there is a ride to print.
    pub(crate) has_rides: bool,
}

// The escape of an id.
fn escape_of(alloc: Global, id: &str) -> Result<Text, NoMemory>
    requires { id.now ≢ [] }
    ensures { IfOk result (λ text. text ≡ escape id.now) }
{
    let mut text = Text::new(alloc);
    escape_id(id, &mut text)?;
    Ok(text)
}

// The escaped ids of stops.
fn stop_escapes(alloc: Global, stops: &[Stop]) -> Result<Listed<Text>, NoMemory>
    requires { All (λ stop. stop.id ≢ []) stops.now }
    ensures { IfOk result (λ texts. texts ≡ map (λ stop. escape stop.id) stops.now) }
{
    let mut escapes = Listed::new(alloc);
    for stop in stops {
        let text = escape_of(alloc, stop.id.as_str())?;
        escapes.push(text)?;
    }
    Ok(escapes)
}

// The escaped ids of points.
fn point_escapes(alloc: Global, points: &[Point]) -> Result<Listed<Text>, NoMemory>
    requires { All (λ point. point.id ≢ []) points.now }
    ensures { IfOk result (λ texts. texts ≡ map (λ point. escape point.id) points.now) }
{
    let mut escapes = Listed::new(alloc);
    for point in points {
        let text = escape_of(alloc, point.id.as_str())?;
        escapes.push(text)?;
    }
    Ok(escapes)
}

// The escaped ids of trips.
fn trip_escapes(alloc: Global, trips: &[Trip]) -> Result<Listed<Text>, NoMemory>
    requires { All (λ trip. trip.id ≢ []) trips.now }
    ensures { IfOk result (λ texts. texts ≡ map (λ trip. escape trip.id) trips.now) }
{
    let mut escapes = Listed::new(alloc);
    for trip in trips {
        let text = escape_of(alloc, trip.id.as_str())?;
        escapes.push(text)?;
    }
    Ok(escapes)
}

// The escaped ids of a feed's stops and trips and of its times' points.
pub(crate) fn all_escapes(alloc: Global, feed: &Feed, times: &Times) -> Result<Escapes, NoMemory>
    requires feed { IsSoundFeed feed.now }
    requires times { AreSoundTimes feed.now times.now }
    ensures { IfOk result (AreEscapes feed.now times.now) }
{
    let stops = stop_escapes(alloc, feed.stops.as_slice())?;
    let points = point_escapes(alloc, times.points.as_slice())?;
    let trips = trip_escapes(alloc, feed.trips.as_slice())?;
    Ok(Escapes {
        stops,
        points,
        trips,
    })
}

// An index of texts.
fn index_texts<'a>(alloc: Global, texts: &'a [Text]) -> Result<Ids<'a>, NoMemory>
    ensures { IfOk result (λ ids. ids ≡ fold noted [] texts.now) }
{
    let mut ids = Ids::new(alloc);
    for text in texts {
        ids.note(text.as_str())?;
    }
    Ok(ids)
}

// Whether there is a stop or a point.
fn has_place(feed: &Feed, times: &Times) -> bool
    ensures { result ≡ Lines.has_place feed.now times.now }
{
    !feed.stops.is_empty() || !times.points.is_empty()
}

// Whether some trip has a record.
fn has_record(trips: &[Trip]) -> bool
    ensures { result ≡ Lines.has_record trips.now }
{
    trips.iter().any(|trip| !trip.rows.is_empty())
}

// Whether there is a ride to print: there is a place, and a trip has a record.
fn has_ride(feed: &Feed, times: &Times) -> bool
    ensures { result ≡ Lines.has_ride feed.now times.now }
{
    has_place(feed, times) && has_record(feed.trips.as_slice())
}

// A feed and its times, with an index of their escaped ids.
pub(crate) fn index_feed<'a>(
    alloc: Global,
    feed: &'a Feed,
    times: &'a Times,
    escapes: &'a Escapes,
) -> Result<Known<'a>, NoMemory>
    requires feed { IsSoundFeed feed.now }
    requires times { AreSoundTimes feed.now times.now }
    requires held { AreHeld feed.now times.now }
    requires escapes { AreEscapes feed.now times.now escapes.now }
    ensures known { IfOk result IsKnown }
    ensures feed { IfOk result (λ known. known.feed.now ≡ feed.now) }
    ensures times { IfOk result (λ known. known.times.now ≡ times.now) }
{
    let stops = index_texts(alloc, escapes.stops.as_slice())?;
    let points = index_texts(alloc, escapes.points.as_slice())?;
    let trips = index_texts(alloc, escapes.trips.as_slice())?;
    Ok(Known {
        feed,
        times,
        stops,
        points,
        trips,
        has_places: has_place(feed, times),
        has_rides: has_ride(feed, times),
    })
}

// The stop or the point of an escaped id.
pub(crate) fn place_of(known: &Known<'_>, text: &str) -> Option<Place>
    requires { IsKnown known.now }
    ensures { result ≡ place_in known.now.feed.now known.now.times.now text.now }
{
    if let Some(stop) = known.stops.index_of(text) {
        return Some(Place::Stop(stop));
    }
    match known.points.index_of(text) {
        Some(point) => Some(Place::Point(point)),
        None => None,
    }
}

// The number of the trip of an escaped id.
pub(crate) fn trip_of(known: &Known<'_>, text: &str) -> Option<u32>
    requires { IsKnown known.now }
    ensures trip { result ≡ trip_in known.now.feed.now text.now }
    ensures within { IfSome result (λ trip. trip < length known.now.feed.now.trips) }
{
    known.trips.index_of(text)
}

// How many records come before a `stop_sequence`.
fn rows_before(rows: &[Row], sequence: u32) -> usize
    requires { AllPairs (λ a b. a.sequence < b.sequence) rows.now }
    ensures before { (k : ℕ) (d : TheRow) → k < result
        → (slice_index_or rows.now k d).sequence < sequence }
    ensures after { (k : ℕ) (d : TheRow) → result ≤ k → k < length rows.now
        → sequence ≤ (slice_index_or rows.now k d).sequence }
{
    rows.partition_point(|row| row.sequence < sequence)
}

// The record with a `stop_sequence`.
pub(crate) fn row_at(rows: &[Row], sequence: u32) -> Option<u32>
    requires rising { AllPairs (λ a b. a.sequence < b.sequence) rows.now }
    requires few { length rows.now < 2 ^ 32 }
    ensures { result ≡ position (λ row. row.sequence == sequence) rows.now }
{
    let at = rows_before(rows, sequence);
    if at >= rows.len() {
        return None;
    }
    if rows[at].sequence != sequence {
        return None;
    }
    Some(at as u32)
}
