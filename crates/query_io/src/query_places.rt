// The places that queries name.

ghost use Rattle.std.specs.Prelude.{◌≡◌, [], IfOk, false, fold, map, slice_get};
ghost use Rattle.std.specs.Option.{option_map_or};
ghost use Rattle.flex_model.specs.SoundFeed.{IsSoundFeed};
ghost use Rattle.flex_model.specs.SoundTimes.{AreSoundTimes};
ghost use Rattle.flex_model.specs.declared.feed.Feed as Feeds;
ghost use Rattle.flex_model.specs.declared.times.Times as Spans;
ghost use Rattle.feed_meaning.specs.Noted.{noted};
ghost use Rattle.query_io.specs.QueryPlaces.{ArePlaceIds, IsPlaceRead};

use feed_meaning::{Ids, is_empty};
use flex_model::{FaultCode, Feed, NoMemory, Place, Point, Stop, Times};
use std::alloc::Global;

/// The ids of the stops and of the points, each by its number.
#[derive(Drop)]
pub(crate) struct PlaceIds<'a> {
    pub(crate) stops: Ids<'a>,
    pub(crate) points: Ids<'a>,
    pub(crate) feed: &'a Feed,
}

// The ids of stops.
fn stop_ids<'a>(alloc: Global, stops: &'a [Stop]) -> Result<Ids<'a>, NoMemory>
    ensures { IfOk result (λ ids. ids ≡ fold noted [] (map (λ stop. stop.id) stops.now)) }
{
    let mut ids = Ids::new(alloc);
    for stop in stops {
        ids.note(stop.id.as_str())?;
    }
    Ok(ids)
}

// The ids of points.
fn point_ids<'a>(alloc: Global, points: &'a [Point]) -> Result<Ids<'a>, NoMemory>
    ensures { IfOk result (λ ids. ids ≡ fold noted [] (map (λ point. point.id) points.now)) }
{
    let mut ids = Ids::new(alloc);
    for point in points {
        ids.note(point.id.as_str())?;
    }
    Ok(ids)
}

/// The ids of a feed's stops and of its times' points.
pub(crate) fn place_ids<'a>(
    alloc: Global,
    feed: &'a Feed,
    times: &'a Times,
) -> Result<PlaceIds<'a>, NoMemory>
    requires feed { IsSoundFeed feed.now }
    requires times { AreSoundTimes feed.now times.now }
    ensures { IfOk result (ArePlaceIds feed.now times.now) }
{
    let stops = stop_ids(alloc, feed.stops.as_slice())?;
    let points = point_ids(alloc, times.points.as_slice())?;
    Ok(PlaceIds {
        stops,
        points,
        feed,
    })
}

// Whether there is a stop with this number where one can board.
fn boards_at(feed: &Feed, stop: u32) -> bool
    ensures { result ≡ option_map_or (λ stop. stop.boards) (slice_get feed.now.stops stop) false }
{
    match feed.stops.get(stop as usize) {
        Some(stop) => stop.boards,
        None => false,
    }
}

/// The stop or the point with this id, or the fault of a text that names no place of a query.
pub(crate) fn read_place(ids: &PlaceIds<'_>, text: &str) -> Result<Place, FaultCode>
    ensures { (feed : Feeds.Feed) (times : Spans.Times)
        → ArePlaceIds feed times ids.now → IsPlaceRead feed times text.now result }
{
    if is_empty(text) {
        return Err(FaultCode::EmptyField);
    }
    if let Some(stop) = ids.stops.index_of(text) {
        if !boards_at(ids.feed, stop) {
            return Err(FaultCode::BadStopKind);
        }
        return Ok(Place::Stop(stop));
    }
    match ids.points.index_of(text) {
        Some(point) => Ok(Place::Point(point)),
        None => Err(FaultCode::UnknownId),
    }
}
