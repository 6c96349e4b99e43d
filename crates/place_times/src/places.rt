// The places that spans name.

ghost use Rattle.std.specs.Prelude.{◌≡◌, [], List, IfOk, false, fold, map, slice_get};
ghost use Rattle.std.specs.Option.{option_map_or};
ghost use Rattle.flex_model.specs.SoundFeed.{IsSoundFeed};
ghost use Rattle.flex_model.specs.SoundTimes.{AreIds};
ghost use Rattle.flex_model.specs.declared.feed.Feed as Feeds;
ghost use Rattle.flex_model.specs.declared.place.Point as Places;
ghost use Rattle.feed_meaning.specs.Noted.{noted};
ghost use Rattle.feed_meaning.specs.Rules.{Values};
ghost use Rattle.feed_meaning.specs.TimesFaults;
ghost use Rattle.feed_meaning.specs.TimesValue;
ghost use Rattle.feed_meaning.specs.TimesValue.{point_of};
ghost use Rattle.place_times.specs.Places.{ArePlaceIds};

use feed_meaning::Ids;
use flex_model::{Feed, NoMemory, Place, Point, Stop};
use std::alloc::Global;

/// The ids of the stops and of the points, each by its number.
#[derive(Drop)]
pub(crate) struct PlaceIds<'a> {
    pub(crate) stops: Ids<'a>,
    pub(crate) points: Ids<'a>,
    pub(crate) feed: &'a Feed,
}

// The ids of stops.
fn stop_ids<'a>(alloc: Global, stops: &'a [Stop]) -> Result<Ids<'a>, NoMemory>
    ensures { IfOk result (λ ids. ids ≡ fold noted [] (map (λ stop. stop.id) stops.now)) }
{
    let mut ids = Ids::new(alloc);
    for stop in stops {
        ids.note(stop.id.as_str())?;
    }
    Ok(ids)
}

// The ids of points.
fn point_ids<'a>(alloc: Global, points: &'a [Point]) -> Result<Ids<'a>, NoMemory>
    ensures { IfOk result (λ ids. ids ≡ fold noted [] (map (λ point. point.id) points.now)) }
{
    let mut ids = Ids::new(alloc);
    for point in points {
        ids.note(point.id.as_str())?;
    }
    Ok(ids)
}

/// The ids of a feed's stops and of points.
pub(crate) fn place_ids<'a>(
    alloc: Global,
    feed: &'a Feed,
    points: &'a [Point],
) -> Result<PlaceIds<'a>, NoMemory>
    requires feed { IsSoundFeed feed.now }
    requires points { AreIds (map (λ point. point.id) points.now) }
    ensures { IfOk result (ArePlaceIds feed.now points.now) }
{
    let stops = stop_ids(alloc, feed.stops.as_slice())?;
    let points = point_ids(alloc, points)?;
    Ok(PlaceIds {
        stops,
        points,
        feed,
    })
}

// Whether there is a stop with this number where one can board.
fn boards_at(feed: &Feed, stop: u32) -> bool
    ensures { result ≡ option_map_or (λ stop. stop.boards) (slice_get feed.now.stops stop) false }
{
    match feed.stops.get(stop as usize) {
        Some(stop) => stop.boards,
        None => false,
    }
}

/// Whether a text is the id of a stop.
pub(crate) fn is_stop(ids: &PlaceIds<'_>, text: &str) -> bool
    ensures { (feed : Feeds.Feed) (points : List Places.Point) → ArePlaceIds feed points ids.now
        → result ≡ TimesFaults.is_stop feed text.now }
{
    ids.stops.has(text)
}

/// Whether a text is the id of a point, or of a stop where one can board.
pub(crate) fn is_place(ids: &PlaceIds<'_>, text: &str) -> bool
    ensures { (feed : Feeds.Feed) (points : List Values)
        → ArePlaceIds feed (map point_of points) ids.now
        → result ≡ TimesFaults.is_place feed points text.now }
{
    if ids.points.has(text) {
        return true;
    }
    match ids.stops.index_of(text) {
        Some(stop) => boards_at(ids.feed, stop),
        None => false,
    }
}

/// The stop or the point with this id, and the first point where there is neither.
pub(crate) fn place_named(ids: &PlaceIds<'_>, text: &str) -> Place
    ensures { (feed : Feeds.Feed) (points : List Places.Point) → ArePlaceIds feed points ids.now
        → result ≡ TimesValue.place_named feed points text.now }
{
    if let Some(stop) = ids.stops.index_of(text) {
        return Place::Stop(stop);
    }
    match ids.points.index_of(text) {
        Some(point) => Place::Point(point),
        None => Place::Point(0),
    }
}
