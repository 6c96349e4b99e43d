// What the types of a feed and its times keep: ids are UTF-8, and values of `stop_sequence` have 32
// bits.

ghost use Rattle.std.specs.Prelude.{◌^◌, ◌<◌, All, IsUtf8};
ghost use Rattle.bound_cert.specs.Laws.{AreHeld};

use flex_model::{Feed, Point, Row, Stop, Times, Trip};

fn look_at_stops(stops: &[Stop])
    ensures { All (λ stop. IsUtf8 stop.id) stops.now }
{
    for i in 0..stops.len() {
        let _id = stops[i].id.as_str();
    }
}

fn look_at_points(points: &[Point])
    ensures { All (λ point. IsUtf8 point.id) points.now }
{
    for i in 0..points.len() {
        let _id = points[i].id.as_str();
    }
}

fn look_at_trip_ids(trips: &[Trip])
    ensures { All (λ trip. IsUtf8 trip.id) trips.now }
{
    for i in 0..trips.len() {
        let _id = trips[i].id.as_str();
    }
}

fn sequence_of(row: &Row) -> u32
    ensures { row.now.sequence < 2 ^ 32 }
{
    row.sequence
}

fn look_at_rows(rows: &[Row])
    ensures { All (λ row. row.sequence < 2 ^ 32) rows.now }
{
    for i in 0..rows.len() {
        let _sequence = sequence_of(&rows[i]);
    }
}

fn look_at_trip_rows(trips: &[Trip])
    ensures { All (λ trip. All (λ row. row.sequence < 2 ^ 32) trip.rows) trips.now }
{
    for i in 0..trips.len() {
        look_at_rows(trips[i].rows.as_slice());
    }
}

/// Looks at each id and each `stop_sequence` of a feed and its times once: ids are UTF-8, and
/// values of `stop_sequence` have 32 bits.
pub fn look_at(feed: &Feed, times: &Times)
    ensures { AreHeld feed.now times.now }
{
    look_at_stops(feed.stops.as_slice());
    look_at_points(times.points.as_slice());
    look_at_trip_ids(feed.trips.as_slice());
    look_at_trip_rows(feed.trips.as_slice());
}
