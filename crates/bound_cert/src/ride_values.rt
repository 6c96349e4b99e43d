// What the line of a ride tells, from its words.

ghost use Rattle.std.specs.Prelude.{◌≡◌, ◌<◌, ◌^◌, AllPairs, length, map};
ghost use Rattle.bound_cert.specs.Known.{IsKnown};
ghost use Rattle.bound_cert.specs.LineWords as Lines;
ghost use Rattle.field_text.specs.Grammars.{date, moment};
ghost use Rattle.flex_model.specs.SoundFeed.{IsSoundTrip};
ghost use Rattle.query_io.specs.Lines.{place_in};

use crate::known::{Known, place_of, row_at, trip_of};
use crate::last_words::{small_of, start_of};
use field_text::{read_date, read_moment};
use flex_model::{Moment, Place, Ride, Row, Trip};

// The record of a trip with this `stop_sequence`.
fn row_of(rows: &[Row], text: &str) -> Option<u32>
    requires rising { AllPairs (λ a b. a.sequence < b.sequence) rows.now }
    requires few { length rows.now < 2 ^ 32 }
    ensures { result ≡ Lines.row_in rows.now text.now }
{
    match small_of(text) {
        Some(sequence) => row_at(rows, sequence),
        None => None,
    }
}

// The places and moments of a ride.
#[derive(Clone, Copy)]
struct Stretch {
    board: Place,
    alight: Place,
    departs: Moment,
    arrives: Moment,
}

// The places and moments of these parts, where all are there.
fn stretch_from(
    board: Option<Place>,
    alight: Option<Place>,
    departs: Option<Moment>,
    arrives: Option<Moment>,
) -> Option<Stretch>
    ensures { result ≡ Lines.stretch_from board alight departs arrives }
{
    match (board, alight, departs, arrives) {
        (Some(board), Some(alight), Some(departs), Some(arrives)) => Some(Stretch {
            board,
            alight,
            departs,
            arrives,
        }),
        _ => None,
    }
}

// The ride on a trip of these parts, where all are there.
fn ride_from(
    trip: u32,
    day: Option<i32>,
    from: Option<u32>,
    to: Option<u32>,
    stretch: Option<Stretch>,
    start: Option<Option<u32>>,
) -> Option<Ride>
    ensures { result ≡ Lines.ride_along trip day from to stretch start }
{
    match (day, from, to, stretch, start) {
        (Some(day), Some(from_row), Some(to_row), Some(stretch), Some(start)) => Some(Ride {
            trip,
            day,
            start,
            from_row,
            to_row,
            board: stretch.board,
            alight: stretch.alight,
            departs: stretch.departs,
            arrives: stretch.arrives,
        }),
        _ => None,
    }
}

// The places and moments of these words, where each is one.
fn stretch_of(
    known: &Known<'_>,
    board: &str,
    alight: &str,
    departs: &str,
    arrives: &str,
) -> Option<Stretch>
    requires { IsKnown known.now }
    ensures { result ≡ Lines.stretch_from
        (place_in known.now.feed.now known.now.times.now board.now)
        (place_in known.now.feed.now known.now.times.now alight.now)
        (moment 1980 2209 departs.now) (moment 1980 2209 arrives.now) }
{
    let departs = read_moment(departs).ok();
    let arrives = read_moment(arrives).ok();
    stretch_from(
        place_of(known, board),
        place_of(known, alight),
        departs,
        arrives,
    )
}

// The ride on a trip, of its places and moments and further words.
fn ride_on(
    trip: &Trip,
    number: u32,
    day: &str,
    from: &str,
    to: &str,
    stretch: Option<Stretch>,
    last: &[&str],
) -> Option<Ride>
    requires rising { AllPairs (λ a b. a.sequence < b.sequence) trip.now.rows }
    requires few { length trip.now.rows < 2 ^ 32 }
    ensures { result ≡ Lines.ride_along number (date day.now)
        (Lines.row_in trip.now.rows from.now) (Lines.row_in trip.now.rows to.now) stretch
        (Lines.start_in trip.now.frequent (map (λ word. word.now) last.now)) }
{
    let rows = trip.rows.as_slice();
    let day = read_date(day).ok();
    let from = row_of(rows, from);
    let to = row_of(rows, to);
    ride_from(
        number,
        day,
        from,
        to,
        stretch,
        start_of(trip.frequent, last),
    )
}

// The trip of a number.
fn trip_at<'a>(known: &Known<'a>, number: u32) -> &'a Trip
    requires known { IsKnown known.now }
    requires within { number < length known.now.feed.now.trips }
    ensures rows { Lines.rows_of known.now.feed.now number ≡ result.now.rows }
    ensures frequent { Lines.is_frequent known.now.feed.now number ≡ result.now.frequent }
    ensures sound { IsSoundTrip known.now.feed.now result.now }
{
    &known.feed.trips[number as usize]
}

// ride TRIP DATE FROM TO PLACE PLACE DEPARTS ARRIVES, and START: the ride
pub(crate) fn ride_of(known: &Known<'_>, words: &[&str]) -> Option<Ride>
    requires { IsKnown known.now }
    ensures { result ≡ Lines.ride_in known.now.feed.now known.now.times.now
        (map (λ word. word.now) words.now) }
{
    let [
        kind,
        trip,
        day,
        from,
        to,
        board,
        alight,
        departs,
        arrives,
        last @ ..,
    ] = words
    else {
        return None;
    };
    if *kind != "ride" {
        return None;
    }
    let Some(number) = trip_of(known, trip) else {
        return None;
    };
    let stretch = stretch_of(known, board, alight, departs, arrives);
    let trip = trip_at(known, number);
    ride_on(trip, number, day, from, to, stretch, last)
}
