// The starts of trips, and runs between records with times.

ghost use Rattle.std.specs.Prelude.{All, IfSome, IsTrue};
ghost use Rattle.flex_model.specs.SoundFeed.{IsSoundFeed, IsSoundRepeat};
ghost use Rattle.fixed_trips.specs.Timed.{HasTimedRow};

use crate::loaded::read_feed;
use fixed_trips::fixed_run;
use flex_model::{Arrives, Feed, Moment, Run, Trip};
use freq_trips::{is_start, is_timed, next_start, shift};
use std::test::Fail;
use trial_feeds::{AGENCY, CALENDAR, EIGHT, HEADWAYS, M, N, ONE_TRIP, ROUTES, STOPS, june_days};

// F1 goes from M at 08:00:00 to N at 08:20:00.
const STOP_TIMES: (&str, &[u8]) = (
    "a/stop_times.txt",
    b"trip_id,stop_sequence,stop_id,arrival_time,departure_time\nF1,1,M,08:00:00,08:00:00\nF1,2,N,08:20:00,08:20:00\n",
);

// The first trip of the feed.
fn first_trip<'a>(feed: &'a Feed) -> Option<&'a Trip>
    requires { IsSoundFeed feed.now }
    ensures { IfSome result (λ trip. All IsSoundRepeat trip.now.repeats) }
{
    feed.trips.first()
}

#[test]
fn a_trip_starts_at_each_headway_before_the_end(rt: HostRuntime) -> Result<(), Fail> {
    let feed = read_feed(
        rt.alloc(),
        &[
            AGENCY, STOPS, ROUTES, ONE_TRIP, CALENDAR, STOP_TIMES, HEADWAYS,
        ],
    )?;
    let trip = first_trip(&feed).ok_or("a trip")?;
    for (least, start) in [
        (0, Some(29_100)),
        (29_100, Some(29_100)),
        (29_101, Some(29_700)),
        (30_300, Some(30_300)),
        (30_301, None),
        (u32::MAX, None),
    ] {
        assert_eq!(rt; next_start(trip, least), start);
    }
    for (start, starts) in [
        (28_800, false),
        (29_100, true),
        (29_101, false),
        (30_300, true),
        (30_600, false),
    ] {
        assert_eq!(rt; is_start(trip, start), starts);
    }
    assert_eq!(rt; shift(trip, Some(29_100)), 300);
    assert_eq!(rt; shift(trip, None), 0);
    Ok(())
}

// Whether the feed has the trip's record, and it has times.
fn has_timed_row(feed: &Feed, trip: u32, row: u32) -> bool
    ensures { IsTrue result → HasTimedRow feed.now trip row }
{
    let Some(trip) = feed.trips.get(trip as usize) else {
        return false;
    };
    let Some(row) = trip.rows.get(row as usize) else {
        return false;
    };
    is_timed(row.timing)
}

// The run of one ride.
const fn run(departs: Moment, arrives: Moment) -> Option<Run> {
    Some(Run {
        first: departs,
        count: 1,
        arrives: Arrives::At(arrives),
    })
}

#[test]
fn a_run_is_the_one_ride_between_two_records(rt: HostRuntime) -> Result<(), Fail> {
    let feed = read_feed(
        rt.alloc(),
        &[AGENCY, STOPS, ROUTES, ONE_TRIP, CALENDAR, STOP_TIMES],
    )?;
    let days = june_days(rt.alloc())?;
    for (day, start, from_row, to_row, found) in [
        (20_243, None, 0, 1, run(EIGHT, EIGHT + 1_200)),
        (20_244, None, 0, 1, run(EIGHT + 86_400, EIGHT + 87_600)),
        (20_246, None, 0, 1, None),
        (20_249, None, 0, 1, None),
        (20_243, Some(28_800), 0, 1, None),
        (20_243, None, 1, 0, None),
    ] {
        if !has_timed_row(&feed, 0, from_row) || !has_timed_row(&feed, 0, to_row) {
            return Err("times".into());
        }
        assert_eq!(rt;
            fixed_run(&feed, &days, 0, day, start, from_row, to_row, M, N),
            found
        );
    }
    Ok(())
}

#[test]
fn a_run_of_a_repeated_trip_is_shifted(rt: HostRuntime) -> Result<(), Fail> {
    let feed = read_feed(
        rt.alloc(),
        &[
            AGENCY, STOPS, ROUTES, ONE_TRIP, CALENDAR, STOP_TIMES, HEADWAYS,
        ],
    )?;
    let days = june_days(rt.alloc())?;
    if !has_timed_row(&feed, 0, 0) || !has_timed_row(&feed, 0, 1) {
        return Err("times".into());
    }
    for (start, found) in [
        (Some(29_100), run(EIGHT + 300, EIGHT + 1_500)),
        (Some(30_300), run(EIGHT + 1_500, EIGHT + 2_700)),
        (Some(30_600), None),
        (None, None),
    ] {
        assert_eq!(rt;
            fixed_run(&feed, &days, 0, 20_243, start, 0, 1, M, N),
            found
        );
    }
    Ok(())
}
