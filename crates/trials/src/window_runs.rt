// Runs from or to records with windows.

ghost use Rattle.std.specs.Prelude.{IsTrue};
ghost use Rattle.flex_trips.specs.Windows.{HasWindowRow};

use crate::loaded::{read_feed, read_times};
use flex_model::{Arrives, Feed, Moment, Place, Run};
use flex_trips::flex_run;
use freq_trips::is_timed;
use std::alloc::Global;
use std::process::Abort;
use std::test::Fail;
use trial_feeds::{
    AGENCY, CALENDAR, EIGHT, GROUPS, M, MEMBERS, N, ONE_TRIP, P, ROUTES, STOPS, UTC, june_days,
};

/// Whether the feed has the two records of its trip, and one of them has a window.
pub(crate) fn has_window_row(feed: &Feed, trip: u32, from_row: u32, to_row: u32) -> bool
    ensures { IsTrue result → HasWindowRow feed.now trip from_row to_row }
{
    let Some(trip) = feed.trips.get(trip as usize) else {
        return false;
    };
    let Some(boarding) = trip.rows.get(from_row as usize) else {
        return false;
    };
    let Some(alighting) = trip.rows.get(to_row as usize) else {
        return false;
    };
    !(is_timed(boarding.timing) && is_timed(alighting.timing))
}

const fn run(first: Moment, count: u32, arrives: Arrives) -> Option<Run> {
    Some(Run {
        first,
        count,
        arrives,
    })
}

// A leg of the trip, by its day, its two records and its two places.
type Leg = (i32, u32, u32, Place, Place);

// From M to N on 4 June 2025.
const LEG: Leg = (20_243, 0, 1, M, N);

// Asserts the runs of the trip F1 with these records, and seconds from M to N.
fn assert_runs(
    rt: &impl Abort,
    alloc: Global,
    stop_times: &'static [u8],
    direct: &'static [u8],
    cases: &[(Leg, Option<Run>)],
) -> Result<(), Fail> {
    let records = ("a/stop_times.txt", stop_times);
    let seconds = ("t/direct.txt", direct);
    let files = [
        AGENCY, STOPS, ROUTES, ONE_TRIP, CALENDAR, GROUPS, MEMBERS, records,
    ];
    let feed = read_feed(alloc, &files)?;
    let times = read_times(alloc, &feed, &[UTC, seconds])?;
    let days = june_days(alloc)?;
    for ((day, from_row, to_row, board, alight), found) in cases {
        if !has_window_row(&feed, 0, *from_row, *to_row) {
            return Err("a window".into());
        }
        assert_eq!(rt;
            flex_run(
                &feed, &times, &days, 0, *day, *from_row, *to_row, *board, *alight
            ),
            *found
        );
    }
    Ok(())
}

const TEN_MINUTES: &[u8] = b"from_id,to_id,seconds\nM,N,600\n";

#[test]
fn a_run_has_each_minute_from_which_one_arrives_in_the_window(rt: HostRuntime) -> Result<(), Fail> {
    let windows = b"trip_id,stop_sequence,location_group_id,start_pickup_drop_off_window,\
        end_pickup_drop_off_window,pickup_type,drop_off_type\n\
        F1,1,G,08:00:00,10:00:00,2,1\nF1,2,G,08:00:00,10:00:00,1,2\n";
    let cases = [
        (LEG, run(EIGHT, 111, Arrives::After(600))),
        (
            (20_244, 0, 1, M, N),
            run(EIGHT + 86_400, 111, Arrives::After(600)),
        ),
        (
            (20_248, 0, 1, M, N),
            run(EIGHT + 432_000, 111, Arrives::After(600)),
        ),
        ((20_246, 0, 1, M, N), None),
        ((20_249, 0, 1, M, N), None),
        ((20_243, 1, 0, M, N), None),
        ((20_243, 0, 0, M, N), None),
        ((20_243, 0, 1, N, M), None),
        ((20_243, 0, 1, P, N), None),
        ((20_243, 0, 1, M, Place::Stop(u32::MAX)), None),
    ];
    assert_runs(&rt, rt.alloc(), windows, TEN_MINUTES, &cases)?;
    let few = b"trip_id,stop_sequence,location_group_id,start_pickup_drop_off_window,\
        end_pickup_drop_off_window,pickup_type,drop_off_type\n\
        F1,1,G,08:00:00,08:03:00,2,1\nF1,2,G,08:00:00,10:00:00,1,2\n";
    let four = [(LEG, run(EIGHT, 4, Arrives::After(600)))];
    assert_runs(&rt, rt.alloc(), few, TEN_MINUTES, &four)?;
    let slow = b"from_id,to_id,seconds\nM,N,7200\n";
    assert_runs(
        &rt,
        rt.alloc(),
        windows,
        slow,
        &[(LEG, run(EIGHT, 1, Arrives::After(7_200)))],
    )?;
    let slower = b"from_id,to_id,seconds\nM,N,7201\n";
    assert_runs(&rt, rt.alloc(), windows, slower, &[(LEG, None)])
}

#[test]
fn a_window_past_midnight_has_its_minutes(rt: HostRuntime) -> Result<(), Fail> {
    let windows = b"trip_id,stop_sequence,location_group_id,start_pickup_drop_off_window,\
        end_pickup_drop_off_window,pickup_type,drop_off_type\n\
        F1,1,G,00:00:01,167:59:59,2,1\nF1,2,G,08:10:30,167:59:59,1,2\n";
    // From 08:00:30 on, so first at 08:01, and last at 167:49.
    let cases = [(LEG, run(EIGHT + 60, 9_589, Arrives::After(600)))];
    assert_runs(&rt, rt.alloc(), windows, TEN_MINUTES, &cases)
}

#[test]
fn a_run_from_a_window_arrives_with_the_trip(rt: HostRuntime) -> Result<(), Fail> {
    let mixed = b"trip_id,stop_sequence,location_group_id,stop_id,start_pickup_drop_off_window,\
        end_pickup_drop_off_window,arrival_time,departure_time,pickup_type,drop_off_type\n\
        F1,1,G,,08:00:00,08:30:00,,,2,1\nF1,2,,N,,,08:20:00,08:20:00,1,0\n";
    let cases = [(LEG, run(EIGHT, 11, Arrives::At(EIGHT + 1_200)))];
    assert_runs(&rt, rt.alloc(), mixed, TEN_MINUTES, &cases)?;
    let slow = b"from_id,to_id,seconds\nM,N,1201\n";
    assert_runs(&rt, rt.alloc(), mixed, slow, &[(LEG, None)])
}

#[test]
fn a_run_into_a_window_leaves_with_the_trip(rt: HostRuntime) -> Result<(), Fail> {
    let mixed = b"trip_id,stop_sequence,location_group_id,stop_id,start_pickup_drop_off_window,\
        end_pickup_drop_off_window,arrival_time,departure_time,pickup_type,drop_off_type\n\
        F1,1,,M,,,07:55:00,08:00:01,0,1\nF1,2,G,,08:10:01,08:10:01,,,1,2\n";
    let cases = [(LEG, run(EIGHT + 1, 1, Arrives::After(600)))];
    assert_runs(&rt, rt.alloc(), mixed, TEN_MINUTES, &cases)?;
    for direct in [
        b"from_id,to_id,seconds\nM,N,599\n",
        b"from_id,to_id,seconds\nM,N,601\n",
    ] {
        assert_runs(&rt, rt.alloc(), mixed, direct, &[(LEG, None)])?;
    }
    Ok(())
}
