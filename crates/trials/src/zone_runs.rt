// Runs from points to the stop M in a zone, and what counts of them for one who books.

use crate::bookings::has_rows;
use crate::loaded::{read_feed, read_times};
use crate::narrowed::is_in_range;
use crate::window_runs::has_window_row;
use booking_rules::narrow;
use flex_model::{Arrives, Moment, Place, Ride, Run};
use flex_trips::flex_run;
use service_days::is_travel_day;
use std::test::Fail;
use trial_feeds::{
    AGENCY, CALENDAR, DAY_BEFORE, EIGHT, M, P, RIDE, ROUTES, STOPS, UTC, ZONE, june_days,
};

const TRIPS: (&str, &[u8]) = (
    "a/trips.txt",
    b"route_id,service_id,trip_id\nR,W,F0\nR,W,F1\nR,W,F2\nR,W,F3\nR,W,F4\nR,W,F5\nR,W,F6\nR,W,F7\nR,W,F8\nR,W,F9\n",
);

// One books by 17:00:00 of the day before (A), up to the departure (B), up to half an hour before it (C), by 17:00:00 two days
// of W before (D), from one hour to half an hour before the departure (E), between half an hour before it and then 20 minutes
// before it, which is never (F), by noon of the day (G), or by 17:00:00 of the day before on V, which has none before 4 June
// (H).
const RULES: (&str, &[u8]) = (
    "a/booking_rules.txt",
    b"booking_rule_id,booking_type,prior_notice_duration_min,prior_notice_duration_max,prior_notice_last_day,prior_notice_last_time,prior_notice_service_id\n\
      A,2,,,1,17:00:00,\nB,0,,,,,\nC,1,30,,,,\nD,2,,,2,17:00:00,W\nE,1,30,60,,,\nF,1,30,20,,,\nG,2,,,0,12:00:00,\nH,2,,,1,17:00:00,V\n",
);

const DATES: (&str, &[u8]) = (
    "a/calendar_dates.txt",
    b"service_id,date,exception_type\nW,20250606,2\nV,20250604,1\n",
);

// Trips in Z, where F9 ends at M, and is booked without a rule.
const STOP_TIMES: (&str, &[u8]) = (
    "a/stop_times.txt",
    b"trip_id,stop_sequence,location_id,stop_id,arrival_time,departure_time,start_pickup_drop_off_window,end_pickup_drop_off_window,pickup_type,drop_off_type,pickup_booking_rule_id,drop_off_booking_rule_id\n\
      F0,1,Z,,,,08:00:00,10:00:00,2,1,A,\nF0,2,Z,,,,08:00:00,10:00:00,1,2,,A\n\
      F1,1,Z,,,,08:00:00,08:03:00,2,1,B,\nF1,2,Z,,,,08:00:00,10:00:00,1,2,,B\n\
      F2,1,Z,,,,08:00:00,10:00:00,2,1,C,\nF2,2,Z,,,,08:00:00,10:00:00,1,2,,C\n\
      F3,1,Z,,,,08:00:00,10:00:00,2,1,D,\nF3,2,Z,,,,08:00:00,10:00:00,1,2,,D\n\
      F4,1,Z,,,,08:00:00,08:03:00,2,1,E,\nF4,2,Z,,,,08:00:00,10:00:00,1,2,,E\n\
      F5,1,Z,,,,08:00:00,08:03:00,2,1,F,\nF5,2,Z,,,,08:00:00,10:00:00,1,2,,F\n\
      F6,1,Z,,,,08:00:00,08:03:00,2,1,G,\nF6,2,Z,,,,08:00:00,10:00:00,1,2,,G\n\
      F7,1,Z,,,,08:00:00,10:00:00,2,1,A,\nF7,2,Z,,,,08:00:00,08:10:00,1,2,,A\n\
      F8,1,Z,,,,08:00:00,10:00:00,2,1,H,\nF8,2,Z,,,,08:00:00,10:00:00,1,2,,H\n\
      F9,1,Z,,,,08:00:00,08:30:00,2,1,,\nF9,2,,M,08:20:00,08:20:00,,,,,,\n",
);

const FEED: [(&str, &[u8]); 9] = [
    AGENCY, STOPS, ROUTES, TRIPS, CALENDAR, DATES, STOP_TIMES, RULES, ZONE,
];

// All points but the last one lie in Z.
const POINTS: (&str, &[u8]) = (
    "t/points.txt",
    b"point_id,point_lat,point_lon\nP,50,5\nP1,50,5\nP2,50,5\nP3,50,5\nP4,50,6\n",
);

const DIRECT: (&str, &[u8]) = (
    "t/direct.txt",
    b"from_id,to_id,seconds\nP,M,600\nP1,M,601\nP2,M,7200\nP3,M,7201\nP4,M,600\n",
);

const TIMES: [(&str, &[u8]); 3] = [UTC, POINTS, DIRECT];

// 2025-06-03T12:00:00Z.
const NOON: Moment = DAY_BEFORE - 18_000;

// A day of 86,400 seconds.
const DAY: Moment = 86_400;

// So many rides that leave from 08:00:00 on.
const fn rides(count: u32, arrives: Arrives) -> Option<Run> {
    Some(Run {
        first: EIGHT,
        count,
        arrives,
    })
}

#[test]
fn runs_from_a_point_have_its_direct_time(rt: HostRuntime) -> Result<(), Fail> {
    let feed = read_feed(rt.alloc(), &FEED)?;
    let times = read_times(rt.alloc(), &feed, &TIMES)?;
    let days = june_days(rt.alloc())?;
    // The trip and the point, and the run to M on 4 June.
    for (trip, point, run) in [
        (0, 0, rides(111, Arrives::After(600))),
        (0, 1, rides(110, Arrives::After(601))),
        (0, 2, rides(1, Arrives::After(7_200))),
        (0, 3, None),
        (0, 4, None),
        (0, u32::MAX, None),
        (1, 0, rides(4, Arrives::After(600))),
        (7, 0, rides(1, Arrives::After(600))),
        (7, 1, None),
        (9, 0, rides(11, Arrives::At(EIGHT + 1_200))),
    ] {
        if !has_window_row(&feed, trip, 0, 1) {
            return Err("no window".into());
        }
        assert_eq!(rt;
            flex_run(
                &feed,
                &times,
                &days,
                trip,
                20_243,
                0,
                1,
                Place::Point(point),
                M
            ),
            run,
            "of {trip} from {point}"
        );
    }
    Ok(())
}

#[test]
fn runs_from_a_point_are_narrowed_to_what_counts(rt: HostRuntime) -> Result<(), Fail> {
    let feed = read_feed(rt.alloc(), &FEED)?;
    let times = read_times(rt.alloc(), &feed, &TIMES)?;
    let days = june_days(rt.alloc())?;
    // The trip, the day and now, and the first departure, in seconds after 08:00:00 of the day, and the number of those that
    // count.
    let cases: [(u32, i32, Moment, Option<(i64, u32)>); 15] = [
        (0, 20_243, NOON, Some((0, 1))),
        (0, 20_243, DAY_BEFORE, Some((0, 1))),
        (0, 20_243, DAY_BEFORE + 1, None),
        (1, 20_243, NOON, Some((0, 4))),
        (2, 20_243, EIGHT + 4_800, Some((6_600, 1))),
        (2, 20_243, EIGHT + 4_801, None),
        (3, 20_248, NOON - DAY, Some((0, 1))),
        (3, 20_248, DAY_BEFORE + DAY, Some((0, 1))),
        (3, 20_248, DAY_BEFORE + DAY + 1, None),
        (4, 20_243, EIGHT - 10_800, Some((0, 4))),
        (5, 20_243, EIGHT - 10_800, None),
        (6, 20_243, NOON, Some((0, 4))),
        (7, 20_243, NOON, Some((0, 1))),
        (8, 20_243, NOON, None),
        (9, 20_243, NOON, Some((600, 1))),
    ];
    for (trip, day, now, counts) in cases {
        let leg = Ride {
            trip,
            day,
            board: P,
            alight: M,
            ..RIDE
        };
        if !has_window_row(&feed, trip, 0, 1) || !has_rows(&feed, &leg) {
            return Err("no such trip".into());
        }
        let run = flex_run(&feed, &times, &days, trip, day, 0, 1, P, M).ok_or("no run")?;
        if !is_travel_day(&days, day) || !is_in_range(&run) {
            return Err("no such day".into());
        }
        assert_eq!(rt;
            narrow(&feed, &days, &leg, &run, now, run.first),
            counts.map(|(first, count)| Run {
                first: run.first.saturating_add(first),
                count,
                ..run
            }),
            "of {trip} at {now}"
        );
    }
    Ok(())
}
