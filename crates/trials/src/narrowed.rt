// Runs that are narrowed to the departures that count for one who books.

ghost use Rattle.std.specs.Prelude.{◌<◌, IsTrue};
ghost use Rattle.booking_rules.specs.Departures.{LeavesInRange};

use crate::bookings::has_rows;
use crate::loaded::read_feed;
use booking_rules::narrow;
use flex_model::{Arrives, Moment, Ride, Run};
use service_days::is_travel_day;
use std::test::Fail;
use trial_feeds::{
    AGENCY, CALENDAR, DAY_BEFORE, EIGHT, GROUPS, MEMBERS, RIDE, ROUTES, STOPS, june_days,
};

const TRIPS: (&str, &[u8]) = (
    "a/trips.txt",
    b"route_id,service_id,trip_id\nR,W,F0\nR,W,F1\nR,W,F2\nR,W,F3\nR,W,F4\nR,W,F5\nR,W,F6\nR,W,F7\nR,W,F8\nR,W,F9\nR,W,F10\n",
);

// One books by 17:00:00 of the day before (A), up to the departure (B), by 08:01:30 of the day (C), from one hour to half an
// hour before the departure (D), between half an hour before it and then 20 minutes before it, which is never (E), from
// 08:01:30 of the day to noon (F), up to half an hour before the departure (G), or by 17:00:00 of a day that is counted back:
// on V, which has none before 4 June (H), or on W, which doesn't run on Friday, 6 June (I).
const RULES: (&str, &[u8]) = (
    "a/booking_rules.txt",
    b"booking_rule_id,booking_type,prior_notice_duration_min,prior_notice_duration_max,prior_notice_last_day,prior_notice_last_time,prior_notice_start_day,prior_notice_start_time,prior_notice_service_id\n\
      A,2,,,1,17:00:00,,,\nB,0,,,,,,,\nC,2,,,0,08:01:30,,,\nD,1,30,60,,,,,\nE,1,30,20,,,,,\n\
      F,2,,,0,12:00:00,0,08:01:30,\nG,1,30,,,,,,\nH,2,,,1,17:00:00,,,V\nI,2,,,2,17:00:00,,,W\n",
);

const DATES: (&str, &[u8]) = (
    "a/calendar_dates.txt",
    b"service_id,date,exception_type\nW,20250606,2\nV,20250604,1\n",
);

// Both ends of F0 to F5, and of F8 to F10, are booked under one rule, of F6 the pickup without a rule, and of F7 neither.
const STOP_TIMES: (&str, &[u8]) = (
    "a/stop_times.txt",
    b"trip_id,stop_sequence,stop_id,location_group_id,arrival_time,departure_time,start_pickup_drop_off_window,end_pickup_drop_off_window,pickup_type,drop_off_type,pickup_booking_rule_id,drop_off_booking_rule_id\n\
      F0,1,,G,,,08:00:00,10:00:00,2,1,A,\nF0,2,,G,,,08:00:00,10:00:00,1,2,,A\n\
      F1,1,,G,,,08:00:00,08:03:00,2,1,B,\nF1,2,,G,,,08:00:00,10:00:00,1,2,,B\n\
      F2,1,,G,,,08:00:00,08:03:00,2,1,C,\nF2,2,,G,,,08:00:00,10:00:00,1,2,,C\n\
      F3,1,,G,,,08:00:00,08:03:00,2,1,D,\nF3,2,,G,,,08:00:00,10:00:00,1,2,,D\n\
      F4,1,,G,,,08:00:00,08:03:00,2,1,E,\nF4,2,,G,,,08:00:00,10:00:00,1,2,,E\n\
      F5,1,,G,,,08:00:00,08:03:00,2,1,F,\nF5,2,,G,,,08:00:00,10:00:00,1,2,,F\n\
      F6,1,,G,,,08:00:00,08:30:00,2,1,,\nF6,2,M,,08:20:00,08:20:00,,,,,,\n\
      F7,1,M,,08:00:00,08:00:00,,,,,,\nF7,2,N,,08:20:00,08:20:00,,,,,,\n\
      F8,1,,G,,,08:00:00,10:00:00,2,1,G,\nF8,2,,G,,,08:00:00,10:00:00,1,2,,G\n\
      F9,1,,G,,,08:00:00,10:00:00,2,1,H,\nF9,2,,G,,,08:00:00,10:00:00,1,2,,H\n\
      F10,1,,G,,,08:00:00,10:00:00,2,1,I,\nF10,2,,G,,,08:00:00,10:00:00,1,2,,I\n",
);

const FEED: [(&str, &[u8]); 10] = [
    AGENCY, STOPS, ROUTES, TRIPS, CALENDAR, DATES, STOP_TIMES, GROUPS, MEMBERS, RULES,
];

// 2025-06-03T12:00:00Z.
const NOON: Moment = DAY_BEFORE - 18_000;

// So many rides of ten minutes, the first at 08:00:00.
const fn rides(count: u32) -> Run {
    Run {
        first: EIGHT,
        count,
        arrives: Arrives::After(600),
    }
}

// So many rides that arrive at 08:20:00, the first at 08:00:00.
const fn arrivals(count: u32) -> Run {
    Run {
        first: EIGHT,
        count,
        arrives: Arrives::At(EIGHT + 1_200),
    }
}

/// Whether the run has a departure, and all of them are in the range of those of permitted rides.
pub(crate) fn is_in_range(run: &Run) -> bool
    ensures some { IsTrue result → 0 < run.now.count }
    ensures departs { IsTrue result → LeavesInRange run.now }
{
    run.count > 0 && run.first >= 0 && run.first <= 10_000_000_000 - 60 * i64::from(run.count - 1)
}

#[test]
fn a_run_is_narrowed_to_what_counts(rt: HostRuntime) -> Result<(), Fail> {
    let feed = read_feed(rt.alloc(), &FEED)?;
    let days = june_days(rt.alloc())?;
    let all = Moment::MIN;
    // The trip, the run, now and the earliest departure, and the first departure, in seconds after 08:00:00, and the
    // number of those that count.
    let cases: [(u32, Run, Moment, Moment, Option<(i64, u32)>); 25] = [
        // All have one deadline, so the first counts.
        (0, rides(111), NOON, EIGHT, Some((0, 1))),
        (0, rides(111), NOON, EIGHT + 90, Some((120, 1))),
        (0, rides(111), DAY_BEFORE, EIGHT, Some((0, 1))),
        (0, rides(111), DAY_BEFORE + 1, EIGHT, None),
        // Each has a later deadline than the one before it.
        (1, rides(4), NOON, EIGHT, Some((0, 4))),
        (1, rides(4), EIGHT + 90, EIGHT, Some((120, 2))),
        (1, rides(4), EIGHT + 180, EIGHT, Some((180, 1))),
        (1, rides(4), EIGHT + 181, EIGHT, None),
        (1, rides(4), NOON, EIGHT + 61, Some((120, 2))),
        (1, rides(4), NOON, EIGHT + 181, None),
        (1, rides(4), Moment::MIN, all, Some((0, 4))),
        (1, rides(4), Moment::MAX, all, None),
        (1, rides(4), NOON, Moment::MAX, None),
        // The deadline is 08:01:30 from the third on.
        (2, rides(4), NOON, EIGHT, Some((0, 3))),
        (2, arrivals(4), NOON, EIGHT, Some((120, 1))),
        // Each opens before it closes.
        (3, rides(4), EIGHT - 10_800, EIGHT, Some((0, 4))),
        // None does.
        (4, rides(4), EIGHT - 10_800, EIGHT, None),
        // The first two close before they open.
        (5, rides(4), NOON, EIGHT, Some((120, 2))),
        // All arrive at once, and the last has the latest deadline.
        (6, arrivals(11), NOON, EIGHT, Some((600, 1))),
        (6, arrivals(11), EIGHT + 601, EIGHT, None),
        // There is no deadline.
        (7, rides(4), NOON, EIGHT, Some((0, 1))),
        (7, arrivals(4), NOON, EIGHT + 60, Some((60, 1))),
        // The last can be booked half an hour ahead.
        (8, rides(111), EIGHT + 4_800, EIGHT, Some((6_600, 1))),
        (8, rides(111), EIGHT + 4_801, EIGHT, None),
        // There is no day so far back.
        (9, rides(111), NOON, EIGHT, None),
    ];
    for (trip, run, now, earliest, counts) in cases {
        let ride = Ride { trip, ..RIDE };
        if !has_rows(&feed, &ride) || !is_travel_day(&days, ride.day) || !is_in_range(&run) {
            return Err("no such ride or run".into());
        }
        assert_eq!(rt;
            narrow(&feed, &days, &ride, &run, now, earliest),
            counts.map(|(first, count)| Run {
                first: EIGHT.saturating_add(first),
                count,
                arrives: run.arrives,
            }),
            "of {trip} and {run:?} from {earliest} on at {now}"
        );
    }
    Ok(())
}

// Two active days before Monday, 9 June, is Wednesday, 4 June.
#[test]
fn days_are_counted_back_for_a_run(rt: HostRuntime) -> Result<(), Fail> {
    let feed = read_feed(rt.alloc(), &FEED)?;
    let days = june_days(rt.alloc())?;
    let ride = Ride {
        trip: 10,
        day: 20_248,
        ..RIDE
    };
    let first = EIGHT + 432_000;
    let run = Run {
        first,
        count: 111,
        arrives: Arrives::After(600),
    };
    if !has_rows(&feed, &ride) || !is_travel_day(&days, ride.day) || !is_in_range(&run) {
        return Err("no such ride or run".into());
    }
    for (now, count) in [(EIGHT + 32_400, Some(1)), (EIGHT + 32_401, None)] {
        assert_eq!(rt;
            narrow(&feed, &days, &ride, &run, now, first),
            count.map(|count| Run { count, ..run })
        );
    }
    Ok(())
}
