// What is judged of rides.

use crate::loaded::{read_feed, read_times};
use flex_model::{Place, Ride, RideFlaw};
use journey_judge::judge_ride;
use std::alloc::Global;
use std::process::Abort;
use std::test::Fail;
use trial_feeds::{
    AGENCY, CALENDAR, DAY_AHEAD, DIRECT, EIGHT, GROUPS, HEADWAYS, M, MEMBERS, N, O, ONE_TRIP, P,
    POINTS, RIDE, ROUTES, STOPS, UTC, june_days,
};

// Asserts what is judged of rides of the feed of these files.
fn assert_rides(
    rt: &impl Abort,
    alloc: Global,
    feed: &[(&str, &[u8])],
    times: &[(&str, &[u8])],
    cases: &[(Ride, Result<(), RideFlaw>)],
) -> Result<(), Fail> {
    let feed = read_feed(alloc, feed)?;
    let times = read_times(alloc, &feed, times)?;
    let days = june_days(alloc)?;
    for (ride, answer) in cases {
        assert_eq!(rt; judge_ride(&feed, &times, &days, ride), *answer, "{ride:?}");
    }
    Ok(())
}

// F1 goes from M at 08:00:00 to N at 08:10:00.
const AT_TIMES: (&str, &[u8]) = (
    "a/stop_times.txt",
    b"trip_id,stop_sequence,stop_id,arrival_time,departure_time\nF1,1,M,08:00:00,08:00:00\nF1,2,N,08:10:00,08:10:00\n",
);

const NO_TRIP: Result<(), RideFlaw> = Err(RideFlaw::NoTrip);

const NO_ROW: Result<(), RideFlaw> = Err(RideFlaw::NoRow);

const NO_DAY: Result<(), RideFlaw> = Err(RideFlaw::NoDay);

const FREQUENT: Result<(), RideFlaw> = Err(RideFlaw::Frequent);

const NOT_BOARDED: Result<(), RideFlaw> = Err(RideFlaw::NotBoarded);

const NOT_ALIGHTED: Result<(), RideFlaw> = Err(RideFlaw::NotAlighted);

const WRONG_DEPARTURE: Result<(), RideFlaw> = Err(RideFlaw::WrongDeparture);

const WRONG_ARRIVAL: Result<(), RideFlaw> = Err(RideFlaw::WrongArrival);

#[test]
fn a_ride_has_the_first_flaw_of_the_order(rt: HostRuntime) -> Result<(), Fail> {
    let feed = [AGENCY, STOPS, ROUTES, ONE_TRIP, CALENDAR, AT_TIMES];
    let cases = [
        (RIDE, Ok(())),
        (Ride { trip: 7, ..RIDE }, NO_TRIP),
        (
            Ride {
                trip: u32::MAX,
                day: i32::MAX,
                departs: i64::MIN,
                arrives: i64::MIN,
                ..RIDE
            },
            NO_TRIP,
        ),
        (
            Ride {
                from_row: 1,
                to_row: 0,
                ..RIDE
            },
            NO_ROW,
        ),
        (Ride { to_row: 0, ..RIDE }, NO_ROW),
        (Ride { to_row: 2, ..RIDE }, NO_ROW),
        (
            Ride {
                to_row: u32::MAX,
                ..RIDE
            },
            NO_ROW,
        ),
        (
            Ride {
                day: 20_249,
                ..RIDE
            },
            NO_DAY,
        ),
        (
            Ride {
                day: i32::MAX,
                ..RIDE
            },
            NO_DAY,
        ),
        (
            Ride {
                day: i32::MIN,
                ..RIDE
            },
            NO_DAY,
        ),
        (
            Ride {
                day: 20_246,
                ..RIDE
            },
            Err(RideFlaw::NotActive),
        ),
        (
            Ride {
                start: Some(28_800),
                ..RIDE
            },
            FREQUENT,
        ),
        (Ride { board: N, ..RIDE }, NOT_BOARDED),
        (
            Ride {
                board: Place::Stop(u32::MAX),
                ..RIDE
            },
            NOT_BOARDED,
        ),
        (Ride { alight: O, ..RIDE }, NOT_ALIGHTED),
        (
            Ride {
                alight: Place::Point(u32::MAX),
                ..RIDE
            },
            NOT_ALIGHTED,
        ),
        (
            Ride {
                day: 20_244,
                ..RIDE
            },
            WRONG_DEPARTURE,
        ),
        (
            Ride {
                departs: EIGHT + 1,
                ..RIDE
            },
            WRONG_DEPARTURE,
        ),
        (
            Ride {
                departs: i64::MIN,
                ..RIDE
            },
            WRONG_DEPARTURE,
        ),
        (
            Ride {
                departs: i64::MAX,
                ..RIDE
            },
            WRONG_DEPARTURE,
        ),
        (
            Ride {
                arrives: EIGHT + 599,
                ..RIDE
            },
            WRONG_ARRIVAL,
        ),
        (
            Ride {
                arrives: i64::MIN,
                ..RIDE
            },
            WRONG_ARRIVAL,
        ),
        (
            Ride {
                arrives: i64::MAX,
                ..RIDE
            },
            WRONG_ARRIVAL,
        ),
    ];
    assert_rides(&rt, rt.alloc(), &feed, &[UTC], &cases)
}

// One is picked up and left in the group G from 08:00:00 to 10:00:00.
const IN_WINDOWS: (&str, &[u8]) = (
    "a/stop_times.txt",
    b"trip_id,stop_sequence,location_group_id,start_pickup_drop_off_window,end_pickup_drop_off_window,pickup_type,drop_off_type,pickup_booking_rule_id,drop_off_booking_rule_id\n\
      F1,1,G,08:00:00,10:00:00,2,1,B,\nF1,2,G,08:00:00,10:00:00,1,2,,B\n",
);

#[test]
fn a_ride_between_windows_takes_the_direct_time(rt: HostRuntime) -> Result<(), Fail> {
    let feed = [
        AGENCY, STOPS, ROUTES, ONE_TRIP, CALENDAR, IN_WINDOWS, GROUPS, MEMBERS, DAY_AHEAD,
    ];
    let cases = [
        (RIDE, Ok(())),
        (
            Ride {
                departs: EIGHT + 60,
                arrives: EIGHT + 660,
                ..RIDE
            },
            Ok(()),
        ),
        (
            Ride {
                departs: EIGHT + 6_600,
                arrives: EIGHT + 7_200,
                ..RIDE
            },
            Ok(()),
        ),
        (
            Ride {
                departs: EIGHT + 7_200,
                arrives: EIGHT + 7_800,
                ..RIDE
            },
            WRONG_ARRIVAL,
        ),
        (
            Ride {
                departs: EIGHT + 1,
                ..RIDE
            },
            WRONG_DEPARTURE,
        ),
        (
            Ride {
                departs: EIGHT - 60,
                ..RIDE
            },
            WRONG_DEPARTURE,
        ),
        (
            Ride {
                departs: EIGHT + 7_260,
                ..RIDE
            },
            WRONG_DEPARTURE,
        ),
        (
            Ride {
                day: 20_248,
                ..RIDE
            },
            WRONG_DEPARTURE,
        ),
        (
            Ride {
                departs: i64::MIN,
                ..RIDE
            },
            WRONG_DEPARTURE,
        ),
        (
            Ride {
                departs: i64::MAX,
                ..RIDE
            },
            WRONG_DEPARTURE,
        ),
        (
            Ride {
                arrives: EIGHT + 601,
                ..RIDE
            },
            WRONG_ARRIVAL,
        ),
        (
            Ride {
                arrives: EIGHT + 599,
                ..RIDE
            },
            WRONG_ARRIVAL,
        ),
        (
            Ride {
                arrives: i64::MIN,
                ..RIDE
            },
            WRONG_ARRIVAL,
        ),
        (
            Ride {
                arrives: i64::MAX,
                ..RIDE
            },
            WRONG_ARRIVAL,
        ),
        (
            Ride {
                board: N,
                alight: M,
                ..RIDE
            },
            Err(RideFlaw::NoDirect),
        ),
        (Ride { board: O, ..RIDE }, NOT_BOARDED),
        (
            Ride {
                board: Place::Stop(4),
                ..RIDE
            },
            NOT_BOARDED,
        ),
        (Ride { board: P, ..RIDE }, NOT_BOARDED),
        (
            Ride {
                alight: Place::Stop(4),
                ..RIDE
            },
            NOT_ALIGHTED,
        ),
        (
            Ride {
                alight: Place::Point(1),
                ..RIDE
            },
            NOT_ALIGHTED,
        ),
    ];
    assert_rides(&rt, rt.alloc(), &feed, &[UTC, POINTS, DIRECT], &cases)
}

// One is picked up in the group G from 08:00:00 to 08:30:00, and left at N at 08:20:00.
const WINDOW_THEN_TIME: (&str, &[u8]) = (
    "a/stop_times.txt",
    b"trip_id,stop_sequence,stop_id,location_group_id,arrival_time,departure_time,start_pickup_drop_off_window,end_pickup_drop_off_window,pickup_type,drop_off_type\n\
      F1,1,,G,,,08:00:00,08:30:00,2,1\nF1,2,N,,08:20:00,08:20:00,,,1,0\n",
);

#[test]
fn a_ride_from_a_window_to_a_time_leaves_early_enough(rt: HostRuntime) -> Result<(), Fail> {
    let feed = [
        AGENCY,
        STOPS,
        ROUTES,
        ONE_TRIP,
        CALENDAR,
        WINDOW_THEN_TIME,
        GROUPS,
        MEMBERS,
    ];
    let ride = Ride {
        departs: EIGHT + 600,
        arrives: EIGHT + 1_200,
        ..RIDE
    };
    let cases = [
        (ride, Ok(())),
        (
            Ride {
                departs: EIGHT + 540,
                ..ride
            },
            Ok(()),
        ),
        (
            Ride {
                departs: EIGHT + 660,
                ..ride
            },
            WRONG_ARRIVAL,
        ),
        (
            Ride {
                arrives: EIGHT + 1_199,
                ..ride
            },
            WRONG_ARRIVAL,
        ),
        (Ride { board: N, ..ride }, Err(RideFlaw::NoDirect)),
    ];
    assert_rides(&rt, rt.alloc(), &feed, &[UTC, DIRECT], &cases)
}

// M is left at 08:00:00, and one is set down in the group G up to 09:00:00.
const TIME_THEN_WINDOW: (&str, &[u8]) = (
    "a/stop_times.txt",
    b"trip_id,stop_sequence,stop_id,location_group_id,arrival_time,departure_time,start_pickup_drop_off_window,end_pickup_drop_off_window,pickup_type,drop_off_type\n\
      F1,1,M,,08:00:00,08:00:00,,,,\nF1,2,,G,,,08:00:00,09:00:00,1,2\n",
);

const HOUR: (&str, &[u8]) = ("t/direct.txt", b"from_id,to_id,seconds\nM,N,3600\n");

const HOUR_AND_MORE: (&str, &[u8]) = ("t/direct.txt", b"from_id,to_id,seconds\nM,N,3601\n");

#[test]
fn a_ride_from_a_time_to_a_window_arrives_in_it(rt: HostRuntime) -> Result<(), Fail> {
    let feed = [
        AGENCY,
        STOPS,
        ROUTES,
        ONE_TRIP,
        CALENDAR,
        TIME_THEN_WINDOW,
        GROUPS,
        MEMBERS,
    ];
    let ride = Ride {
        arrives: EIGHT + 3_600,
        ..RIDE
    };
    let cases = [
        (ride, Ok(())),
        (
            Ride {
                departs: EIGHT + 60,
                ..ride
            },
            WRONG_DEPARTURE,
        ),
        (
            Ride {
                arrives: EIGHT + 3_540,
                ..ride
            },
            WRONG_ARRIVAL,
        ),
    ];
    assert_rides(&rt, rt.alloc(), &feed, &[UTC, HOUR], &cases)?;
    let late = [(
        Ride {
            arrives: EIGHT + 3_601,
            ..ride
        },
        WRONG_ARRIVAL,
    )];
    assert_rides(&rt, rt.alloc(), &feed, &[UTC, HOUR_AND_MORE], &late)
}

#[test]
fn a_ride_of_a_repeated_trip_has_one_of_its_starts(rt: HostRuntime) -> Result<(), Fail> {
    let feed = [
        AGENCY, STOPS, ROUTES, ONE_TRIP, CALENDAR, AT_TIMES, HEADWAYS,
    ];
    let first = Ride {
        start: Some(29_100),
        departs: EIGHT + 300,
        arrives: EIGHT + 900,
        ..RIDE
    };
    let second = Ride {
        start: Some(29_700),
        departs: EIGHT + 900,
        arrives: EIGHT + 1_500,
        ..RIDE
    };
    let cases = [
        (first, Ok(())),
        (second, Ok(())),
        (RIDE, FREQUENT),
        (
            Ride {
                start: Some(29_101),
                ..first
            },
            FREQUENT,
        ),
        (
            Ride {
                start: Some(30_600),
                ..first
            },
            FREQUENT,
        ),
        (
            Ride {
                start: Some(28_500),
                ..first
            },
            FREQUENT,
        ),
        (
            Ride {
                start: Some(u32::MAX),
                ..first
            },
            FREQUENT,
        ),
        (
            Ride {
                start: Some(29_700),
                ..first
            },
            WRONG_DEPARTURE,
        ),
        (
            Ride {
                arrives: EIGHT + 900,
                ..second
            },
            WRONG_ARRIVAL,
        ),
    ];
    assert_rides(&rt, rt.alloc(), &feed, &[UTC], &cases)
}

// Once, at 07:00:00.
const EARLIER: (&str, &[u8]) = (
    "a/frequencies.txt",
    b"trip_id,start_time,end_time,headway_secs\nF1,07:00:00,07:10:00,600\n",
);

#[test]
fn a_start_may_be_earlier_than_the_records(rt: HostRuntime) -> Result<(), Fail> {
    let feed = [AGENCY, STOPS, ROUTES, ONE_TRIP, CALENDAR, AT_TIMES, EARLIER];
    let ride = Ride {
        start: Some(25_200),
        departs: EIGHT - 3_600,
        arrives: EIGHT - 3_000,
        ..RIDE
    };
    assert_rides(&rt, rt.alloc(), &feed, &[UTC], &[(ride, Ok(()))])
}

// The third record of F1 has a window.
const TIMES_AND_A_WINDOW: (&str, &[u8]) = (
    "a/stop_times.txt",
    b"trip_id,stop_sequence,stop_id,location_group_id,arrival_time,departure_time,start_pickup_drop_off_window,end_pickup_drop_off_window,pickup_type,drop_off_type\n\
      F1,1,M,,08:00:00,08:00:00,,,,\nF1,2,N,,08:10:00,08:10:00,,,,\nF1,3,,G,,,09:00:00,10:00:00,1,2\n",
);

#[test]
fn a_repeated_trip_with_a_window_has_no_rides(rt: HostRuntime) -> Result<(), Fail> {
    let feed = [
        AGENCY,
        STOPS,
        ROUTES,
        ONE_TRIP,
        CALENDAR,
        TIMES_AND_A_WINDOW,
        GROUPS,
        MEMBERS,
        HEADWAYS,
    ];
    let ride = Ride {
        start: Some(29_100),
        departs: EIGHT + 300,
        arrives: EIGHT + 900,
        ..RIDE
    };
    assert_rides(
        &rt,
        rt.alloc(),
        &feed,
        &[UTC],
        &[(ride, FREQUENT), (RIDE, FREQUENT)],
    )
}
