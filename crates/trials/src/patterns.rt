// The patterns of trips, and their first rides.

use crate::loaded::read_feed;
use fixed_trips::PatternTable;
use flex_model::Ride;
use std::test::Fail;
use trial_feeds::{AGENCY, EIGHT, M, N, ROUTES, june_days};

const STOPS: (&str, &[u8]) = (
    "a/stops.txt",
    b"stop_id,stop_lat,stop_lon\nM,50,5\nN,50,6\n",
);

// On 4 June 2025.
const DATES: (&str, &[u8]) = (
    "a/calendar_dates.txt",
    b"service_id,date,exception_type\nS,20250604,1\n",
);

// T goes from M at 08:00:00 to N at 08:20:00, U from M at 08:05:00 to N at 08:15:00.
const TWO_TRIPS: (&str, &[u8]) = (
    "a/trips.txt",
    b"route_id,service_id,trip_id\nR,S,T\nR,S,U\n",
);

const TWO_TIMES: (&str, &[u8]) = (
    "a/stop_times.txt",
    b"trip_id,stop_sequence,stop_id,arrival_time,departure_time\nT,1,M,08:00:00,08:00:00\nT,2,N,08:20:00,08:20:00\nU,1,M,08:05:00,08:05:00\nU,2,N,08:15:00,08:15:00\n",
);

// V has headways, A and C agree, B lets nobody alight at N, and D is booked.
const FIVE_TRIPS: (&str, &[u8]) = (
    "a/trips.txt",
    b"route_id,service_id,trip_id\nR,S,V\nR,S,A\nR,S,B\nR,S,C\nR,S,D\n",
);

const FIVE_TIMES: (&str, &[u8]) = (
    "a/stop_times.txt",
    b"trip_id,stop_sequence,stop_id,arrival_time,departure_time,pickup_type,drop_off_type\nV,1,M,08:00:00,08:00:00,,\nV,2,N,08:20:00,08:20:00,,\nA,1,M,08:00:00,08:00:00,,\nA,2,N,08:20:00,08:20:00,,\nB,1,M,08:00:00,08:00:00,,\nB,2,N,08:20:00,08:20:00,,1\nC,1,M,09:00:00,09:00:00,,\nC,2,N,09:10:00,09:20:00,,\nD,1,M,08:00:00,08:00:00,2,\nD,2,N,08:20:00,08:20:00,,\n",
);

const HEADWAYS: (&str, &[u8]) = (
    "a/frequencies.txt",
    b"trip_id,start_time,end_time,headway_secs\nV,08:05:00,08:30:00,600\n",
);

#[test]
fn the_first_ride_of_a_pattern_arrives_first(rt: HostRuntime) -> Result<(), Fail> {
    let files = [AGENCY, STOPS, ROUTES, TWO_TRIPS, TWO_TIMES, DATES];
    let feed = read_feed(rt.alloc(), &files)?;
    let days = june_days(rt.alloc())?;
    let table = PatternTable::build(rt.alloc(), &feed)?;
    assert_eq!(rt; table.count(), 1);
    let ride = Ride {
        trip: 1,
        day: 20_243,
        start: None,
        from_row: 0,
        to_row: 1,
        board: M,
        alight: N,
        departs: EIGHT + 300,
        arrives: EIGHT + 900,
    };
    assert_eq!(rt; table.first_from(&feed, &days, 0, 0, 1, EIGHT), Some(ride));
    assert_eq!(rt; table.first_from(&feed, &days, 0, 0, 1, EIGHT + 301), None);
    Ok(())
}

#[test]
fn patterns_are_numbered_by_their_first_trips(rt: HostRuntime) -> Result<(), Fail> {
    let files = [
        AGENCY, STOPS, ROUTES, FIVE_TRIPS, FIVE_TIMES, DATES, HEADWAYS,
    ];
    let feed = read_feed(rt.alloc(), &files)?;
    let table = PatternTable::build(rt.alloc(), &feed)?;
    assert_eq!(rt; table.count(), 2);
    for (trip, pattern) in [
        (0, None),
        (1, Some(0)),
        (2, Some(1)),
        (3, Some(0)),
        (4, None),
        (5, None),
    ] {
        assert_eq!(rt; table.pattern_of(trip), pattern);
    }
    Ok(())
}
