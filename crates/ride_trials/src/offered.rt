// Departures, rides from a stop and offers from a place.

use crate::loaded::{read_feed, read_times};
use flex_model::{Deadline, Moment, Place};
use ride_index::{
    ActiveDays, Boarded, Carried, OfferedRun, RideIndex, Wanted, add_timed_rides, offers_from,
};
use std::alloc::Global;
use std::process::Abort;
use std::test::Fail;
use trial_feeds::{
    AGENCY, BY_TEN, CALENDAR, DAY_AHEAD, DAY_BEFORE, EIGHT, GROUPS, HEADWAYS, INSIDE, M, MEMBERS,
    N, O, ONE_TRIP, OUTSIDE, P, ROUTES, STOPS, UTC, ZONE, june_days,
};

// F1 goes from M at 08:00:00 to N at 08:20:00.
const AT_TIMES: (&str, &[u8]) = (
    "a/stop_times.txt",
    b"trip_id,stop_sequence,stop_id,arrival_time,departure_time\nF1,1,M,08:00:00,08:00:00\nF1,2,N,08:20:00,08:20:00\n",
);

const ONCE: [(&str, &[u8]); 6] = [AGENCY, STOPS, ROUTES, ONE_TRIP, CALENDAR, AT_TIMES];

const REPEATED: [(&str, &[u8]); 7] = [
    AGENCY, STOPS, ROUTES, ONE_TRIP, CALENDAR, AT_TIMES, HEADWAYS,
];

#[test]
fn departures_of_a_stop_are_those_between_two_times(rt: HostRuntime) -> Result<(), Fail> {
    let feed = read_feed(rt.alloc(), &ONCE)?;
    let index = RideIndex::build(rt.alloc(), &feed)?;
    for (stop, from, until, found) in [
        (0, 28_800, 28_801, 1),
        (0, 0, 604_800, 1),
        (0, 28_801, 604_800, 0),
        (0, 0, 28_800, 0),
        (0, 28_801, 28_800, 0),
        (1, 0, 604_800, 1),
        (2, 0, 604_800, 0),
        (u32::MAX, 0, u32::MAX, 0),
    ] {
        assert_eq!(rt; index.once.between(stop, from, until).len(), found);
        assert!(rt; index.at_starts.between(stop, from, until).is_empty());
    }
    Ok(())
}

// What is carried to a first boarding.
const AT_FIRST: Carried = Carried {
    deadline: Deadline::Never,
    walk: 0,
};

// How many rides leave M from the moment on and arrive by the other, and when the first of them does.
fn rides_from_m(
    alloc: Global,
    files: &[(&str, &[u8])],
    earliest: Moment,
    limit: Moment,
) -> Result<(usize, Option<Moment>), Fail> {
    let feed = read_feed(alloc, files)?;
    let days = june_days(alloc)?;
    let index = RideIndex::build(alloc, &feed)?;
    let active = ActiveDays::build(alloc, &feed, &days)?;
    let mut rides = Vec::new(alloc);
    let mut boarded = Boarded::new(alloc, 16)?;
    add_timed_rides(
        &index,
        &feed,
        &days,
        &active,
        0,
        earliest,
        limit,
        &AT_FIRST,
        &mut boarded,
        &mut rides,
    )?;
    Ok((rides.len(), rides.first().map(|ride| ride.arrives)))
}

#[test]
fn rides_of_a_stop_leave_and_arrive_in_time(rt: HostRuntime) -> Result<(), Fail> {
    let end = EIGHT + 1_200;
    for (earliest, limit, found) in [
        (EIGHT, end, (1, Some(end))),
        (EIGHT, end - 1, (0, None)),
        (EIGHT + 1, end, (0, None)),
        (EIGHT, end + 86_400, (2, Some(end))),
        (i64::MIN, i64::MAX, (16, Some(end - 16 * 86_400))),
        (i64::MAX, i64::MIN, (0, None)),
    ] {
        assert_eq!(rt; rides_from_m(rt.alloc(), &ONCE, earliest, limit)?, found);
    }
    Ok(())
}

#[test]
fn rides_of_a_repeated_trip_leave_at_its_starts(rt: HostRuntime) -> Result<(), Fail> {
    let noon = EIGHT + 14_400;
    for (earliest, limit, found) in [
        (EIGHT, noon, (3, Some(EIGHT + 1_500))),
        (EIGHT + 301, noon, (2, Some(EIGHT + 2_100))),
        (EIGHT + 901, noon, (1, Some(EIGHT + 2_700))),
        (EIGHT + 1_501, noon, (0, None)),
        (EIGHT, EIGHT + 1_499, (0, None)),
    ] {
        assert_eq!(rt;
            rides_from_m(rt.alloc(), &REPEATED, earliest, limit)?,
            found
        );
    }
    Ok(())
}

// Until when the ride of the run with this number can be booked, counted from 0.
fn closes(run: &OfferedRun, number: u32) -> Deadline {
    let Deadline::At(first) = run.closes else {
        return run.latest;
    };
    let closes = Deadline::At(first.saturating_add(60 * i64::from(number)));
    if closes < run.latest {
        closes
    } else {
        run.latest
    }
}

// When one arrives at the place with the run, if one books at the last moment.
fn arrival(run: &OfferedRun, alight: Place, booked: Deadline) -> Option<Moment> {
    if run.ride.alight != alight {
        return None;
    }
    for number in 0..run.count {
        if booked <= closes(run, number) {
            let after = 60 * i64::from(number);
            return Some(run.ride.arrives.saturating_add(after));
        }
    }
    None
}

// The earlier of two arrivals, where there is one.
fn earlier(first: Option<Moment>, second: Option<Moment>) -> Option<Moment> {
    match (first, second) {
        (Some(first), Some(second)) => Some(first.min(second)),
        (Some(first), None) => Some(first),
        (None, second) => second,
    }
}

// The same with the run of them that arrives first.
fn first_arrival(runs: &[OfferedRun], alight: Place, booked: Deadline) -> Option<Moment> {
    let mut first = None;
    for run in runs {
        first = earlier(first, arrival(run, alight, booked));
    }
    first
}

// So many seconds after 08:00:00.
fn at(seconds: i64) -> Deadline {
    Deadline::At(EIGHT.saturating_add(seconds))
}

// From where to where, when one asks, from when on one leaves and by when one arrives, the moment up to which one may book, and
// when one arrives first.
type Case = (
    (Place, Place),
    Moment,
    (Moment, Moment),
    Deadline,
    Option<Moment>,
);

// Asserts when one arrives first with the rides that are offered for queries to the destination.
fn assert_offers(
    rt: &impl Abort,
    alloc: Global,
    feed: &[(&str, &[u8])],
    times: &[(&str, &[u8])],
    destination: Place,
    cases: &[Case],
) -> Result<(), Fail> {
    let feed = read_feed(alloc, feed)?;
    let times = read_times(alloc, &feed, times)?;
    let days = june_days(alloc)?;
    let index = RideIndex::build(alloc, &feed)?;
    let active = ActiveDays::build(alloc, &feed, &days)?;
    let mut runs: Vec<OfferedRun> = Vec::new(alloc);
    for ((place, alight), asked, (earliest, limit), booked, arrives) in cases {
        let wanted = Wanted {
            feed: &feed,
            times: &times,
            days: &days,
            active: &active,
            asked: *asked,
            destination,
            place: *place,
            earliest: *earliest,
            limit: *limit,
        };
        offers_from(alloc, &index, &wanted, &mut runs)?;
        assert_eq!(rt; first_arrival(runs.as_slice(), *alight, *booked), *arrives);
    }
    Ok(())
}

// From 08:00:00 to noon.
const MORNING: (Moment, Moment) = (EIGHT, EIGHT + 14_400);

// 2025-06-03T12:00:00Z.
const ASKED: Moment = EIGHT - 72_000;

const NEVER: Deadline = Deadline::Never;

// X goes from M at 25:10:00 to N at 25:30:00.
const BY_NIGHT: [(&str, &[u8]); 6] = [
    AGENCY,
    STOPS,
    ROUTES,
    (
        "a/trips.txt",
        b"route_id,service_id,trip_id\nR,W,F1\nR,W,X\n",
    ),
    CALENDAR,
    (
        "a/stop_times.txt",
        b"trip_id,stop_sequence,stop_id,arrival_time,departure_time\nF1,1,M,08:00:00,08:00:00\nF1,2,N,08:20:00,08:20:00\nX,1,M,25:10:00,25:10:00\nX,2,N,25:30:00,25:30:00\n",
    ),
];

#[test]
fn rides_at_times_are_offered(rt: HostRuntime) -> Result<(), Fail> {
    let end = EIGHT + 1_200;
    let night = EIGHT + 61_200;
    let once = [
        ((M, N), ASKED, MORNING, NEVER, Some(end)),
        ((M, N), i64::MAX, MORNING, NEVER, Some(end)),
        ((M, N), ASKED, (EIGHT, end), NEVER, Some(end)),
        ((M, N), ASKED, (EIGHT, end - 1), NEVER, None),
        ((M, N), ASKED, (EIGHT + 1, end), NEVER, None),
        (
            (M, N),
            ASKED,
            (EIGHT - 86_400, end),
            NEVER,
            Some(end - 86_400),
        ),
        ((M, M), ASKED, MORNING, NEVER, None),
        ((N, M), ASKED, MORNING, NEVER, None),
        ((O, N), ASKED, MORNING, NEVER, None),
        ((P, N), ASKED, MORNING, NEVER, None),
        // Trips of the service day before.
        (
            (M, N),
            ASKED,
            (ASKED, end),
            NEVER,
            Some(night + 1_800 - 86_400),
        ),
        (
            (M, N),
            ASKED,
            (night, night + 1_800),
            NEVER,
            Some(night + 1_800),
        ),
        ((M, N), ASKED, (night, night + 1_799), NEVER, None),
    ];
    assert_offers(&rt, rt.alloc(), &BY_NIGHT, &[UTC], N, &once)?;
    let repeated = [
        ((M, N), ASKED, MORNING, NEVER, Some(EIGHT + 1_500)),
        (
            (M, N),
            ASKED,
            (EIGHT + 901, EIGHT + 2_700),
            NEVER,
            Some(EIGHT + 2_700),
        ),
        ((M, N), ASKED, (EIGHT + 901, EIGHT + 2_699), NEVER, None),
        ((M, N), ASKED, (EIGHT + 1_501, MORNING.1), NEVER, None),
    ];
    assert_offers(&rt, rt.alloc(), &REPEATED, &[UTC], N, &repeated)
}

// One is picked up in the group of M and N from 08:00:00 to 08:03:00, up to the departure.
const IN_GROUP: [(&str, &[u8]); 8] = [
    AGENCY,
    STOPS,
    ROUTES,
    ONE_TRIP,
    CALENDAR,
    GROUPS,
    MEMBERS,
    (
        "a/stop_times.txt",
        b"trip_id,stop_sequence,location_group_id,start_pickup_drop_off_window,end_pickup_drop_off_window,pickup_type,drop_off_type\n\
          F1,1,G,08:00:00,08:03:00,2,1\nF1,2,G,08:00:00,10:00:00,1,2\n",
    ),
];

#[test]
fn rides_in_a_group_are_offered(rt: HostRuntime) -> Result<(), Fail> {
    let seconds = (
        "t/direct.txt",
        b"from_id,to_id,seconds\nM,N,600\nN,M,300\nM,O,60\n" as &[u8],
    );
    let cases = [
        ((M, N), ASKED, MORNING, at(0), Some(EIGHT + 600)),
        ((M, N), ASKED, MORNING, at(1), Some(EIGHT + 660)),
        ((M, N), ASKED, MORNING, at(180), Some(EIGHT + 780)),
        ((M, N), ASKED, MORNING, at(181), None),
        ((M, N), ASKED, MORNING, NEVER, None),
        ((M, N), EIGHT + 90, MORNING, at(0), Some(EIGHT + 720)),
        ((M, N), EIGHT + 180, MORNING, at(0), Some(EIGHT + 780)),
        ((M, N), EIGHT + 181, MORNING, at(0), None),
        (
            (M, N),
            ASKED,
            (EIGHT + 61, MORNING.1),
            at(0),
            Some(EIGHT + 720),
        ),
        (
            (M, N),
            ASKED,
            (EIGHT + 61, EIGHT + 720),
            at(0),
            Some(EIGHT + 720),
        ),
        ((M, N), ASKED, (EIGHT + 61, EIGHT + 719), at(0), None),
        ((N, M), ASKED, MORNING, at(0), Some(EIGHT + 300)),
        ((M, O), ASKED, MORNING, at(0), None),
    ];
    assert_offers(&rt, rt.alloc(), &IN_GROUP, &[UTC, seconds], N, &cases)
}

// F1 in the zone Z.
const IN_ZONE: [(&str, &[u8]); 8] = [
    AGENCY, STOPS, ROUTES, ONE_TRIP, CALENDAR, DAY_AHEAD, ZONE, BY_TEN,
];

#[test]
fn rides_in_a_zone_are_offered(rt: HostRuntime) -> Result<(), Fail> {
    let seconds = (
        "t/direct.txt",
        b"from_id,to_id,seconds\nP,M,600\nM,P,300\n" as &[u8],
    );
    let closes = Deadline::At(DAY_BEFORE);
    let inside = [UTC, seconds, ("t/points.txt", INSIDE)];
    let from_point = [
        ((P, M), ASKED, MORNING, closes, Some(EIGHT + 600)),
        ((P, M), DAY_BEFORE, MORNING, closes, Some(EIGHT + 600)),
        ((P, M), DAY_BEFORE + 1, MORNING, closes, None),
        ((P, M), ASKED, MORNING, Deadline::At(DAY_BEFORE + 1), None),
        (
            (P, M),
            ASKED,
            (EIGHT + 61, MORNING.1),
            closes,
            Some(EIGHT + 720),
        ),
        ((P, M), ASKED, (EIGHT, EIGHT + 599), closes, None),
        // A point may be left to the destination alone.
        ((M, P), ASKED, MORNING, closes, None),
    ];
    assert_offers(&rt, rt.alloc(), &IN_ZONE, &inside, M, &from_point)?;
    let to_point = [((M, P), ASKED, MORNING, closes, Some(EIGHT + 300))];
    assert_offers(&rt, rt.alloc(), &IN_ZONE, &inside, P, &to_point)?;
    let outside = [UTC, seconds, ("t/points.txt", OUTSIDE)];
    let from_outside = [((P, M), ASKED, MORNING, closes, None)];
    assert_offers(&rt, rt.alloc(), &IN_ZONE, &outside, M, &from_outside)
}

// F1 is left in Z by 10:00:00 after M at 08:00:00, and F2 picks up in Z from 08:00:00 to 08:30:00, and is at M at 08:20:00.
const MIXED: [(&str, &[u8]); 7] = [
    AGENCY,
    STOPS,
    ROUTES,
    (
        "a/trips.txt",
        b"route_id,service_id,trip_id\nR,W,F1\nR,W,F2\n",
    ),
    CALENDAR,
    ZONE,
    (
        "a/stop_times.txt",
        b"trip_id,stop_sequence,location_id,stop_id,arrival_time,departure_time,start_pickup_drop_off_window,end_pickup_drop_off_window,pickup_type,drop_off_type\n\
          F1,1,,M,08:00:00,08:00:00,,,,\nF1,2,Z,,,,08:00:00,10:00:00,1,2\n\
          F2,1,Z,,,,08:00:00,08:30:00,2,1\nF2,2,,M,08:20:00,08:20:00,,,,\n",
    ),
];

#[test]
fn rides_from_or_to_a_window_are_offered(rt: HostRuntime) -> Result<(), Fail> {
    let seconds = (
        "t/direct.txt",
        b"from_id,to_id,seconds\nM,N,600\nP,M,600\n" as &[u8],
    );
    let cases = [
        ((P, M), ASKED, MORNING, at(0), Some(EIGHT + 1_200)),
        ((P, M), ASKED, MORNING, at(600), Some(EIGHT + 1_200)),
        ((P, M), ASKED, MORNING, at(601), None),
        ((P, M), ASKED, (EIGHT, EIGHT + 1_199), at(0), None),
        ((P, M), ASKED, (EIGHT + 601, MORNING.1), at(0), None),
        ((M, N), ASKED, MORNING, at(0), Some(EIGHT + 600)),
        ((M, N), ASKED, (EIGHT, EIGHT + 599), at(0), None),
        ((M, N), ASKED, (EIGHT + 1, MORNING.1), at(0), None),
    ];
    let times = [UTC, seconds, ("t/points.txt", INSIDE)];
    assert_offers(&rt, rt.alloc(), &MIXED, &times, N, &cases)
}
