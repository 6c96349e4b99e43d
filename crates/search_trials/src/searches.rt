// The best journeys that a search finds, each with its rides.

ghost use Rattle.std.specs.Prelude.{◌<◌};
ghost use Rattle.flex_model.specs.SoundFeed.{IsSoundFeed};
ghost use Rattle.flex_model.specs.SoundQuery.{IsSoundQuery};
ghost use Rattle.flex_model.specs.SoundTimes.{AreSoundTimes};

use crate::loaded::{files_of, queries_of};
use bumpalo::Bump;
use feed_load::{Loaded, load};
use flex_io::MemFiles;
use flex_model::{Deadline, Feed, Moment, Place, Query, Ride, Times, Triple};
use journey_rebuild::rebuild;
use place_times::{LoadedTimes, load_times};
use round_engine::search;
use service_days::{ZoneValue, day_table};
use std::alloc::Global;
use std::process::Abort;
use std::test::Fail;
use trial_feeds::{
    AGENCY, BY_TEN, BY_TEN_PAST_EIGHT, CALENDAR, DAY_AHEAD, DAY_BEFORE, EIGHT, INSIDE, M, N,
    ONE_TRIP, P, RIDE, ROUTES, STOPS, TEN_MINUTES, TO_M, UTC, X1, X2, ZONE, arrival, changing,
};

// A feed whose trip F1 takes one in Z from the point P to M.
pub(crate) const FILES: [(&str, &[u8]); 11] = [
    AGENCY,
    STOPS,
    ROUTES,
    ONE_TRIP,
    CALENDAR,
    DAY_AHEAD,
    ZONE,
    BY_TEN,
    UTC,
    ("t/points.txt", INSIDE),
    ("t/direct.txt", TEN_MINUTES),
];

// A best triple, with the last rides of a journey that has it.
type Best<'s> = (Triple, &'s [Ride]);

// Asserts the best triples of the query, in order, with their last rides.
fn assert_best(
    rt: &impl Abort,
    alloc: Global,
    feed: &Feed,
    times: &Times,
    zone: &ZoneValue,
    query: &Query,
    best: &[Best<'_>],
) -> Result<(), Fail>
    requires feed { IsSoundFeed feed.now }
    requires times { AreSoundTimes feed.now times.now }
    requires query { IsSoundQuery feed.now times.now query.now }
{
    let days = day_table(alloc, zone, query.depart)?;
    let bump = Bump::new(alloc);
    let table = search(alloc, &bump, feed, times, &days, query)?;
    let finals = table.finals();
    assert_eq!(rt; finals.len(), best.len());
    for (found, (triple, rides)) in finals.iter().zip(best) {
        assert_eq!(rt; found.triple, *triple);
        let ridden = rebuild(alloc, found.label)?;
        assert_eq!(rt; ridden.len(), usize::from(triple.transfers) + 1);
        assert!(rt; ridden.as_slice().ends_with(rides), "{triple:?}");
    }
    Ok(())
}

// Asserts the same of the query of a record, over the folders of these files.
fn assert_answer(
    rt: &impl Abort,
    alloc: Global,
    files: &mut MemFiles,
    record: &str,
    best: &[Best<'_>],
) -> Result<(), Fail> {
    let Loaded::Clean(feed) = load(alloc, files, "a")? else {
        return Err("the feed has faults".into());
    };
    let LoadedTimes::Clean(times, zone) = load_times(alloc, files, "t", &feed)? else {
        return Err("the times have faults".into());
    };
    let queries = queries_of(alloc, &feed, &times, record)?;
    for query in &queries {
        assert_best(rt, alloc, &feed, &times, &zone, query, best)?;
    }
    assert_eq!(rt; queries.len(), 1);
    Ok(())
}

// The same over the sample, with other files in place of its own.
fn assert_search(
    rt: &impl Abort,
    alloc: Global,
    others: &[(&str, &[u8])],
    record: &str,
    best: &[Best<'_>],
) -> Result<(), Fail> {
    let mut files = files_of(alloc, &FILES)?;
    for (path, bytes) in others {
        files.add(path, bytes)?;
    }
    assert_answer(rt, alloc, &mut files, record, best)
}

// The ride that is so many seconds later.
fn later(ride: Ride, seconds: i64) -> Ride {
    Ride {
        departs: ride.departs.saturating_add(seconds),
        arrives: ride.arrives.saturating_add(seconds),
        ..ride
    }
}

const fn at(deadline: Moment, arrives: Moment) -> Triple {
    arrival(Deadline::At(deadline), arrives)
}

// What is asked at noon of the day before for 4 June 2025.
const Q1: &str = "P,M,q1,2025-06-04T07:30:00Z,2025-06-03T12:00:00Z,0,240\n";

#[test]
fn a_ride_in_a_zone_is_found_until_its_deadline(rt: HostRuntime) -> Result<(), Fail> {
    let alloc = rt.alloc();
    let found: [Best<'_>; 1] = [(at(DAY_BEFORE, EIGHT + 600), &[TO_M])];
    assert_search(&rt, alloc, &[], Q1, &found)?;
    let just = "P,M,q1,2025-06-04T07:30:00Z,2025-06-03T17:00:00Z,0,240\n";
    assert_search(&rt, alloc, &[], just, &found)?;
    let late = "P,M,q1,2025-06-04T07:30:00Z,2025-06-03T17:00:01Z,0,240\n";
    assert_search(&rt, alloc, &[], late, &[])?;
    let no_direct = "M,N,q1,2025-06-04T07:30:00Z,2025-06-03T12:00:00Z,0,240\n";
    assert_search(&rt, alloc, &[], no_direct, &[])?;
    let by_then = [BY_TEN_PAST_EIGHT];
    assert_search(&rt, alloc, &by_then, Q1, &found)?;
    let slower = [
        BY_TEN_PAST_EIGHT,
        ("t/direct.txt", b"from_id,to_id,seconds\nP,M,601\n"),
    ];
    assert_search(&rt, alloc, &slower, Q1, &[])
}

// The same as BY_TEN, but one is picked up by 08:03:00.
const THREE_MINUTES: (&str, &[u8]) = (
    "a/stop_times.txt",
    b"trip_id,stop_sequence,location_id,start_pickup_drop_off_window,end_pickup_drop_off_window,pickup_type,drop_off_type,pickup_booking_rule_id,drop_off_booking_rule_id\n\
      F1,1,Z,08:00:00,08:03:00,2,1,B,\nF1,2,Z,08:00:00,10:00:00,1,2,,B\n",
);

// Booked up to the departure.
const REAL_TIME: (&str, &[u8]) = (
    "a/booking_rules.txt",
    b"booking_rule_id,booking_type,prior_notice_last_day,prior_notice_last_time\nB,0,,\n",
);

// Booked by noon of the day.
const BY_NOON: (&str, &[u8]) = (
    "a/booking_rules.txt",
    b"booking_rule_id,booking_type,prior_notice_last_day,prior_notice_last_time\nB,2,0,12:00:00\n",
);

// Booked from one hour to half an hour before the departure.
const HALF_AN_HOUR_LONG: (&str, &[u8]) = (
    "a/booking_rules.txt",
    b"booking_rule_id,booking_type,prior_notice_duration_min,prior_notice_duration_max\nB,1,30,60\n",
);

// Closes before it opens.
const AT_NO_TIME: (&str, &[u8]) = (
    "a/booking_rules.txt",
    b"booking_rule_id,booking_type,prior_notice_duration_min,prior_notice_duration_max\nB,1,30,20\n",
);

#[test]
fn each_minute_is_found_while_deadlines_rise(rt: HostRuntime) -> Result<(), Fail> {
    let alloc = rt.alloc();
    let minutes: [Best<'_>; 4] = [
        (at(EIGHT, EIGHT + 600), &[TO_M]),
        (at(EIGHT + 60, EIGHT + 660), &[later(TO_M, 60)]),
        (at(EIGHT + 120, EIGHT + 720), &[later(TO_M, 120)]),
        (at(EIGHT + 180, EIGHT + 780), &[later(TO_M, 180)]),
    ];
    for rule in [REAL_TIME, BY_NOON] {
        assert_search(&rt, alloc, &[THREE_MINUTES, rule], Q1, &minutes)?;
    }
    let early = "P,M,q1,2025-06-04T07:30:00Z,2025-06-04T05:00:00Z,0,240\n";
    let ahead: [Best<'_>; 4] = [
        (at(EIGHT - 1_800, EIGHT + 600), &[TO_M]),
        (at(EIGHT - 1_740, EIGHT + 660), &[later(TO_M, 60)]),
        (at(EIGHT - 1_680, EIGHT + 720), &[later(TO_M, 120)]),
        (at(EIGHT - 1_620, EIGHT + 780), &[later(TO_M, 180)]),
    ];
    let opening = [THREE_MINUTES, HALF_AN_HOUR_LONG];
    assert_search(&rt, alloc, &opening, early, &ahead)?;
    assert_search(&rt, alloc, &[THREE_MINUTES, AT_NO_TIME], early, &[])
}

// Booked up to half an hour before the departure.
const HALF_AN_HOUR: (&str, &[u8]) = (
    "a/booking_rules.txt",
    b"booking_rule_id,booking_type,prior_notice_duration_min\nB,1,30\n",
);

// Booked by 17:00:00 two days of W before.
const TWO_DAYS_AHEAD: (&str, &[u8]) = (
    "a/booking_rules.txt",
    b"booking_rule_id,booking_type,prior_notice_last_day,prior_notice_last_time,prior_notice_service_id\nB,2,2,17:00:00,W\n",
);

const NO_FRIDAY: (&str, &[u8]) = (
    "a/calendar_dates.txt",
    b"service_id,date,exception_type\nW,20250606,2\n",
);

// Booked by 17:00:00 one day of V before, of which there is none before 4 June.
const DAY_OF_V: (&str, &[u8]) = (
    "a/booking_rules.txt",
    b"booking_rule_id,booking_type,prior_notice_last_day,prior_notice_last_time,prior_notice_service_id\nB,2,1,17:00:00,V\n",
);

const ONE_DAY: (&str, &[u8]) = (
    "a/calendar_dates.txt",
    b"service_id,date,exception_type\nV,20250604,1\n",
);

// Y picks up in Z from 08:00:00 to 08:30:00, and is at M at 08:20:00.
const TO_A_STOP: [(&str, &[u8]); 2] = [
    ("a/trips.txt", b"route_id,service_id,trip_id\nR,W,Y\n"),
    (
        "a/stop_times.txt",
        b"trip_id,stop_sequence,location_id,stop_id,arrival_time,departure_time,start_pickup_drop_off_window,end_pickup_drop_off_window,pickup_type,drop_off_type\n\
          Y,1,Z,,,,08:00:00,08:30:00,2,1\nY,2,,M,08:20:00,08:20:00,,,,\n",
    ),
];

#[test]
fn the_last_moment_to_book_is_found(rt: HostRuntime) -> Result<(), Fail> {
    let alloc = rt.alloc();
    let soon = "P,M,q1,2025-06-04T07:30:00Z,2025-06-04T09:20:00Z,0,240\n";
    let last = later(TO_M, 6_600);
    let found: [Best<'_>; 1] = [(at(EIGHT + 4_800, EIGHT + 7_200), &[last])];
    assert_search(&rt, alloc, &[HALF_AN_HOUR], soon, &found)?;
    let late = "P,M,q1,2025-06-04T07:30:00Z,2025-06-04T09:20:01Z,0,240\n";
    assert_search(&rt, alloc, &[HALF_AN_HOUR], late, &[])?;
    let monday = "P,M,q1,2025-06-09T07:30:00Z,2025-06-02T12:00:00Z,0,240\n";
    let ride = Ride {
        day: 20_248,
        ..later(TO_M, 432_000)
    };
    let found: [Best<'_>; 1] = [(at(EIGHT + 32_400, EIGHT + 432_600), &[ride])];
    assert_search(&rt, alloc, &[TWO_DAYS_AHEAD, NO_FRIDAY], monday, &found)?;
    assert_search(&rt, alloc, &[DAY_OF_V, ONE_DAY], Q1, &[])?;
    let ride = Ride {
        departs: EIGHT + 600,
        arrives: EIGHT + 1_200,
        ..TO_M
    };
    let found: [Best<'_>; 1] = [(at(EIGHT + 600, EIGHT + 1_200), &[ride])];
    assert_search(&rt, alloc, &TO_A_STOP, Q1, &found)
}

const EASTERN: (&str, &[u8]) = ("t/zone.txt", b"EST5EDT,M3.2.0,M11.1.0");

// Each day of 2025.
const DAILY: (&str, &[u8]) = (
    "a/calendar.txt",
    b"service_id,monday,tuesday,wednesday,thursday,friday,saturday,sunday,start_date,end_date\nW,1,1,1,1,1,1,1,20250101,20251231\n",
);

// Asserts the one journey on a day on which clocks change.
fn assert_clocks(
    rt: &impl Abort,
    alloc: Global,
    record: &str,
    day: i32,
    deadline: Moment,
    departs: Moment,
) -> Result<(), Fail> {
    let arrives = departs.saturating_add(600);
    let ride = Ride {
        day,
        departs,
        arrives,
        ..TO_M
    };
    let found: [Best<'_>; 1] = [(at(deadline, arrives), &[ride])];
    assert_search(rt, alloc, &[EASTERN, DAILY], record, &found)
}

#[test]
fn days_begin_by_the_noon_of_the_zone(rt: HostRuntime) -> Result<(), Fail> {
    // From 2025-03-08T22:00:00Z to 2025-03-09T12:00:00Z.
    let spring = "P,M,q1,2025-03-09T06:00:00Z,2025-03-08T12:00:00Z,0,600\n";
    assert_clocks(
        &rt,
        rt.alloc(),
        spring,
        20_156,
        1_741_471_200,
        1_741_521_600,
    )?;
    // From 2025-11-01T21:00:00Z to 2025-11-02T13:00:00Z.
    let autumn = "P,M,q1,2025-11-02T06:00:00Z,2025-11-01T12:00:00Z,0,600\n";
    assert_clocks(
        &rt,
        rt.alloc(),
        autumn,
        20_394,
        1_762_030_800,
        1_762_088_400,
    )
}

// X goes from M at 25:10:00 to N at 25:30:00.
const BY_NIGHT: [(&str, &[u8]); 2] = [
    (
        "a/trips.txt",
        b"route_id,service_id,trip_id\nR,W,F1\nR,W,X\n",
    ),
    (
        "a/stop_times.txt",
        b"trip_id,stop_sequence,location_id,stop_id,arrival_time,departure_time,start_pickup_drop_off_window,end_pickup_drop_off_window,pickup_type,drop_off_type,pickup_booking_rule_id,drop_off_booking_rule_id\n\
          F1,1,Z,,,,08:00:00,10:00:00,2,1,B,\nF1,2,Z,,,,08:00:00,10:00:00,1,2,,B\n\
          X,1,,M,25:10:00,25:10:00,,,,,,\nX,2,,N,25:30:00,25:30:00,,,,,,\n",
    ),
];

#[test]
fn a_trip_of_the_day_before_is_found(rt: HostRuntime) -> Result<(), Fail> {
    let night = "M,N,q1,2025-06-05T01:00:00Z,2025-06-03T12:00:00Z,0,60\n";
    let arrives = EIGHT + 63_000;
    let ride = Ride {
        trip: 1,
        departs: EIGHT + 61_800,
        arrives,
        ..RIDE
    };
    let found: [Best<'_>; 1] = [(arrival(Deadline::Never, arrives), &[ride])];
    assert_search(&rt, rt.alloc(), &BY_NIGHT, night, &found)
}

// X1 goes from M at 08:00:00 to N at 08:20:00, X2 from O at 08:25:00 to Q at 08:40:00, and from Q one walks to D, 20 minutes.
pub(crate) const CHANGING: [(&str, &[u8]); 6] = [
    (
        "a/trips.txt",
        b"route_id,service_id,trip_id\nR,W,F1\nR,W,X1\nR,W,X2\n",
    ),
    (
        "a/stop_times.txt",
        b"trip_id,stop_sequence,location_id,stop_id,arrival_time,departure_time,start_pickup_drop_off_window,end_pickup_drop_off_window,pickup_type,drop_off_type,pickup_booking_rule_id,drop_off_booking_rule_id\n\
          F1,1,Z,,,,08:00:00,10:00:00,2,1,B,\nF1,2,Z,,,,08:00:00,10:00:00,1,2,,B\n\
          X1,1,,M,08:00:00,08:00:00,,,,,,\nX1,2,,N,08:20:00,08:20:00,,,,,,\n\
          X2,1,,O,08:25:00,08:25:00,,,,,,\nX2,2,,Q,08:40:00,08:40:00,,,,,,\n",
    ),
    (
        "a/transfers.txt",
        b"from_stop_id,to_stop_id,transfer_type,min_transfer_time\nN,O,2,300\n",
    ),
    (
        "t/points.txt",
        b"point_id,point_lat,point_lon\nP,50.0,5.0\nD,50.0,5.04\n",
    ),
    (
        "t/direct.txt",
        b"from_id,to_id,seconds\nP,M,600\nM,D,3600\n",
    ),
    ("t/walks.txt", b"from_id,to_id,seconds\nQ,D,1200\n"),
];

// The same, but the change from N to O takes no time.
const AT_ONCE: (&str, &[u8]) = (
    "a/transfers.txt",
    b"from_stop_id,to_stop_id,transfer_type,min_transfer_time\nN,O,2,\n",
);

// From N one may walk to D, too.
const WALKS: (&str, &[u8]) = ("t/walks.txt", b"from_id,to_id,seconds\nQ,D,1200\nN,D,600\n");

const WHOLE_WAY: Ride = Ride {
    alight: Place::Point(1),
    arrives: EIGHT + 3_600,
    ..RIDE
};

// By X1 and on foot at 08:30:00.
const fn walked(walk: u32) -> Triple {
    Triple {
        deadline: Deadline::Never,
        arrival: EIGHT + 1_800,
        transfers: 0,
        walk,
    }
}

// From M to D within an hour.
pub(crate) const HOUR: &str = "M,D,q1,2025-06-04T08:00:00Z,2025-06-03T12:00:00Z,1,60\n";

#[test]
fn journeys_with_a_change_are_found(rt: HostRuntime) -> Result<(), Fail> {
    let alloc = rt.alloc();
    let both: [Best<'_>; 2] = [
        (at(DAY_BEFORE, EIGHT + 3_600), &[WHOLE_WAY]),
        (changing(0), &[X1, X2]),
    ];
    assert_search(&rt, alloc, &CHANGING, HOUR, &both)?;
    let shorter = "M,D,q1,2025-06-04T08:00:00Z,2025-06-03T12:00:00Z,1,59\n";
    assert_search(&rt, alloc, &CHANGING, shorter, &[])?;
    let [trips, stop_times, _, points, direct, walks] = CHANGING;
    let at_once = [trips, stop_times, AT_ONCE, points, direct, walks];
    assert_search(&rt, alloc, &at_once, HOUR, &both)?;
    let direct_alone = "M,D,q1,2025-06-04T08:00:00Z,2025-06-03T12:00:00Z,0,60\n";
    assert_search(&rt, alloc, &CHANGING, direct_alone, &both[..1])
}

#[test]
fn less_walking_is_found_where_it_is_asked_for(rt: HostRuntime) -> Result<(), Fail> {
    let alloc = rt.alloc();
    let asking = "M,D,q1,2025-06-04T08:00:00Z,2025-06-03T12:00:00Z,1,60,1\n";
    let whole = (at(DAY_BEFORE, EIGHT + 3_600), [WHOLE_WAY].as_slice());
    let both: [Best<'_>; 2] = [whole, (changing(1_500), &[X1, X2])];
    assert_search(&rt, alloc, &CHANGING, asking, &both)?;
    let [trips, stop_times, transfers, points, direct, _] = CHANGING;
    let walking = [trips, stop_times, transfers, points, direct, WALKS];
    let sooner: [Best<'_>; 2] = [(walked(600), &[X1]), whole];
    assert_search(&rt, alloc, &walking, asking, &sooner)?;
    let not_asking = "M,D,q1,2025-06-04T08:00:00Z,2025-06-03T12:00:00Z,1,60\n";
    let soonest: [Best<'_>; 1] = [(walked(0), &[X1])];
    assert_search(&rt, alloc, &walking, not_asking, &soonest)
}

// The time of the service day.
fn clock(alloc: Global, seconds: u32) -> Result<String, Fail> {
    let hours = seconds / 3_600;
    let minutes = seconds / 60 % 60;
    let rest = seconds % 60;
    Ok(format!(in alloc; "{hours:02}:{minutes:02}:{rest:02}")?)
}

// Adds the 30 trips from the stop to the next one, 20 seconds apart, to both tables.
fn add_leg(
    alloc: Global,
    stop: u32,
    trips: &mut String,
    stop_times: &mut String,
) -> Result<(), Fail>
    requires { stop < 8 }
{
    let next = stop + 1;
    for number in 0..30_u32 {
        let departs = 28_800 + 900 * stop + 20 * number;
        let leaves = clock(alloc, departs)?;
        let arrives = clock(alloc, departs + 300)?;
        let trip = format!(in alloc; "R,W,g{stop}_{number}\n")?;
        trips.push_str(trip.as_str())?;
        let first = format!(in alloc; "g{stop}_{number},1,c{stop},{leaves},{leaves}\n")?;
        stop_times.push_str(first.as_str())?;
        let second = format!(in alloc; "g{stop}_{number},2,c{next},{arrives},{arrives}\n")?;
        stop_times.push_str(second.as_str())?;
    }
    Ok(())
}

// Nine stops, with 30 trips from each to the next, each of them in time for each from there.
fn chain(alloc: Global) -> Result<MemFiles, Fail> {
    let mut trips = String::from_str(alloc, "route_id,service_id,trip_id\n")?;
    let mut stop_times = String::from_str(
        alloc,
        "trip_id,stop_sequence,stop_id,arrival_time,departure_time\n",
    )?;
    for stop in 0..8_u32 {
        add_leg(alloc, stop, &mut trips, &mut stop_times)?;
    }
    let mut files = files_of(alloc, &[AGENCY, ROUTES, CALENDAR, UTC])?;
    files.add(
        "a/stops.txt",
        b"stop_id,stop_lat,stop_lon\nc0,50,5\nc1,50,5\nc2,50,5\nc3,50,5\nc4,50,5\nc5,50,5\nc6,50,5\nc7,50,5\nc8,50,5\n",
    )?;
    files.add("a/trips.txt", trips.as_bytes())?;
    files.add("a/stop_times.txt", stop_times.as_bytes())?;
    Ok(files)
}

// Of 656,100,000,000 journeys with seven changes the best is found, and none with six.
#[test]
fn the_best_of_very_many_journeys_is_found(rt: HostRuntime) -> Result<(), Fail> {
    let alloc = rt.alloc();
    let mut files = chain(alloc)?;
    let arrives = EIGHT + 6_600;
    let best = Triple {
        deadline: Deadline::Never,
        arrival: arrives,
        transfers: 7,
        walk: 0,
    };
    let last = Ride {
        trip: 210,
        board: Place::Stop(7),
        alight: Place::Stop(8),
        departs: arrives - 300,
        arrives,
        ..RIDE
    };
    let seven = "c0,c8,c,2025-06-04T07:30:00Z,2025-06-03T12:00:00Z,7,240\n";
    let found: [Best<'_>; 1] = [(best, &[last])];
    assert_answer(&rt, alloc, &mut files, seven, &found)?;
    let six = "c0,c8,c,2025-06-04T07:30:00Z,2025-06-03T12:00:00Z,6,240\n";
    assert_answer(&rt, alloc, &mut files, six, &[])
}
