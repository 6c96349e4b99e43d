// Queries over a feed with a zone, windows, booking rules, changes, walks and repeated trips.

use crate::run::run;
use crate::status::Status;
use flex_io::{MemFiles, MemSink};
use std::alloc::Global;
use std::process::Abort;
use std::test::Fail;

// One trip in one zone, booked until 17:00 of the day before. Both stops and the point P lie in the zone.
const FILES: [(&str, &str); 12] = [
    (
        "a/agency.txt",
        "agency_name,agency_url,agency_timezone\nDale Bus,http://localhost/,UTC\n",
    ),
    (
        "a/stops.txt",
        "stop_id,stop_lat,stop_lon\nM,50.0,5.02\nN,50.0,5.03\n",
    ),
    ("a/routes.txt", "route_id\nR\n"),
    ("a/trips.txt", "route_id,service_id,trip_id\nR,W,F1\n"),
    (
        "a/stop_times.txt",
        "trip_id,stop_sequence,location_id,start_pickup_drop_off_window,end_pickup_drop_off_window,pickup_type,drop_off_type,pickup_booking_rule_id,drop_off_booking_rule_id\n\
         F1,1,Z,08:00:00,10:00:00,2,1,B,\nF1,2,Z,08:00:00,10:00:00,1,2,,B\n",
    ),
    (
        "a/calendar.txt",
        "service_id,monday,tuesday,wednesday,thursday,friday,saturday,sunday,start_date,end_date\nW,1,1,1,1,1,0,0,20250101,20251231\n",
    ),
    (
        "a/locations.geojson",
        "{\"type\":\"FeatureCollection\",\"features\":[{\"type\":\"Feature\",\"id\":\"Z\",\"properties\":{},\"geometry\":{\"type\":\"Polygon\",\
         \"coordinates\":[[[4.99,49.99],[5.05,49.99],[5.05,50.01],[4.99,50.01],[4.99,49.99]]]}}]}\n",
    ),
    (
        "a/booking_rules.txt",
        "booking_rule_id,booking_type,prior_notice_last_day,prior_notice_last_time\nB,2,1,17:00:00\n",
    ),
    ("t/zone.txt", "UTC0\n"),
    ("t/points.txt", "point_id,point_lat,point_lon\nP,50.0,5.0\n"),
    ("t/direct.txt", "from_id,to_id,seconds\nP,M,600\n"),
    (
        "q",
        "query_id,origin,destination,depart,now,transfers,horizon\nq1,P,M,2025-06-04T07:30:00Z,2025-06-03T12:00:00Z,0,240\n",
    ),
];

// Other contents of a file, or one file more.
pub(crate) type Other<'a> = (&'a str, &'a str);

const BOOKED_THE_DAY_BEFORE: &str = "query q1 1\n\
    journey 2025-06-03T17:00:00Z 2025-06-04T08:10:00Z 0\n\
    ride F1 20250604 1 2 P M 2025-06-04T08:00:00Z 2025-06-04T08:10:00Z\n";

// The second one ends at 08:10:00.
const ONE_ARRIVAL: Other<'static> = (
    "a/stop_times.txt",
    "trip_id,stop_sequence,location_id,start_pickup_drop_off_window,end_pickup_drop_off_window,pickup_type,drop_off_type,pickup_booking_rule_id,drop_off_booking_rule_id\n\
     F1,1,Z,08:00:00,10:00:00,2,1,B,\nF1,2,Z,08:00:00,08:10:00,1,2,,B\n",
);

const BOOKED_UP_TO_EACH: &str = "query q1 4\n\
    journey 2025-06-04T08:00:00Z 2025-06-04T08:10:00Z 0\n\
    ride F1 20250604 1 2 P M 2025-06-04T08:00:00Z 2025-06-04T08:10:00Z\n\
    journey 2025-06-04T08:01:00Z 2025-06-04T08:11:00Z 0\n\
    ride F1 20250604 1 2 P M 2025-06-04T08:01:00Z 2025-06-04T08:11:00Z\n\
    journey 2025-06-04T08:02:00Z 2025-06-04T08:12:00Z 0\n\
    ride F1 20250604 1 2 P M 2025-06-04T08:02:00Z 2025-06-04T08:12:00Z\n\
    journey 2025-06-04T08:03:00Z 2025-06-04T08:13:00Z 0\n\
    ride F1 20250604 1 2 P M 2025-06-04T08:03:00Z 2025-06-04T08:13:00Z\n";

const BOOKED_HALF_AN_HOUR_BEFORE: &str = "query q1 4\n\
    journey 2025-06-04T07:30:00Z 2025-06-04T08:10:00Z 0\n\
    ride F1 20250604 1 2 P M 2025-06-04T08:00:00Z 2025-06-04T08:10:00Z\n\
    journey 2025-06-04T07:31:00Z 2025-06-04T08:11:00Z 0\n\
    ride F1 20250604 1 2 P M 2025-06-04T08:01:00Z 2025-06-04T08:11:00Z\n\
    journey 2025-06-04T07:32:00Z 2025-06-04T08:12:00Z 0\n\
    ride F1 20250604 1 2 P M 2025-06-04T08:02:00Z 2025-06-04T08:12:00Z\n\
    journey 2025-06-04T07:33:00Z 2025-06-04T08:13:00Z 0\n\
    ride F1 20250604 1 2 P M 2025-06-04T08:03:00Z 2025-06-04T08:13:00Z\n";

const NONE: &str = "query q1 0\n";

// A query of these fields.
pub(crate) fn query(alloc: Global, fields: &str) -> Result<String, Fail> {
    Ok(format!(in alloc;
        "query_id,origin,destination,depart,now,transfers,horizon\nq1,{fields}\n"
    )?)
}

#[derive(Drop)]
pub(crate) struct Ended {
    pub(crate) status: Status,
    pub(crate) out: MemSink,
    pub(crate) err: MemSink,
}

const PLAN: [&str; 4] = ["plan", "a", "t", "q"];

const LINT: [&str; 2] = ["lint", "a"];

// These files with others in place of some or beside them, and without one.
pub(crate) fn files_of(
    alloc: Global,
    others: &[Other<'_>],
    without: &str,
) -> Result<MemFiles, Fail> {
    let mut files = MemFiles::new(alloc);
    for (path, contents) in FILES.as_slice() {
        if *path != without {
            files.add(path, contents.as_bytes())?;
        }
    }
    for (path, contents) in others {
        files.add(path, contents.as_bytes())?;
    }
    Ok(files)
}

// Runs the words over the files, with an output of which a put may fail.
pub(crate) fn ran(alloc: Global, words: &[&str], files: &mut MemFiles, mut out: MemSink) -> Ended {
    let mut err = MemSink::new(alloc);
    let status = run(alloc, words, files, &mut out, &mut err);
    Ended { status, out, err }
}

// Plans over these files with others in place of some or beside them.
fn planned(alloc: Global, others: &[Other<'_>]) -> Result<Ended, Fail> {
    let mut files = files_of(alloc, others, "")?;
    Ok(ran(alloc, &PLAN, &mut files, MemSink::new(alloc)))
}

// Asserts what `plan` prints over these files.
fn assert_planned(
    rt: &impl Abort,
    alloc: Global,
    others: &[Other<'_>],
    text: &str,
) -> Result<(), Fail> {
    let ended = planned(alloc, others)?;
    assert_eq!(rt; ended.out.bytes(), text.as_bytes());
    assert_eq!(rt; ended.status, Status::Done);
    assert!(rt; ended.err.bytes().is_empty());
    Ok(())
}

#[test]
fn rides_in_a_zone_are_booked_in_time(rt: HostRuntime) -> Result<(), Fail> {
    let alloc = rt.alloc();
    for (fields, text) in [
        (
            "P,M,2025-06-04T07:30:00Z,2025-06-03T12:00:00Z,0,240",
            BOOKED_THE_DAY_BEFORE,
        ),
        (
            "P,M,2025-06-04T07:30:00Z,2025-06-03T17:00:00Z,0,240",
            BOOKED_THE_DAY_BEFORE,
        ),
        ("P,M,2025-06-04T07:30:00Z,2025-06-03T17:00:01Z,0,240", NONE),
        // Both are in the zone, but no direct time stands for the pair.
        ("M,N,2025-06-04T07:30:00Z,2025-06-03T12:00:00Z,0,240", NONE),
    ] {
        let asked = query(alloc, fields)?;
        assert_planned(&rt, alloc, &[("q", asked.as_str())], text)?;
        assert_planned(&rt, alloc, &[("q", asked.as_str()), ONE_ARRIVAL], text)?;
    }
    // One second more than there is.
    let longer = ("t/direct.txt", "from_id,to_id,seconds\nP,M,601\n");
    assert_planned(&rt, alloc, &[ONE_ARRIVAL, longer], NONE)
}

// Asserts what `plan` prints over the files, with this query file.
fn assert_asked(
    rt: &impl Abort,
    alloc: Global,
    files: &mut MemFiles,
    asked: &str,
    text: &str,
) -> Result<(), Fail> {
    files.add("q", asked.as_bytes())?;
    let ended = ran(alloc, &PLAN, files, MemSink::new(alloc));
    assert_eq!(rt; ended.out.bytes(), text.as_bytes());
    assert_eq!(rt; ended.status, Status::Done);
    Ok(())
}

// The files with this rule, dates of services if there are some, and the last pickup.
fn files_booked(alloc: Global, rule: &str, dates: &str, last: &str) -> Result<MemFiles, Fail> {
    let mut files = files_of(alloc, &[], "")?;
    let rows = format!(in alloc;
        "trip_id,stop_sequence,location_id,start_pickup_drop_off_window,end_pickup_drop_off_window,pickup_type,drop_off_type,pickup_booking_rule_id,drop_off_booking_rule_id\n\
         F1,1,Z,08:00:00,{last},2,1,B,\nF1,2,Z,08:00:00,10:00:00,1,2,,B\n"
    )?;
    files.add("a/stop_times.txt", rows.as_str().as_bytes())?;
    files.add("a/booking_rules.txt", rule.as_bytes())?;
    if !dates.is_empty() {
        files.add("a/calendar_dates.txt", dates.as_bytes())?;
    }
    Ok(files)
}

#[test]
fn each_rule_has_its_last_moment(rt: HostRuntime) -> Result<(), Fail> {
    let alloc = rt.alloc();
    for (rule, last, fields, text) in [
        // Up to the departure.
        (
            "booking_rule_id,booking_type\nB,0\n",
            "08:03:00",
            "P,M,2025-06-04T07:30:00Z,2025-06-03T12:00:00Z,0,240",
            BOOKED_UP_TO_EACH,
        ),
        // Up to noon of the day, and so up to the departure.
        (
            "booking_rule_id,booking_type,prior_notice_last_day,prior_notice_last_time\nB,2,0,12:00:00\n",
            "08:03:00",
            "P,M,2025-06-04T07:30:00Z,2025-06-03T12:00:00Z,0,240",
            BOOKED_UP_TO_EACH,
        ),
        // Up to half an hour before.
        (
            "booking_rule_id,booking_type,prior_notice_duration_min\nB,1,30\n",
            "10:00:00",
            "P,M,2025-06-04T07:30:00Z,2025-06-04T09:20:00Z,0,240",
            "query q1 1\njourney 2025-06-04T09:20:00Z 2025-06-04T10:00:00Z 0\n\
             ride F1 20250604 1 2 P M 2025-06-04T09:50:00Z 2025-06-04T10:00:00Z\n",
        ),
        (
            "booking_rule_id,booking_type,prior_notice_duration_min\nB,1,30\n",
            "10:00:00",
            "P,M,2025-06-04T07:30:00Z,2025-06-04T09:20:01Z,0,240",
            NONE,
        ),
        // It opens an hour before, which is later than now.
        (
            "booking_rule_id,booking_type,prior_notice_duration_min,prior_notice_duration_max\nB,1,30,60\n",
            "08:03:00",
            "P,M,2025-06-04T07:30:00Z,2025-06-04T05:00:00Z,0,240",
            BOOKED_HALF_AN_HOUR_BEFORE,
        ),
        // It opens after it closes.
        (
            "booking_rule_id,booking_type,prior_notice_duration_min,prior_notice_duration_max\nB,1,30,20\n",
            "08:03:00",
            "P,M,2025-06-04T07:30:00Z,2025-06-04T05:00:00Z,0,240",
            NONE,
        ),
    ] {
        let mut files = files_booked(alloc, rule, "", last)?;
        let asked = query(alloc, fields)?;
        assert_asked(&rt, alloc, &mut files, asked.as_str(), text)?;
    }
    Ok(())
}

// Days back are counted on a service of the rule's own.
#[test]
fn a_rule_may_count_the_days_of_a_service(rt: HostRuntime) -> Result<(), Fail> {
    let alloc = rt.alloc();
    for (rule, dates, fields, text) in [
        // Two days back of service W, which doesn't run on Friday, 6 June, nor at the weekend.
        (
            "booking_rule_id,booking_type,prior_notice_last_day,prior_notice_last_time,prior_notice_service_id\nB,2,2,17:00:00,W\n",
            "service_id,date,exception_type\nW,20250606,2\n",
            "P,M,2025-06-09T07:30:00Z,2025-06-02T12:00:00Z,0,240",
            "query q1 1\njourney 2025-06-04T17:00:00Z 2025-06-09T08:10:00Z 0\n\
             ride F1 20250609 1 2 P M 2025-06-09T08:00:00Z 2025-06-09T08:10:00Z\n",
        ),
        // There is no day before of service V.
        (
            "booking_rule_id,booking_type,prior_notice_last_day,prior_notice_last_time,prior_notice_service_id\nB,2,1,17:00:00,V\n",
            "service_id,date,exception_type\nV,20250604,1\n",
            "P,M,2025-06-04T07:30:00Z,2025-06-03T12:00:00Z,0,240",
            NONE,
        ),
    ] {
        let mut files = files_booked(alloc, rule, dates, "10:00:00")?;
        let asked = query(alloc, fields)?;
        assert_asked(&rt, alloc, &mut files, asked.as_str(), text)?;
    }
    Ok(())
}

// The clocks of New York go forward on 2025-03-09 and back on 2025-11-02.
#[test]
fn days_of_windows_begin_in_the_zone(rt: HostRuntime) -> Result<(), Fail> {
    let alloc = rt.alloc();
    let zone = ("t/zone.txt", "EST5EDT,M3.2.0,M11.1.0\n");
    let calendar = (
        "a/calendar.txt",
        "service_id,monday,tuesday,wednesday,thursday,friday,saturday,sunday,start_date,end_date\nW,1,1,1,1,1,1,1,20250101,20251231\n",
    );
    for (fields, text) in [
        (
            "P,M,2025-03-09T06:00:00Z,2025-03-08T12:00:00Z,0,600",
            "query q1 1\njourney 2025-03-08T22:00:00Z 2025-03-09T12:10:00Z 0\n\
             ride F1 20250309 1 2 P M 2025-03-09T12:00:00Z 2025-03-09T12:10:00Z\n",
        ),
        (
            "P,M,2025-11-02T06:00:00Z,2025-11-01T12:00:00Z,0,600",
            "query q1 1\njourney 2025-11-01T21:00:00Z 2025-11-02T13:10:00Z 0\n\
             ride F1 20251102 1 2 P M 2025-11-02T13:00:00Z 2025-11-02T13:10:00Z\n",
        ),
    ] {
        let asked = query(alloc, fields)?;
        assert_planned(&rt, alloc, &[("q", asked.as_str()), zone, calendar], text)?;
    }
    Ok(())
}

// One is picked up in the zone, and left at a stop at its time; and a trip of the day before, after midnight.
#[test]
fn windows_and_times_stand_in_one_feed(rt: HostRuntime) -> Result<(), Fail> {
    let alloc = rt.alloc();
    let trip = ("a/trips.txt", "route_id,service_id,trip_id\nR,W,Y\n");
    let rows = (
        "a/stop_times.txt",
        "trip_id,stop_sequence,location_id,stop_id,arrival_time,departure_time,start_pickup_drop_off_window,end_pickup_drop_off_window,pickup_type,drop_off_type\n\
         Y,1,Z,,,,08:00:00,08:30:00,2,1\nY,2,,M,08:20:00,08:20:00,,,,\n",
    );
    let text = "query q1 1\njourney 2025-06-04T08:10:00Z 2025-06-04T08:20:00Z 0\n\
        ride Y 20250604 1 2 P M 2025-06-04T08:10:00Z 2025-06-04T08:20:00Z\n";
    assert_planned(&rt, alloc, &[trip, rows], text)?;
    let trips = (
        "a/trips.txt",
        "route_id,service_id,trip_id\nR,W,F1\nR,W,X\n",
    );
    let rows = (
        "a/stop_times.txt",
        "trip_id,stop_sequence,location_id,stop_id,arrival_time,departure_time,start_pickup_drop_off_window,end_pickup_drop_off_window,pickup_type,drop_off_type,pickup_booking_rule_id,drop_off_booking_rule_id\n\
         F1,1,Z,,,,08:00:00,10:00:00,2,1,B,\nF1,2,Z,,,,08:00:00,10:00:00,1,2,,B\n\
         X,1,,M,25:10:00,25:10:00,,,,,,\nX,2,,N,25:30:00,25:30:00,,,,,,\n",
    );
    let asked = query(alloc, "M,N,2025-06-05T01:00:00Z,2025-06-03T12:00:00Z,0,60")?;
    let text = "query q1 1\njourney never 2025-06-05T01:30:00Z 0\n\
        ride X 20250604 1 2 M N 2025-06-05T01:10:00Z 2025-06-05T01:30:00Z\n";
    assert_planned(&rt, alloc, &[trips, rows, ("q", asked.as_str())], text)
}

// The change from N to O, and the walk from Q to the point D.
const CHANGES: [Other<'static>; 7] = [
    (
        "a/stops.txt",
        "stop_id,stop_lat,stop_lon\nM,50.0,5.02\nN,50.0,5.03\nO,50.5,5.5\nQ,50.5,5.6\n",
    ),
    (
        "a/trips.txt",
        "route_id,service_id,trip_id\nR,W,F1\nR,W,X1\nR,W,X2\n",
    ),
    (
        "a/stop_times.txt",
        "trip_id,stop_sequence,location_id,stop_id,arrival_time,departure_time,start_pickup_drop_off_window,end_pickup_drop_off_window,pickup_type,drop_off_type,pickup_booking_rule_id,drop_off_booking_rule_id\n\
         F1,1,Z,,,,08:00:00,10:00:00,2,1,B,\nF1,2,Z,,,,08:00:00,10:00:00,1,2,,B\n\
         X1,1,,M,08:00:00,08:00:00,,,,,,\nX1,2,,N,08:20:00,08:20:00,,,,,,\n\
         X2,1,,O,08:25:00,08:25:00,,,,,,\nX2,2,,Q,08:40:00,08:40:00,,,,,,\n",
    ),
    (
        "a/transfers.txt",
        "from_stop_id,to_stop_id,transfer_type,min_transfer_time\nN,O,2,300\n",
    ),
    (
        "t/points.txt",
        "point_id,point_lat,point_lon\nP,50.0,5.0\nD,50.0,5.04\n",
    ),
    ("t/direct.txt", "from_id,to_id,seconds\nP,M,600\nM,D,3600\n"),
    ("t/walks.txt", "from_id,to_id,seconds\nQ,D,1200\n"),
];

const HOUR: &str = "M,D,2025-06-04T08:00:00Z,2025-06-03T12:00:00Z,1,60";

pub(crate) const BOTH: &str = "query q1 2\njourney 2025-06-03T17:00:00Z 2025-06-04T09:00:00Z 0\n\
    ride F1 20250604 1 2 M D 2025-06-04T08:00:00Z 2025-06-04T09:00:00Z\n\
    journey never 2025-06-04T09:00:00Z 1\n\
    ride X1 20250604 1 2 M N 2025-06-04T08:00:00Z 2025-06-04T08:20:00Z\n\
    ride X2 20250604 1 2 O Q 2025-06-04T08:25:00Z 2025-06-04T08:40:00Z\n";

// The files of the change.
pub(crate) fn changed_files(alloc: Global) -> Result<MemFiles, Fail> {
    let mut files = files_of(alloc, &CHANGES, "")?;
    let asked = query(alloc, HOUR)?;
    files.add("q", asked.as_str().as_bytes())?;
    Ok(files)
}

#[test]
fn one_changes_between_buses_in_time(rt: HostRuntime) -> Result<(), Fail> {
    let alloc = rt.alloc();
    for (fields, changes, text) in [
        (HOUR, "N,O,2,300", BOTH),
        // Neither arrives within 59 minutes.
        (
            "M,D,2025-06-04T08:00:00Z,2025-06-03T12:00:00Z,1,59",
            "N,O,2,300",
            NONE,
        ),
        // A change that takes no time that is told takes none.
        (HOUR, "N,O,2,", BOTH),
    ] {
        let mut files = changed_files(alloc)?;
        let changes = format!(in alloc;
            "from_stop_id,to_stop_id,transfer_type,min_transfer_time\n{changes}\n"
        )?;
        files.add("a/transfers.txt", changes.as_str().as_bytes())?;
        let asked = query(alloc, fields)?;
        assert_asked(&rt, alloc, &mut files, asked.as_str(), text)?;
    }
    Ok(())
}

// A query file that asks for walking.
pub(crate) const WALKING: &str =
    "query_id,origin,destination,depart,now,transfers,horizon,walking\n\
    q1,M,D,2025-06-04T08:00:00Z,2025-06-03T12:00:00Z,1,60,1\n";

#[test]
fn walking_counts_where_it_is_asked_for(rt: HostRuntime) -> Result<(), Fail> {
    let alloc = rt.alloc();
    let asked = query(alloc, HOUR)?;
    let on_call = "ride F1 20250604 1 2 M D 2025-06-04T08:00:00Z 2025-06-04T09:00:00Z\n";
    let first = "ride X1 20250604 1 2 M N 2025-06-04T08:00:00Z 2025-06-04T08:20:00Z\n";
    let second = "ride X2 20250604 1 2 O Q 2025-06-04T08:25:00Z 2025-06-04T08:40:00Z\n";
    let longer = format!(in alloc;
        "query q1 2 walking\njourney 2025-06-03T17:00:00Z 2025-06-04T09:00:00Z 0 0\n{on_call}\
         journey never 2025-06-04T09:00:00Z 1 1500\n{first}{second}"
    )?;
    assert_asked(
        &rt,
        alloc,
        &mut changed_files(alloc)?,
        WALKING,
        longer.as_str(),
    )?;
    // One may also walk from N.
    let mut files = changed_files(alloc)?;
    files.add("t/walks.txt", b"from_id,to_id,seconds\nQ,D,1200\nN,D,600\n")?;
    let both = format!(in alloc;
        "query q1 2 walking\njourney never 2025-06-04T08:30:00Z 0 600\n{first}\
         journey 2025-06-03T17:00:00Z 2025-06-04T09:00:00Z 0 0\n{on_call}"
    )?;
    assert_asked(&rt, alloc, &mut files, WALKING, both.as_str())?;
    let one = format!(in alloc; "query q1 1\njourney never 2025-06-04T08:30:00Z 0\n{first}")?;
    assert_asked(&rt, alloc, &mut files, asked.as_str(), one.as_str())
}

// Nine stops, and between each two of them thirty trips, every one of which meets each of those to the next stop.
fn legs(alloc: Global) -> Result<(String, String, String), Fail> {
    let mut stops = String::from_str(alloc, "stop_id,stop_lat,stop_lon\n")?;
    for stop in 0..9 {
        stops.push_str(format!(in alloc; "c{stop},50,5\n")?.as_str())?;
    }
    let mut trips = String::from_str(alloc, "route_id,service_id,trip_id\n")?;
    let mut rows = String::from_str(
        alloc,
        "trip_id,stop_sequence,stop_id,arrival_time,departure_time\n",
    )?;
    for leg in 0..8_u32 {
        for k in 0..30_u32 {
            trips.push_str(format!(in alloc; "R,W,g{leg}_{k}\n")?.as_str())?;
            for record in 0..2_u32 {
                let seconds = 28_800 + 900 * leg + 20 * k + 300 * record;
                let (hour, minute, second) = (seconds / 3_600, seconds / 60 % 60, seconds % 60);
                let time = format!(in alloc; "{hour:02}:{minute:02}:{second:02}")?;
                let row = format!(in alloc;
                    "g{leg}_{k},{record},c{},{time},{time}\n",
                    leg + record
                )?;
                rows.push_str(row.as_str())?;
            }
        }
    }
    Ok((stops, trips, rows))
}

// 30^8 journeys have one triple.
#[test]
fn many_journeys_have_one_answer(rt: HostRuntime) -> Result<(), Fail> {
    let alloc = rt.alloc();
    let (stops, trips, rows) = legs(alloc)?;
    let no_zones = "{\"type\":\"FeatureCollection\",\"features\":[]}";
    let asked = query(
        alloc,
        "c0,c8,2025-06-04T07:30:00Z,2025-06-03T12:00:00Z,7,240",
    )?;
    let fewer = query(
        alloc,
        "c0,c8,2025-06-04T07:30:00Z,2025-06-03T12:00:00Z,6,240",
    )?;
    let mut others = [
        ("a/stops.txt", stops.as_str()),
        ("a/trips.txt", trips.as_str()),
        ("a/stop_times.txt", rows.as_str()),
        ("a/locations.geojson", no_zones),
        ("t/direct.txt", "from_id,to_id,seconds\n"),
        ("q", asked.as_str()),
    ];
    let ended = planned(alloc, &others)?;
    assert_eq!(rt; ended.status, Status::Done);
    let text = ended.out.bytes();
    assert!(rt; text.starts_with(b"query q1 1\njourney never 2025-06-04T09:50:00Z 7\nride g0_"));
    assert!(rt;
        text.ends_with(
            b"\nride g7_0 20250604 0 1 c7 c8 2025-06-04T09:45:00Z 2025-06-04T09:50:00Z\n"
        )
    );
    assert_eq!(rt; text.iter().filter(|byte| **byte == b'\n').count(), 10);
    others[5] = ("q", fewer.as_str());
    assert_planned(&rt, alloc, &others, NONE)
}

// The text with a byte order mark and CRLF line ends.
fn as_produced(alloc: Global, text: &str) -> Result<String, Fail> {
    let mut produced = String::from_str(alloc, "\u{feff}")?;
    for line in text.lines() {
        produced.push_str(line)?;
        produced.push_str("\r\n")?;
    }
    Ok(produced)
}

// All columns of the reference, a station, a group with a trip of its own, a hole without places, a rule with texts, and files
// that nothing here reads.
const PRODUCED: [Other<'static>; 11] = [
    (
        "a/agency.txt",
        "agency_id,agency_name,agency_url,agency_timezone,agency_lang,agency_phone,agency_fare_url,agency_email\n\
         A,Dale Bus,http://localhost/,UTC,en,+00 555 0100,http://localhost/fares,bus@localhost\n",
    ),
    (
        "a/stops.txt",
        "stop_id,stop_code,stop_name,tts_stop_name,stop_desc,stop_lat,stop_lon,zone_id,stop_url,location_type,parent_station,stop_timezone,wheelchair_boarding,level_id,platform_code\n\
         M,1,Market,,,50.0,5.02,,,,,,1,,\nN,2,North,,,50.0,5.03,,,0,K,,0,,a\nK,3,Central,,,50.0,5.03,,,1,,,0,,\n",
    ),
    (
        "a/routes.txt",
        "route_id,agency_id,route_short_name,route_long_name,route_desc,route_type,route_url,route_color,route_text_color,route_sort_order,continuous_pickup,continuous_drop_off,network_id\n\
         R,A,1,One,,3,,FFFFFF,000000,1,,,\n",
    ),
    (
        "a/trips.txt",
        "route_id,service_id,trip_id,trip_headsign,trip_short_name,direction_id,block_id,shape_id,wheelchair_accessible,bikes_allowed\n\
         R,W,F1,North,,0,,S,1,2\nR,W,G1,North,,0,,S,1,2\n",
    ),
    (
        "a/stop_times.txt",
        "trip_id,stop_sequence,location_id,location_group_id,start_pickup_drop_off_window,end_pickup_drop_off_window,pickup_type,drop_off_type,pickup_booking_rule_id,drop_off_booking_rule_id\n\
         F1,1,Z,,08:00:00,10:00:00,2,1,B,\nF1,2,Z,,08:00:00,10:00:00,1,2,,B\n\
         G1,1,,G,08:00:00,10:00:00,2,1,C,\nG1,2,,G,08:00:00,10:00:00,1,2,,C\n",
    ),
    (
        "a/booking_rules.txt",
        "booking_rule_id,booking_type,prior_notice_duration_min,prior_notice_last_day,prior_notice_last_time,message,phone_number,info_url\n\
         B,2,,1,17:00:00,,,\nC,1,30,,,\"Call, or write\",+00 555 0100,http://localhost/call\n",
    ),
    (
        "a/location_groups.txt",
        "location_group_id,location_group_name\nG,Both\n",
    ),
    (
        "a/location_group_stops.txt",
        "location_group_id,stop_id\nG,M\nG,N\n",
    ),
    (
        "a/feed_info.txt",
        "feed_publisher_name,feed_publisher_url,feed_lang\nDale Bus,http://localhost/,en\n",
    ),
    (
        "a/shapes.txt",
        "shape_id,shape_pt_lat,shape_pt_lon,shape_pt_sequence\nS,50,5.02,1\nS,50,5.03,2\n",
    ),
    (
        "a/calendar.txt",
        "service_id,monday,tuesday,wednesday,thursday,friday,saturday,sunday,start_date,end_date\nW,1,1,1,1,1,0,0,20250101,20251231\n",
    ),
];

#[test]
fn a_feed_as_producers_write_it_is_planned(rt: HostRuntime) -> Result<(), Fail> {
    let alloc = rt.alloc();
    let mut files = files_of(alloc, &[], "")?;
    for (path, text) in PRODUCED.as_slice() {
        files.add(path, as_produced(alloc, text)?.as_bytes())?;
    }
    let zone =
        "{\"type\":\"FeatureCollection\",\"features\":[{\"type\":\"Feature\",\"id\":\"Z\",\"properties\":{\"stop_name\":\"Dale\"},\"geometry\":{\"type\":\"Polygon\",\
        \"coordinates\":[[[4.99,49.99],[5.05,49.99],[5.05,50.01],[4.99,50.01],[4.99,49.99]],\
        [[5.04,49.995],[5.045,49.995],[5.045,49.999],[5.04,49.999],[5.04,49.995]]]}}]}\n";
    files.add("a/locations.geojson", zone.as_bytes())?;
    let ended = ran(alloc, &LINT, &mut files, MemSink::new(alloc));
    assert_eq!(rt; ended.status, Status::Done);
    assert!(rt; ended.out.bytes().is_empty());
    let ended = ran(alloc, &PLAN, &mut files, MemSink::new(alloc));
    assert_eq!(rt; ended.status, Status::Done);
    assert_eq!(rt; ended.out.bytes(), BOOKED_THE_DAY_BEFORE.as_bytes());
    Ok(())
}

#[test]
fn each_fault_of_a_feed_is_told(rt: HostRuntime) -> Result<(), Fail> {
    let alloc = rt.alloc();
    let faulty = [
        (
            "a/stops.txt",
            "stop_id,stop_lat,stop_lon\nM,50.0,5.02\n\"N\nx\",91,5.03\nM,50.0,5.02\n",
        ),
        (
            "a/stop_times.txt",
            "trip_id,stop_sequence,location_id,start_pickup_drop_off_window,end_pickup_drop_off_window,pickup_type,drop_off_type,pickup_booking_rule_id,drop_off_booking_rule_id\n\
             F1,1,Z,08:00:00,,2,1,B,\nF1,2,Z,08:00:00,10:00:00,3,2,,B\n",
        ),
        (
            "a/booking_rules.txt",
            "booking_rule_id,booking_type,prior_notice_last_day,prior_notice_last_time\nB,2,1,\n",
        ),
    ];
    let list = "fault stops.txt 3 BAD_COORDINATE\nfault stops.txt 4 DUPLICATE_KEY\n\
        fault stop_times.txt 2 WINDOW_PAIR\nfault stop_times.txt 3 WINDOW_PICKUP\n\
        fault booking_rules.txt 2 FIELD_MISSING\n";
    for words in [PLAN.as_slice(), &LINT] {
        let mut files = files_of(alloc, &faulty, "")?;
        let ended = ran(alloc, words, &mut files, MemSink::new(alloc));
        assert_eq!(rt; ended.status, Status::FeedFaulty);
        assert_eq!(rt; ended.out.bytes(), list.as_bytes());
        let mut files = files_of(alloc, &[], "a/trips.txt")?;
        let ended = ran(alloc, words, &mut files, MemSink::new(alloc));
        assert_eq!(rt; ended.status, Status::FeedFaulty);
        assert_eq!(rt;
            ended.out.bytes(),
            b"fault trips.txt 0 MISSING_FILE\n".as_slice()
        );
    }
    Ok(())
}

#[test]
fn each_fetch_that_fails_is_told(rt: HostRuntime) -> Result<(), Fail> {
    let alloc = rt.alloc();
    for (words, fetches, text) in [(PLAN.as_slice(), 18, BOTH), (&LINT, 13, "")] {
        for number in 1..=fetches {
            let mut files = changed_files(alloc)?;
            files.fail_at(number)?;
            let ended = ran(alloc, words, &mut files, MemSink::new(alloc));
            assert_eq!(rt; ended.status, Status::ReadFault);
            assert!(rt; ended.out.bytes().is_empty());
            assert_eq!(rt; ended.err.bytes(), b"flexplan: read fault\n".as_slice());
        }
        let mut files = changed_files(alloc)?;
        files.fail_at(fetches + 1)?;
        let ended = ran(alloc, words, &mut files, MemSink::new(alloc));
        assert_eq!(rt; ended.status, Status::Done);
        assert_eq!(rt; ended.out.bytes(), text.as_bytes());
    }
    Ok(())
}

#[test]
fn a_put_that_fails_leaves_the_beginning(rt: HostRuntime) -> Result<(), Fail> {
    let alloc = rt.alloc();
    for kept in [0, 1, BOTH.len() as u64 - 1] {
        let mut out = MemSink::new(alloc);
        out.fail_at(1, kept)?;
        let ended = ran(alloc, &PLAN, &mut changed_files(alloc)?, out);
        assert_eq!(rt; ended.status, Status::WriteFault);
        assert!(rt; BOTH.as_bytes().starts_with(ended.out.bytes()));
        assert_eq!(rt; ended.out.bytes().len() as u64, kept);
        assert!(rt; ended.err.bytes().is_empty());
    }
    let mut out = MemSink::new(alloc);
    out.fail_at(2, 0)?;
    let ended = ran(alloc, &PLAN, &mut changed_files(alloc)?, out);
    assert_eq!(rt; ended.status, Status::Done);
    // A put to the error stream that fails beside a fetch that does changes nothing.
    let mut files = changed_files(alloc)?;
    files.fail_at(3)?;
    let mut err = MemSink::new(alloc);
    err.fail_at(1, 0)?;
    let mut out = MemSink::new(alloc);
    assert_eq!(rt;
        run(alloc, &PLAN, &mut files, &mut out, &mut err),
        Status::ReadFault
    );
    assert!(rt; err.bytes().is_empty());
    Ok(())
}
