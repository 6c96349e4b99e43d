// Runs over files and sinks in memory.

ghost use Rattle.std.specs.Prelude.{None};

use crate::run::run;
use crate::status::Status;
use flex_io::{FetchError, Files, Got, MemFiles, MemSink};
use std::alloc::Global;
use std::test::Fail;

const PLAN: [&str; 4] = ["plan", "a", "t", "q"];

// A plain feed of one trip, in UTC, and one query.
const FILES: [(&str, &str); 8] = [
    (
        "a/agency.txt",
        "agency_name,agency_url,agency_timezone\nDale Bus,http://localhost/,UTC\n",
    ),
    ("a/stops.txt", "stop_id,stop_lat,stop_lon\nM,50,5\nN,50,6\n"),
    ("a/routes.txt", "route_id\nR\n"),
    ("a/trips.txt", "route_id,service_id,trip_id\nR,S,T\n"),
    (
        "a/stop_times.txt",
        "trip_id,stop_sequence,stop_id,arrival_time,departure_time,pickup_type,drop_off_type\n\
         T,1,M,08:00:00,08:00:00,,\nT,2,N,08:20:00,08:20:00,,\n",
    ),
    (
        "a/calendar_dates.txt",
        "service_id,date,exception_type\nS,20250604,1\n",
    ),
    ("t/zone.txt", "UTC0"),
    (
        "q",
        "query_id,origin,destination,depart,now,transfers,horizon\n\
         q1,M,N,2025-06-04T07:30:00Z,2025-06-03T12:00:00Z,0,60\n",
    ),
];

const ANSWER: &str = "query q1 1\njourney never 2025-06-04T08:20:00Z 0\n\
                      ride T 20250604 1 2 M N 2025-06-04T08:00:00Z 2025-06-04T08:20:00Z\n";

#[derive(Drop)]
struct Ended {
    status: Status,
    out: MemSink,
    err: MemSink,
}

fn ran(alloc: Global, words: &[&str], files: &mut MemFiles, mut out: MemSink) -> Ended {
    let mut err = MemSink::new(alloc);
    let status = run(alloc, words, files, &mut out, &mut err);
    Ended { status, out, err }
}

// The files of the plain feed but for one, with others in place of some or beside them.
fn files_but(alloc: Global, without: &str, others: &[(&str, &str)]) -> Result<MemFiles, Fail> {
    let mut files = MemFiles::new(alloc);
    for (path, text) in FILES.as_slice() {
        if *path != without {
            files.add(path, text.as_bytes())?;
        }
    }
    for (path, text) in others {
        files.add(path, text.as_bytes())?;
    }
    Ok(files)
}

// The files of the plain feed, with others in place of some or beside them.
fn files_with(alloc: Global, others: &[(&str, &str)]) -> Result<MemFiles, Fail> {
    files_but(alloc, "", others)
}

fn planned(alloc: Global, others: &[(&str, &str)]) -> Result<Ended, Fail> {
    let mut files = files_with(alloc, others)?;
    Ok(ran(alloc, &PLAN, &mut files, MemSink::new(alloc)))
}

pub(crate) const QUERY_HEADER: &str = "query_id,origin,destination,depart,now,transfers,horizon\n";

const ROW_HEADER: &str =
    "trip_id,stop_sequence,stop_id,arrival_time,departure_time,pickup_type,drop_off_type\n";

// Text under a header.
fn under(alloc: Global, header: &str, rows: &str) -> Result<String, Fail> {
    Ok(format!(in alloc; "{header}{rows}")?)
}

#[test]
fn each_query_is_answered(rt: HostRuntime) -> Result<(), Fail> {
    let alloc = rt.alloc();
    for (rows, text) in [
        (
            "q1,M,N,2025-06-04T07:30:00Z,2025-06-03T12:00:00Z,0,60\n",
            ANSWER,
        ),
        (
            "q1,M,N,2025-06-04T07:30:00Z,2025-06-03T12:00:00Z,0,50\n",
            ANSWER,
        ),
        (
            "q1,M,N,2025-06-04T07:30:00Z,2025-06-03T12:00:00Z,0,49\n",
            "query q1 0\n",
        ),
        (
            "q1,N,M,2025-06-04T07:30:00Z,2025-06-03T12:00:00Z,0,60\n",
            "query q1 0\n",
        ),
        ("", ""),
        (
            "q2,N,M,2025-06-04T07:30:00Z,2025-06-03T12:00:00Z,0,60\n\
             H\u{f8}j 5%,M,N,2025-06-04T08:00:01Z,2025-06-03T12:00:00Z,0,60\n",
            "query q2 0\nquery H%C3%B8j%205%25 0\n",
        ),
    ] {
        let queries = under(alloc, QUERY_HEADER, rows)?;
        let ended = planned(alloc, &[("q", queries.as_str())])?;
        assert_eq!(rt; ended.status, Status::Done);
        assert_eq!(rt; ended.out.bytes(), text.as_bytes());
        assert!(rt; ended.err.bytes().is_empty());
    }
    Ok(())
}

// On a ride without walks each counts 0.
#[test]
fn walking_is_told_where_it_is_asked_for(rt: HostRuntime) -> Result<(), Fail> {
    let alloc = rt.alloc();
    let queries = "query_id,walking,origin,destination,depart,now,transfers,horizon\n\
         q1,1,M,N,2025-06-04T07:30:00Z,2025-06-03T12:00:00Z,0,60\n\
         q2,0,M,N,2025-06-04T07:30:00Z,2025-06-03T12:00:00Z,0,60\n\
         q3,,N,M,2025-06-04T07:30:00Z,2025-06-03T12:00:00Z,0,60\n\
         q4,1,N,M,2025-06-04T07:30:00Z,2025-06-03T12:00:00Z,0,60\n";
    let text = "query q1 1 walking\njourney never 2025-06-04T08:20:00Z 0 0\n\
                ride T 20250604 1 2 M N 2025-06-04T08:00:00Z 2025-06-04T08:20:00Z\n\
                query q2 1\njourney never 2025-06-04T08:20:00Z 0\n\
                ride T 20250604 1 2 M N 2025-06-04T08:00:00Z 2025-06-04T08:20:00Z\n\
                query q3 0\nquery q4 0 walking\n";
    let ended = planned(alloc, &[("q", queries)])?;
    assert_eq!(rt; ended.status, Status::Done);
    assert_eq!(rt; ended.out.bytes(), text.as_bytes());
    let ended = planned(
        alloc,
        &[(
            "q",
            "query_id,origin,destination,depart,now,transfers,horizon,walking\n\
             q1,M,N,2025-06-04T07:30:00Z,2025-06-03T12:00:00Z,0,60,2\n",
        )],
    )?;
    assert_eq!(rt; ended.status, Status::QueriesFaulty);
    assert_eq!(rt; ended.out.bytes(), b"fault queries 2 BAD_ENUM\n".as_slice());
    Ok(())
}

#[test]
fn trips_of_other_days_count(rt: HostRuntime) -> Result<(), Fail> {
    let alloc = rt.alloc();
    for (rows, text) in [
        // A trip of the day before, after midnight.
        (
            "T,1,M,25:10:00,25:10:00,,\nT,2,N,25:30:00,25:30:00,,\n",
            "query q1 1\njourney never 2025-06-05T01:30:00Z 0\n\
             ride T 20250604 1 2 M N 2025-06-05T01:10:00Z 2025-06-05T01:30:00Z\n",
        ),
        // The latest time that a record can have, which is six days later.
        (
            "T,1,M,08:00:00,08:00:00,,\nT,2,N,167:59:59,167:59:59,,\n",
            "query q1 0\n",
        ),
    ] {
        let records = under(alloc, ROW_HEADER, rows)?;
        let query = under(
            alloc,
            QUERY_HEADER,
            "q1,M,N,2025-06-05T00:30:00Z,2025-06-03T12:00:00Z,0,60\n",
        )?;
        let ended = planned(
            alloc,
            &[
                ("a/stop_times.txt", records.as_str()),
                ("q", query.as_str()),
            ],
        )?;
        assert_eq!(rt; ended.status, Status::Done);
        assert_eq!(rt; ended.out.bytes(), text.as_bytes());
    }
    Ok(())
}

#[test]
fn ids_may_have_any_byte(rt: HostRuntime) -> Result<(), Fail> {
    let alloc = rt.alloc();
    let records = under(
        alloc,
        ROW_HEADER,
        "T,1,!,08:00:00,08:00:00,,\nT,2,~,08:20:00,08:20:00,,\n",
    )?;
    let query = under(
        alloc,
        QUERY_HEADER,
        "q1,!,~,2025-06-04T07:30:00Z,2025-06-03T12:00:00Z,0,60\n",
    )?;
    let ended = planned(
        alloc,
        &[
            ("a/stops.txt", "stop_id,stop_lat,stop_lon\n!,50,5\n~,50,6\n"),
            ("a/stop_times.txt", records.as_str()),
            ("q", query.as_str()),
        ],
    )?;
    let text = "query q1 1\njourney never 2025-06-04T08:20:00Z 0\n\
                ride T 20250604 1 2 ! ~ 2025-06-04T08:00:00Z 2025-06-04T08:20:00Z\n";
    assert_eq!(rt; ended.out.bytes(), text.as_bytes());
    Ok(())
}

#[test]
fn other_tables_change_nothing_here(rt: HostRuntime) -> Result<(), Fail> {
    let alloc = rt.alloc();
    for (path, text) in [
        ("a/transfers.txt", ""),
        ("a/frequencies.txt", "\n"),
        (
            "a/calendar.txt",
            "service_id,monday,tuesday,wednesday,thursday,friday,saturday,sunday,start_date,end_date\nS,0,0,1,0,0,0,0,20250601,20250630\n",
        ),
        (
            "a/location_groups.txt",
            "location_group_id,location_group_name\nG,Both\n",
        ),
        (
            "a/booking_rules.txt",
            "booking_rule_id,booking_type,prior_notice_duration_min\nB,1,60\n",
        ),
        ("t/points.txt", "point_id,point_lat,point_lon\nP,50,5\n"),
        ("t/direct.txt", "from_id,to_id,seconds\nM,N,600\n"),
        ("t/walks.txt", "from_id,to_id,seconds\n"),
        ("t/zone.tzif", "TZif"),
    ] {
        let ended = planned(alloc, &[(path, text)])?;
        assert_eq!(rt; ended.status, Status::Done);
        assert_eq!(rt; ended.out.bytes(), ANSWER.as_bytes());
    }
    Ok(())
}

#[test]
fn trips_are_repeated_from_their_starts(rt: HostRuntime) -> Result<(), Fail> {
    let alloc = rt.alloc();
    for (depart, text) in [
        (
            "07:30:00",
            "query q1 1\njourney never 2025-06-04T08:25:00Z 0\n\
             ride T 20250604 1 2 M N 2025-06-04T08:05:00Z 2025-06-04T08:25:00Z 29100\n",
        ),
        (
            "08:15:01",
            "query q1 1\njourney never 2025-06-04T08:45:00Z 0\n\
             ride T 20250604 1 2 M N 2025-06-04T08:25:00Z 2025-06-04T08:45:00Z 30300\n",
        ),
        ("08:25:01", "query q1 0\n"),
    ] {
        let row = format!(in alloc; "q1,M,N,2025-06-04T{depart}Z,2025-06-03T12:00:00Z,0,60\n")?;
        let query = under(alloc, QUERY_HEADER, row.as_str())?;
        let repeated = (
            "a/frequencies.txt",
            "trip_id,start_time,end_time,headway_secs\nT,08:05:00,08:30:00,600\n",
        );
        let ended = planned(alloc, &[repeated, ("q", query.as_str())])?;
        assert_eq!(rt; ended.status, Status::Done);
        assert_eq!(rt; ended.out.bytes(), text.as_bytes());
    }
    Ok(())
}

#[test]
fn a_trip_that_arrives_earlier_is_better(rt: HostRuntime) -> Result<(), Fail> {
    let alloc = rt.alloc();
    let trips = ("a/trips.txt", "route_id,service_id,trip_id\nR,S,T\nR,S,U\n");
    let records = under(
        alloc,
        ROW_HEADER,
        "T,1,M,08:00:00,08:00:00,,\nT,2,N,08:20:00,08:20:00,,\n\
         U,1,M,08:05:00,08:05:00,,\nU,2,N,08:15:00,08:15:00,,\n",
    )?;
    let ended = planned(alloc, &[trips, ("a/stop_times.txt", records.as_str())])?;
    let text = "query q1 1\njourney never 2025-06-04T08:15:00Z 0\n\
                ride U 20250604 1 2 M N 2025-06-04T08:05:00Z 2025-06-04T08:15:00Z\n";
    assert_eq!(rt; ended.out.bytes(), text.as_bytes());
    Ok(())
}

#[test]
fn untimed_records_are_filled(rt: HostRuntime) -> Result<(), Fail> {
    let alloc = rt.alloc();
    let records = under(
        alloc,
        ROW_HEADER,
        "T,4,N,08:10:01,08:10:01,,\nT,3,B,,,,\nT,2,A,,,,\nT,1,M,08:00:00,08:00:00,,\n",
    )?;
    let query = under(
        alloc,
        QUERY_HEADER,
        "q1,A,B,2025-06-04T07:30:00Z,2025-06-03T12:00:00Z,0,60\n",
    )?;
    let ended = planned(
        alloc,
        &[
            (
                "a/stops.txt",
                "stop_id,stop_lat,stop_lon\nM,50,5\nA,50,5\nB,50,5\nN,50,6\n",
            ),
            ("a/stop_times.txt", records.as_str()),
            ("q", query.as_str()),
        ],
    )?;
    let text = "query q1 1\njourney never 2025-06-04T08:06:40Z 0\n\
                ride T 20250604 2 3 A B 2025-06-04T08:03:20Z 2025-06-04T08:06:40Z\n";
    assert_eq!(rt; ended.out.bytes(), text.as_bytes());
    Ok(())
}

#[test]
fn faults_of_feeds_are_told(rt: HostRuntime) -> Result<(), Fail> {
    let alloc = rt.alloc();
    let trips = ("a/trips.txt", "route_id,service_id,trip_id\nQ,S,T\n");
    let stops = ("a/stops.txt", "stop_id,stop_lat,stop_lon\nM,91,5\nN,50,6\n");
    for (others, status, text) in [
        ([("b", ""), ("b", "")], Status::Done, ""),
        (
            [trips, trips],
            Status::FeedFaulty,
            "fault trips.txt 2 UNKNOWN_ID\n",
        ),
        (
            [trips, stops],
            Status::FeedFaulty,
            "fault stops.txt 2 BAD_COORDINATE\n",
        ),
        (
            [stops, ("a/locations.geojson", "")],
            Status::FeedFaulty,
            "fault stops.txt 2 BAD_COORDINATE\nfault locations.geojson 1 JSON_SYNTAX\n",
        ),
    ] {
        let mut files = files_with(alloc, &others)?;
        let ended = ran(alloc, &["lint", "a"], &mut files, MemSink::new(alloc));
        assert_eq!(rt; ended.status, status);
        assert_eq!(rt; ended.out.bytes(), text.as_bytes());
        assert!(rt; ended.err.bytes().is_empty());
    }
    let ended = planned(alloc, &[trips])?;
    assert_eq!(rt; ended.status, Status::FeedFaulty);
    assert_eq!(rt;
        ended.out.bytes(),
        b"fault trips.txt 2 UNKNOWN_ID\n".as_slice()
    );
    Ok(())
}

// The clocks of New York go forward on 2025-03-09 and back on 2025-11-02.
#[test]
fn days_begin_in_the_zone_of_the_times(rt: HostRuntime) -> Result<(), Fail> {
    let alloc = rt.alloc();
    let queries = under(
        alloc,
        QUERY_HEADER,
        "q1,M,N,2025-06-04T07:30:00Z,2025-06-03T12:00:00Z,0,300\n\
         q2,M,N,2025-03-09T06:00:00Z,2025-03-08T12:00:00Z,0,600\n\
         q3,M,N,2025-11-02T06:00:00Z,2025-11-01T12:00:00Z,0,600\n",
    )?;
    let ended = planned(
        alloc,
        &[
            ("t/zone.txt", "EST5EDT,M3.2.0,M11.1.0\r\n"),
            (
                "a/calendar_dates.txt",
                "service_id,date,exception_type\nS,20250604,1\nS,20250309,1\nS,20251102,1\n",
            ),
            ("q", queries.as_str()),
        ],
    )?;
    let text = "query q1 1\njourney never 2025-06-04T12:20:00Z 0\n\
                ride T 20250604 1 2 M N 2025-06-04T12:00:00Z 2025-06-04T12:20:00Z\n\
                query q2 1\njourney never 2025-03-09T12:20:00Z 0\n\
                ride T 20250309 1 2 M N 2025-03-09T12:00:00Z 2025-03-09T12:20:00Z\n\
                query q3 1\njourney never 2025-11-02T13:20:00Z 0\n\
                ride T 20251102 1 2 M N 2025-11-02T13:00:00Z 2025-11-02T13:20:00Z\n";
    assert_eq!(rt; ended.status, Status::Done);
    assert_eq!(rt; ended.out.bytes(), text.as_bytes());
    Ok(())
}

#[test]
fn points_without_walks_reach_nothing(rt: HostRuntime) -> Result<(), Fail> {
    let alloc = rt.alloc();
    let query = under(
        alloc,
        QUERY_HEADER,
        "q1,P,N,2025-06-04T07:30:00Z,2025-06-03T12:00:00Z,0,60\n",
    )?;
    let ended = planned(
        alloc,
        &[
            ("t/points.txt", "point_id,point_lat,point_lon\nP,50,5\n"),
            ("q", query.as_str()),
        ],
    )?;
    assert_eq!(rt; ended.status, Status::Done);
    assert_eq!(rt; ended.out.bytes(), b"query q1 0\n".as_slice());
    Ok(())
}

#[test]
fn faulty_times_are_told(rt: HostRuntime) -> Result<(), Fail> {
    let alloc = rt.alloc();
    let points = (
        "t/points.txt",
        "point_id,point_lat,point_lon\nP,50.0,5.0\nM,50.0,5.0\n",
    );
    let booked = (
        "a/stop_times.txt",
        "trip_id,stop_sequence,stop_id,arrival_time,departure_time,pickup_type\nT,1,M,08:00:00,08:00:00,2\nT,2,N,08:20:00,08:20:00,\n",
    );
    for (without, others, text) in [
        (
            "",
            [("t/zone.txt", "!"), ("t/zone.tzif", "!")],
            "fault zone.txt 0 BAD_ZONE\n",
        ),
        (
            "t/zone.txt",
            [("t/zone.tzif", "TZif"), ("b", "")],
            "fault zone.tzif 0 BAD_ZONE\n",
        ),
        (
            "t/zone.txt",
            [("b", ""), ("b", "")],
            "fault zone.txt 0 MISSING_FILE\n",
        ),
        (
            "",
            [points, ("t/direct.txt", "from_id,to_id,seconds\nP,K,600\n")],
            "fault points.txt 3 SHARED_ID\nfault direct.txt 2 UNKNOWN_ID\n",
        ),
        // The queries don't come before the times.
        (
            "q",
            [booked, ("t/zone.txt", "")],
            "fault zone.txt 0 BAD_ZONE\n",
        ),
    ] {
        let mut files = files_but(alloc, without, &others)?;
        let ended = ran(alloc, &PLAN, &mut files, MemSink::new(alloc));
        assert_eq!(rt; ended.status, Status::TimesFaulty);
        assert_eq!(rt; ended.out.bytes(), text.as_bytes());
        assert!(rt; ended.err.bytes().is_empty());
    }
    Ok(())
}

#[test]
fn faulty_queries_are_told(rt: HostRuntime) -> Result<(), Fail> {
    let alloc = rt.alloc();
    for (rows, text) in [
        (
            "q1,M,N,2025-06-04T07:30:00Z,2025-06-03T12:00:00Z,8,0\n",
            "fault queries 2 BAD_NUMBER\nfault queries 2 BAD_NUMBER\n",
        ),
        (
            "q1,M,X,2025-06-04T07:30:00Z,2025-06-03T12:00:00Z,7,2880\n",
            "fault queries 2 UNKNOWN_ID\n",
        ),
    ] {
        let queries = under(alloc, QUERY_HEADER, rows)?;
        let ended = planned(alloc, &[("q", queries.as_str())])?;
        assert_eq!(rt; ended.status, Status::QueriesFaulty);
        assert_eq!(rt; ended.out.bytes(), text.as_bytes());
    }
    let mut files = files_but(alloc, "q", &[])?;
    let ended = ran(alloc, &PLAN, &mut files, MemSink::new(alloc));
    assert_eq!(rt; ended.status, Status::QueriesFaulty);
    assert_eq!(rt;
        ended.out.bytes(),
        b"fault queries 0 MISSING_FILE\n".as_slice()
    );
    Ok(())
}

#[test]
fn failures_of_the_outside_are_told(rt: HostRuntime) -> Result<(), Fail> {
    let alloc = rt.alloc();
    let mut files = files_with(alloc, &[])?;
    files.fail_at(3)?;
    let ended = ran(alloc, &PLAN, &mut files, MemSink::new(alloc));
    assert_eq!(rt; ended.status, Status::ReadFault);
    assert!(rt; ended.out.bytes().is_empty());
    assert_eq!(rt; ended.err.bytes(), b"flexplan: read fault\n".as_slice());
    // The last fetch is that of the query file.
    let walks = ("t/walks.txt", "from_id,to_id,seconds\nM,N,600\n");
    let mut files = files_with(alloc, &[walks])?;
    files.fail_at(18)?;
    let ended = ran(alloc, &PLAN, &mut files, MemSink::new(alloc));
    assert_eq!(rt; ended.status, Status::ReadFault);
    // There are 18 fetches: no 19th one comes.
    let mut files = files_with(alloc, &[])?;
    files.fail_at(19)?;
    let ended = ran(alloc, &PLAN, &mut files, MemSink::new(alloc));
    assert_eq!(rt; ended.status, Status::Done);
    let mut out = MemSink::new(alloc);
    out.fail_at(1, 5)?;
    let ended = ran(alloc, &PLAN, &mut files_with(alloc, &[])?, out);
    assert_eq!(rt; ended.status, Status::WriteFault);
    assert_eq!(rt; ended.out.bytes(), b"query".as_slice());
    assert!(rt; ended.err.bytes().is_empty());
    Ok(())
}

// Each query has a put of its own.
#[test]
fn a_failing_put_leaves_the_texts_before_it(rt: HostRuntime) -> Result<(), Fail> {
    let alloc = rt.alloc();
    let queries = under(
        alloc,
        QUERY_HEADER,
        "q1,M,N,2025-06-04T07:30:00Z,2025-06-03T12:00:00Z,0,60\n\
         q2,M,N,2025-06-04T07:30:00Z,2025-06-03T12:00:00Z,0,60\n",
    )?;
    let mut out = MemSink::new(alloc);
    out.fail_at(2, 0)?;
    let mut files = files_with(alloc, &[("q", queries.as_str())])?;
    let ended = ran(alloc, &PLAN, &mut files, out);
    assert_eq!(rt; ended.status, Status::WriteFault);
    assert_eq!(rt; ended.out.bytes(), ANSWER.as_bytes());
    Ok(())
}

// Files for which memory is never enough.
#[derive(Drop)]
struct Full;

impl Files for Full {
    ghost told = { λ _. None };

    ghost faults = { λ _. 0 };

    fn fetch(
        &mut self,
        _alloc: Global,
        _path: &str,
        _limit: u64,
        _into: &mut Vec<u8>,
    ) -> Result<Got, FetchError> {
        Err(FetchError::NoMemory)
    }
}

#[test]
fn want_of_memory_is_told(rt: HostRuntime) {
    let alloc = rt.alloc();
    let mut out = MemSink::new(alloc);
    let mut err = MemSink::new(alloc);
    let status = run(alloc, &PLAN, &mut Full, &mut out, &mut err);
    assert_eq!(rt; status, Status::NoMemory);
    assert!(rt; out.bytes().is_empty());
    assert_eq!(rt; err.bytes(), b"flexplan: no memory\n".as_slice());
}

#[test]
fn other_words_are_wrong(rt: HostRuntime) -> Result<(), Fail> {
    let alloc = rt.alloc();
    let mut files = files_with(alloc, &[])?;
    for words in [
        ["plan", "a", "t"].as_slice(),
        &["plan", "a", "t", "-q"],
        &["plan", "a", "", "q"],
        &["lint", "-x"],
        &["lint", "a", "t"],
        &[],
    ] {
        let ended = ran(alloc, words, &mut files, MemSink::new(alloc));
        assert_eq!(rt; ended.status, Status::Usage);
        assert!(rt; ended.out.bytes().is_empty());
        assert_eq!(rt; ended.err.bytes(), b"flexplan: usage\n".as_slice());
    }
    Ok(())
}
