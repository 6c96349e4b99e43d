// The text of a certificate, both ways.

ghost use Rattle.std.specs.Prelude.{IfOk};
ghost use Rattle.flex_model.specs.SoundFeed.{IsSoundFeed};
ghost use Rattle.flex_model.specs.SoundTimes.{AreSoundTimes};

use crate::loaded::{read_feed, read_times};
use bound_cert::{CertError, read_cert, write_cert, write_heading, write_part};
use flex_model::{Deadline, Feed, NoMemory, Place, Text, Times};
use query_io::lines::{read_deadline, read_place};
use std::alloc::Global;
use std::process::Abort;
use std::test::Fail;
use trial_feeds::{AGENCY, CALENDAR, ROUTES, STOPS, UTC};

const TRIPS: (&str, &[u8]) = (
    "a/trips.txt",
    b"route_id,service_id,trip_id\nR,W,F1\nR,W,X1\nR,W,X2\nR,W,H\xc3\xb8j 5%\n",
);

// Two records each. The last trip starts every ten minutes.
const STOP_TIMES: (&str, &[u8]) = (
    "a/stop_times.txt",
    b"trip_id,stop_sequence,stop_id,arrival_time,departure_time\nF1,1,M,08:00:00,08:00:00\nF1,2,N,09:00:00,09:00:00\nX1,1,M,08:00:00,08:00:00\nX1,2,N,08:20:00,08:20:00\nX2,1,O,08:25:00,08:25:00\nX2,2,Q,08:40:00,08:40:00\nH\xc3\xb8j 5%,7,M,08:00:00,08:00:00\nH\xc3\xb8j 5%,10,N,08:20:00,08:20:00\n",
);

const HEADWAYS: (&str, &[u8]) = (
    "a/frequencies.txt",
    b"trip_id,start_time,end_time,headway_secs\nH\xc3\xb8j 5%,08:05:00,08:30:00,600\n",
);

const POINTS: (&str, &[u8]) = (
    "t/points.txt",
    b"point_id,point_lat,point_lon\nD,50.0,5.04\n",
);

// The certificate of a query with two journeys, line by line.
const LINES: [&str; 12] = [
    "flexcert 1 1",
    "query q1 2",
    "journey 2025-06-03T17:00:00Z 2025-06-04T09:00:00Z 0",
    "ride F1 20250604 1 2 M D 2025-06-04T08:00:00Z 2025-06-04T09:00:00Z",
    "journey never 2025-06-04T09:00:00Z 1",
    "ride X1 20250604 1 2 M N 2025-06-04T08:00:00Z 2025-06-04T08:20:00Z",
    "ride X2 20250604 1 2 O Q 2025-06-04T08:25:00Z 2025-06-04T08:40:00Z",
    "rounds 2",
    "round 1 1",
    "label N never 2025-06-04T08:20:00Z",
    "round 2 1",
    "label Q never 2025-06-04T08:40:00Z",
];

// Of two parts the second one asks for walking. The first has a ride with a start.
const WALKING: &str =
    "flexcert 2 2\nquery H%C3%B8j%205%25 1\njourney never 2025-06-04T08:25:00Z 0\nride H%C3%B8j%205%25 20250604 7 10 M N 2025-06-04T08:05:00Z 2025-06-04T08:25:00Z 29100\nrounds 1\nround 1 0\nquery q1 1 walking\njourney never 2025-06-04T09:00:00Z 0 4294967295\nride X1 20250604 1 2 M N 2025-06-04T08:00:00Z 2025-06-04T08:20:00Z\nrounds 1\nround 1 2\nlabel D never 2025-06-04T08:20:00Z 0\nlabel N 1980-01-01T00:00:00Z 2209-12-31T23:59:59Z 1500\n";

// The feed of these trips.
fn feed_of_trips(alloc: Global) -> Result<Feed, Fail>
    ensures { IfOk result IsSoundFeed }
{
    read_feed(
        alloc,
        &[AGENCY, STOPS, ROUTES, TRIPS, CALENDAR, STOP_TIMES, HEADWAYS],
    )
}

// The times with the point D.
fn times_of_point(alloc: Global, feed: &Feed) -> Result<Times, Fail>
    requires { IsSoundFeed feed.now }
    ensures { IfOk result (AreSoundTimes feed.now) }
{
    read_times(alloc, feed, &[UTC, POINTS])
}

// The first lines, each with this end.
fn first_lines(alloc: Global, count: usize, end: &str) -> Result<Text, NoMemory> {
    let mut text = Text::new(alloc);
    for line in LINES.iter().take(count) {
        text.append(line)?;
        text.append(end)?;
    }
    Ok(text)
}

// The bad line of a text, and 0 of a certificate's.
fn bad_line(alloc: Global, feed: &Feed, times: &Times, text: &str) -> Result<u64, Fail>
    requires feed { IsSoundFeed feed.now }
    requires times { AreSoundTimes feed.now times.now }
{
    match read_cert(alloc, text.as_bytes(), feed, times) {
        Ok(_) => Ok(0),
        Err(CertError::Syntax { line }) => Ok(line),
        Err(CertError::NoMemory) => Err("no memory".into()),
    }
}

// Asserts the bad line of each text.
fn assert_bad_lines(rt: &impl Abort, alloc: Global, cases: &[(&str, u64)]) -> Result<(), Fail> {
    let feed = feed_of_trips(alloc)?;
    let times = times_of_point(alloc, &feed)?;
    for (text, line) in cases {
        assert_eq!(rt; bad_line(alloc, &feed, &times, text)?, *line, "of {text}");
    }
    Ok(())
}

// Asserts that a text is written again from what is read of it, whole and part by part.
fn assert_written_again(rt: &impl Abort, alloc: Global, text: &str) -> Result<(), Fail> {
    let feed = feed_of_trips(alloc)?;
    let times = times_of_point(alloc, &feed)?;
    let Ok(cert) = read_cert(alloc, text.as_bytes(), &feed, &times) else {
        return Err("no certificate".into());
    };
    let again = write_cert(alloc, &feed, &times, &cert)?;
    assert!(rt; again.as_str() == text);
    let walking = cert.parts.iter().any(|part| part.walking);
    let mut parts = Text::new(alloc);
    write_heading(walking, cert.parts.len() as u64, &mut parts)?;
    for part in &cert.parts {
        write_part(&feed, &times, part, &mut parts)?;
    }
    assert!(rt; parts.as_str() == text);
    Ok(())
}

#[test]
fn certificates_of_both_versions_are_written_as_they_were_read(
    rt: HostRuntime,
) -> Result<(), Fail> {
    let text = first_lines(rt.alloc(), 12, "\n")?;
    assert_written_again(&rt, rt.alloc(), text.as_str())?;
    assert_written_again(&rt, rt.alloc(), WALKING)?;
    assert_written_again(&rt, rt.alloc(), "flexcert 1 0\n")
}

#[test]
fn each_cut_of_a_certificate_names_the_next_line(rt: HostRuntime) -> Result<(), Fail> {
    let feed = feed_of_trips(rt.alloc())?;
    let times = times_of_point(rt.alloc(), &feed)?;
    for count in 0..12 {
        let text = first_lines(rt.alloc(), count, "\n")?;
        assert_eq!(rt;
            bad_line(rt.alloc(), &feed, &times, text.as_str())?,
            count as u64 + 1
        );
    }
    let returns = first_lines(rt.alloc(), 12, "\r\n")?;
    assert_eq!(rt; bad_line(rt.alloc(), &feed, &times, returns.as_str())?, 1);
    let mut longer = first_lines(rt.alloc(), 12, "\n")?;
    longer.append("v")?;
    assert_eq!(rt; bad_line(rt.alloc(), &feed, &times, longer.as_str())?, 13);
    longer.append("\n")?;
    assert_eq!(rt; bad_line(rt.alloc(), &feed, &times, longer.as_str())?, 13);
    Ok(())
}

#[test]
fn other_spellings_of_a_certificate_are_bad_lines(rt: HostRuntime) -> Result<(), Fail> {
    assert_bad_lines(
        &rt,
        rt.alloc(),
        &[
            ("", 1),
            ("\n", 1),
            ("flexcert 1 0", 1),
            ("flexcert 1 00\n", 1),
            ("flexcert 1 +0\n", 1),
            ("flexcert 01 0\n", 1),
            ("flexcert 3 0\n", 1),
            ("flexcert  1 0\n", 1),
            ("flexcert 1 0 \n", 1),
            (" flexcert 1 0\n", 1),
            ("flexcert 1 0\r\n", 1),
            ("flexcert 1 0\nx", 2),
            ("flexcert 1 18446744073709551615\n", 2),
            ("flexcert 1 18446744073709551616\n", 1),
            ("flexcert 1 1\nquery %41 0\n", 2),
            ("flexcert 1 1\nquery %c3%b8 0\n", 2),
            ("flexcert 1 1\nquery %FF 0\n", 2),
            ("flexcert 1 1\nquery  0\n", 2),
            ("flexcert 1 1\nquery H%C3%B8j%205%25 0\nrounds 0\n", 0),
            ("flexcert 1 1\nquery q 0\nrounds 1\nround 2 0\n", 4),
            ("flexcert 1 1\nquery q 0\nrounds 1\nround 1 0\n", 0),
            (
                "flexcert 1 1\nquery q 0\nrounds 1\nround 1 1\nlabel X never 2025-06-04T08:40:00Z\n",
                5,
            ),
            (
                "flexcert 1 1\nquery q 0\nrounds 1\nround 1 1\nlabel N never 1979-12-31T23:59:59Z\n",
                5,
            ),
            (
                "flexcert 1 1\nquery q 0\nrounds 1\nround 1 1\nlabel N never 2210-01-01T00:00:00Z\n",
                5,
            ),
            (
                "flexcert 1 1\nquery q 0\nrounds 1\nround 1 1\nlabel N never 2209-12-31T23:59:59Z\n",
                0,
            ),
            (
                "flexcert 1 1\nquery q 1\njourney never 2025-06-04T08:40:00Z 8\n",
                3,
            ),
            (
                "flexcert 1 1\nquery q 1\njourney never 2025-06-04T08:40:00Z 0\nride X1 20250604 1 3 M N 2025-06-04T08:00:00Z 2025-06-04T08:20:00Z\n",
                4,
            ),
            (
                "flexcert 1 1\nquery q 1\njourney never 2025-06-04T08:40:00Z 0\nride X1 20250604 1 02 M N 2025-06-04T08:00:00Z 2025-06-04T08:20:00Z\n",
                4,
            ),
            (
                "flexcert 1 1\nquery q 1\njourney never 2025-06-04T08:40:00Z 0\nride X1 20250604 1 2 M N 2025-06-04T08:00:00Z 2025-06-04T08:20:00Z 29100\n",
                4,
            ),
            (
                "flexcert 1 1\nquery q 1\njourney never 2025-06-04T08:40:00Z 0\nride H%C3%B8j%205%25 20250604 7 10 M N 2025-06-04T08:00:00Z 2025-06-04T08:20:00Z\n",
                4,
            ),
        ],
    )
}

#[test]
fn the_last_part_asks_for_walking_where_some_part_has_to(rt: HostRuntime) -> Result<(), Fail> {
    assert_bad_lines(
        &rt,
        rt.alloc(),
        &[
            ("flexcert 2 0\n", 1),
            ("flexcert 1 1\nquery q 0 walking\n", 2),
            ("flexcert 2 1\nquery q 0\n", 2),
            ("flexcert 2 1\nquery q 0 walking\nrounds 0\n", 0),
            (
                "flexcert 2 2\nquery q 0\nrounds 0\nquery r 0\nrounds 0\n",
                4,
            ),
            (
                "flexcert 2 2\nquery q 0\nrounds 0\nquery r 0 walking\nrounds 0\n",
                0,
            ),
            (
                "flexcert 2 2\nquery q 0 walking\nrounds 0\nquery r 0\nrounds 0\n",
                0,
            ),
            ("flexcert 2 1\nquery q 0 walks\n", 2),
            (
                "flexcert 2 1\nquery q 0 walking\nrounds 1\nround 1 1\nlabel N never 2025-06-04T08:40:00Z\n",
                5,
            ),
            (
                "flexcert 2 1\nquery q 0 walking\nrounds 1\nround 1 1\nlabel N never 2025-06-04T08:40:00Z 4294967296\n",
                5,
            ),
            (
                "flexcert 2 1\nquery q 0 walking\nrounds 1\nround 1 1\nlabel N never 2025-06-04T08:40:00Z 4294967295\n",
                0,
            ),
            (
                "flexcert 1 1\nquery q 0\nrounds 1\nround 1 1\nlabel N never 2025-06-04T08:40:00Z 0\n",
                5,
            ),
        ],
    )
}

// The feed without trips, where there is no ride to print.
#[test]
fn where_no_ride_can_be_printed_no_journey_is_announced(rt: HostRuntime) -> Result<(), Fail> {
    let feed = read_feed(
        rt.alloc(),
        &[
            AGENCY,
            STOPS,
            ROUTES,
            ("a/trips.txt", b"route_id,service_id,trip_id\n"),
            CALENDAR,
            (
                "a/stop_times.txt",
                b"trip_id,stop_sequence,stop_id,arrival_time,departure_time\n",
            ),
        ],
    )?;
    let times = read_times(rt.alloc(), &feed, &[UTC])?;
    for (text, line) in [
        ("flexcert 1 1\nquery q 1\n", 2),
        ("flexcert 1 1\nquery q 0\nrounds 1\nround 1 1\n", 5),
    ] {
        assert_eq!(rt;
            bad_line(rt.alloc(), &feed, &times, text)?,
            line,
            "of {text}"
        );
    }
    Ok(())
}

// No stops and no points.
#[test]
fn where_there_is_no_place_no_label_is_announced(rt: HostRuntime) -> Result<(), Fail> {
    let feed = read_feed(
        rt.alloc(),
        &[
            AGENCY,
            ("a/stops.txt", b"stop_id,stop_lat,stop_lon\n"),
            ROUTES,
            ("a/trips.txt", b"route_id,service_id,trip_id\n"),
            CALENDAR,
            (
                "a/stop_times.txt",
                b"trip_id,stop_sequence,stop_id,arrival_time,departure_time\n",
            ),
        ],
    )?;
    let times = read_times(rt.alloc(), &feed, &[UTC])?;
    for (text, line) in [
        ("flexcert 1 1\nquery q 0\nrounds 1\nround 1 1\n", 4),
        ("flexcert 1 1\nquery q 0\nrounds 1\nround 1 0\n", 0),
    ] {
        assert_eq!(rt;
            bad_line(rt.alloc(), &feed, &times, text)?,
            line,
            "of {text}"
        );
    }
    Ok(())
}

#[test]
fn words_of_a_line_are_read(rt: HostRuntime) -> Result<(), Fail> {
    let feed = feed_of_trips(rt.alloc())?;
    let times = times_of_point(rt.alloc(), &feed)?;
    for (text, place) in [
        ("M", Some(Place::Stop(0))),
        ("K", Some(Place::Stop(4))),
        ("D", Some(Place::Point(0))),
        ("", None),
        ("X", None),
        ("%4D", None),
    ] {
        assert_eq!(rt; read_place(&feed, &times, text), place, "{text}");
    }
    assert_eq!(rt; read_deadline("never").ok(), Some(Deadline::Never));
    assert_eq!(rt;
        read_deadline("2025-06-04T08:00:00Z").ok(),
        Some(Deadline::At(1_749_024_000))
    );
    assert_eq!(rt; read_deadline("Never").ok(), None);
    Ok(())
}
