// Certificates: what is printed of them, and what is said of one that was changed.

use crate::plan_tests::{BOTH, Ended, WALKING, changed_files, files_of, query, ran};
use crate::status::Status;
use crate::tests::QUERY_HEADER;
use flex_io::{MemFiles, MemSink};
use std::alloc::Global;
use std::process::Abort;
use std::test::Fail;

const CERTIFY: [&str; 4] = ["certify", "a", "t", "q"];

const CHECK: [&str; 5] = ["check", "a", "t", "q", "c"];

// A certificate for the query with both journeys, line by line.
const LINES: [&str; 12] = [
    "flexcert 1 1",
    "query q1 2",
    "journey 2025-06-03T17:00:00Z 2025-06-04T09:00:00Z 0",
    "ride F1 20250604 1 2 M D 2025-06-04T08:00:00Z 2025-06-04T09:00:00Z",
    "journey never 2025-06-04T09:00:00Z 1",
    "ride X1 20250604 1 2 M N 2025-06-04T08:00:00Z 2025-06-04T08:20:00Z",
    "ride X2 20250604 1 2 O Q 2025-06-04T08:25:00Z 2025-06-04T08:40:00Z",
    "rounds 2",
    "round 1 1",
    "label N never 2025-06-04T08:20:00Z",
    "round 2 1",
    "label Q never 2025-06-04T08:40:00Z",
];

// These lines, each with this end.
fn joined(alloc: Global, lines: &[&str], end: &str) -> Result<String, Fail> {
    let mut text = String::new(alloc);
    for line in lines {
        text.push_str(line)?;
        text.push_str(end)?;
    }
    Ok(text)
}

// Other text in place of the line with this number, which counts from 1; an empty one leaves it out.
type Change = (usize, &'static str);

// The certificate with these changes.
fn changed(alloc: Global, changes: &[Change]) -> Result<String, Fail> {
    let mut text = String::new(alloc);
    for (at, line) in LINES.iter().enumerate() {
        let mut told = *line;
        for (number, other) in changes {
            if *number == at + 1 {
                told = *other;
            }
        }
        if !told.is_empty() {
            text.push_str(told)?;
            text.push_str("\n")?;
        }
    }
    Ok(text)
}

fn checked(alloc: Global, files: &mut MemFiles, cert: &str) -> Result<Ended, Fail> {
    files.add("c", cert.as_bytes())?;
    Ok(ran(alloc, &CHECK, files, MemSink::new(alloc)))
}

// Asserts that the certificate is refused with this line.
fn assert_refused(
    rt: &impl Abort,
    alloc: Global,
    files: &mut MemFiles,
    cert: &str,
    line: &str,
) -> Result<(), Fail> {
    let ended = checked(alloc, files, cert)?;
    let told = format!(in alloc; "refused {line}\n")?;
    assert_eq!(rt; ended.out.bytes(), told.as_str().as_bytes());
    assert_eq!(rt; ended.status, Status::CertRefused);
    assert!(rt; ended.err.bytes().is_empty());
    Ok(())
}

// Asserts that the certificate is valid, with so many parts.
fn assert_valid(
    rt: &impl Abort,
    alloc: Global,
    files: &mut MemFiles,
    cert: &str,
    line: &str,
) -> Result<(), Fail> {
    let ended = checked(alloc, files, cert)?;
    assert_eq!(rt; ended.out.bytes(), line.as_bytes());
    assert_eq!(rt; ended.status, Status::Done);
    Ok(())
}

#[test]
fn a_valid_certificate_is_accepted(rt: HostRuntime) -> Result<(), Fail> {
    let alloc = rt.alloc();
    let cert = changed(alloc, &[])?;
    let mut files = changed_files(alloc)?;
    assert_valid(&rt, alloc, &mut files, cert.as_str(), "valid 1\n")
}

#[test]
fn what_is_certified_is_accepted(rt: HostRuntime) -> Result<(), Fail> {
    let alloc = rt.alloc();
    for asked in ["", WALKING] {
        let mut files = changed_files(alloc)?;
        if !asked.is_empty() {
            files.add("q", asked.as_bytes())?;
        }
        let ended = ran(alloc, &CERTIFY, &mut files, MemSink::new(alloc));
        assert_eq!(rt; ended.status, Status::Done);
        files.add("c", ended.out.bytes())?;
        let ended = ran(alloc, &CHECK, &mut files, MemSink::new(alloc));
        assert_eq!(rt; ended.out.bytes(), b"valid 1\n".as_slice());
        assert_eq!(rt; ended.status, Status::Done);
    }
    Ok(())
}

#[test]
fn no_queries_have_a_certificate_without_parts(rt: HostRuntime) -> Result<(), Fail> {
    let alloc = rt.alloc();
    let mut files = changed_files(alloc)?;
    files.add("q", QUERY_HEADER.as_bytes())?;
    let ended = ran(alloc, &CERTIFY, &mut files, MemSink::new(alloc));
    assert_eq!(rt; ended.status, Status::Done);
    assert_eq!(rt; ended.out.bytes(), b"flexcert 1 0\n".as_slice());
    assert_valid(&rt, alloc, &mut files, "flexcert 1 0\n", "valid 0\n")
}

#[test]
fn a_certificate_begins_with_the_answers(rt: HostRuntime) -> Result<(), Fail> {
    let alloc = rt.alloc();
    let ended = ran(
        alloc,
        &CERTIFY,
        &mut changed_files(alloc)?,
        MemSink::new(alloc),
    );
    let front = format!(in alloc; "flexcert 1 1\n{BOTH}rounds 2\nround 1 ")?;
    assert!(rt; ended.out.bytes().starts_with(front.as_str().as_bytes()));
    Ok(())
}

#[test]
fn the_first_refusal_is_told(rt: HostRuntime) -> Result<(), Fail> {
    let alloc = rt.alloc();
    let mut files = changed_files(alloc)?;
    let cases: [(&[Change], &str); 8] = [
        (
            &[(9, "round 1 0"), (10, "")],
            "1 UNCOVERED 0 X1 20250604 1 2 M N 2025-06-04T08:00:00Z 2025-06-04T08:20:00Z",
        ),
        (
            &[(11, "round 2 0"), (12, "")],
            "1 UNCOVERED 1 X2 20250604 1 2 O Q 2025-06-04T08:25:00Z 2025-06-04T08:40:00Z",
        ),
        (
            &[
                (3, LINES[4]),
                (4, LINES[5]),
                (5, LINES[6]),
                (6, LINES[2]),
                (7, LINES[3]),
            ],
            "1 ORDER 1",
        ),
        (&[(2, "query q2 2")], "1 QUERY"),
        (
            &[(3, "journey never 2025-06-04T09:00:00Z 0")],
            "1 TRIPLE 1 2025-06-03T17:00:00Z 2025-06-04T09:00:00Z 0",
        ),
        (&[(8, "rounds 1"), (11, ""), (12, "")], "1 ROUNDS 1 2"),
        (&[(10, "label D never 2025-06-04T08:20:00Z")], "1 FINAL 1"),
        (
            &[(
                4,
                "ride F1 20250604 1 2 M D 2025-06-04T07:59:00Z 2025-06-04T08:59:00Z",
            )],
            "1 JOURNEY 1 RIDE 1 WRONG_DEPARTURE",
        ),
    ];
    for (changes, line) in cases {
        let cert = changed(alloc, changes)?;
        assert_refused(&rt, alloc, &mut files, cert.as_str(), line)?;
    }
    assert_refused(&rt, alloc, &mut files, "flexcert 1 0\n", "0 PARTS 0 1")?;
    assert_refused(&rt, alloc, &mut files, "flexcert 2 0\n", "0 SYNTAX 1")
}

#[test]
fn a_cut_certificate_has_a_bad_line(rt: HostRuntime) -> Result<(), Fail> {
    let alloc = rt.alloc();
    let mut files = changed_files(alloc)?;
    for lines in 0..12 {
        let cert = joined(alloc, &LINES[..lines], "\n")?;
        let number = lines + 1;
        let line = format!(in alloc; "0 SYNTAX {number}")?;
        assert_refused(&rt, alloc, &mut files, cert.as_str(), line.as_str())?;
    }
    let whole = joined(alloc, &LINES, "\n")?;
    let mut cut = joined(alloc, &LINES[..11], "\n")?;
    cut.push_str(LINES[11])?;
    assert_refused(&rt, alloc, &mut files, cut.as_str(), "0 SYNTAX 12")?;
    let longer = format!(in alloc; "{whole}valid 1\n")?;
    assert_refused(&rt, alloc, &mut files, longer.as_str(), "0 SYNTAX 13")?;
    let returns = joined(alloc, &LINES, "\r\n")?;
    assert_refused(&rt, alloc, &mut files, returns.as_str(), "0 SYNTAX 1")
}

#[test]
fn a_certificate_of_other_questions_is_refused(rt: HostRuntime) -> Result<(), Fail> {
    let alloc = rt.alloc();
    let cert = changed(alloc, &[])?;
    let mut files = changed_files(alloc)?;
    files.add("q", WALKING.as_bytes())?;
    assert_refused(&rt, alloc, &mut files, cert.as_str(), "1 QUERY")?;
    // The window ends when the first ride arrives.
    let rows =
        "trip_id,stop_sequence,location_id,start_pickup_drop_off_window,end_pickup_drop_off_window,pickup_type,drop_off_type,pickup_booking_rule_id,drop_off_booking_rule_id\n\
         F1,1,Z,08:00:00,10:00:00,2,1,B,\nF1,2,Z,08:00:00,08:10:00,1,2,,B\n";
    let mut files = files_of(alloc, &[("a/stop_times.txt", rows)], "")?;
    assert_refused(
        &rt,
        alloc,
        &mut files,
        "flexcert 1 1\nquery q1 0\nrounds 1\nround 1 0\n",
        "1 UNCOVERED 0 F1 20250604 1 2 P M 2025-06-04T08:00:00Z 2025-06-04T08:10:00Z",
    )?;
    let empty = query(alloc, "M,P,2025-06-04T07:30:00Z,2025-06-03T12:00:00Z,0,60")?;
    files.add("q", empty.as_str().as_bytes())?;
    let none = "flexcert 1 1\nquery q1 0\nrounds 1\nround 1 0\n";
    assert_valid(&rt, alloc, &mut files, none, "valid 1\n")
}

#[test]
fn a_certificate_that_is_missing_is_refused(rt: HostRuntime) -> Result<(), Fail> {
    let alloc = rt.alloc();
    let ended = ran(
        alloc,
        &CHECK,
        &mut changed_files(alloc)?,
        MemSink::new(alloc),
    );
    assert_eq!(rt; ended.status, Status::CertRefused);
    assert_eq!(rt; ended.out.bytes(), b"refused 0 MISSING\n".as_slice());
    Ok(())
}

#[test]
fn each_fetch_for_a_certificate_that_fails_is_told(rt: HostRuntime) -> Result<(), Fail> {
    let alloc = rt.alloc();
    let cert = changed(alloc, &[])?;
    for (words, fetches) in [(CERTIFY.as_slice(), 18), (CHECK.as_slice(), 19)] {
        for number in 1..=fetches {
            let mut files = changed_files(alloc)?;
            files.add("c", cert.as_str().as_bytes())?;
            files.fail_at(number)?;
            let ended = ran(alloc, words, &mut files, MemSink::new(alloc));
            assert_eq!(rt; ended.status, Status::ReadFault);
            assert!(rt; ended.out.bytes().is_empty());
            assert_eq!(rt; ended.err.bytes(), b"flexplan: read fault\n".as_slice());
        }
        let mut files = changed_files(alloc)?;
        files.add("c", cert.as_str().as_bytes())?;
        files.fail_at(fetches + 1)?;
        let ended = ran(alloc, words, &mut files, MemSink::new(alloc));
        assert_eq!(rt; ended.status, Status::Done);
    }
    Ok(())
}

#[test]
fn each_put_of_a_certificate_that_fails_is_told(rt: HostRuntime) -> Result<(), Fail> {
    let alloc = rt.alloc();
    let whole = ran(
        alloc,
        &CERTIFY,
        &mut changed_files(alloc)?,
        MemSink::new(alloc),
    );
    let text = whole.out.bytes();
    let heading = b"flexcert 1 1\n".len();
    for (number, begin, end) in [(1, 0, heading), (2, heading, text.len())] {
        let size = end.saturating_sub(begin);
        for kept in [0, 1, size.saturating_sub(1)] {
            let mut out = MemSink::new(alloc);
            out.fail_at(number, kept as u64)?;
            let ended = ran(alloc, &CERTIFY, &mut changed_files(alloc)?, out);
            assert_eq!(rt; ended.status, Status::WriteFault);
            assert_eq!(rt; ended.out.bytes().len(), begin.saturating_add(kept));
            assert!(rt; text.starts_with(ended.out.bytes()));
        }
    }
    let mut out = MemSink::new(alloc);
    out.fail_at(3, 0)?;
    let ended = ran(alloc, &CERTIFY, &mut changed_files(alloc)?, out);
    assert_eq!(rt; ended.status, Status::Done);
    Ok(())
}
