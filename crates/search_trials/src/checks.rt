// What the checker says of a part of a certificate, whatever numbers stand in its labels.

ghost use Rattle.flex_model.specs.SoundFeed.{IsSoundFeed};
ghost use Rattle.flex_model.specs.SoundQuery.{IsSoundQuery};
ghost use Rattle.flex_model.specs.SoundTimes.{AreSoundTimes};

use crate::loaded::{files_of, queries_of};
use crate::searches::{CHANGING, FILES, HOUR};
use bound_cert::{CertLabel, CertPart, read_cert};
use cert_check::{Verdict, check};
use feed_load::{Loaded, load};
use flex_model::{Deadline, Feed, Listed, Moment, Place, Query, Times};
use place_times::{LoadedTimes, load_times};
use ride_index::RideIndex;
use service_days::{ZoneValue, day_table};
use std::alloc::Global;
use std::process::Abort;
use std::test::Fail;
use trial_feeds::{EIGHT, M, N, Q};

// A certificate of the query with a bus on call and one with a change.
const CERT: &str = "flexcert 1 1\nquery q1 2\n\
    journey 2025-06-03T17:00:00Z 2025-06-04T09:00:00Z 0\n\
    ride F1 20250604 1 2 M D 2025-06-04T08:00:00Z 2025-06-04T09:00:00Z\n\
    journey never 2025-06-04T09:00:00Z 1\n\
    ride X1 20250604 1 2 M N 2025-06-04T08:00:00Z 2025-06-04T08:20:00Z\n\
    ride X2 20250604 1 2 O Q 2025-06-04T08:25:00Z 2025-06-04T08:40:00Z\n\
    rounds 2\nround 1 1\nlabel N never 2025-06-04T08:20:00Z\n\
    round 2 1\nlabel Q never 2025-06-04T08:40:00Z\n";

// A label more for the round with this number, which counts from 0.
type More = (usize, CertLabel);

// The part of the certificate, with more labels at the ends of its rounds.
fn part_with(alloc: Global, feed: &Feed, times: &Times, more: &[More]) -> Result<CertPart, Fail>
    requires feed { IsSoundFeed feed.now }
    requires times { AreSoundTimes feed.now times.now }
{
    let Ok(cert) = read_cert(alloc, CERT.as_bytes(), feed, times) else {
        return Err("no certificate".into());
    };
    let mut parts = cert.parts.into_vec();
    let Some(mut part) = parts.pop() else {
        return Err("no part".into());
    };
    let mut rounds = part.rounds.into_vec();
    for (number, label) in more {
        if let Some(round) = rounds.get_mut(*number) {
            round.labels.push(*label)?;
        }
    }
    part.rounds = Listed::from_vec(rounds);
    Ok(part)
}

// Asserts what the checker says of the part with these labels more, for the query.
fn assert_verdict(
    rt: &impl Abort,
    alloc: Global,
    feed: &Feed,
    times: &Times,
    zone: &ZoneValue,
    query: &Query,
    more: &[More],
    verdict: Verdict,
) -> Result<(), Fail>
    requires feed { IsSoundFeed feed.now }
    requires times { AreSoundTimes feed.now times.now }
    requires query { IsSoundQuery feed.now times.now query.now }
{
    let part = part_with(alloc, feed, times, more)?;
    let days = day_table(alloc, zone, query.depart)?;
    let index = RideIndex::build(alloc, feed)?;
    assert_eq!(rt;
        check(alloc, &index, feed, times, &days, query, &part)?,
        verdict
    );
    Ok(())
}

// Asserts the same over the sample.
fn assert_checked(
    rt: &impl Abort,
    alloc: Global,
    more: &[More],
    verdict: Verdict,
) -> Result<(), Fail> {
    let mut files = files_of(alloc, &FILES)?;
    for (path, bytes) in CHANGING.as_slice() {
        files.add(path, bytes)?;
    }
    let Loaded::Clean(feed) = load(alloc, &mut files, "a")? else {
        return Err("the feed has faults".into());
    };
    let LoadedTimes::Clean(times, zone) = load_times(alloc, &mut files, "t", &feed)? else {
        return Err("the times have faults".into());
    };
    let queries = queries_of(alloc, &feed, &times, HOUR)?;
    for query in &queries {
        assert_verdict(rt, alloc, &feed, &times, &zone, query, more, verdict)?;
    }
    assert_eq!(rt; queries.len(), 1);
    Ok(())
}

// A label with these moments.
const fn label(place: Place, deadline: Deadline, arrival: Moment, walk: u32) -> CertLabel {
    CertLabel {
        place,
        deadline,
        arrival,
        walk,
    }
}

#[test]
fn labels_may_hold_any_numbers(rt: HostRuntime) -> Result<(), Fail> {
    let alloc = rt.alloc();
    assert_checked(&rt, alloc, &[], Verdict::Yes)?;
    let late = [
        (0, label(N, Deadline::Never, Moment::MAX, 0)),
        (1, label(Q, Deadline::At(Moment::MIN), Moment::MAX, 0)),
    ];
    assert_checked(&rt, alloc, &late, Verdict::Yes)?;
    let walks = [
        (
            0,
            label(N, Deadline::At(Moment::MAX), Moment::MAX, u32::MAX),
        ),
        (
            0,
            label(N, Deadline::At(Moment::MIN), Moment::MAX, u32::MAX),
        ),
        (
            1,
            label(Q, Deadline::At(Moment::MAX), Moment::MAX, u32::MAX),
        ),
    ];
    assert_checked(&rt, alloc, &walks, Verdict::Yes)
}

#[test]
fn labels_in_other_orders_and_twice_change_nothing(rt: HostRuntime) -> Result<(), Fail> {
    let again = [
        (1, label(N, Deadline::Never, EIGHT + 1_200, 0)),
        (0, label(N, Deadline::Never, EIGHT + 1_200, 0)),
        (0, label(M, Deadline::Never, EIGHT, 0)),
    ];
    assert_checked(&rt, rt.alloc(), &again, Verdict::Yes)
}
