// Query files.

ghost use Rattle.flex_model.specs.SoundFeed.{IsSoundFeed};
ghost use Rattle.flex_model.specs.SoundTimes.{AreSoundTimes};

use crate::loaded::{queries_of, query_file, sample_feed, sample_times};
use flex_model::{Fault, FaultCode, Feed, InputFile, Listed, Place, Times};
use query_io::ReadQueries;
use std::alloc::Global;
use std::process::Abort;
use std::test::Fail;

fn faulty(read: ReadQueries) -> Option<Listed<Fault>> {
    match read {
        ReadQueries::Clean(_) => None,
        ReadQueries::Faulty(faults) => Some(faults),
    }
}

#[test]
fn accepted_queries_are_read(rt: HostRuntime) -> Result<(), Fail> {
    let feed = sample_feed(rt.alloc())?;
    let times = sample_times(rt.alloc(), &feed)?;
    let records = "P,M,q1,2025-06-04T07:30:00Z,2025-06-03T12:00:00Z,0,240\n\
        M,P, q 2,1990-01-01T00:00:00Z,2199-12-31T23:59:59Z,07,2880,1\n";
    let queries = queries_of(rt.alloc(), &feed, &times, records)?;
    let queries = queries.as_slice();
    assert_eq!(rt; queries.len(), 2);
    assert!(rt; queries[0].id.as_str() == "q1");
    assert_eq!(rt; queries[0].origin, Place::Point(0));
    assert_eq!(rt; queries[0].destination, Place::Stop(0));
    assert_eq!(rt; queries[0].depart, 1_749_022_200);
    assert_eq!(rt; queries[0].now, 1_748_952_000);
    assert_eq!(rt; queries[0].transfers, 0);
    assert_eq!(rt; queries[0].horizon, 240);
    assert!(rt; !queries[0].walking);
    assert!(rt; queries[1].id.as_str() == "q 2");
    assert_eq!(rt; queries[1].origin, Place::Stop(0));
    assert_eq!(rt; queries[1].destination, Place::Point(0));
    assert_eq!(rt; queries[1].depart, 631_152_000);
    assert_eq!(rt; queries[1].now, 7_258_118_399);
    assert_eq!(rt; queries[1].transfers, 7);
    assert_eq!(rt; queries[1].horizon, 2_880);
    assert!(rt; queries[1].walking);
    Ok(())
}

// The faults of a query file of the header and these records, as rows and codes.
fn assert_faults(
    rt: &impl Abort,
    alloc: Global,
    feed: &Feed,
    times: &Times,
    records: &str,
    wanted: &[(u64, FaultCode)],
) -> Result<(), Fail>
    requires feed { IsSoundFeed feed.now }
    requires times { AreSoundTimes feed.now times.now }
{
    let faults = faulty(query_file(alloc, feed, times, records)?).ok_or("faults")?;
    let faults = faults.as_slice();
    assert_eq!(rt; faults.len(), wanted.len(), "of {records}");
    for (fault, (row, code)) in faults.iter().zip(wanted) {
        assert_eq!(rt; fault.file, InputFile::Queries);
        assert_eq!(rt; fault.row, *row, "of {records}");
        assert_eq!(rt; fault.code, *code, "of {records}");
    }
    Ok(())
}

#[test]
fn the_faults_of_records_are_listed(rt: HostRuntime) -> Result<(), Fail> {
    let feed = sample_feed(rt.alloc())?;
    let times = sample_times(rt.alloc(), &feed)?;
    let cases: [(&str, &[(u64, FaultCode)]); 10] = [
        (
            "P,M,,2025-06-04T07:30:00Z,2025-06-03T12:00:00Z,0,240\n",
            &[(2, FaultCode::EmptyField)],
        ),
        (
            "P,M,q,2025-06-04T07:30:00Z,2025-06-03T12:00:00Z,0,240\n\
            M,P,r,2025-06-04T07:30:00Z,2025-06-03T12:00:00Z,0,240\n\
            M,P,q,2025-06-04T07:30:00Z,2025-06-03T12:00:00Z,0,240\n",
            &[(4, FaultCode::DuplicateKey)],
        ),
        (
            "X,K,q,2025-06-04T07:30:00Z,2025-06-03T12:00:00Z,0,240\n",
            &[(2, FaultCode::UnknownId), (2, FaultCode::BadStopKind)],
        ),
        (
            ",M,q,2025-06-04T07:30:00Z,2025-06-03T12:00:00Z,0,240\n",
            &[(2, FaultCode::EmptyField)],
        ),
        (
            "P,M,q,1989-12-31T23:59:59Z,2025-06-03T12:00:00Z,0,240\n",
            &[(2, FaultCode::BadMoment)],
        ),
        (
            "P,M,q,2200-01-01T00:00:00Z,,0,240\n",
            &[(2, FaultCode::BadMoment), (2, FaultCode::BadMoment)],
        ),
        (
            "P,M,q,2025-06-04T07:30:00Z,2025-06-03T12:00:00Z,8,0\n",
            &[(2, FaultCode::BadNumber), (2, FaultCode::BadNumber)],
        ),
        (
            "P,M,q,2025-06-04T07:30:00Z,2025-06-03T12:00:00Z,,2881\n",
            &[(2, FaultCode::BadNumber), (2, FaultCode::BadNumber)],
        ),
        (
            "P,M,q,2025-06-04T07:30:00Z,2025-06-03T12:00:00Z,0,240,2\n",
            &[(2, FaultCode::BadEnum)],
        ),
        (
            "P,M,q,2025-06-04T07:30:00Z,2025-06-03T12:00:00Z,0,240,01\n",
            &[(2, FaultCode::BadEnum)],
        ),
    ];
    for (records, wanted) in cases {
        assert_faults(&rt, rt.alloc(), &feed, &times, records, wanted)?;
    }
    Ok(())
}
