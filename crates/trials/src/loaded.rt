// The feed that most tests read, with its times and its queries, and what is loaded of files in memory.

ghost use Rattle.std.specs.Prelude.{IfOk, All};
ghost use Rattle.flex_model.specs.SoundFeed.{IsSoundFeed};
ghost use Rattle.flex_model.specs.SoundTimes.{AreSoundTimes};
ghost use Rattle.flex_model.specs.SoundQuery.{IsSoundQuery};
ghost use Rattle.feed_meaning.specs.Told.{IsWithin};

use feed_load::{Loaded, load};
use flex_io::{LoadError, MemFiles};
use flex_model::{Feed, Listed, NoMemory, Query, RawFile, Times};
use place_times::{LoadedTimes, load_times};
use query_io::{ReadQueries, read_queries};
use std::alloc::Global;
use std::test::Fail;
use trial_feeds::{AGENCY, CALENDAR, DAY_AHEAD, ONE_TRIP, QUERIES, ROUTES, STOPS, ZONE};

/// Stops M, N, O and Q, and K, a station, where one can't board. One trip goes from M to N on the weekdays of 2025,
/// on Monday, 2 June, by a date too, and not on Friday, 6 June. One changes from N to O, but not within Q.
pub(crate) const FEED: [(&str, &[u8]); 8] = [
    (
        "a/agency.txt",
        b"agency_name,agency_url,agency_timezone\nDale Bus,http://localhost/,UTC\n",
    ),
    (
        "a/stops.txt",
        b"stop_id,stop_lat,stop_lon,location_type\nM,50,5,\nN,50,6,0\nO,50,6,0\nQ,50,7,\nK,50,5,1\n",
    ),
    ("a/routes.txt", b"route_id\nR\n"),
    ("a/trips.txt", b"route_id,service_id,trip_id\nR,S,T\n"),
    (
        "a/stop_times.txt",
        b"trip_id,stop_sequence,stop_id,arrival_time,departure_time\nT,1,M,08:00:00,08:00:00\nT,2,N,08:20:00,08:20:00\n",
    ),
    (
        "a/calendar.txt",
        b"service_id,monday,tuesday,wednesday,thursday,friday,saturday,sunday,start_date,end_date\nS,1,1,1,1,1,0,0,20250101,20251231\n",
    ),
    (
        "a/calendar_dates.txt",
        b"service_id,date,exception_type\nS,20250602,1\nS,20250606,2\n",
    ),
    (
        "a/transfers.txt",
        b"from_stop_id,to_stop_id,transfer_type,min_transfer_time\nN,O,2,300\nQ,Q,3,\n",
    ),
];

// Points P and D in UTC, and a walk from Q to D.
const TIMES: [(&str, &[u8]); 3] = [
    ("t/zone.txt", b"UTC0"),
    (
        "t/points.txt",
        b"point_id,point_lat,point_lon\nP,50,5\nD,50,7\n",
    ),
    ("t/walks.txt", b"from_id,to_id,seconds\nQ,D,1200\n"),
];

/// Files in memory with these bytes.
pub(crate) fn files_of(alloc: Global, files: &[(&str, &[u8])]) -> Result<MemFiles, NoMemory> {
    let mut memory = MemFiles::new(alloc);
    for (path, bytes) in files {
        memory.add(path, bytes)?;
    }
    Ok(memory)
}

/// The feed of the folder a of these files, which has no faults.
pub(crate) fn read_feed(alloc: Global, files: &[(&str, &[u8])]) -> Result<Feed, Fail>
    ensures { IfOk result IsSoundFeed }
{
    let mut memory = files_of(alloc, files)?;
    match load(alloc, &mut memory, "a")? {
        Loaded::Clean(feed) => Ok(feed),
        _ => Err("the feed has faults".into()),
    }
}

/// The sample feed.
pub(crate) fn sample_feed(alloc: Global) -> Result<Feed, Fail>
    ensures { IfOk result IsSoundFeed }
{
    read_feed(alloc, &FEED)
}

/// The feed of the one trip with these records, booked by 17:00:00 of the day before.
pub(crate) fn zone_feed(
    alloc: Global,
    stop_times: (&'static str, &'static [u8]),
) -> Result<Feed, Fail>
    ensures { IfOk result IsSoundFeed }
{
    let files = [
        AGENCY, STOPS, ROUTES, ONE_TRIP, CALENDAR, DAY_AHEAD, ZONE, stop_times,
    ];
    read_feed(alloc, &files)
}

/// Loads the folder t of these files beside the feed. The fetch with the failing number fails.
pub(crate) fn loaded_times(
    alloc: Global,
    feed: &Feed,
    files: &[(&str, &[u8])],
    failing: u64,
) -> Result<LoadedTimes, LoadError>
    requires { IsSoundFeed feed.now }
{
    let mut memory = files_of(alloc, files)?;
    memory.fail_at(failing)?;
    load_times(alloc, &mut memory, "t", feed)
}

/// The times of the folder t of these files, which has no faults beside the feed.
pub(crate) fn read_times(alloc: Global, feed: &Feed, files: &[(&str, &[u8])]) -> Result<Times, Fail>
    requires { IsSoundFeed feed.now }
    ensures { IfOk result (AreSoundTimes feed.now) }
{
    let mut memory = files_of(alloc, files)?;
    match load_times(alloc, &mut memory, "t", feed)? {
        LoadedTimes::Clean(times, _) => Ok(times),
        LoadedTimes::Faulty(_) => Err("the times have faults".into()),
    }
}

/// The times beside the sample feed.
pub(crate) fn sample_times(alloc: Global, feed: &Feed) -> Result<Times, Fail>
    requires { IsSoundFeed feed.now }
    ensures { IfOk result (AreSoundTimes feed.now) }
{
    read_times(alloc, feed, &TIMES)
}

// The query file of these records.
fn query_bytes(alloc: Global, records: &str) -> Result<RawFile, Fail>
    ensures { IfOk result (IsWithin 4294967295) }
{
    let mut bytes = QUERIES.as_bytes().to_vec(alloc)?;
    bytes.extend_from_slice(records.as_bytes())?;
    if bytes.len() > 1_000 {
        return Err("too many records".into());
    }
    Ok(RawFile::Bytes(Listed::from_vec(bytes)))
}

/// Reads a query file of these records.
pub(crate) fn query_file(
    alloc: Global,
    feed: &Feed,
    times: &Times,
    records: &str,
) -> Result<ReadQueries, Fail>
    requires feed { IsSoundFeed feed.now }
    requires times { AreSoundTimes feed.now times.now }
{
    let raw = query_bytes(alloc, records)?;
    Ok(read_queries(alloc, &raw, feed, times)?)
}

/// The queries of a file of these records, which has no faults.
pub(crate) fn queries_of(
    alloc: Global,
    feed: &Feed,
    times: &Times,
    records: &str,
) -> Result<Listed<Query>, Fail>
    requires feed { IsSoundFeed feed.now }
    requires times { AreSoundTimes feed.now times.now }
    ensures { IfOk result (All (IsSoundQuery feed.now times.now)) }
{
    let raw = query_bytes(alloc, records)?;
    match read_queries(alloc, &raw, feed, times)? {
        ReadQueries::Clean(queries) => Ok(queries),
        ReadQueries::Faulty(_) => Err("the queries have faults".into()),
    }
}
