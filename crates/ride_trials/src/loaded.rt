// Feeds, times and queries of files in memory.

ghost use Rattle.std.specs.Prelude.{IfOk, All};
ghost use Rattle.flex_model.specs.SoundFeed.{IsSoundFeed};
ghost use Rattle.flex_model.specs.SoundTimes.{AreSoundTimes};
ghost use Rattle.flex_model.specs.SoundQuery.{IsSoundQuery};
ghost use Rattle.feed_meaning.specs.Told.{IsWithin};

use feed_load::{Loaded, load};
use flex_io::MemFiles;
use flex_model::{Feed, Listed, NoMemory, Query, RawFile, Times};
use place_times::{LoadedTimes, load_times};
use query_io::{ReadQueries, read_queries};
use std::alloc::Global;
use std::test::Fail;
use trial_feeds::{AGENCY, CALENDAR, DAY_AHEAD, ONE_TRIP, QUERIES, ROUTES, STOPS, UTC, ZONE};

/// Files in memory with these bytes.
pub(crate) fn files_of(alloc: Global, files: &[(&str, &[u8])]) -> Result<MemFiles, NoMemory> {
    let mut memory = MemFiles::new(alloc);
    for (path, bytes) in files {
        memory.add(path, bytes)?;
    }
    Ok(memory)
}

/// The feed of the folder a of these files, which has no faults.
pub(crate) fn read_feed(alloc: Global, files: &[(&str, &[u8])]) -> Result<Feed, Fail>
    ensures { IfOk result IsSoundFeed }
{
    let mut memory = files_of(alloc, files)?;
    match load(alloc, &mut memory, "a")? {
        Loaded::Clean(feed) => Ok(feed),
        _ => Err("the feed has faults".into()),
    }
}

/// The feed of the one trip with these records, booked by 17:00:00 of the day before.
pub(crate) fn zone_feed(
    alloc: Global,
    stop_times: (&'static str, &'static [u8]),
) -> Result<Feed, Fail>
    ensures { IfOk result IsSoundFeed }
{
    let files = [
        AGENCY, STOPS, ROUTES, ONE_TRIP, CALENDAR, DAY_AHEAD, ZONE, stop_times,
    ];
    read_feed(alloc, &files)
}

/// The times of the folder t of these files, which has no faults beside the feed.
pub(crate) fn read_times(alloc: Global, feed: &Feed, files: &[(&str, &[u8])]) -> Result<Times, Fail>
    requires { IsSoundFeed feed.now }
    ensures { IfOk result (AreSoundTimes feed.now) }
{
    let mut memory = files_of(alloc, files)?;
    match load_times(alloc, &mut memory, "t", feed)? {
        LoadedTimes::Clean(times, _) => Ok(times),
        LoadedTimes::Faulty(_) => Err("the times have faults".into()),
    }
}

/// The times in UTC with these points and these seconds between places.
pub(crate) fn zone_times(
    alloc: Global,
    feed: &Feed,
    points: &'static [u8],
    direct: &'static [u8],
) -> Result<Times, Fail>
    requires { IsSoundFeed feed.now }
    ensures { IfOk result (AreSoundTimes feed.now) }
{
    let files = [UTC, ("t/points.txt", points), ("t/direct.txt", direct)];
    read_times(alloc, feed, &files)
}

// The query file of these records.
fn query_bytes(alloc: Global, records: &str) -> Result<RawFile, Fail>
    ensures { IfOk result (IsWithin 4294967295) }
{
    let mut bytes = QUERIES.as_bytes().to_vec(alloc)?;
    bytes.extend_from_slice(records.as_bytes())?;
    if bytes.len() > 1_000 {
        return Err("too many records".into());
    }
    Ok(RawFile::Bytes(Listed::from_vec(bytes)))
}

/// The queries of a file of these records, which has no faults.
pub(crate) fn queries_of(
    alloc: Global,
    feed: &Feed,
    times: &Times,
    records: &str,
) -> Result<Listed<Query>, Fail>
    requires feed { IsSoundFeed feed.now }
    requires times { AreSoundTimes feed.now times.now }
    ensures { IfOk result (All (IsSoundQuery feed.now times.now)) }
{
    let raw = query_bytes(alloc, records)?;
    match read_queries(alloc, &raw, feed, times)? {
        ReadQueries::Clean(queries) => Ok(queries),
        ReadQueries::Faulty(_) => Err("the queries have faults".into()),
    }
}
