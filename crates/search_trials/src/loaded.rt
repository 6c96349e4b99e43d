// Files in memory, and queries of records.

ghost use Rattle.std.specs.Prelude.{IfOk, All};
ghost use Rattle.flex_model.specs.SoundFeed.{IsSoundFeed};
ghost use Rattle.flex_model.specs.SoundTimes.{AreSoundTimes};
ghost use Rattle.flex_model.specs.SoundQuery.{IsSoundQuery};
ghost use Rattle.feed_meaning.specs.Told.{IsWithin};

use flex_io::MemFiles;
use flex_model::{Feed, Listed, NoMemory, Query, RawFile, Times};
use query_io::{ReadQueries, read_queries};
use std::alloc::Global;
use std::test::Fail;
use trial_feeds::QUERIES;

/// Files in memory with these bytes.
pub(crate) fn files_of(alloc: Global, files: &[(&str, &[u8])]) -> Result<MemFiles, NoMemory> {
    let mut memory = MemFiles::new(alloc);
    for (path, bytes) in files {
        memory.add(path, bytes)?;
    }
    Ok(memory)
}

// The query file of these records.
fn query_bytes(alloc: Global, records: &str) -> Result<RawFile, Fail>
    ensures { IfOk result (IsWithin 4294967295) }
{
    let mut bytes = QUERIES.as_bytes().to_vec(alloc)?;
    bytes.extend_from_slice(records.as_bytes())?;
    if bytes.len() > 1_000 {
        return Err("too many records".into());
    }
    Ok(RawFile::Bytes(Listed::from_vec(bytes)))
}

/// The queries of a file of these records, which has no faults.
pub(crate) fn queries_of(
    alloc: Global,
    feed: &Feed,
    times: &Times,
    records: &str,
) -> Result<Listed<Query>, Fail>
    requires feed { IsSoundFeed feed.now }
    requires times { AreSoundTimes feed.now times.now }
    ensures { IfOk result (All (IsSoundQuery feed.now times.now)) }
{
    let raw = query_bytes(alloc, records)?;
    match read_queries(alloc, &raw, feed, times)? {
        ReadQueries::Clean(queries) => Ok(queries),
        ReadQueries::Faulty(_) => Err("the queries have faults".into()),
    }
}
