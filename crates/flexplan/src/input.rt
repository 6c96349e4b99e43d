// The input of `plan`: its files, fetched in order and read.

ghost use Rattle.std.specs.Prelude.{◌≡◌, ◌≢◌, ◌≤◌, Err, IfOk, IfSome, IsErrOf};
ghost use Rattle.flex_io.specs.Outside.{HasFailed};
ghost use Rattle.flex_model.specs.SoundFeed.{IsSoundFeed};
ghost use Rattle.flex_model.specs.SoundTimes.{AreSoundTimes};
ghost use Rattle.feed_meaning.specs.FeedFaults.{Geo};
ghost use Rattle.flexplan.specs.Opened.{HoldsFeed, HoldsTimes, IsOpened, IsOpenedBy, IsSoundOpening};
ghost use Rattle.flexplan.specs.Words.{InputPaths, paths};

use crate::status::Status;
use crate::words::Paths;
use feed_load::{Loaded, load};
use feed_meaning::{byte_limit, fetch_file};
use flex_io::{Files, LoadError};
use flex_model::{Fault, Feed, InputFile, Listed, Query, Times};
use place_times::{LoadedTimes, load_times};
use query_io::{ReadQueries, read_queries};
use service_days::ZoneValue;
use std::alloc::Global;

/// The feed, the times and the queries of an accepted input.
#[derive(Drop)]
pub struct Input {
    pub feed: Feed,
    pub times: Times,
    pub zone: ZoneValue,
    pub queries: Listed<Query>,
}

/// What the files of `plan` hold.
#[derive(Drop)]
pub enum Opened {
    /// Input without faults.
    Accepted(Input),
    /// The faults of the first part of the input that has some, with its status.
    Refused(Status, Listed<Fault>),
}

// Reads the queries of input whose feed and times are accepted.
fn open_queries<F: Files>(
    alloc: Global,
    files: &mut F,
    path: &str,
    feed: Feed,
    times: Times,
    zone: ZoneValue,
) -> Result<Opened, LoadError>
    requires feed { IsSoundFeed feed }
    requires times { AreSoundTimes feed times }
    ensures opened { IfSome (F.told files.old)
        (λ told. (geo : Geo) (paths : InputPaths) → paths.queries ≡ path.now
        → HoldsTimes geo told paths feed times zone
        → IfOk result (IsOpenedBy geo told paths)) }
    ensures sound { IfOk result IsSoundOpening }
    ensures told { F.told files.new ≡ F.told files.old }
    ensures counted { F.faults files.old ≤ F.faults files.new }
    ensures steady { F.is_steady files.old → F.is_steady files.new
        × (F.faults files.new ≡ F.faults files.old) }
    ensures read_fault { IsErrOf result LoadError.ReadFault
        → HasFailed (F.faults files.old) (F.faults files.new) }
    ensures answered { result ≢ Err LoadError.ReadFault
        → F.faults files.new ≡ F.faults files.old }
{
    let raw = fetch_file(alloc, files, path, byte_limit(InputFile::Queries))?;
    match read_queries(alloc, &raw, &feed, &times)? {
        ReadQueries::Faulty(faults) => Ok(Opened::Refused(Status::QueriesFaulty, faults)),
        ReadQueries::Clean(queries) => {
            Ok(Opened::Accepted(Input {
                feed,
                times,
                zone,
                queries,
            }))
        }
    }
}

// Reads the times folder and the queries of input whose feed is accepted.
fn open_times<F: Files>(
    alloc: Global,
    files: &mut F,
    input: &Paths<'_>,
    feed: Feed,
) -> Result<Opened, LoadError>
    requires { IsSoundFeed feed }
    ensures opened { IfSome (F.told files.old)
        (λ told. (geo : Geo) → HoldsFeed geo told (paths input.now) feed
        → IfOk result (IsOpenedBy geo told (paths input.now))) }
    ensures sound { IfOk result IsSoundOpening }
    ensures told { F.told files.new ≡ F.told files.old }
    ensures counted { F.faults files.old ≤ F.faults files.new }
    ensures steady { F.is_steady files.old → F.is_steady files.new
        × (F.faults files.new ≡ F.faults files.old) }
    ensures read_fault { IsErrOf result LoadError.ReadFault
        → HasFailed (F.faults files.old) (F.faults files.new) }
    ensures answered { result ≢ Err LoadError.ReadFault
        → F.faults files.new ≡ F.faults files.old }
{
    match load_times(alloc, files, input.times, &feed)? {
        LoadedTimes::Clean(times, zone) => {
            open_queries(alloc, files, input.queries, feed, times, zone)
        }
        LoadedTimes::Faulty(faults) => Ok(Opened::Refused(Status::TimesFaulty, faults)),
    }
}

/// Opens the input of `plan`: fetches the files in order, and stops at the first part of the input that has faults.
pub fn open_input<F: Files>(
    alloc: Global,
    files: &mut F,
    input: &Paths<'_>,
) -> Result<Opened, LoadError>
    ensures opened { IfSome (F.told files.old)
        (λ told. IfOk result (IsOpened told (paths input.now))) }
    ensures sound { IfOk result IsSoundOpening }
    ensures told { F.told files.new ≡ F.told files.old }
    ensures counted { F.faults files.old ≤ F.faults files.new }
    ensures steady { F.is_steady files.old → F.is_steady files.new
        × (F.faults files.new ≡ F.faults files.old) }
    ensures read_fault { IsErrOf result LoadError.ReadFault
        → HasFailed (F.faults files.old) (F.faults files.new) }
    ensures answered { result ≢ Err LoadError.ReadFault
        → F.faults files.new ≡ F.faults files.old }
{
    match load(alloc, files, input.feed)? {
        Loaded::Clean(feed) => open_times(alloc, files, input, feed),
        Loaded::Faulty(faults) => Ok(Opened::Refused(Status::FeedFaulty, faults)),
    }
}
