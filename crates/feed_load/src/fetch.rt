// The files of a feed, fetched.

ghost use Rattle.std.specs.Prelude.{◌≡◌, ◌≢◌, ◌≤◌, Err, IfOk, IfSome, IsErrOf};
ghost use Rattle.flex_io.specs.Outside.{HasFailed};
ghost use Rattle.feed_load.specs.Fetched.{told_feed};

use feed_meaning::fetch_input;
use feed_rules::FeedBytes;
use flex_io::{Files, LoadError};
use flex_model::InputFile;
use std::alloc::Global;

// The files of a feed, in the order of fetching.
const FEED_FILES: [InputFile; 13] = [
    InputFile::Agency,
    InputFile::Stops,
    InputFile::Routes,
    InputFile::Trips,
    InputFile::StopTimes,
    InputFile::Calendar,
    InputFile::CalendarDates,
    InputFile::Locations,
    InputFile::LocationGroups,
    InputFile::LocationGroupStops,
    InputFile::BookingRules,
    InputFile::Transfers,
    InputFile::Frequencies,
];

/// Fetches the thirteen files of a feed folder, each once and in their order.
pub(crate) fn fetch_feed<F: Files>(
    alloc: Global,
    files: &mut F,
    folder: &str,
) -> Result<FeedBytes, LoadError>
    // Where files are told, the files are the told ones.
    ensures fetched { IfSome (F.told files.old) (λ told.
        IfOk result (λ bytes. bytes ≡ told_feed told folder.now)) }

    ensures told { F.told files.new ≡ F.told files.old }
    ensures counted { F.faults files.old ≤ F.faults files.new }
    ensures steady { F.is_steady files.old
        → F.is_steady files.new × (F.faults files.new ≡ F.faults files.old) }

    // A read fault is answered only where it was counted in this call, or the count stands at its
    // last value, and a fault that was counted is answered.
    ensures read_fault { IsErrOf result LoadError.ReadFault
        → HasFailed (F.faults files.old) (F.faults files.new) }
    ensures answered { result ≢ Err LoadError.ReadFault
        → F.faults files.new ≡ F.faults files.old }
{
    let mut bytes = FeedBytes::new();
    for file in FEED_FILES {
        bytes.set(file, fetch_input(alloc, files, folder, file)?);
    }
    Ok(bytes)
}
