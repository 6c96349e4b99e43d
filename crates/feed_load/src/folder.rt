// Loading a feed folder.

ghost use Rattle.std.specs.Prelude.{◌≡◌, ◌≢◌, ◌≤◌, Err, IfOk, IfSome, IsErrOf};
ghost use Rattle.flex_io.specs.Outside.{HasFailed};
ghost use Rattle.feed_meaning.specs.Told.{told_folder};
ghost use Rattle.feed_rules.specs.Folders.{folder_of};
ghost use Rattle.feed_load.specs.Loads.{IsLoaded, IsSoundLoad};

use crate::accepted::{Judged, judge};
use crate::feed::feed_of;
use crate::fetch::fetch_feed;
use feed_rules::{FeedBytes, RawFeed};
use flex_io::{Files, LoadError};
use flex_model::{Fault, Feed, Listed, NoMemory};
use geo_json::{features_are_few, texts_have_scans};
use std::alloc::Global;

/// What a feed folder holds.
#[derive(Debug, Drop)]
pub enum Loaded {
    /// The feed of an accepted folder.
    Clean(Feed),
    /// The fault list of a folder that isn't accepted.
    Faulty(Listed<Fault>),
}

// What the files of a feed hold.
fn read_folder(alloc: Global, bytes: &FeedBytes) -> Result<Loaded, NoMemory>
    ensures loaded { IfOk result (IsLoaded (folder_of bytes.now)) }
    ensures sound { IfOk result IsSoundLoad }
{
    texts_have_scans();
    features_are_few();
    let raw = RawFeed::read(alloc, bytes)?;
    let judged = judge(alloc, &raw)?;
    match judged {
        Judged::Accepted(tables) => {
            let feed = feed_of(alloc, tables)?;
            Ok(Loaded::Clean(feed))
        }
        Judged::Faulty(faults) => Ok(Loaded::Faulty(faults)),
    }
}

/// Fetches the thirteen files of the folder, each once and in their order, and reads them.
pub fn load<F: Files>(alloc: Global, files: &mut F, folder: &str) -> Result<Loaded, LoadError>
    // Where files are told, what is loaded is that of the told folder. Told or not, a feed is
    // sound.
    ensures loaded { IfSome (F.told files.old) (λ told.
        IfOk result (IsLoaded (told_folder told folder.now))) }
    ensures sound { IfOk result IsSoundLoad }

    ensures told { F.told files.new ≡ F.told files.old }
    ensures counted { F.faults files.old ≤ F.faults files.new }
    ensures steady { F.is_steady files.old
        → F.is_steady files.new × (F.faults files.new ≡ F.faults files.old) }

    // A read fault is answered only where it was counted in this call, or the count stands at its
    // last value, and a fault that was counted is answered.
    ensures read_fault { IsErrOf result LoadError.ReadFault
        → HasFailed (F.faults files.old) (F.faults files.new) }
    ensures answered { result ≢ Err LoadError.ReadFault
        → F.faults files.new ≡ F.faults files.old }
{
    let bytes = fetch_feed(alloc, files, folder)?;
    let loaded = read_folder(alloc, &bytes)?;
    Ok(loaded)
}
