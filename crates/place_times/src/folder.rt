// The times of a folder as it was fetched, with its zone.

ghost use Rattle.std.specs.Prelude.{◌≡◌, ◌≢◌, ◌≤◌, Err, IfOk, IfSome, IsErrOf, true};
ghost use Rattle.flex_io.specs.Outside.{HasFailed};
ghost use Rattle.flex_model.specs.declared.feed.Feed as Feeds;
ghost use Rattle.flex_model.specs.SoundFeed.{IsSoundFeed};
ghost use Rattle.feed_meaning.specs.Folder.{Folder};
ghost use Rattle.feed_meaning.specs.Told.{told_folder};
ghost use Rattle.place_times.specs.Fetches.{AreCounted, AreFetched};
ghost use Rattle.place_times.specs.Levels.{AreRead, judged};
ghost use Rattle.place_times.specs.Loads.{AreLoaded, AreReadWithZone, IsSoundLoad, IsZoneFound, IsZoneRead};

use crate::fetch::{TimesFiles, fetch_times};
use crate::read::{ReadTimes, level_one, read_tables, read_times, zone_fault};
use flex_io::{Files, LoadError};
use flex_model::{Fault, Feed, Listed, NoMemory, RawFile, Times};
use service_days::{ZoneForm, ZoneRefusal, ZoneValue, read_zone};
use std::alloc::Global;

/// What a times folder holds.
#[derive(Drop)]
pub enum LoadedTimes {
    /// The times of an accepted folder, and the zone.
    Clean(Times, ZoneValue),
    /// The fault list of a folder that isn't accepted, in the order of its files, their rows and the rules: the faults of
    /// the files by themselves, or where they have none, those beside the feed.
    Faulty(Listed<Fault>),
}

// The zone of the bytes, none where they are bad.
fn zone_of_bytes(alloc: Global, bytes: &[u8], form: ZoneForm) -> Result<Option<ZoneValue>, NoMemory>
    ensures { IfOk result (IsZoneRead form bytes.now) }
{
    match read_zone(alloc, bytes, form) {
        Ok(zone) => Ok(Some(zone)),
        Err(ZoneRefusal::BadZone) => Ok(None),
        Err(ZoneRefusal::NoMemory) => Err(NoMemory),
    }
}

// The zone that `zone.txt` tells, or `zone.tzif` where that is absent. There is none where its bytes are bad or can't be had.
fn zone_of(alloc: Global, text: &RawFile, tzif: &RawFile) -> Result<Option<ZoneValue>, NoMemory>
    ensures { IfOk result (IsZoneFound text.now tzif.now) }
{
    match text {
        RawFile::Bytes(bytes) => return zone_of_bytes(alloc, bytes.as_slice(), ZoneForm::Posix),
        RawFile::TooLarge => return Ok(None),
        RawFile::Absent => {}
    }
    match tzif {
        RawFile::Bytes(bytes) => zone_of_bytes(alloc, bytes.as_slice(), ZoneForm::Tzif),
        _ => Ok(None),
    }
}

// The faults of the files by themselves, where there is no zone.
fn zoneless_faults(alloc: Global, files: &TimesFiles) -> Result<Listed<Fault>, NoMemory>
    requires { AreCounted files.now }
    ensures { IfOk result (λ faults. (folder : Folder) (feed : Feeds.Feed)
        → AreFetched folder files.now → AreRead (judged true) feed folder
        (ReadTimes.Faulty faults)) }
{
    let tables = read_tables(alloc, files)?;
    let zone = zone_fault(&files.zone_text, &files.zone_tzif, true);
    level_one(alloc, zone, &tables)
}

// The times and the zone of the files of a times folder where it has no fault, and else its fault list.
fn read_files(alloc: Global, feed: &Feed, files: &TimesFiles) -> Result<LoadedTimes, NoMemory>
    requires feed { IsSoundFeed feed.now }
    requires counted { AreCounted files.now }
    ensures { IfOk result (AreReadWithZone files.now feed.now) }
{
    let Some(zone) = zone_of(alloc, &files.zone_text, &files.zone_tzif)? else {
        return Ok(LoadedTimes::Faulty(zoneless_faults(alloc, files)?));
    };
    match read_times(alloc, feed, files)? {
        ReadTimes::Clean(times) => Ok(LoadedTimes::Clean(times, zone)),
        ReadTimes::Faulty(faults) => Ok(LoadedTimes::Faulty(faults)),
    }
}

/// Fetches the files of a times folder, each once and in their order, and reads them beside an accepted feed: its times
/// and its zone where it has no fault, and else its fault list.
pub fn load_times<F: Files>(
    alloc: Global,
    files: &mut F,
    folder: &str,
    feed: &Feed,
) -> Result<LoadedTimes, LoadError>
    requires { IsSoundFeed feed.now }
    ensures loaded { IfSome (F.told files.old)
        (λ told. IfOk result (AreLoaded feed.now (told_folder told folder.now))) }
    ensures sound { IfOk result (IsSoundLoad feed.now) }
    ensures told { F.told files.new ≡ F.told files.old }
    ensures counted { F.faults files.old ≤ F.faults files.new }
    ensures steady { F.is_steady files.old → F.is_steady files.new
        × (F.faults files.new ≡ F.faults files.old) }
    ensures read_fault { IsErrOf result LoadError.ReadFault
        → HasFailed (F.faults files.old) (F.faults files.new) }
    ensures answered { result ≢ Err LoadError.ReadFault
        → F.faults files.new ≡ F.faults files.old }
{
    let found = fetch_times(alloc, files, folder)?;
    let times = read_files(alloc, feed, &found)?;
    Ok(times)
}
