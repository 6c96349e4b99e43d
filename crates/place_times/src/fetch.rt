// The files of a times folder.

ghost use Rattle.std.specs.Prelude.{◌≡◌, ◌≢◌, ◌≤◌, Err, IfOk, IfSome, IsErrOf};
ghost use Rattle.flex_io.specs.Outside.{HasFailed};
ghost use Rattle.flex_model.specs.declared.fault.InputFile.TheVariants as InputFiles;
ghost use Rattle.flex_model.specs.declared.fault.RawFile.TheVariants as Raw;
ghost use Rattle.feed_meaning.specs.Told.{told_folder};
ghost use Rattle.place_times.specs.Fetches.{AreCounted, AreFetched};

use feed_meaning::fetch_input;
use flex_io::{Files, LoadError};
use flex_model::{InputFile, RawFile};
use std::alloc::Global;

/// The files of a times folder, as they were fetched. `zone.tzif` counts as absent where it wasn't fetched.
#[derive(Drop)]
pub(crate) struct TimesFiles {
    pub(crate) zone_text: RawFile,
    pub(crate) zone_tzif: RawFile,
    pub(crate) points: RawFile,
    pub(crate) direct: RawFile,
    pub(crate) walks: RawFile,
}

// Fetches `zone.tzif` where `zone.txt` is absent.
fn fetch_tzif<F: Files>(
    alloc: Global,
    files: &mut F,
    folder: &str,
    text: &RawFile,
) -> Result<RawFile, LoadError>
    ensures fetched { IfSome (F.told files.old)
        (λ told. IfOk result (λ raw. text.now ≡ Raw.Absent
        → raw ≡ told_folder told folder.now InputFiles.ZoneTzif)) }
    ensures told { F.told files.new ≡ F.told files.old }
    ensures counted { F.faults files.old ≤ F.faults files.new }
    ensures steady { F.is_steady files.old → F.is_steady files.new
        × (F.faults files.new ≡ F.faults files.old) }
    ensures read_fault { IsErrOf result LoadError.ReadFault
        → HasFailed (F.faults files.old) (F.faults files.new) }
    ensures answered { result ≢ Err LoadError.ReadFault
        → F.faults files.new ≡ F.faults files.old }
{
    match text {
        RawFile::Absent => fetch_input(alloc, files, folder, InputFile::ZoneTzif),
        _ => Ok(RawFile::Absent),
    }
}

/// Fetches the files of a times folder, each once and in their order: `zone.txt`, `zone.tzif` only where `zone.txt` is
/// absent, `points.txt`, `direct.txt` and `walks.txt`.
pub(crate) fn fetch_times<F: Files>(
    alloc: Global,
    files: &mut F,
    folder: &str,
) -> Result<TimesFiles, LoadError>
    ensures fetched { IfSome (F.told files.old)
        (λ told. IfOk result (AreFetched (told_folder told folder.now))) }
    ensures within { IfOk result AreCounted }
    ensures told { F.told files.new ≡ F.told files.old }
    ensures counted { F.faults files.old ≤ F.faults files.new }
    ensures steady { F.is_steady files.old → F.is_steady files.new
        × (F.faults files.new ≡ F.faults files.old) }
    ensures read_fault { IsErrOf result LoadError.ReadFault
        → HasFailed (F.faults files.old) (F.faults files.new) }
    ensures answered { result ≢ Err LoadError.ReadFault
        → F.faults files.new ≡ F.faults files.old }
{
    let zone_text = fetch_input(alloc, files, folder, InputFile::ZoneText)?;
    let zone_tzif = fetch_tzif(alloc, files, folder, &zone_text)?;
    let points = fetch_input(alloc, files, folder, InputFile::Points)?;
    let direct = fetch_input(alloc, files, folder, InputFile::Direct)?;
    let walks = fetch_input(alloc, files, folder, InputFile::Walks)?;
    Ok(TimesFiles {
        zone_text,
        zone_tzif,
        points,
        direct,
        walks,
    })
}
