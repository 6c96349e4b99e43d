// Input files, fetched within their limits.

ghost use Rattle.std.specs.Prelude.{◌≡◌, ◌≢◌, ◌≤◌, ◌++◌, Err, IfOk, IfSome, IsErrOf};
ghost use Rattle.flex_io.specs.Outside.{HasFailed, HasFileWithin};
ghost use Rattle.feed_meaning.specs.Files as FileLimits;
ghost use Rattle.feed_meaning.specs.Told.{IsWithin, path_in, told_file, told_folder};

use crate::files::{byte_limit, file_name};
use flex_io::{FetchError, Files, Got, LoadError};
use flex_model::{InputFile, Listed, NoMemory, RawFile, Text};
use std::alloc::Global;

/// Fetches the file of a path, which may have so many bytes.
pub fn fetch_file<F: Files>(
    alloc: Global,
    files: &mut F,
    path: &str,
    limit: u64,
) -> Result<RawFile, LoadError>
    // Where files are told, the file is the told one. It has no more bytes than the limit.
    ensures fetched { IfSome (F.told files.old) (λ told.
        IfOk result (λ raw. raw ≡ told_file told limit path.now)) }
    ensures within { IfOk result (IsWithin limit) }

    // Where files are told, memory runs out only for a file that is within the limit.
    ensures memory { IsErrOf result LoadError.NoMemory
        → IfSome (F.told files.old) (HasFileWithin path.now limit) }

    ensures told { F.told files.new ≡ F.told files.old }
    ensures counted { F.faults files.old ≤ F.faults files.new }
    ensures steady { F.is_steady files.old
        → F.is_steady files.new × (F.faults files.new ≡ F.faults files.old) }

    // A read fault is answered only where it was counted in this call, or the count stands at its
    // last value, and a fault that was counted is answered.
    ensures read_fault { IsErrOf result LoadError.ReadFault
        → HasFailed (F.faults files.old) (F.faults files.new) }
    ensures answered { result ≢ Err LoadError.ReadFault
        → F.faults files.new ≡ F.faults files.old }
{
    let mut bytes = Vec::new(alloc);
    match files.fetch(alloc, path, limit, &mut bytes) {
        Ok(Got::Whole) => Ok(RawFile::Bytes(Listed::from_vec(bytes))),
        Ok(Got::Absent) => Ok(RawFile::Absent),
        Ok(Got::TooLarge) => Ok(RawFile::TooLarge),
        Err(FetchError::Failed) => Err(LoadError::ReadFault),
        Err(FetchError::NoMemory) => Err(LoadError::NoMemory),
    }
}

// The path of a file in its folder.
fn path_in(alloc: Global, folder: &str, file: InputFile) -> Result<Text, NoMemory>
    ensures { IfOk result (λ path. path ≡ path_in folder.now file) }
{
    let mut path = Text::new(alloc);
    path.append(folder)?;
    path.append("/")?;
    path.append(file_name(file))?;
    Ok(path)
}

/// Fetches a file of a folder, within the file's limit.
pub fn fetch_input<F: Files>(
    alloc: Global,
    files: &mut F,
    folder: &str,
    file: InputFile,
) -> Result<RawFile, LoadError>
    // Where files are told, the file is the told one. It has no more bytes than its limit.
    ensures fetched { IfSome (F.told files.old) (λ told.
        IfOk result (λ raw. raw ≡ told_folder told folder.now file)) }
    ensures within { IfOk result (IsWithin (FileLimits.byte_limit file)) }

    ensures told { F.told files.new ≡ F.told files.old }
    ensures counted { F.faults files.old ≤ F.faults files.new }
    ensures steady { F.is_steady files.old
        → F.is_steady files.new × (F.faults files.new ≡ F.faults files.old) }

    // A read fault is answered only where it was counted in this call, or the count stands at its
    // last value, and a fault that was counted is answered.
    ensures read_fault { IsErrOf result LoadError.ReadFault
        → HasFailed (F.faults files.old) (F.faults files.new) }
    ensures answered { result ≢ Err LoadError.ReadFault
        → F.faults files.new ≡ F.faults files.old }
{
    let path = path_in(alloc, folder, file)?;
    fetch_file(alloc, files, path.as_str(), byte_limit(file))
}
