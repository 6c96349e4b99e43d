// What the files of a feed were found to be.

ghost use Rattle.std.specs.Prelude.{◌≡◌, IfOk};
ghost use Rattle.feed_meaning.specs.Told.{IsWithin};
ghost use Rattle.feed_rules.specs.Found as FoundFiles;
ghost use Rattle.feed_rules.specs.Found.{IsFound};

use feed_meaning::may_be_blank;
use feed_tables::{Table, TableRefusal};
use flex_model::{InputFile, NoMemory, RawFile};
use std::alloc::Global;

/// What a file of a feed was found to be.
#[derive(Drop)]
pub(crate) enum Found {
    /// There is no such file.
    Absent,
    /// It has more bytes than are read.
    TooLarge,
    /// It is refused as a table.
    Refused(TableRefusal),
    /// Its table.
    Read(Table),
}

/// Reads a file as a table.
pub(crate) fn read_file(alloc: Global, raw: &RawFile) -> Result<Found, NoMemory>
    requires { IsWithin 4294967295 raw.now }
    ensures { IfOk result (IsFound raw.now) }
{
    let bytes = match raw {
        RawFile::Absent => return Ok(Found::Absent),
        RawFile::TooLarge => return Ok(Found::TooLarge),
        RawFile::Bytes(bytes) => bytes,
    };
    match Table::read(alloc, bytes.as_slice()) {
        Ok(table) => Ok(Found::Read(table)),
        Err(TableRefusal::NoMemory) => Err(NoMemory),
        Err(refusal) => Ok(Found::Refused(refusal)),
    }
}

/// Whether the file was found, and doesn't count as absent.
pub(crate) fn is_found(file: InputFile, found: &Found) -> bool
    ensures { result ≡ FoundFiles.is_found file found.now }
{
    match found {
        Found::Absent => false,
        Found::Refused(TableRefusal::NoHeader) => !may_be_blank(file),
        _ => true,
    }
}
