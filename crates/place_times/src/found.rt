// What the tables of a times folder were found to be.

ghost use Rattle.std.specs.Prelude.{IfOk};
ghost use Rattle.feed_meaning.specs.Told.{IsWithin};
ghost use Rattle.place_times.specs.Found.{IsFound};

use feed_meaning::refusal_fault;
use feed_tables::{Table, TableRefusal};
use flex_model::{Fault, FaultCode, InputFile, NoMemory, RawFile};
use std::alloc::Global;

/// What a table of a times folder was found to be. The folder can do without each of its tables.
#[derive(Drop)]
pub(crate) enum Found {
    /// There is no such file, or it has no record.
    Nothing,
    /// It can't be read, which is its only fault.
    Faulty(Fault),
    /// Its table.
    Read(Table),
}

/// Reads a file as a table.
pub(crate) fn read_file(alloc: Global, file: InputFile, raw: &RawFile) -> Result<Found, NoMemory>
    requires { IsWithin 4294967295 raw.now }
    ensures { IfOk result (IsFound file raw.now) }
{
    let bytes = match raw {
        RawFile::Absent => return Ok(Found::Nothing),
        RawFile::TooLarge => {
            return Ok(Found::Faulty(Fault {
                file,
                row: 0,
                code: FaultCode::FileTooLarge,
            }));
        }
        RawFile::Bytes(bytes) => bytes,
    };
    match Table::read(alloc, bytes.as_slice()) {
        Ok(table) => Ok(Found::Read(table)),
        Err(TableRefusal::NoHeader) => Ok(Found::Nothing),
        Err(refusal) => match refusal_fault(file, refusal) {
            Some(fault) => Ok(Found::Faulty(fault)),
            None => Err(NoMemory),
        },
    }
}
