// The records of csv, one after the other.

ghost use Rattle.std.specs.Prelude.{◌≡◌, ◌⊎◌, [], ◌∷◌, Err, IfErr, IfOk, OnErr};
ghost use Rattle.std.specs.Bool.{MatchBool};
ghost use Rattle.csv.specs.Records.{fields_of};
ghost use Rattle.feed_tables.specs.Left.{BeginsWithNoText, HasFirst};
ghost use Rattle.feed_tables.specs.Records.{csv_records};

use crate::refusal::TableRefusal;
use csv::{ByteRecord, ErrorKind, Reader, ReaderBuilder, StringRecord};
use flex_model::NoMemory;
use std::alloc::Global;
use std::marker::Model;

// A reader of a text, seen as the records that it has left.
#[derive(Drop)]
pub(crate) struct RecordReader<'a> {
    reader: Reader<&'a [u8]>,
}

impl<'a> Model for RecordReader<'a> {
    ghost use Rattle.std.specs.Prelude.{ℕ, List};
    ghost use Rattle.feed_tables.specs.Left.{records_left, GoesOn};

    ghost Value = { List (List (List ℕ)) };

    ghost view = { λ r. records_left r.reader };

    ghost invariant = { λ r. GoesOn r.reader };
}

impl<'a> RecordReader<'a> {
    pub(crate) fn new(alloc: Global, text: &'a [u8]) -> RecordReader<'a>
        ensures { result ≡ csv_records text.now }
    {
        let reader = ReaderBuilder::new()
            .has_headers(false)
            .flexible(true)
            .from_reader(alloc, text);
        RecordReader { reader }
    }

    // Takes the next record, which has this row number, and says whether there was one. Memory is
    // wanting where it ran out, or where the reader underneath failed, which csv's clauses leave
    // room for, though reads of a slice never do. Either stops the reader.
    pub(crate) fn next(&mut self, raw: &mut StringRecord, row: u64) -> Result<bool, TableRefusal>
        ensures found { IfOk result (λ found. MatchBool found
            (self.old ≡ fields_of raw.new ∷ self.new) (self.old ≡ [])) }
        ensures refused { IfErr result (λ e. (e ≡ TableRefusal.NoMemory)
            ⊎ ((e ≡ TableRefusal.NotUtf8 row) × BeginsWithNoText self.old)) }
        ensures stopped { result ≡ Err TableRefusal.NoMemory → self.new ≡ [] }
    {
        match self.reader.read_record(raw) {
            Ok(found) => Ok(found),
            Err(error) => match error.kind() {
                ErrorKind::Utf8 { .. } => Err(TableRefusal::NotUtf8 { row }),
                ErrorKind::Io(_) => Err(TableRefusal::NoMemory),
                ErrorKind::OutOfMemory => Err(TableRefusal::NoMemory),
                _ => unreachable!(),
            },
        }
    }

    // Whether there is a further record, of any bytes. Memory is wanting as above.
    pub(crate) fn has_next(&mut self, alloc: Global) -> Result<bool, NoMemory>
        ensures found { IfOk result (λ found. MatchBool found
            (HasFirst self.old) (self.old ≡ [])) }
        ensures stopped { OnErr result (self.new ≡ []) }
    {
        let mut raw = ByteRecord::new(alloc);
        match self.reader.read_byte_record(&mut raw) {
            Ok(found) => Ok(found),
            Err(error) => match error.kind() {
                ErrorKind::Io(_) => Err(NoMemory),
                ErrorKind::OutOfMemory => Err(NoMemory),
                _ => unreachable!(),
            },
        }
    }
}
