// Tables.

ghost use Rattle.std.specs.Prelude.{◌≡◌, ◌≢◌, ◌≤◌, ◌<◌, ◌+◌, ◌-◌, ◌^◌, ◌++◌, ◌∷◌, ◌⊎◌, []};
ghost use Rattle.std.specs.Prelude.{true, false, None, Some, IfErr, IfOk, OnErr, OnOk};
ghost use Rattle.std.specs.Prelude.{drop, filter, get_or, length, map, position, sum_by};
ghost use Rattle.std.specs.List.{list_all, list_any};
ghost use Rattle.std.specs.Str.{bytes_eq, is_utf8};
ghost use Rattle.csv.specs.Records.{fields_of};
ghost use Rattle.feed_tables.specs.Fields.{all_trimmed, value_at};
ghost use Rattle.feed_tables.specs.Parts.{EndAt, parts};
ghost use Rattle.feed_tables.specs.Records.{header_of, rows_of, table_records};
ghost use Rattle.feed_tables.specs.Refusals.{first_refusal, has_duplicate, header_refusal};
ghost use Rattle.feed_tables.specs.Refusals.{is_given, refusal_of};

use crate::fields::{trim_blanks, without_mark};
use crate::pool::Pool;
use crate::records::RecordReader;
use crate::refusal::TableRefusal;
use crate::rows::Rows;
use csv::StringRecord;
use flex_model::NoMemory;
use flex_model::limits::MOST_RECORDS;
use std::alloc::Global;
use std::collections::BTreeMap;
use std::marker::Model;

/// A table of a feed (GTFS Schedule reference, file requirements): the records of a file's bytes,
/// header first, which contracts see as the list of their fields. The text of all fields lies in
/// one pool.
#[derive(Drop)]
pub struct Table {
    pool: Pool,
    // How many fields of the pool end with each record.
    ends: Vec<usize>,
}

impl Model for Table {
    ghost use Rattle.std.specs.Prelude.{ℕ, List};
    ghost use Rattle.feed_tables.specs.Parts.{IsTable, parts};

    ghost Value = { List (List (List ℕ)) };

    ghost view = { λ t. parts 0 t.ends.items t.pool };

    ghost invariant = { λ t. IsTable t.ends.items t.pool };
}

// Adds a record's fields without the blanks around them.
fn push_fields(pool: &mut Pool, raw: &StringRecord) -> Result<(), NoMemory>
    requires { sum_by length pool.old + sum_by length (fields_of raw.now) < 2 ^ 32 }
    ensures fields { OnOk result (pool.new ≡ pool.old ++ all_trimmed (fields_of raw.now)) }
    ensures text { OnOk result (list_all is_utf8 (all_trimmed (fields_of raw.now)) ≡ true) }
{
    for field in raw.iter() {
        pool.push(trim_blanks(field))?;
    }
    Ok(())
}

// Whether a field from this index on isn't empty.
fn has_given(pool: &Pool, from: usize) -> bool
    ensures { result ≡ list_any is_given (drop from pool.now) }
{
    for index in from..pool.len() {
        if !pool.get(index).is_empty() {
            return true;
        }
    }
    false
}

// Whether a name that isn't empty stands in a header twice.
fn repeats_name(alloc: Global, header: &Pool) -> Result<bool, NoMemory>
    ensures { IfOk result (λ twice. twice ≡ has_duplicate (filter is_given header.now)) }
{
    let mut later = BTreeMap::new(alloc);
    for back in 0..header.len() {
        let name = header.get(header.len() - back - 1);
        if name.is_empty() {
            continue;
        }
        if later.insert(name, ())?.is_some() {
            return Ok(true);
        }
    }
    Ok(false)
}

// Adds the header of a table.
fn push_header(
    alloc: Global,
    pool: &mut Pool,
    ends: &mut Vec<usize>,
    raw: &StringRecord,
) -> Result<(), TableRefusal>
    requires pool { pool.old ≡ [] }
    requires ends { ends.old.items ≡ [] }
    requires room { sum_by length (fields_of raw.now) < 2 ^ 32 }
    ensures fields { OnOk result (pool.new ≡ all_trimmed (fields_of raw.now)) }
    ensures ends { OnOk result (ends.new.items ≡ length (fields_of raw.now) ∷ []) }
    ensures sound { OnOk result (header_refusal (fields_of raw.now) ≡ None) }
    ensures refused { IfErr result (λ e. (e ≡ TableRefusal.NoMemory)
        ⊎ (header_refusal (fields_of raw.now) ≡ Some e)) }
{
    push_fields(pool, raw)?;
    let twice = repeats_name(alloc, pool)?;
    if twice {
        return Err(TableRefusal::DuplicateColumn);
    }
    ends.push(pool.len())?;
    Ok(())
}

// Adds a record after the header, which stands at this index and has so many columns.
fn push_row(
    pool: &mut Pool,
    ends: &mut Vec<usize>,
    raw: &StringRecord,
    columns: usize,
    index: u64,
) -> Result<(), TableRefusal>
    requires low { 0 < index }
    requires high { index ≤ MOST_RECORDS }
    requires cut { EndAt 0 ends.old.items (length pool.old) }
    requires room { sum_by length pool.old + sum_by length (fields_of raw.now) < 2 ^ 32 }
    ensures fields { OnOk result (pool.new ≡ pool.old ++ all_trimmed (fields_of raw.now)) }
    ensures record { OnOk result (parts 0 ends.new.items pool.new
        ≡ parts 0 ends.old.items pool.old ++ all_trimmed (fields_of raw.now) ∷ []) }
    ensures ends { OnOk result (ends.new.items ≡ ends.old.items ++ length pool.new ∷ []) }
    ensures cut { OnOk result (EndAt 0 ends.new.items (length pool.new)) }
    ensures sound { OnOk result
        (refusal_of columns index (all_trimmed (fields_of raw.now)) ≡ None) }
    ensures refused { IfErr result (λ e. (e ≡ TableRefusal.NoMemory)
        ⊎ (refusal_of columns index (all_trimmed (fields_of raw.now)) ≡ Some e)) }
{
    let start = pool.len();
    push_fields(pool, raw)?;
    let width = pool.len() - start;
    if columns < width && has_given(pool, start + columns) {
        return Err(TableRefusal::RowTooLong { row: index + 1 });
    }
    ends.push(pool.len())?;
    Ok(())
}

impl Table {
    /// The table of a file's bytes, of which there are fewer than 2^32, or the first rule that they
    /// break: `NoHeader` where there is no record, and else, record by record from the header on,
    /// `TooManyRows`, `NotUtf8`, `DuplicateColumn` and `RowTooLong`. It goes over the bytes once.
    /// The pool has as many bytes as the file; beside it a field takes 4 bytes and a record 8, and
    /// at most three times that while the lists of their ends grow.
    pub fn read(alloc: Global, bytes: &[u8]) -> Result<Table, TableRefusal>
        requires { length bytes.now < 2 ^ 32 }
        ensures records { IfOk result (λ table. table ≡ table_records bytes.now) }
        ensures accepted { OnOk result (first_refusal (table_records bytes.now) ≡ None) }
        ensures refused { IfErr result (λ e. (e ≡ TableRefusal.NoMemory)
            ⊎ (first_refusal (table_records bytes.now) ≡ Some e)) }
    {
        let mut left = RecordReader::new(alloc, without_mark(bytes));
        let mut raw = StringRecord::new(alloc);
        if !left.next(&mut raw, 1)? {
            return Err(TableRefusal::NoHeader);
        }
        let columns = raw.len();
        let mut pool = Pool::with_room(alloc, bytes.len())?;
        let mut ends = Vec::new(alloc);
        push_header(alloc, &mut pool, &mut ends, &raw)?;
        for index in 1..MOST_RECORDS + 1 {
            if !left.next(&mut raw, index + 1)? {
                return Ok(Table { pool, ends });
            }
            push_row(&mut pool, &mut ends, &raw, columns, index)?;
        }
        if left.has_next(alloc)? {
            return Err(TableRefusal::TooManyRows);
        }
        Ok(Table { pool, ends })
    }

    /// The index of the column with this name, from 0, or `None` where the header lacks it.
    pub fn column(&self, name: &str) -> Option<u32>
        requires { name.now ≢ [] }
        ensures { result ≡ position (bytes_eq name.now) (header_of self.now) }
    {
        for column in 0..self.ends[0] {
            if name == self.pool.get(column) {
                return Some(column as u32);
            }
        }
        None
    }

    /// The records after the header, in order, which are no more than the limit.
    pub fn rows(&self) -> Rows<'_>
        ensures rows { result ≡ rows_of self.now }
        ensures few { length result ≤ MOST_RECORDS }
    {
        let _ends = &self.ends;
        Rows::new(self)
    }

    // How many records there are, with the header.
    pub(crate) fn record_count(&self) -> usize
        ensures { result ≡ length self.now }
    {
        self.ends.len()
    }

    // The field of a record after the header, at an index in it.
    pub(crate) fn field_at(&self, index: usize, column: usize) -> &str
        requires low { 0 < index }
        requires high { index < length self.now }
        ensures { result.now ≡ value_at (get_or self.now index []) column }
    {
        let start = self.ends[index - 1];
        let width = self.ends[index] - start;
        if column >= width {
            return "";
        }
        self.pool.get(start + column)
    }
}
