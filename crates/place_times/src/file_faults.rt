// The faults of each table by itself.

ghost use Rattle.std.specs.Prelude.{◌≡◌, IfOk, IsTrue, codes, map, true};
ghost use Rattle.std.specs.List.{list_all};
ghost use Rattle.feed_tables.specs.Refusals.{is_given};
ghost use Rattle.feed_meaning.specs.Tables.{entries_of, record_faults};
ghost use Rattle.place_times.specs.Found as FoundFiles;
ghost use Rattle.place_times.specs.Found.{found_faults, is_times_table, schema_of};

use crate::found::Found;
use crate::point_records::point_faults;
use crate::span_records::span_faults;
use feed_meaning::add_missing_columns;
use feed_tables::Table;
use flex_model::limits::{GREATEST_DIRECT, GREATEST_WALK};
use flex_model::{Fault, InputFile, Listed, NoMemory};
use std::alloc::Global;

// The columns that a table needs.
fn needed_columns(file: InputFile) -> &'static [&'static str]
    ensures needed { map (λ name. name.now) result.now ≡ map codes (schema_of file).needed }
    ensures given { IsTrue (list_all (λ name. is_given name.now) result.now) }
{
    match file {
        InputFile::Points => &["point_id", "point_lat", "point_lon"],
        InputFile::Direct => &["from_id", "to_id", "seconds"],
        InputFile::Walks => &["from_id", "to_id", "seconds"],
        _ => &[],
    }
}

// The faults of the records of a table.
fn row_faults(alloc: Global, file: InputFile, table: &Table) -> Result<Listed<Fault>, NoMemory>
    ensures { IfOk result (λ faults. is_times_table file ≡ true
        → faults ≡ record_faults file (schema_of file).rules (entries_of table.now)) }
{
    match file {
        InputFile::Points => point_faults(alloc, table),
        InputFile::Direct => span_faults(alloc, InputFile::Direct, GREATEST_DIRECT, table),
        InputFile::Walks => span_faults(alloc, InputFile::Walks, GREATEST_WALK, table),
        _ => Ok(Listed::new(alloc)),
    }
}

// The faults of a table before its records are judged.
fn outer_faults(alloc: Global, file: InputFile, found: &Found) -> Result<Listed<Fault>, NoMemory>
    ensures { IfOk result (λ faults. faults ≡ FoundFiles.outer_faults file found.now) }
{
    let mut faults = Listed::new(alloc);
    match found {
        Found::Nothing => {}
        Found::Faulty(fault) => faults.push(*fault)?,
        Found::Read(table) => add_missing_columns(&mut faults, file, table, needed_columns(file))?,
    }
    Ok(faults)
}

/// The faults of a table by itself.
pub(crate) fn table_faults(
    alloc: Global,
    file: InputFile,
    found: &Found,
) -> Result<Listed<Fault>, NoMemory>
    requires { is_times_table file ≡ true }
    ensures { IfOk result (λ faults. faults ≡ found_faults file found.now) }
{
    let outer = outer_faults(alloc, file, found)?;
    let Found::Read(table) = found else {
        return Ok(outer);
    };
    if !outer.is_empty() {
        return Ok(outer);
    }
    row_faults(alloc, file, table)
}
