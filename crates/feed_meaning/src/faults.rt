// Faults by rules.

ghost use Rattle.std.specs.Prelude.{◌≡◌, ◌++◌, OnOk, OnErr, IsTrue, map, codes};
ghost use Rattle.std.specs.List.{list_all};
ghost use Rattle.std.specs.Option.{option_to_list};
ghost use Rattle.feed_tables.specs.Records.{header_of};
ghost use Rattle.feed_tables.specs.Refusals.{is_given};
ghost use Rattle.feed_meaning.specs.Rules;
ghost use Rattle.feed_meaning.specs.Tables as Lists;
ghost use Rattle.feed_meaning.specs.Tables.{Schema, faults_at, missing_columns, missing_faults};

use feed_tables::{Table, TableRefusal};
use flex_model::limits::MOST_RECORDS;
use flex_model::{Fault, FaultCode, InputFile, Listed, NoMemory};

/// A rule at a record: its fault, where it is broken.
pub fn rule(code: FaultCode, is_broken: bool) -> Option<FaultCode>
    ensures { result ≡ Rules.rule code is_broken }
{
    if is_broken { Some(code) } else { None }
}

/// Adds the faults of a row by its rules, in their order. After want of memory the first of them
/// may be there.
pub fn add_faults(
    faults: &mut Listed<Fault>,
    file: InputFile,
    row: u64,
    rules: &[Option<FaultCode>],
) -> Result<(), NoMemory>
    ensures { OnOk result (faults.new ≡ faults.old ++ faults_at file row rules.now) }
{
    for rule in rules {
        if let Some(code) = *rule {
            faults.push(Fault { file, row, code })?;
        }
    }
    Ok(())
}

/// The fault of a table that is refused, unless for want of memory.
pub fn refusal_fault(file: InputFile, refusal: TableRefusal) -> Option<Fault>
    ensures { option_to_list result ≡ Lists.refusal_fault file refusal }
{
    let (row, code) = match refusal {
        TableRefusal::NotUtf8 { row } => (row, FaultCode::NotUtf8),
        TableRefusal::NoHeader => (0, FaultCode::NoHeader),
        TableRefusal::DuplicateColumn => (1, FaultCode::DuplicateColumn),
        TableRefusal::RowTooLong { row } => (row, FaultCode::RowTooLong),
        TableRefusal::TooManyRows => (MOST_RECORDS + 2, FaultCode::TooManyRows),
        TableRefusal::NoMemory => return None,
    };
    Some(Fault { file, row, code })
}

/// Adds a fault for each needed column that the table lacks, in their order. After want of memory
/// the first of them may be there.
pub fn add_missing_columns(
    faults: &mut Listed<Fault>,
    file: InputFile,
    table: &Table,
    needed: &[&str],
) -> Result<(), NoMemory>
    requires { IsTrue (list_all (λ name. is_given name.now) needed.now) }
    ensures { (schema : Schema) → map (λ name. name.now) needed.now ≡ map codes schema.needed
        → OnOk result (faults.new
        ≡ faults.old ++ missing_faults file (missing_columns schema (header_of table.now))) }
{
    for name in needed {
        if table.column(name).is_none() {
            faults.push(Fault {
                file,
                row: 1,
                code: FaultCode::MissingColumn,
            })?;
        }
    }
    Ok(())
}
