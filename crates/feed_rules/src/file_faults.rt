// The faults of each table by itself.

ghost use Rattle.std.specs.Prelude.{◌≡◌, IfOk, IsTrue, codes, map};
ghost use Rattle.std.specs.List.{list_all};
ghost use Rattle.feed_tables.specs.Refusals.{is_given};
ghost use Rattle.feed_meaning.specs.Tables.{entries_of, record_faults};
ghost use Rattle.feed_rules.specs.Found as FoundFiles;
ghost use Rattle.feed_rules.specs.Found.{found_faults, schema_of};

use crate::agency::agency_faults;
use crate::booking_rules::booking_rule_faults;
use crate::calendar::calendar_faults;
use crate::calendar_dates::calendar_date_faults;
use crate::found::{Found, is_found};
use crate::frequencies::frequency_faults;
use crate::location_group_stops::group_stop_faults;
use crate::location_groups::group_faults;
use crate::routes::route_faults;
use crate::stop_times::stop_time_faults;
use crate::stops::stop_faults;
use crate::transfers::transfer_faults;
use crate::trips::trip_faults;
use feed_meaning::{add_missing_columns, refusal_fault};
use feed_tables::{Table, TableRefusal};
use flex_model::{Fault, FaultCode, InputFile, Listed, NoMemory};
use std::alloc::Global;

// The columns that a table needs.
fn needed_columns(file: InputFile) -> &'static [&'static str]
    ensures needed { map (λ name. name.now) result.now ≡ map codes (schema_of file).needed }
    ensures given { IsTrue (list_all (λ name. is_given name.now) result.now) }
{
    match file {
        InputFile::Agency => &["agency_timezone"],
        InputFile::Stops => &["stop_id"],
        InputFile::Routes => &["route_id"],
        InputFile::Trips => &["route_id", "service_id", "trip_id"],
        InputFile::StopTimes => &["trip_id", "stop_sequence"],
        InputFile::Calendar => &[
            "service_id",
            "monday",
            "tuesday",
            "wednesday",
            "thursday",
            "friday",
            "saturday",
            "sunday",
            "start_date",
            "end_date",
        ],
        InputFile::CalendarDates => &["service_id", "date", "exception_type"],
        InputFile::LocationGroups => &["location_group_id"],
        InputFile::LocationGroupStops => &["location_group_id", "stop_id"],
        InputFile::BookingRules => &["booking_rule_id", "booking_type"],
        InputFile::Transfers => &["transfer_type"],
        InputFile::Frequencies => &["trip_id", "start_time", "end_time", "headway_secs"],
        _ => &[],
    }
}

// The faults of the records of a table, by the rules of its file. Other files than the twelve tables have no rules.
fn row_faults(alloc: Global, file: InputFile, table: &Table) -> Result<Listed<Fault>, NoMemory>
    ensures { IfOk result (λ faults. faults ≡ record_faults file (schema_of file).rules
        (entries_of table.now)) }
{
    match file {
        InputFile::Agency => agency_faults(alloc, table),
        InputFile::Stops => stop_faults(alloc, table),
        InputFile::Routes => route_faults(alloc, table),
        InputFile::Trips => trip_faults(alloc, table),
        InputFile::StopTimes => stop_time_faults(alloc, table),
        InputFile::Calendar => calendar_faults(alloc, table),
        InputFile::CalendarDates => calendar_date_faults(alloc, table),
        InputFile::LocationGroups => group_faults(alloc, table),
        InputFile::LocationGroupStops => group_stop_faults(alloc, table),
        InputFile::BookingRules => booking_rule_faults(alloc, table),
        InputFile::Transfers => transfer_faults(alloc, table),
        InputFile::Frequencies => frequency_faults(alloc, table),
        _ => Ok(Listed::new(alloc)),
    }
}

// The fault of a file that is there, before its records are judged, or that is missing.
fn outer_faults(
    alloc: Global,
    file: InputFile,
    is_needed: bool,
    found: &Found,
) -> Result<Listed<Fault>, NoMemory>
    ensures { IfOk result (λ faults. faults ≡ FoundFiles.outer_faults file is_needed found.now) }
{
    let mut faults = Listed::new(alloc);
    if !is_found(file, found) {
        if is_needed {
            faults.push(Fault {
                file,
                row: 0,
                code: FaultCode::MissingFile,
            })?;
        }
        return Ok(faults);
    }
    match found {
        Found::Absent => {}
        Found::TooLarge => faults.push(Fault {
            file,
            row: 0,
            code: FaultCode::FileTooLarge,
        })?,
        Found::Refused(refusal) => {
            if let Some(fault) = refusal_fault(file, *refusal) {
                faults.push(fault)?;
            }
        }
        Found::Read(table) => add_missing_columns(&mut faults, file, table, needed_columns(file))?,
    }
    Ok(faults)
}

/// The faults of a table by itself.
pub(crate) fn table_faults(
    alloc: Global,
    file: InputFile,
    is_needed: bool,
    found: &Found,
) -> Result<Listed<Fault>, NoMemory>
    ensures { IfOk result (λ faults. faults ≡ found_faults file is_needed found.now) }
{
    let outer = outer_faults(alloc, file, is_needed, found)?;
    let Found::Read(table) = found else {
        return Ok(outer);
    };
    if !outer.is_empty() {
        return Ok(outer);
    }
    row_faults(alloc, file, table)
}
