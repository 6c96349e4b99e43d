// The faults of the records of calendar.txt by themselves.

ghost use Rattle.std.specs.Prelude.{◌≡◌, ℕ, List, IfOk, int_lt};
ghost use Rattle.flex_model.specs.declared.fault.InputFile.TheVariants as InputFiles;
ghost use Rattle.feed_tables.specs.Records.{header_of};
ghost use Rattle.feed_meaning.specs.FeedRules;
ghost use Rattle.feed_meaning.specs.Rules.{Values, repeats_id, stand};
ghost use Rattle.feed_meaning.specs.Tables.{entries_of, record_faults, values_of};
ghost use Rattle.feed_rules.specs.Calendars.{AreWeekColumns, IsReadWeek};

use crate::fields::{choice, date, is_no};
use feed_meaning::{Ids, add_faults, is_empty, rule, value};
use feed_tables::{RowView, Table};
use flex_model::{Fault, FaultCode, InputFile, Listed, NoMemory};
use std::alloc::Global;

/// The indexes of the columns of calendar.txt, where it has them.
#[derive(Clone, Copy)]
pub(crate) struct WeekColumns {
    pub(crate) service_id: Option<u32>,
    pub(crate) monday: Option<u32>,
    pub(crate) tuesday: Option<u32>,
    pub(crate) wednesday: Option<u32>,
    pub(crate) thursday: Option<u32>,
    pub(crate) friday: Option<u32>,
    pub(crate) saturday: Option<u32>,
    pub(crate) sunday: Option<u32>,
    pub(crate) start_date: Option<u32>,
    pub(crate) end_date: Option<u32>,
}

/// A record of calendar.txt: its service, the flags of the weekdays, and its first and last day since 1970-01-01.
#[derive(Clone, Copy)]
pub(crate) struct ServiceWeek<'a> {
    pub(crate) service: &'a str,
    pub(crate) monday: Option<u32>,
    pub(crate) tuesday: Option<u32>,
    pub(crate) wednesday: Option<u32>,
    pub(crate) thursday: Option<u32>,
    pub(crate) friday: Option<u32>,
    pub(crate) saturday: Option<u32>,
    pub(crate) sunday: Option<u32>,
    pub(crate) start: Option<i32>,
    pub(crate) end: Option<i32>,
}

// The indexes of the columns of a table.
fn week_columns(table: &Table) -> WeekColumns
    ensures { AreWeekColumns (header_of table.now) result }
{
    WeekColumns {
        service_id: table.column("service_id"),
        monday: table.column("monday"),
        tuesday: table.column("tuesday"),
        wednesday: table.column("wednesday"),
        thursday: table.column("thursday"),
        friday: table.column("friday"),
        saturday: table.column("saturday"),
        sunday: table.column("sunday"),
        start_date: table.column("start_date"),
        end_date: table.column("end_date"),
    }
}

// The service of a record, its flags and its days.
fn read_week<'a>(row: &RowView<'a>, columns: WeekColumns) -> ServiceWeek<'a>
    ensures { (header : List (List ℕ)) → AreWeekColumns header columns
        → IsReadWeek (values_of header row.now.fields) result }
{
    ServiceWeek {
        service: value(row, columns.service_id),
        monday: choice(value(row, columns.monday), 0, 1),
        tuesday: choice(value(row, columns.tuesday), 0, 1),
        wednesday: choice(value(row, columns.wednesday), 0, 1),
        thursday: choice(value(row, columns.thursday), 0, 1),
        friday: choice(value(row, columns.friday), 0, 1),
        saturday: choice(value(row, columns.saturday), 0, 1),
        sunday: choice(value(row, columns.sunday), 0, 1),
        start: date(value(row, columns.start_date)),
        end: date(value(row, columns.end_date)),
    }
}

// Whether both days are there, and the last is before the first.
fn ends_early(start: Option<i32>, end: Option<i32>) -> bool
    ensures { result ≡ stand (λ first last. int_lt last first) start end }
{
    match (start, end) {
        (Some(start), Some(end)) => end < start,
        _ => false,
    }
}

// The rules of a service.
fn calendar_rules(w: &ServiceWeek<'_>, is_repeated: bool) -> [Option<FaultCode>; 12]
    ensures { (earlier : List Values) (r : Values) → IsReadWeek r w.now
        → is_repeated ≡ repeats_id "service_id" earlier r
        → result ≡ FeedRules.calendar_rules earlier r }
{
    [
        rule(FaultCode::EmptyField, is_empty(w.service)),
        rule(FaultCode::DuplicateKey, is_repeated),
        rule(FaultCode::BadEnum, is_no(w.monday)),
        rule(FaultCode::BadEnum, is_no(w.tuesday)),
        rule(FaultCode::BadEnum, is_no(w.wednesday)),
        rule(FaultCode::BadEnum, is_no(w.thursday)),
        rule(FaultCode::BadEnum, is_no(w.friday)),
        rule(FaultCode::BadEnum, is_no(w.saturday)),
        rule(FaultCode::BadEnum, is_no(w.sunday)),
        rule(FaultCode::BadDate, is_no(w.start)),
        rule(FaultCode::BadDate, is_no(w.end)),
        rule(FaultCode::DateOrder, ends_early(w.start, w.end)),
    ]
}

/// The faults of the records of calendar.txt by themselves.
pub(crate) fn calendar_faults(alloc: Global, table: &Table) -> Result<Listed<Fault>, NoMemory>
    ensures { IfOk result
        (λ faults. faults ≡ record_faults InputFiles.Calendar FeedRules.calendar_rules
        (entries_of table.now)) }
{
    let columns = week_columns(table);
    let mut faults = Listed::new(alloc);
    let mut ids = Ids::new(alloc);
    for row in table.rows() {
        let week = read_week(&row, columns);
        let is_repeated = ids.note(week.service)?;
        let rules = calendar_rules(&week, is_repeated);
        add_faults(&mut faults, InputFile::Calendar, row.number(), &rules)?;
    }
    Ok(faults)
}
