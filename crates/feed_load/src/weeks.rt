// The services of a feed with the weeks of calendar.txt.

ghost use Rattle.std.specs.Prelude.{◌≡◌, [], IfOk, map};
ghost use Rattle.flex_model.specs.SoundTimes.{AreIds};
ghost use Rattle.feed_tables.specs.Records.{header_of};
ghost use Rattle.feed_meaning.specs.FeedValue.{service_of};
ghost use Rattle.feed_rules.specs.Links.{records_in};
ghost use Rattle.feed_load.specs.Calendars as Calendars;
ghost use Rattle.feed_load.specs.Calendars.{calendars, runs_at, week_at, with_week_at};
ghost use Rattle.feed_load.specs.TableValues.{values_in};

use crate::fields::{day, text_of};
use feed_meaning::{Ids, is_text, value};
use feed_tables::{RowView, Table};
use flex_model::{Listed, NoMemory, Service};
use std::alloc::Global;

// The columns of calendar.txt that are read of a service's record.
#[derive(Clone, Copy)]
struct WeekColumns {
    monday: Option<u32>,
    tuesday: Option<u32>,
    wednesday: Option<u32>,
    thursday: Option<u32>,
    friday: Option<u32>,
    saturday: Option<u32>,
    sunday: Option<u32>,
    start: Option<u32>,
    end: Option<u32>,
}

// The columns of a table.
fn week_columns(table: &Table) -> WeekColumns
    ensures { result ≡ Calendars.week_columns (header_of table.now) }
{
    WeekColumns {
        monday: table.column("monday"),
        tuesday: table.column("tuesday"),
        wednesday: table.column("wednesday"),
        thursday: table.column("thursday"),
        friday: table.column("friday"),
        saturday: table.column("saturday"),
        sunday: table.column("sunday"),
        start: table.column("start_date"),
        end: table.column("end_date"),
    }
}

// Whether a service runs on the weekday of a column.
fn runs(row: &RowView<'_>, column: Option<u32>) -> bool
    ensures { result ≡ runs_at row.now.fields column }
{
    is_text(value(row, column), "1")
}

// The flags of a record's week.
fn week(row: &RowView<'_>, columns: WeekColumns) -> [bool; 7]
    ensures { result ≡ week_at columns row.now.fields }
{
    [
        runs(row, columns.monday),
        runs(row, columns.tuesday),
        runs(row, columns.wednesday),
        runs(row, columns.thursday),
        runs(row, columns.friday),
        runs(row, columns.saturday),
        runs(row, columns.sunday),
    ]
}

// Gives a service the week and the days of a record.
fn set_week(service: &mut Service, row: &RowView<'_>, columns: WeekColumns)
    ensures { service.new ≡ with_week_at columns row.now.fields service.old }
{
    service.flags = week(row, columns);
    service.first = day(value(row, columns.start));
    service.last = day(value(row, columns.end));
}

// A service without a week and without dates.
fn bare_service(alloc: Global, id: &str) -> Result<Service, NoMemory>
    ensures { IfOk result (λ service. service ≡ service_of (calendars [] []) id.now) }
{
    Ok(Service {
        id: text_of(alloc, id)?,
        flags: [false; 7],
        first: 1,
        last: 0,
        added: Listed::new(alloc),
        removed: Listed::new(alloc),
    })
}

// A service without a week and without dates for each id.
fn bare_services(alloc: Global, ids: &Ids<'_>) -> Result<Vec<Service>, NoMemory>
    ensures { IfOk result (λ services.
        services.items ≡ map (service_of (calendars [] [])) ids.now) }
{
    let mut services = Vec::new(alloc);
    for index in 0..ids.len() {
        let Some(id) = ids.at(index) else {
            continue;
        };
        services.push(bare_service(alloc, id)?)?;
    }
    Ok(services)
}

// The services with the weeks of a calendar, each by its first record there.
fn services_in_weeks(
    alloc: Global,
    calendar: &Table,
    ids: &Ids<'_>,
) -> Result<Vec<Service>, NoMemory>
    requires { AreIds ids.now }
    ensures { IfOk result (λ services.
        services.items ≡ map (service_of (calendars (values_in calendar.now) [])) ids.now) }
{
    let service_id = calendar.column("service_id");
    let columns = week_columns(calendar);
    let mut services = bare_services(alloc, ids)?;
    let mut met = Ids::new(alloc);
    for row in calendar.rows() {
        let id = value(&row, service_id);
        let is_repeated = met.note(id)?;
        if is_repeated {
            continue;
        }
        let Some(index) = ids.index_of(id) else {
            continue;
        };
        set_week(&mut services[index as usize], &row, columns);
    }
    Ok(services)
}

/// The services with these ids and their weeks, without dates: a service that calendar.txt doesn't
/// name has none.
pub(crate) fn weekly_services(
    alloc: Global,
    calendar: Option<&Table>,
    ids: &Ids<'_>,
) -> Result<Vec<Service>, NoMemory>
    requires { AreIds ids.now }
    ensures { IfOk result (λ services.
        services.items ≡ map (service_of (calendars (records_in calendar.entry) [])) ids.now) }
{
    match calendar {
        Some(calendar) => services_in_weeks(alloc, calendar, ids),
        None => bare_services(alloc, ids),
    }
}
