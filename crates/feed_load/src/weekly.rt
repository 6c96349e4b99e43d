// The services of both calendars.

ghost use Rattle.std.specs.Prelude.{◌≡◌, IfOk, OnOk, fold, map};
ghost use Rattle.flex_model.specs.declared.fault.InputFile.TheVariants as InputFiles;
ghost use Rattle.flex_model.specs.SoundTimes.{AreIds};
ghost use Rattle.feed_meaning.specs.FeedLinks.{Tables};
ghost use Rattle.feed_meaning.specs.FeedValue as Value;
ghost use Rattle.feed_meaning.specs.FeedValue.{service_of};
ghost use Rattle.feed_meaning.specs.Noted.{noted};
ghost use Rattle.feed_rules.specs.Links.{records_in};
ghost use Rattle.feed_load.specs.Calendars.{NameServices, calendars, with_exception};
ghost use Rattle.feed_load.specs.TableValues.{values_in};

use crate::fields::day;
use crate::weeks::weekly_services;
use feed_meaning::{Ids, is_text, value};
use feed_tables::Table;
use flex_model::{Listed, NoMemory, Service};
use std::alloc::Global;

// Notes the services that a table names.
fn note_services<'a>(ids: &mut Ids<'a>, table: &'a Table) -> Result<(), NoMemory>
    ensures { OnOk result (ids.new
        ≡ fold noted ids.old (map (λ r. r "service_id") (values_in table.now))) }
{
    let service_id = table.column("service_id");
    for row in table.rows() {
        ids.note(value(&row, service_id))?;
    }
    Ok(())
}

// Notes the services that a table names, if there is one.
fn note_any_services<'a>(ids: &mut Ids<'a>, table: Option<&'a Table>) -> Result<(), NoMemory>
    ensures { OnOk result (ids.new
        ≡ fold noted ids.old (map (λ r. r "service_id") (records_in table.entry))) }
{
    match table {
        Some(table) => note_services(ids, table),
        None => Ok(()),
    }
}

/// The ids of the services of both calendars, each once: those of calendar.txt and then those of
/// calendar_dates.txt.
pub(crate) fn service_ids<'a>(
    alloc: Global,
    calendar: Option<&'a Table>,
    dates: Option<&'a Table>,
) -> Result<Ids<'a>, NoMemory>
    requires calendar { NameServices calendar }
    requires dates { NameServices dates }
    ensures found { IfOk result (λ ids. (tables : Tables)
        → tables InputFiles.Calendar ≡ records_in calendar.entry
        → tables InputFiles.CalendarDates ≡ records_in dates.entry
        → ids ≡ Value.service_ids tables) }
    ensures distinct { IfOk result AreIds }
{
    let mut ids = Ids::new(alloc);
    note_any_services(&mut ids, calendar)?;
    note_any_services(&mut ids, dates)?;
    Ok(ids)
}

// Adds a day at type 1, and removes it at type 2.
fn add_exception(service: &mut Service, kind: &str, day: i32) -> Result<(), NoMemory>
    ensures { OnOk result (service.new ≡ with_exception kind.now day service.old) }
{
    if is_text(kind, "1") {
        return service.added.push(day);
    }
    if is_text(kind, "2") {
        return service.removed.push(day);
    }
    Ok(())
}

// The services with their weeks and the dates of a table, in the order of its records.
fn dated_services(
    alloc: Global,
    calendar: Option<&Table>,
    dates: &Table,
    ids: &Ids<'_>,
) -> Result<Vec<Service>, NoMemory>
    requires { AreIds ids.now }
    ensures { IfOk result (λ services. services.items
        ≡ map (service_of (calendars (records_in calendar.entry) (values_in dates.now))) ids.now) }
{
    let service_id = dates.column("service_id");
    let date = dates.column("date");
    let exception_type = dates.column("exception_type");
    let mut services = weekly_services(alloc, calendar, ids)?;
    for row in dates.rows() {
        let id = value(&row, service_id);
        let kind = value(&row, exception_type);
        let day = day(value(&row, date));
        let Some(index) = ids.index_of(id) else {
            continue;
        };
        add_exception(&mut services[index as usize], kind, day)?;
    }
    Ok(services)
}

/// The services with these ids: each with its week and its days by its first record in
/// calendar.txt, and with its dates of calendar_dates.txt in the order of the file.
pub(crate) fn all_services(
    alloc: Global,
    calendar: Option<&Table>,
    dates: Option<&Table>,
    ids: &Ids<'_>,
) -> Result<Listed<Service>, NoMemory>
    requires { AreIds ids.now }
    ensures { IfOk result (λ services. (tables : Tables)
        → tables InputFiles.Calendar ≡ records_in calendar.entry
        → tables InputFiles.CalendarDates ≡ records_in dates.entry
        → services ≡ map (service_of tables) ids.now) }
{
    let services = match dates {
        Some(dates) => dated_services(alloc, calendar, dates, ids)?,
        None => weekly_services(alloc, calendar, ids)?,
    };
    Ok(Listed::from_vec(services))
}
