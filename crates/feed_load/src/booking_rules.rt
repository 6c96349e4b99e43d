// The booking rules of booking_rules.txt.

ghost use Rattle.std.specs.Prelude.{◌≡◌, All, IfOk, map};
ghost use Rattle.flex_model.specs.declared.fault.InputFile.TheVariants as InputFiles;
ghost use Rattle.feed_tables.specs.Records.{header_of, rows_of};
ghost use Rattle.feed_meaning.specs.FeedLinks.{Tables};
ghost use Rattle.feed_meaning.specs.FeedValue as Value;
ghost use Rattle.feed_rules.specs.Links.{records_in};
ghost use Rattle.feed_load.specs.Columns.{place_among};
ghost use Rattle.feed_load.specs.BookingColumns as Columns;
ghost use Rattle.feed_load.specs.BookingColumns.{HasCounts, notice_at, opening_at, prior_by, rule_at, start_at};

use crate::fields::{number_of, seconds_of, text_of};
use feed_meaning::{Ids, is_given, is_text, value};
use feed_tables::{RowView, Table};
use flex_model::{Listed, NoMemory, Notice, Prior, Rule, SameDay};
use std::alloc::Global;

/// The columns of booking_rules.txt.
#[derive(Clone, Copy)]
pub(crate) struct RuleColumns {
    id: Option<u32>,
    kind: Option<u32>,
    least: Option<u32>,
    greatest: Option<u32>,
    last_day: Option<u32>,
    last_time: Option<u32>,
    start_day: Option<u32>,
    start_time: Option<u32>,
    service: Option<u32>,
    message: Option<u32>,
    pickup_message: Option<u32>,
    drop_off_message: Option<u32>,
    phone: Option<u32>,
}

// The columns of a table.
fn rule_columns(table: &Table) -> RuleColumns
    ensures { result ≡ Columns.rule_columns (header_of table.now) }
{
    RuleColumns {
        id: table.column("booking_rule_id"),
        kind: table.column("booking_type"),
        least: table.column("prior_notice_duration_min"),
        greatest: table.column("prior_notice_duration_max"),
        last_day: table.column("prior_notice_last_day"),
        last_time: table.column("prior_notice_last_time"),
        start_day: table.column("prior_notice_start_day"),
        start_time: table.column("prior_notice_start_time"),
        service: table.column("prior_notice_service_id"),
        message: table.column("message"),
        pickup_message: table.column("pickup_message"),
        drop_off_message: table.column("drop_off_message"),
        phone: table.column("phone_number"),
    }
}

// A time of an earlier day.
fn prior_of(day: &str, time: &str) -> Prior
    ensures { result ≡ prior_by day.now time.now }
{
    Prior {
        days: number_of(day),
        time: seconds_of(time),
    }
}

// When a booking opens, where its day is given.
fn start_of(row: &RowView<'_>, columns: RuleColumns) -> Option<Prior>
    ensures { result ≡ start_at columns row.now.fields }
{
    let day = value(row, columns.start_day);
    if is_given(day) {
        return Some(prior_of(day, value(row, columns.start_time)));
    }
    None
}

// When a booking on the day of travel opens.
fn opening_of(row: &RowView<'_>, columns: RuleColumns) -> SameDay
    ensures { result ≡ opening_at columns row.now.fields }
{
    let greatest = value(row, columns.greatest);
    if is_given(greatest) {
        return SameDay::Greatest(number_of(greatest));
    }
    match start_of(row, columns) {
        Some(start) => SameDay::Start(start),
        None => SameDay::Always,
    }
}

// The index of a service, where it is named.
fn service_named(text: &str, service_ids: &Ids<'_>) -> Option<u32>
    ensures { result ≡ Value.index_if_given (place_among service_ids.now) text.now }
{
    if is_given(text) {
        return Some(service_ids.index_of(text).unwrap_or(0));
    }
    None
}

// How far ahead a ride has to be booked.
fn notice_of(row: &RowView<'_>, columns: RuleColumns, service_ids: &Ids<'_>) -> Notice
    ensures { result ≡ notice_at service_ids.now columns row.now.fields }
{
    let kind = value(row, columns.kind);
    if is_text(kind, "1") {
        return Notice::Ahead {
            least: number_of(value(row, columns.least)),
            opens: opening_of(row, columns),
        };
    }
    if is_text(kind, "2") {
        let last = prior_of(value(row, columns.last_day), value(row, columns.last_time));
        return Notice::Days {
            last,
            first: start_of(row, columns),
            service: service_named(value(row, columns.service), service_ids),
        };
    }
    Notice::RealTime
}

// A booking rule by its record.
fn rule_of(
    alloc: Global,
    row: &RowView<'_>,
    columns: RuleColumns,
    service_ids: &Ids<'_>,
) -> Result<Rule, NoMemory>
    ensures { IfOk result (λ rule. rule ≡ rule_at service_ids.now columns row.now.fields) }
{
    Ok(Rule {
        id: text_of(alloc, value(row, columns.id))?,
        notice: notice_of(row, columns, service_ids),
        message: text_of(alloc, value(row, columns.message))?,
        pickup_message: text_of(alloc, value(row, columns.pickup_message))?,
        drop_off_message: text_of(alloc, value(row, columns.drop_off_message))?,
        phone: text_of(alloc, value(row, columns.phone))?,
    })
}

// The booking rules of a table, in the order of the file.
fn rules_in(alloc: Global, table: &Table, service_ids: &Ids<'_>) -> Result<Listed<Rule>, NoMemory>
    ensures { IfOk result (λ rules. rules
        ≡ map
        (λ row. rule_at service_ids.now (Columns.rule_columns (header_of table.now)) row.fields)
        (rows_of table.now)) }
{
    let columns = rule_columns(table);
    let mut rules = Listed::new(alloc);
    for row in table.rows() {
        rules.push(rule_of(alloc, &row, columns, service_ids)?)?;
    }
    Ok(rules)
}

/// The booking rules of booking_rules.txt in the order of the file, each with the index of its
/// service among the ids of the services.
pub(crate) fn rules_of(
    alloc: Global,
    booking_rules: Option<&Table>,
    service_ids: &Ids<'_>,
) -> Result<Listed<Rule>, NoMemory>
    requires { All HasCounts (records_in booking_rules) }
    ensures { IfOk result (λ rules. (tables : Tables)
        → tables InputFiles.BookingRules ≡ records_in booking_rules.entry
        → Value.service_ids tables ≡ service_ids.now
        → rules ≡ map (Value.rule_of tables) (tables InputFiles.BookingRules)) }
{
    match booking_rules {
        Some(table) => rules_in(alloc, table, service_ids),
        None => Ok(Listed::new(alloc)),
    }
}
