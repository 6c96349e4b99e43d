// The faults of the records of booking_rules.txt by themselves.

ghost use Rattle.std.specs.Prelude.{◌≡◌, ◌++◌, ◌∷◌, ◌&&◌, ◌||◌, [], ℕ, if◌then◌else◌, List, Option, IfOk, OnOk, not};
ghost use Rattle.flex_model.specs.declared.fault.InputFile.TheVariants as InputFiles;
ghost use Rattle.feed_tables.specs.Records.{header_of};
ghost use Rattle.feed_tables.specs.Refusals;
ghost use Rattle.field_text.specs.Grammars;
ghost use Rattle.feed_meaning.specs.FeedRules;
ghost use Rattle.feed_meaning.specs.Rules;
ghost use Rattle.feed_meaning.specs.Rules.{Values, repeats_id};
ghost use Rattle.feed_meaning.specs.Tables.{entries_of, faults_at, record_faults, values_of};
ghost use Rattle.feed_rules.specs.BookingRules.{AreBookingColumns, IsReadBooking};

use crate::fields::{choice, is_no, time};
use feed_meaning::{Ids, add_faults, is_bad, is_empty, is_given, is_text, rule, value};
use feed_tables::{RowView, Table};
use field_text::read_count;
use flex_model::limits::{GREATEST_NOTICE_DAYS, GREATEST_NOTICE_MINUTES};
use flex_model::{Fault, FaultCode, InputFile, Listed, NoMemory};
use std::alloc::Global;

/// The indexes of the columns of booking_rules.txt, where it has them.
#[derive(Clone, Copy)]
pub(crate) struct BookingColumns {
    pub(crate) booking_rule_id: Option<u32>,
    pub(crate) booking_type: Option<u32>,
    pub(crate) duration_min: Option<u32>,
    pub(crate) duration_max: Option<u32>,
    pub(crate) last_day: Option<u32>,
    pub(crate) last_time: Option<u32>,
    pub(crate) start_day: Option<u32>,
    pub(crate) start_time: Option<u32>,
    pub(crate) service_id: Option<u32>,
}

/// A record of booking_rules.txt: its texts, and the values of those that have one.
#[derive(Clone, Copy)]
pub(crate) struct BookingRule<'a> {
    pub(crate) rule_id: &'a str,
    pub(crate) kind: &'a str,
    pub(crate) kind_number: Option<u32>,
    pub(crate) duration_min: &'a str,
    pub(crate) least_minutes: Option<u64>,
    pub(crate) duration_max: &'a str,
    pub(crate) most_minutes: Option<u64>,
    pub(crate) last_day: &'a str,
    pub(crate) last_days: Option<u64>,
    pub(crate) last_time: &'a str,
    pub(crate) last_seconds: Option<u32>,
    pub(crate) start_day: &'a str,
    pub(crate) start_days: Option<u64>,
    pub(crate) start_time: &'a str,
    pub(crate) start_seconds: Option<u32>,
    pub(crate) service: &'a str,
}

/// The indexes of the columns of a table.
pub(crate) fn booking_columns(table: &Table) -> BookingColumns
    ensures { AreBookingColumns (header_of table.now) result }
{
    BookingColumns {
        booking_rule_id: table.column("booking_rule_id"),
        booking_type: table.column("booking_type"),
        duration_min: table.column("prior_notice_duration_min"),
        duration_max: table.column("prior_notice_duration_max"),
        last_day: table.column("prior_notice_last_day"),
        last_time: table.column("prior_notice_last_time"),
        start_day: table.column("prior_notice_start_day"),
        start_time: table.column("prior_notice_start_time"),
        service_id: table.column("prior_notice_service_id"),
    }
}

// A notice in minutes.
fn minutes(text: &str) -> Option<u64>
    ensures { result ≡ Grammars.count 1000000 text.now }
{
    read_count(text, GREATEST_NOTICE_MINUTES).ok()
}

// A notice in days.
fn days(text: &str) -> Option<u64>
    ensures { result ≡ Grammars.count 1000 text.now }
{
    read_count(text, GREATEST_NOTICE_DAYS).ok()
}

/// The texts of a record, and their values.
pub(crate) fn read_booking<'a>(row: &RowView<'a>, columns: BookingColumns) -> BookingRule<'a>
    ensures { (header : List (List ℕ)) → AreBookingColumns header columns
        → IsReadBooking (values_of header row.now.fields) result }
{
    let kind = value(row, columns.booking_type);
    let duration_min = value(row, columns.duration_min);
    let duration_max = value(row, columns.duration_max);
    let last_day = value(row, columns.last_day);
    let last_time = value(row, columns.last_time);
    let start_day = value(row, columns.start_day);
    let start_time = value(row, columns.start_time);
    BookingRule {
        rule_id: value(row, columns.booking_rule_id),
        kind,
        kind_number: choice(kind, 0, 2),
        duration_min,
        least_minutes: minutes(duration_min),
        duration_max,
        most_minutes: minutes(duration_max),
        last_day,
        last_days: days(last_day),
        last_time,
        last_seconds: time(last_time),
        start_day,
        start_days: days(start_day),
        start_time,
        start_seconds: time(start_time),
        service: value(row, columns.service_id),
    }
}

// The fault of a field that is wanted by some records and allowed only in some, if it has one.
fn conditional<T: Copy>(
    wanted: bool,
    allowed: bool,
    code: FaultCode,
    text: &str,
    value: Option<T>,
) -> Option<FaultCode>
    ensures { (kind : List ℕ → Option T) (t : List ℕ) → text.now ≡ t → value ≡ kind t
        → result ≡ FeedRules.conditional wanted allowed code kind t }
{
    let is_missing = wanted && is_empty(text);
    let is_forbidden = !allowed && is_given(text);
    if is_missing {
        Some(FaultCode::FieldMissing)
    } else if is_forbidden {
        Some(FaultCode::FieldForbidden)
    } else {
        rule(code, is_bad(text, value))
    }
}

// Whether a record may say from which day on one can book.
fn may_start_on_day(b: &BookingRule<'_>) -> bool
    ensures { (r : Values) → IsReadBooking r b.now
        → result ≡ not (Rules.is_text (r "booking_type") "0"
        || (Rules.is_text (r "booking_type") "1" && Refusals.is_given
        (r "prior_notice_duration_max"))) }
{
    let is_shut = is_text(b.kind, "0") || (is_text(b.kind, "1") && is_given(b.duration_max));
    !is_shut
}

// Whether a record names a service without a notice in earlier days.
fn has_stray_service(b: &BookingRule<'_>) -> bool
    ensures { (r : Values) → IsReadBooking r b.now
        → result ≡ (Refusals.is_given (r "prior_notice_service_id") && not
        (Rules.is_text (r "booking_type") "2")) }
{
    is_given(b.service) && !is_text(b.kind, "2")
}

// The rules of the fields that depend on the type.
fn notice_rules(b: &BookingRule<'_>) -> [Option<FaultCode>; 7]
    ensures { (r : Values) → IsReadBooking r b.now → result ≡ FeedRules.notice_rules r }
{
    let same_day = is_text(b.kind, "1");
    let earlier_days = is_text(b.kind, "2");
    let has_last = is_given(b.last_day);
    let has_start = is_given(b.start_day);
    let may_start = may_start_on_day(b);
    let number = FaultCode::BadNumber;
    let time = FaultCode::BadTime;
    [
        conditional(same_day, same_day, number, b.duration_min, b.least_minutes),
        conditional(false, same_day, number, b.duration_max, b.most_minutes),
        conditional(earlier_days, earlier_days, number, b.last_day, b.last_days),
        conditional(has_last, has_last, time, b.last_time, b.last_seconds),
        conditional(false, may_start, number, b.start_day, b.start_days),
        conditional(has_start, has_start, time, b.start_time, b.start_seconds),
        rule(FaultCode::FieldForbidden, has_stray_service(b)),
    ]
}

// The rules of a record before those of its type.
fn record_rules(b: &BookingRule<'_>, is_repeated: bool) -> [Option<FaultCode>; 3]
    ensures { (earlier : List Values) (r : Values) → IsReadBooking r b.now
        → is_repeated ≡ repeats_id "booking_rule_id" earlier r
        → result ++ (if Rules.is_no (Grammars.choice 0 2) (r "booking_type") then []
        else FeedRules.notice_rules r) ≡ FeedRules.booking_rules earlier r }
{
    [
        rule(FaultCode::EmptyField, is_empty(b.rule_id)),
        rule(FaultCode::DuplicateKey, is_repeated),
        rule(FaultCode::BadEnum, is_no(b.kind_number)),
    ]
}

// Adds the faults of a record. After want of memory the first of them may be there.
fn add_booking_faults(
    faults: &mut Listed<Fault>,
    row: u64,
    b: &BookingRule<'_>,
    is_repeated: bool,
) -> Result<(), NoMemory>
    ensures { (earlier : List Values) (r : Values) → IsReadBooking r b.now
        → is_repeated ≡ repeats_id "booking_rule_id" earlier r
        → OnOk result (faults.new ≡ faults.old
        ++ faults_at InputFiles.BookingRules row (FeedRules.booking_rules earlier r)) }
{
    let first_rules = record_rules(b, is_repeated);
    add_faults(faults, InputFile::BookingRules, row, &first_rules)?;
    if is_no(b.kind_number) {
        return Ok(());
    }
    let rules = notice_rules(b);
    add_faults(faults, InputFile::BookingRules, row, &rules)
}

/// The faults of the records of booking_rules.txt by themselves.
pub(crate) fn booking_rule_faults(alloc: Global, table: &Table) -> Result<Listed<Fault>, NoMemory>
    ensures { IfOk result
        (λ faults. faults ≡ record_faults InputFiles.BookingRules FeedRules.booking_rules
        (entries_of table.now)) }
{
    let columns = booking_columns(table);
    let mut faults = Listed::new(alloc);
    let mut ids = Ids::new(alloc);
    for row in table.rows() {
        let record = read_booking(&row, columns);
        let is_repeated = ids.note(record.rule_id)?;
        add_booking_faults(&mut faults, row.number(), &record, is_repeated)?;
    }
    Ok(faults)
}
