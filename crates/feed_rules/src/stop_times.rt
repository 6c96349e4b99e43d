// The faults of the records of stop_times.txt by themselves.

ghost use Rattle.std.specs.Prelude.{◌≡◌, ◌∷◌, [], ℕ, List, IfOk, nat_eq};
ghost use Rattle.std.specs.Str.{bytes_eq};
ghost use Rattle.flex_model.specs.declared.fault.InputFile.TheVariants as InputFiles;
ghost use Rattle.feed_tables.specs.Records.{header_of};
ghost use Rattle.field_text.specs.Grammars.{id};
ghost use Rattle.feed_meaning.specs.FeedRules;
ghost use Rattle.feed_meaning.specs.FeedRules.{sequence};
ghost use Rattle.feed_meaning.specs.Rules;
ghost use Rattle.feed_meaning.specs.Rules.{Values, are_same_pairs, both, repeats};
ghost use Rattle.feed_meaning.specs.Tables.{entries_of, record_faults, values_of};
ghost use Rattle.feed_rules.specs.StopTimes.{AreColumns, IsRead};

use crate::fields;
use crate::keys::note_pair;
use feed_meaning::{add_faults, is_bad, is_empty, is_given, is_later, is_text, rule, value};
use feed_tables::{RowView, Table};
use flex_model::{Fault, FaultCode, InputFile, Listed, NoMemory};
use indexmap::IndexSet;
use std::alloc::Global;

/// The indexes of the columns of stop_times.txt, where it has them.
#[derive(Clone, Copy)]
pub(crate) struct StopTimeColumns {
    pub(crate) trip_id: Option<u32>,
    pub(crate) stop_sequence: Option<u32>,
    pub(crate) stop_id: Option<u32>,
    pub(crate) location_group_id: Option<u32>,
    pub(crate) location_id: Option<u32>,
    pub(crate) arrival_time: Option<u32>,
    pub(crate) departure_time: Option<u32>,
    pub(crate) start: Option<u32>,
    pub(crate) end: Option<u32>,
    pub(crate) pickup_type: Option<u32>,
    pub(crate) drop_off_type: Option<u32>,
    pub(crate) pickup_rule: Option<u32>,
    pub(crate) drop_off_rule: Option<u32>,
}

/// A record of stop_times.txt: its texts, and the values of those that have one.
#[derive(Clone, Copy)]
pub(crate) struct StopTime<'a> {
    pub(crate) trip: &'a str,
    pub(crate) sequence: &'a str,
    pub(crate) number: Option<u32>,
    pub(crate) stop: &'a str,
    pub(crate) group: &'a str,
    pub(crate) location: &'a str,
    pub(crate) arrival: &'a str,
    pub(crate) arrives: Option<u32>,
    pub(crate) departure: &'a str,
    pub(crate) departs: Option<u32>,
    pub(crate) start: &'a str,
    pub(crate) starts: Option<u32>,
    pub(crate) end: &'a str,
    pub(crate) ends: Option<u32>,
    pub(crate) pickup: &'a str,
    pub(crate) pickup_kind: Option<u32>,
    pub(crate) drop_off: &'a str,
    pub(crate) drop_off_kind: Option<u32>,
    pub(crate) pickup_rule: &'a str,
    pub(crate) drop_off_rule: &'a str,
}

/// The indexes of the columns of a table.
pub(crate) fn stop_time_columns(table: &Table) -> StopTimeColumns
    ensures { AreColumns (header_of table.now) result }
{
    StopTimeColumns {
        trip_id: table.column("trip_id"),
        stop_sequence: table.column("stop_sequence"),
        stop_id: table.column("stop_id"),
        location_group_id: table.column("location_group_id"),
        location_id: table.column("location_id"),
        arrival_time: table.column("arrival_time"),
        departure_time: table.column("departure_time"),
        start: table.column("start_pickup_drop_off_window"),
        end: table.column("end_pickup_drop_off_window"),
        pickup_type: table.column("pickup_type"),
        drop_off_type: table.column("drop_off_type"),
        pickup_rule: table.column("pickup_booking_rule_id"),
        drop_off_rule: table.column("drop_off_booking_rule_id"),
    }
}

/// The texts of a record, and their values.
pub(crate) fn read_stop_time<'a>(row: &RowView<'a>, columns: StopTimeColumns) -> StopTime<'a>
    ensures { (header : List (List ℕ)) → AreColumns header columns
        → IsRead (values_of header row.now.fields) result }
{
    let sequence = value(row, columns.stop_sequence);
    let arrival = value(row, columns.arrival_time);
    let departure = value(row, columns.departure_time);
    let start = value(row, columns.start);
    let end = value(row, columns.end);
    let pickup = value(row, columns.pickup_type);
    let drop_off = value(row, columns.drop_off_type);
    StopTime {
        trip: value(row, columns.trip_id),
        sequence,
        number: fields::sequence(sequence),
        stop: value(row, columns.stop_id),
        group: value(row, columns.location_group_id),
        location: value(row, columns.location_id),
        arrival,
        arrives: fields::time(arrival),
        departure,
        departs: fields::time(departure),
        start,
        starts: fields::time(start),
        end,
        ends: fields::time(end),
        pickup,
        pickup_kind: fields::choice(pickup, 0, 3),
        drop_off,
        drop_off_kind: fields::choice(drop_off, 0, 3),
        pickup_rule: value(row, columns.pickup_rule),
        drop_off_rule: value(row, columns.drop_off_rule),
    }
}

fn given_count(a: &str, b: &str, c: &str) -> u32
    ensures { result ≡ Rules.given_count (a.now ∷ b.now ∷ c.now ∷ []) }
{
    let mut count = 0;
    if is_given(a) {
        count += 1;
    }
    if is_given(b) {
        count += 1;
    }
    if is_given(c) {
        count += 1;
    }
    count
}

/// Whether the start or the end of a window is given.
pub(crate) fn has_window(s: &StopTime<'_>) -> bool
    ensures { (r : Values) → IsRead r s.now → result ≡ FeedRules.has_window r }
{
    is_given(s.start) || is_given(s.end)
}

/// Whether the arrival or the departure is given.
pub(crate) fn has_time(s: &StopTime<'_>) -> bool
    ensures { (r : Values) → IsRead r s.now → result ≡ FeedRules.has_time r }
{
    is_given(s.arrival) || is_given(s.departure)
}

// The rules of a record of stop_times.txt.
fn stop_time_rules(s: &StopTime<'_>, is_repeated: bool) -> [Option<FaultCode>; 18]
    ensures { (earlier : List Values) (r : Values) → IsRead r s.now
        → is_repeated ≡ repeats (are_same_pairs bytes_eq nat_eq)
        (λ v. both (id (v "trip_id")) (sequence (v "stop_sequence"))) earlier r
        → result ≡ FeedRules.stop_time_rules earlier r }
{
    let has_window = has_window(s);
    let has_time = has_time(s);
    [
        rule(FaultCode::EmptyField, is_empty(s.trip)),
        rule(FaultCode::EmptyField, is_empty(s.sequence)),
        rule(FaultCode::BadNumber, is_bad(s.sequence, s.number)),
        rule(FaultCode::DuplicateKey, is_repeated),
        rule(
            FaultCode::PlaceCount,
            given_count(s.stop, s.group, s.location) != 1,
        ),
        rule(FaultCode::BadTime, is_bad(s.arrival, s.arrives)),
        rule(FaultCode::BadTime, is_bad(s.departure, s.departs)),
        rule(FaultCode::BadTime, is_bad(s.start, s.starts)),
        rule(FaultCode::BadTime, is_bad(s.end, s.ends)),
        rule(FaultCode::BadEnum, is_bad(s.pickup, s.pickup_kind)),
        rule(FaultCode::BadEnum, is_bad(s.drop_off, s.drop_off_kind)),
        rule(
            FaultCode::WindowPair,
            has_window && (is_empty(s.start) || is_empty(s.end)),
        ),
        rule(
            FaultCode::WindowMissing,
            (is_given(s.group) || is_given(s.location)) && !has_window,
        ),
        rule(FaultCode::WindowWithTime, has_window && has_time),
        rule(FaultCode::WindowOrder, is_later(s.starts, s.ends)),
        rule(
            FaultCode::WindowPickup,
            has_window && (is_text(s.pickup, "0") || is_text(s.pickup, "3")),
        ),
        rule(
            FaultCode::WindowDropOff,
            has_window && is_text(s.drop_off, "0"),
        ),
        rule(FaultCode::TimeOrder, is_later(s.arrives, s.departs)),
    ]
}

/// The faults of the records of stop_times.txt by themselves.
pub(crate) fn stop_time_faults(alloc: Global, table: &Table) -> Result<Listed<Fault>, NoMemory>
    ensures { IfOk result
        (λ faults. faults ≡ record_faults InputFiles.StopTimes FeedRules.stop_time_rules
        (entries_of table.now)) }
{
    let columns = stop_time_columns(table);
    let mut faults = Listed::new(alloc);
    let mut met = IndexSet::new(alloc);
    for row in table.rows() {
        let record = read_stop_time(&row, columns);
        let is_repeated = note_pair(&mut met, record.trip, record.number)?;
        let rules = stop_time_rules(&record, is_repeated);
        add_faults(&mut faults, InputFile::StopTimes, row.number(), &rules)?;
    }
    Ok(faults)
}
