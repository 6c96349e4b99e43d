// The faults of the records of frequencies.txt by themselves.

ghost use Rattle.std.specs.Prelude.{◌≡◌, List, IfOk, nat_eq, nat_le};
ghost use Rattle.std.specs.Str.{bytes_eq};
ghost use Rattle.flex_model.specs.declared.fault.InputFile.TheVariants as InputFiles;
ghost use Rattle.field_text.specs.Grammars as Grammars;
ghost use Rattle.field_text.specs.Grammars.{id};
ghost use Rattle.feed_meaning.specs.FeedRules;
ghost use Rattle.feed_meaning.specs.Rules.{Values, are_same_pairs, both, repeats, stand};
ghost use Rattle.feed_meaning.specs.Tables.{entries_of, record_faults};

use crate::fields::{choice, is_no, time};
use crate::keys::note_pair;
use feed_meaning::{add_faults, is_bad, is_empty, rule, value};
use feed_tables::Table;
use field_text::read_count;
use flex_model::limits::GREATEST_HEADWAY;
use flex_model::{Fault, FaultCode, InputFile, Listed, NoMemory};
use indexmap::IndexSet;
use std::alloc::Global;

// Whether both are there, and the end isn't after the start.
fn is_backward(start: Option<u32>, end: Option<u32>) -> bool
    ensures { result ≡ stand (λ start end. nat_le end start) start end }
{
    match (start, end) {
        (Some(start), Some(end)) => end <= start,
        _ => false,
    }
}

// Whether a text is a headway: from 1 second up to a day.
fn is_headway(text: &str) -> bool
    ensures { result ≡ FeedRules.is_positive_count 86400 text.now }
{
    match read_count(text, GREATEST_HEADWAY) {
        Ok(seconds) => seconds > 0,
        Err(_) => false,
    }
}

// The rules of a range of repeated trips.
fn frequency_rules(
    trip: &str,
    start: Option<u32>,
    end: Option<u32>,
    headway: &str,
    exact: &str,
    is_repeated: bool,
) -> [Option<FaultCode>; 7]
    ensures { (earlier : List Values) (r : Values) → trip.now ≡ r "trip_id"
        → start ≡ Grammars.time (r "start_time") → end ≡ Grammars.time (r "end_time")
        → headway.now ≡ r "headway_secs" → exact.now ≡ r "exact_times"
        → is_repeated ≡ repeats (are_same_pairs bytes_eq nat_eq)
        (λ s. both (id (s "trip_id")) (Grammars.time (s "start_time"))) earlier r
        → result ≡ FeedRules.frequency_rules earlier r }
{
    [
        rule(FaultCode::EmptyField, is_empty(trip)),
        rule(FaultCode::BadTime, is_no(start)),
        rule(FaultCode::BadTime, is_no(end)),
        rule(FaultCode::TimeOrder, is_backward(start, end)),
        rule(FaultCode::BadNumber, !is_headway(headway)),
        rule(FaultCode::BadEnum, is_bad(exact, choice(exact, 0, 1))),
        rule(FaultCode::DuplicateKey, is_repeated),
    ]
}

/// The faults of the records of frequencies.txt by themselves.
pub(crate) fn frequency_faults(alloc: Global, table: &Table) -> Result<Listed<Fault>, NoMemory>
    ensures { IfOk result
        (λ faults. faults ≡ record_faults InputFiles.Frequencies FeedRules.frequency_rules
        (entries_of table.now)) }
{
    let trip_id = table.column("trip_id");
    let start_time = table.column("start_time");
    let end_time = table.column("end_time");
    let headway_secs = table.column("headway_secs");
    let exact_times = table.column("exact_times");
    let mut faults = Listed::new(alloc);
    let mut met = IndexSet::new(alloc);
    for row in table.rows() {
        let trip = value(&row, trip_id);
        let start = time(value(&row, start_time));
        let end = time(value(&row, end_time));
        let headway = value(&row, headway_secs);
        let exact = value(&row, exact_times);
        let is_repeated = note_pair(&mut met, trip, start)?;
        let rules = frequency_rules(trip, start, end, headway, exact, is_repeated);
        add_faults(&mut faults, InputFile::Frequencies, row.number(), &rules)?;
    }
    Ok(faults)
}
