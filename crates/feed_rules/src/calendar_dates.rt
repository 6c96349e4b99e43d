// The faults of the records of calendar_dates.txt by themselves.

ghost use Rattle.std.specs.Prelude.{◌≡◌, List, IfOk};
ghost use Rattle.std.specs.Ordering.{int_eq};
ghost use Rattle.std.specs.Str.{bytes_eq};
ghost use Rattle.flex_model.specs.declared.fault.InputFile.TheVariants as InputFiles;
ghost use Rattle.field_text.specs.Grammars as Grammars;
ghost use Rattle.field_text.specs.Grammars.{id};
ghost use Rattle.feed_meaning.specs.FeedRules;
ghost use Rattle.feed_meaning.specs.Rules.{Values, are_same_pairs, both, repeats};
ghost use Rattle.feed_meaning.specs.Tables.{entries_of, record_faults};

use crate::fields::{choice, date, is_no};
use crate::keys::note_pair;
use feed_meaning::{add_faults, is_empty, rule, value};
use feed_tables::Table;
use flex_model::{Fault, FaultCode, InputFile, Listed, NoMemory};
use indexmap::IndexSet;
use std::alloc::Global;

// The rules of an exception.
fn date_rules(
    service: &str,
    day: Option<i32>,
    kind: &str,
    is_repeated: bool,
) -> [Option<FaultCode>; 4]
    ensures { (earlier : List Values) (r : Values) → service.now ≡ r "service_id"
        → day ≡ Grammars.date (r "date") → kind.now ≡ r "exception_type"
        → is_repeated ≡ repeats (are_same_pairs bytes_eq int_eq)
        (λ s. both (id (s "service_id")) (Grammars.date (s "date"))) earlier r
        → result ≡ FeedRules.calendar_date_rules earlier r }
{
    [
        rule(FaultCode::EmptyField, is_empty(service)),
        rule(FaultCode::BadDate, is_no(day)),
        rule(FaultCode::BadEnum, is_no(choice(kind, 1, 2))),
        rule(FaultCode::DuplicateKey, is_repeated),
    ]
}

/// The faults of the records of calendar_dates.txt by themselves.
pub(crate) fn calendar_date_faults(alloc: Global, table: &Table) -> Result<Listed<Fault>, NoMemory>
    ensures { IfOk result
        (λ faults. faults ≡ record_faults InputFiles.CalendarDates FeedRules.calendar_date_rules
        (entries_of table.now)) }
{
    let service_id = table.column("service_id");
    let date_column = table.column("date");
    let exception_type = table.column("exception_type");
    let mut faults = Listed::new(alloc);
    let mut met = IndexSet::new(alloc);
    for row in table.rows() {
        let service = value(&row, service_id);
        let day = date(value(&row, date_column));
        let kind = value(&row, exception_type);
        let is_repeated = note_pair(&mut met, service, day)?;
        let rules = date_rules(service, day, kind, is_repeated);
        add_faults(&mut faults, InputFile::CalendarDates, row.number(), &rules)?;
    }
    Ok(faults)
}
