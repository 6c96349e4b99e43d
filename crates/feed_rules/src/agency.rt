// The faults of the records of agency.txt by themselves.

ghost use Rattle.std.specs.Prelude.{◌≡◌, List, IfOk, not, take};
ghost use Rattle.std.specs.List.{list_any};
ghost use Rattle.std.specs.Option.{option_to_list};
ghost use Rattle.std.specs.Str.{bytes_eq};
ghost use Rattle.flex_model.specs.declared.fault.InputFile.TheVariants as InputFiles;
ghost use Rattle.feed_meaning.specs.FeedRules;
ghost use Rattle.feed_meaning.specs.Rules.{Values};
ghost use Rattle.feed_meaning.specs.Tables.{entries_of, record_faults};

use feed_meaning::{add_faults, is_empty, rule, value};
use feed_tables::Table;
use flex_model::{Fault, FaultCode, InputFile, Listed, NoMemory};
use std::alloc::Global;

// Whether there is a first zone, and it is another one.
fn differs(first: Option<&str>, zone: &str) -> bool
    ensures { result ≡ list_any (λ text. not (bytes_eq text.now zone.now))
        (option_to_list first.entry) }
{
    match first {
        Some(text) => text != zone,
        None => false,
    }
}

// The rules of an agency.
fn agency_rules(zone: &str, differs: bool) -> [Option<FaultCode>; 2]
    ensures { (earlier : List Values) (r : Values) → zone.now ≡ r "agency_timezone"
        → differs ≡ list_any (λ first. not
        (bytes_eq (first "agency_timezone") (r "agency_timezone"))) (take 1 earlier)
        → result ≡ FeedRules.agency_rules earlier r }
{
    [
        rule(FaultCode::EmptyField, is_empty(zone)),
        rule(FaultCode::TimezoneDiffers, differs),
    ]
}

/// The faults of the records of agency.txt by themselves.
pub(crate) fn agency_faults(alloc: Global, table: &Table) -> Result<Listed<Fault>, NoMemory>
    ensures { IfOk result (λ faults. faults ≡ record_faults InputFiles.Agency FeedRules.agency_rules
        (entries_of table.now)) }
{
    let agency_timezone = table.column("agency_timezone");
    let mut faults = Listed::new(alloc);
    let mut first = None;
    for row in table.rows() {
        let zone = value(&row, agency_timezone);
        let rules = agency_rules(zone, differs(first, zone));
        first = first.or(Some(zone));
        add_faults(&mut faults, InputFile::Agency, row.number(), &rules)?;
    }
    Ok(faults)
}
