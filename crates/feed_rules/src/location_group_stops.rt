// The faults of the records of location_group_stops.txt by themselves.

ghost use Rattle.std.specs.Prelude.{◌≡◌, List, IfOk};
ghost use Rattle.flex_model.specs.declared.fault.InputFile.TheVariants as InputFiles;
ghost use Rattle.feed_meaning.specs.FeedRules;
ghost use Rattle.feed_meaning.specs.Rules.{Values};
ghost use Rattle.feed_meaning.specs.Tables.{entries_of, record_faults};

use feed_meaning::{add_faults, is_empty, rule, value};
use feed_tables::Table;
use flex_model::{Fault, FaultCode, InputFile, Listed, NoMemory};
use std::alloc::Global;

// The rules of a member of a location group.
fn group_stop_rules(group: &str, stop: &str) -> [Option<FaultCode>; 2]
    ensures { (earlier : List Values) (r : Values) → group.now ≡ r "location_group_id"
        → stop.now ≡ r "stop_id" → result ≡ FeedRules.group_stop_rules earlier r }
{
    [
        rule(FaultCode::EmptyField, is_empty(group)),
        rule(FaultCode::EmptyField, is_empty(stop)),
    ]
}

/// The faults of the records of location_group_stops.txt by themselves.
pub(crate) fn group_stop_faults(alloc: Global, table: &Table) -> Result<Listed<Fault>, NoMemory>
    ensures { IfOk result
        (λ faults. faults ≡ record_faults InputFiles.LocationGroupStops FeedRules.group_stop_rules
        (entries_of table.now)) }
{
    let location_group_id = table.column("location_group_id");
    let stop_id = table.column("stop_id");
    let mut faults = Listed::new(alloc);
    for row in table.rows() {
        let group = value(&row, location_group_id);
        let stop = value(&row, stop_id);
        let rules = group_stop_rules(group, stop);
        add_faults(
            &mut faults,
            InputFile::LocationGroupStops,
            row.number(),
            &rules,
        )?;
    }
    Ok(faults)
}
