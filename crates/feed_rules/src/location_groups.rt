// The faults of the records of location_groups.txt by themselves.

ghost use Rattle.std.specs.Prelude.{◌≡◌, List, IfOk};
ghost use Rattle.flex_model.specs.declared.fault.InputFile.TheVariants as InputFiles;
ghost use Rattle.feed_meaning.specs.FeedRules;
ghost use Rattle.feed_meaning.specs.Rules.{Values, repeats_id};
ghost use Rattle.feed_meaning.specs.Tables.{entries_of, record_faults};

use feed_meaning::{Ids, add_faults, is_empty, rule, value};
use feed_tables::Table;
use flex_model::{Fault, FaultCode, InputFile, Listed, NoMemory};
use std::alloc::Global;

// The rules of a location group.
fn group_rules(group: &str, is_repeated: bool) -> [Option<FaultCode>; 2]
    ensures { (earlier : List Values) (r : Values) → group.now ≡ r "location_group_id"
        → is_repeated ≡ repeats_id "location_group_id" earlier r
        → result ≡ FeedRules.group_rules earlier r }
{
    [
        rule(FaultCode::EmptyField, is_empty(group)),
        rule(FaultCode::DuplicateKey, is_repeated),
    ]
}

/// The faults of the records of location_groups.txt by themselves.
pub(crate) fn group_faults(alloc: Global, table: &Table) -> Result<Listed<Fault>, NoMemory>
    ensures { IfOk result
        (λ faults. faults ≡ record_faults InputFiles.LocationGroups FeedRules.group_rules
        (entries_of table.now)) }
{
    let location_group_id = table.column("location_group_id");
    let mut faults = Listed::new(alloc);
    let mut ids = Ids::new(alloc);
    for row in table.rows() {
        let group = value(&row, location_group_id);
        let is_repeated = ids.note(group)?;
        let rules = group_rules(group, is_repeated);
        add_faults(&mut faults, InputFile::LocationGroups, row.number(), &rules)?;
    }
    Ok(faults)
}
