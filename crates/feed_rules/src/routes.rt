// The faults of the records of routes.txt by themselves.

ghost use Rattle.std.specs.Prelude.{◌≡◌, List, IfOk};
ghost use Rattle.flex_model.specs.declared.fault.InputFile.TheVariants as InputFiles;
ghost use Rattle.feed_meaning.specs.FeedRules;
ghost use Rattle.feed_meaning.specs.Rules.{Values, repeats_id};
ghost use Rattle.feed_meaning.specs.Tables.{entries_of, record_faults};

use feed_meaning::{Ids, add_faults, is_empty, rule, value};
use feed_tables::Table;
use flex_model::{Fault, FaultCode, InputFile, Listed, NoMemory};
use std::alloc::Global;

// The rules of a route.
fn route_rules(route: &str, is_repeated: bool) -> [Option<FaultCode>; 2]
    ensures { (earlier : List Values) (r : Values) → route.now ≡ r "route_id"
        → is_repeated ≡ repeats_id "route_id" earlier r
        → result ≡ FeedRules.route_rules earlier r }
{
    [
        rule(FaultCode::EmptyField, is_empty(route)),
        rule(FaultCode::DuplicateKey, is_repeated),
    ]
}

/// The faults of the records of routes.txt by themselves.
pub(crate) fn route_faults(alloc: Global, table: &Table) -> Result<Listed<Fault>, NoMemory>
    ensures { IfOk result (λ faults. faults ≡ record_faults InputFiles.Routes FeedRules.route_rules
        (entries_of table.now)) }
{
    let route_id = table.column("route_id");
    let mut faults = Listed::new(alloc);
    let mut ids = Ids::new(alloc);
    for row in table.rows() {
        let route = value(&row, route_id);
        let is_repeated = ids.note(route)?;
        let rules = route_rules(route, is_repeated);
        add_faults(&mut faults, InputFile::Routes, row.number(), &rules)?;
    }
    Ok(faults)
}
