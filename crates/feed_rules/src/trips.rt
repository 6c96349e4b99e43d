// The faults of the records of trips.txt by themselves.

ghost use Rattle.std.specs.Prelude.{◌≡◌, List, IfOk};
ghost use Rattle.flex_model.specs.declared.fault.InputFile.TheVariants as InputFiles;
ghost use Rattle.feed_meaning.specs.FeedRules;
ghost use Rattle.feed_meaning.specs.Rules.{Values, repeats_id};
ghost use Rattle.feed_meaning.specs.Tables.{entries_of, record_faults};

use feed_meaning::{Ids, add_faults, is_empty, rule, value};
use feed_tables::Table;
use flex_model::{Fault, FaultCode, InputFile, Listed, NoMemory};
use std::alloc::Global;

// The rules of a trip.
fn trip_rules(trip: &str, route: &str, service: &str, is_repeated: bool) -> [Option<FaultCode>; 4]
    ensures { (earlier : List Values) (r : Values) → trip.now ≡ r "trip_id"
        → route.now ≡ r "route_id" → service.now ≡ r "service_id"
        → is_repeated ≡ repeats_id "trip_id" earlier r → result ≡ FeedRules.trip_rules earlier r }
{
    [
        rule(FaultCode::EmptyField, is_empty(trip)),
        rule(FaultCode::EmptyField, is_empty(route)),
        rule(FaultCode::EmptyField, is_empty(service)),
        rule(FaultCode::DuplicateKey, is_repeated),
    ]
}

/// The faults of the records of trips.txt by themselves.
pub(crate) fn trip_faults(alloc: Global, table: &Table) -> Result<Listed<Fault>, NoMemory>
    ensures { IfOk result (λ faults. faults ≡ record_faults InputFiles.Trips FeedRules.trip_rules
        (entries_of table.now)) }
{
    let trip_id = table.column("trip_id");
    let route_id = table.column("route_id");
    let service_id = table.column("service_id");
    let mut faults = Listed::new(alloc);
    let mut ids = Ids::new(alloc);
    for row in table.rows() {
        let trip = value(&row, trip_id);
        let route = value(&row, route_id);
        let service = value(&row, service_id);
        let is_repeated = ids.note(trip)?;
        let rules = trip_rules(trip, route, service, is_repeated);
        add_faults(&mut faults, InputFile::Trips, row.number(), &rules)?;
    }
    Ok(faults)
}
