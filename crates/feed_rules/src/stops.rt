// The faults of the records of stops.txt by themselves.

ghost use Rattle.std.specs.Prelude.{◌≡◌, ◌||◌, List, IfOk, codes};
ghost use Rattle.std.specs.Str.{bytes_eq};
ghost use Rattle.flex_model.specs.declared.fault.InputFile.TheVariants as InputFiles;
ghost use Rattle.feed_meaning.specs.FeedRules;
ghost use Rattle.feed_meaning.specs.Rules;
ghost use Rattle.feed_meaning.specs.Rules.{Values, repeats_id};
ghost use Rattle.feed_meaning.specs.Tables.{entries_of, record_faults};

use crate::fields::{choice, latitude, longitude};
use feed_meaning::{Ids, add_faults, is_bad, is_empty, is_text, rule, value};
use feed_tables::Table;
use flex_model::{Fault, FaultCode, InputFile, Listed, NoMemory};
use std::alloc::Global;

/// Whether one can board at a stop with this location_type.
pub(crate) fn is_boarding(kind: &str) -> bool
    ensures { result ≡ (Rules.is_empty kind.now || Rules.is_text kind.now "0") }
{
    is_empty(kind) || is_text(kind, "0")
}

// The rules of a stop.
fn stop_rules(
    stop: &str,
    is_repeated: bool,
    kind: &str,
    lat: &str,
    lon: &str,
) -> [Option<FaultCode>; 7]
    ensures { (earlier : List Values) (r : Values) → stop.now ≡ r "stop_id"
        → is_repeated ≡ repeats_id "stop_id" earlier r
        → kind.now ≡ r "location_type" → lat.now ≡ r "stop_lat" → lon.now ≡ r "stop_lon"
        → result ≡ FeedRules.stop_rules earlier r }
{
    let is_boarding = is_boarding(kind);
    [
        rule(FaultCode::EmptyField, is_empty(stop)),
        rule(FaultCode::DuplicateKey, is_repeated),
        rule(FaultCode::BadEnum, is_bad(kind, choice(kind, 0, 4))),
        rule(FaultCode::EmptyField, is_boarding && is_empty(lat)),
        rule(FaultCode::EmptyField, is_boarding && is_empty(lon)),
        rule(FaultCode::BadCoordinate, is_bad(lat, latitude(lat))),
        rule(FaultCode::BadCoordinate, is_bad(lon, longitude(lon))),
    ]
}

/// The faults of the records of stops.txt by themselves.
pub(crate) fn stop_faults(alloc: Global, table: &Table) -> Result<Listed<Fault>, NoMemory>
    ensures { IfOk result (λ faults. faults ≡ record_faults InputFiles.Stops FeedRules.stop_rules
        (entries_of table.now)) }
{
    let stop_id = table.column("stop_id");
    let location_type = table.column("location_type");
    let stop_lat = table.column("stop_lat");
    let stop_lon = table.column("stop_lon");
    let mut faults = Listed::new(alloc);
    let mut ids = Ids::new(alloc);
    for row in table.rows() {
        let stop = value(&row, stop_id);
        let kind = value(&row, location_type);
        let lat = value(&row, stop_lat);
        let lon = value(&row, stop_lon);
        let is_repeated = ids.note(stop)?;
        let rules = stop_rules(stop, is_repeated, kind, lat, lon);
        add_faults(&mut faults, InputFile::Stops, row.number(), &rules)?;
    }
    Ok(faults)
}
