// The faults of locations.geojson beside the tables.

ghost use Rattle.std.specs.Prelude.{◌≡◌, IfOk, map, true};
ghost use Rattle.std.specs.List.{flat_map};
ghost use Rattle.flex_model.specs.declared.fault.InputFile.TheVariants as InputFiles;
ghost use Rattle.feed_tables.specs.Refusals.{is_given};
ghost use Rattle.feed_meaning.specs.FeedLinks;
ghost use Rattle.feed_meaning.specs.FeedLinks.{Tables};
ghost use Rattle.feed_meaning.specs.Rules.{Values};
ghost use Rattle.feed_meaning.specs.Tables.{faults_at};
ghost use Rattle.feed_rules.specs.Links.{StandFor};
ghost use Rattle.feed_rules.specs.Zones.{HaveZoneIds, zone_entry};

use crate::links::LinkIds;
use feed_meaning::{add_faults, rule};
use flex_model::{Fault, FaultCode, InputFile, Listed, NoMemory};
use geo_json::ZoneRecord;
use std::alloc::Global;

// The rules of a zone beside the tables.
fn zone_links(id: &str, ids: &LinkIds<'_>) -> [Option<FaultCode>; 1]
    ensures { (tables : Tables) (r : Values) → StandFor ids.now tables → id.now ≡ r "id"
        → is_given (r "id") ≡ true → result ≡ FeedLinks.location_links tables r }
{
    [rule(FaultCode::SharedId, ids.stops.has(id))]
}

/// The faults of zones beside the tables, where each of them has an id.
pub(crate) fn zone_link_faults(
    alloc: Global,
    zones: &Listed<ZoneRecord>,
    ids: &LinkIds<'_>,
) -> Result<Listed<Fault>, NoMemory>
    ensures { IfOk result (λ faults. (tables : Tables) → StandFor ids.now tables
        → HaveZoneIds zones.now
        → faults ≡ flat_map (λ e. faults_at InputFiles.Locations e.row
        (FeedLinks.location_links tables e.values)) (map zone_entry zones.now)) }
{
    let mut faults = Listed::new(alloc);
    for zone in zones.as_slice() {
        let rules = zone_links(zone.id.as_str(), ids);
        add_faults(&mut faults, InputFile::Locations, zone.line, &rules)?;
    }
    Ok(faults)
}
