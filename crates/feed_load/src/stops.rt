// The stops of stops.txt.

ghost use Rattle.std.specs.Prelude.{◌≡◌, ◌||◌, IfOk, map};
ghost use Rattle.feed_meaning.specs.FeedValue as Value;
ghost use Rattle.feed_meaning.specs.FeedValue.{coordinate};
ghost use Rattle.feed_meaning.specs.Rules;
ghost use Rattle.feed_rules.specs.Links.{records_in};
ghost use Rattle.feed_load.specs.TableValues.{values_in};

use crate::fields::{latitude, longitude, text_of};
use feed_meaning::{is_empty, is_text, value};
use feed_tables::Table;
use flex_model::{Listed, NoMemory, Position, Stop};
use std::alloc::Global;

// A stop by the texts of its columns.
fn stop_of(
    alloc: Global,
    id: &str,
    lon: &str,
    lat: &str,
    location_type: &str,
) -> Result<Stop, NoMemory>
    ensures { IfOk result (λ stop. stop ≡ record {
      id = id.now;
      at = record { lon = coordinate 180 lon.now; lat = coordinate 90 lat.now };
      boards = Rules.is_empty location_type.now || Rules.is_text location_type.now "0";
    }) }
{
    Ok(Stop {
        id: text_of(alloc, id)?,
        at: Position {
            lon: longitude(lon),
            lat: latitude(lat),
        },
        boards: is_empty(location_type) || is_text(location_type, "0"),
    })
}

// The stops of a table, in the order of the file.
fn stops_in(alloc: Global, table: &Table) -> Result<Listed<Stop>, NoMemory>
    ensures { IfOk result (λ stops. stops ≡ map Value.stop_of (values_in table.now)) }
{
    let stop_id = table.column("stop_id");
    let stop_lon = table.column("stop_lon");
    let stop_lat = table.column("stop_lat");
    let location_type = table.column("location_type");
    let mut stops = Listed::new(alloc);
    for row in table.rows() {
        let id = value(&row, stop_id);
        let lon = value(&row, stop_lon);
        let lat = value(&row, stop_lat);
        let kind = value(&row, location_type);
        stops.push(stop_of(alloc, id, lon, lat, kind)?)?;
    }
    Ok(stops)
}

/// The stops of stops.txt in the order of the file, none where there is no such table.
pub(crate) fn stops_of(alloc: Global, table: Option<&Table>) -> Result<Listed<Stop>, NoMemory>
    ensures { IfOk result (λ stops. stops ≡ map Value.stop_of (records_in table.entry)) }
{
    match table {
        Some(table) => stops_in(alloc, table),
        None => Ok(Listed::new(alloc)),
    }
}
