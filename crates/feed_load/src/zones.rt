// The zones of locations.geojson, with the stops that they serve.

ghost use Rattle.std.specs.Prelude.{◌≡◌, ◌^◌, ◌<◌, All, IfOk, length, map};
ghost use Rattle.flex_model.specs.SoundFeed.{IsSoundPolygon};
ghost use Rattle.flex_model.specs.SoundTimes.{IsOnGlobe};
ghost use Rattle.feed_meaning.specs.FeedValue as Value;
ghost use Rattle.feed_load.specs.FeedTables.{AreSoundZones, zone_features};
ghost use Rattle.geo_json.specs.Zones.{feature_in};

use crate::fields::text_of;
use flex_model::{Listed, NoMemory, Polygon, Ring, Stop, Zone};
use geo_json::ZoneRecord;
use std::alloc::Global;
use zone_test::zone_stops;

// A ring of its own.
fn ring_of(alloc: Global, ring: &Ring) -> Result<Ring, NoMemory>
    ensures { IfOk result (λ own. own ≡ ring.now) }
{
    Ok(Ring {
        corners: Listed::from_vec(ring.corners.as_slice().to_vec(alloc)?),
    })
}

// A polygon of its own.
fn polygon_of(alloc: Global, polygon: &Polygon) -> Result<Polygon, NoMemory>
    ensures { IfOk result (λ own. own ≡ polygon.now) }
{
    let mut rings = Listed::new(alloc);
    for ring in polygon.rings.as_slice() {
        rings.push(ring_of(alloc, ring)?)?;
    }
    Ok(Polygon { rings })
}

// Polygons of their own.
fn polygons_of(alloc: Global, polygons: &Listed<Polygon>) -> Result<Listed<Polygon>, NoMemory>
    ensures { IfOk result (λ own. own ≡ polygons.now) }
{
    let mut own = Listed::new(alloc);
    for polygon in polygons.as_slice() {
        own.push(polygon_of(alloc, polygon)?)?;
    }
    Ok(own)
}

// A zone with the stops that it serves. Each stop is looked up in the slabs of the zone.
fn zone_of(alloc: Global, zone: &ZoneRecord, stops: &Listed<Stop>) -> Result<Zone, NoMemory>
    requires polygons { All IsSoundPolygon zone.now.polygons }
    requires on_globe { All (λ stop. IsOnGlobe stop.at) stops.now }
    requires few { length stops.now < 2 ^ 32 }
    ensures { IfOk result (λ own. own ≡ Value.zone_of stops.now (feature_in zone.now)) }
{
    let id = text_of(alloc, zone.id.as_str())?;
    let polygons = polygons_of(alloc, &zone.polygons)?;
    let served = zone_stops(alloc, &zone.polygons, stops)?;
    Ok(Zone {
        id,
        polygons,
        stops: served,
    })
}

// The zones in the order of the file.
fn zones_in(
    alloc: Global,
    zones: &Listed<ZoneRecord>,
    stops: &Listed<Stop>,
) -> Result<Listed<Zone>, NoMemory>
    requires polygons { All (λ zone. All IsSoundPolygon zone.polygons) zones.now }
    requires on_globe { All (λ stop. IsOnGlobe stop.at) stops.now }
    requires few { length stops.now < 2 ^ 32 }
    ensures { IfOk result (λ own.
        own ≡ map (Value.zone_of stops.now) (map feature_in zones.now)) }
{
    let mut own = Listed::new(alloc);
    for zone in zones.as_slice() {
        own.push(zone_of(alloc, zone, stops)?)?;
    }
    Ok(own)
}

/// The zones of locations.geojson with the stops that they serve, in the order of the file, none where there is no such file.
pub(crate) fn zones_of(
    alloc: Global,
    zones: Option<&Listed<ZoneRecord>>,
    stops: &Listed<Stop>,
) -> Result<Listed<Zone>, NoMemory>
    requires polygons { AreSoundZones zones }
    requires on_globe { All (λ stop. IsOnGlobe stop.at) stops.now }
    requires few { length stops.now < 2 ^ 32 }
    ensures { IfOk result (λ own.
        own ≡ map (Value.zone_of stops.now) (zone_features zones.entry)) }
{
    match zones {
        Some(zones) => zones_in(alloc, zones, stops),
        None => Ok(Listed::new(alloc)),
    }
}
