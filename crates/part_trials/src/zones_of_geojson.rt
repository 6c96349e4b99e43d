// The zones of GeoJSON texts, or their fault.

ghost use Rattle.std.specs.Prelude.{IfOk};
ghost use Rattle.feed_meaning.specs.Told.{IsWithin};

use feed_rules::{FeedBytes, RawFeed};
use flex_model::{FaultCode, InputFile, Listed, Position, RawFile};
use geo_json::{GeoRefusal, read_zones};
use std::alloc::Global;
use std::test::Fail;

const ZONE: &str =
    r#"{"type":"FeatureCollection","features":[{"type":"Feature","id":"Z","properties":{},"geometry":{"type":"Polygon","coordinates":[[[4.99,49.99],[5.05,49.99],[5.05,50.01],[4.99,50.01],[4.99,49.99]]]}}]}"#;

const OPEN: &str =
    r#"{"type":"FeatureCollection","features":[{"type":"Feature","id":"Z","properties":{},"geometry":{"type":"Polygon","coordinates":[[[4.99,49.99],[5.05,49.99],[5.05,50.01],[4.99,50.01],[4.99,49.98]]]}}]}"#;

const SHORT: &str =
    r#"{"type":"FeatureCollection","features":[{"type":"Feature","id":"Z","properties":{},"geometry":{"type":"Polygon","coordinates":[[[4.99,49.99],[5.05,49.99],[5.05,50.01]]]}}]}"#;

const SEVERAL: &str = r#"{"type":"FeatureCollection","features":[
{"type":"Feature","id":"Z","geometry":{"type":"MultiPolygon","coordinates":[
[[[0,0],[1,0],[0,0]]],
[]]}}]}"#;

const NOWHERE: &str = r#"{"type":"FeatureCollection","features":[
{"type":"Feature","id":"A","geometry":{"type":"Polygon","coordinates":[[[0,0],[1,0],[1,1],[0,0]]]}},
{"type":"Feature","id":"B"}]}"#;

const FAR: &str = r#"{"features":[{"id":"Z","geometry":{"coordinates":[[[0,0],
[180,90,7],
[180,
90.1]]],"type":"Polygon"},"type":"Feature"}],"type":"FeatureCollection"}"#;

// More arrays than may be open at once.
const DEEP: &str = "[[[[[[[[[[[[[[[[[[[[[[[[[[[[[[[[[[[[[[[[[[[[[[[[[[[[[[[[[[[[[[[[[";

fn at(lon: i64, lat: i64) -> Position {
    Position { lon, lat }
}

// The fault of a text.
fn fault_of(alloc: Global, text: &str) -> Option<(FaultCode, u64)> {
    if text.len() >= 1000 {
        return None;
    }
    match read_zones(alloc, text) {
        Err(GeoRefusal::Fault { code, line }) => Some((code, line)),
        _ => None,
    }
}

#[test]
fn a_zone_is_read(rt: HostRuntime) -> Result<(), Fail> {
    let zones = read_zones(rt.alloc(), ZONE).ok().ok_or("zones")?;
    let [zone] = zones.as_slice() else {
        return Err("one zone".into());
    };
    assert_eq!(rt; zone.line, 1);
    assert!(rt; zone.id.as_str() == "Z");
    let [polygon] = zone.polygons.as_slice() else {
        return Err("one polygon".into());
    };
    let [ring] = polygon.rings.as_slice() else {
        return Err("one ring".into());
    };
    let corners = [
        at(4_990_000_000_000_000, 49_990_000_000_000_000),
        at(5_050_000_000_000_000, 49_990_000_000_000_000),
        at(5_050_000_000_000_000, 50_010_000_000_000_000),
        at(4_990_000_000_000_000, 50_010_000_000_000_000),
        at(4_990_000_000_000_000, 49_990_000_000_000_000),
    ];
    assert!(rt; ring.corners.as_slice() == corners.as_slice());
    Ok(())
}

#[test]
fn the_first_fault_is_named(rt: HostRuntime) -> Result<(), Fail> {
    for (text, code, line) in [
        (OPEN, FaultCode::RingOpen, 1),
        (SHORT, FaultCode::RingShort, 1),
        (
            r#"{"type":"FeatureCollection","features":[}"#,
            FaultCode::JsonSyntax,
            1,
        ),
        (DEEP, FaultCode::JsonDepth, 1),
        (SEVERAL, FaultCode::RingShort, 3),
        (NOWHERE, FaultCode::GeoShape, 3),
        (FAR, FaultCode::BadCoordinate, 4),
    ] {
        assert_eq!(rt; fault_of(rt.alloc(), text), Some((code, line)), "{text}");
    }
    Ok(())
}

// The bytes of a text after a byte order mark, of which there are fewer than 2^32.
fn marked(alloc: Global, text: &str) -> Result<RawFile, Fail>
    ensures { IfOk result (IsWithin 4294967295) }
{
    let mut bytes = b"\xEF\xBB\xBF".to_vec(alloc)?;
    bytes.extend_from_slice(text.as_bytes())?;
    if bytes.len() > 1_000 {
        return Err("a long text".into());
    }
    Ok(RawFile::Bytes(Listed::from_vec(bytes)))
}

#[test]
fn zones_of_a_feed_are_read(rt: HostRuntime) -> Result<(), Fail> {
    for (text, zone) in [(ZONE, Some((1, "Z"))), ("{\"type\":", None)] {
        let mut bytes = FeedBytes::new();
        assert!(rt; bytes.is_absent(InputFile::Locations));
        bytes.set(InputFile::Locations, marked(rt.alloc(), text)?);
        assert!(rt; !bytes.is_absent(InputFile::Locations));
        let raw = RawFeed::read(rt.alloc(), &bytes)?;
        let zones = raw.zones().map(|zones| zones.as_slice());
        let first = zones.and_then(|zones| zones.first());
        assert_eq!(rt; zones.map(|zones| zones.len()), zone.map(|_| 1));
        assert_eq!(rt; first.map(|first| (first.line, first.id.as_str())), zone);
        assert!(rt; raw.table(InputFile::Stops).is_none());
    }
    let raw = RawFeed::read(rt.alloc(), &FeedBytes::new())?;
    assert!(rt; raw.zones().is_none());
    Ok(())
}
