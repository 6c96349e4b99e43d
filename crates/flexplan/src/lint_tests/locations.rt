// The rules of locations.geojson: those by itself, and those between it and the tables. In the texts an apostrophe stands for
// a quotation mark.

use super::{assert_file, assert_list, feed_without, put};
use flex_io::MemFiles;
use std::alloc::Global;
use std::test::Fail;

// The bytes of a text whose apostrophes are quotation marks.
fn quoted(alloc: Global, text: &str) -> Result<Vec<u8>, Fail> {
    let mut bytes = Vec::new(alloc);
    for byte in text.as_bytes() {
        bytes.push(if *byte == b'\'' { b'"' } else { *byte })?;
    }
    Ok(bytes)
}

// A text without faults.
const ZONE: &str =
    "{'type':'FeatureCollection','features':[{'type':'Feature','id':'Z','properties':{},'geometry':{'type':'Polygon','coordinates':[[[4.99,49.99],[5.05,49.99],[5.05,50.01],[4.99,50.01],[4.99,49.99]]]}}]}";

// Texts as a whole, with their faults.
const TEXTS: [(&str, &str, &str); 16] = [
    ("one zone", ZONE, ""),
    ("no zone", "{'type':'FeatureCollection','features':[]}", ""),
    ("no bytes", "", "1 JSON_SYNTAX"),
    (
        "an array that isn't closed",
        "{'type':'FeatureCollection','features':[}",
        "1 JSON_SYNTAX",
    ),
    (
        "line ends of two bytes",
        "{\r\n'type':'FeatureCollection',\r\n'features':[\r\n]}\r\n",
        "",
    ),
    (
        "a fault in a later line",
        "{\r\n'type':'FeatureCollection',\r\n'features':[\r\n}",
        "4 JSON_SYNTAX",
    ),
    ("an array", "[]", "1 GEO_SHAPE"),
    (
        "another type",
        "{\n'type':'Feature','features':[]}",
        "2 GEO_SHAPE",
    ),
    ("no type", "\n{\n'features':[]}", "2 GEO_SHAPE"),
    ("no features", "{'type':'FeatureCollection'}", "1 GEO_SHAPE"),
    (
        "features that are no array",
        "{'type':'FeatureCollection',\n'features':{}}",
        "2 GEO_SHAPE",
    ),
    (
        "the first of two members counts",
        "{'type':'FeatureCollection','type':'x','features':[],'features':0}",
        "",
    ),
    (
        "64 open arrays",
        "[[[[[[[[[[[[[[[[[[[[[[[[[[[[[[[[[[[[[[[[[[[[[[[[[[[[[[[[[[[[[[[[]]]]]]]]]]]]]]]]]]]]]]]]]]]]]]]]]]]]]]]]]]]]]]]]]]]]]]]]]]]]]]]]",
        "1 GEO_SHAPE",
    ),
    (
        "65 open arrays",
        "[[[[[[[[[[[[[[[[[[[[[[[[[[[[[[[[[[[[[[[[[[[[[[[[[[[[[[[[[[[[[[[[\n[",
        "2 JSON_DEPTH",
    ),
    (
        "64 arrays that aren't closed",
        "[[[[[[[[[[[[[[[[[[[[[[[[[[[[[[[[[[[[[[[[[[[[[[[[[[[[[[[[[[[[[[[[\n",
        "2 JSON_SYNTAX",
    ),
    (
        "a feature that is no object",
        "{'type':'FeatureCollection','features':[\n7]}",
        "2 GEO_SHAPE",
    ),
];

// What stands for the id and the geometry of a feature in the second line, with the faults.
const FEATURES: [(&str, &str, &str); 31] = [
    ("no id", "'geometry':null", "2 GEO_SHAPE"),
    ("an empty id", "'id':'','geometry':null", "2 GEO_SHAPE"),
    ("a number as id", "'id':\n7,'geometry':null", "3 GEO_SHAPE"),
    ("no geometry", "'id':'Z'", "2 GEO_SHAPE"),
    ("null", "'id':'Z','geometry':\nnull", "3 GEO_SHAPE"),
    (
        "a point",
        "'id':'Z','geometry':{'type':\n'Point','coordinates':[5,50]}",
        "3 GEO_SHAPE",
    ),
    (
        "no coordinates",
        "'id':'Z','geometry':\n{'type':'Polygon'}",
        "3 GEO_SHAPE",
    ),
    (
        "coordinates that are no array",
        "'id':'Z','geometry':{'type':'Polygon','coordinates':\n5}",
        "3 GEO_SHAPE",
    ),
    (
        "a polygon without ring",
        "'id':'Z','geometry':{'type':'Polygon','coordinates':\n[]}",
        "3 GEO_SHAPE",
    ),
    (
        "a multipolygon without polygon",
        "'id':'Z','geometry':{'type':'MultiPolygon','coordinates':\n[]}",
        "3 GEO_SHAPE",
    ),
    (
        "a multipolygon with an empty polygon",
        "'id':'Z','geometry':{'type':'MultiPolygon','coordinates':[\n[]]}",
        "3 GEO_SHAPE",
    ),
    (
        "a bad ring before an empty polygon",
        "'id':'Z','geometry':{'type':'MultiPolygon','coordinates':[[\n5],\n[]]}",
        "3 GEO_SHAPE",
    ),
    (
        "a multipolygon",
        "'id':'Z','geometry':{'type':'MultiPolygon','coordinates':[[[[0,0],[1,0],[1,1],[0,0]]],[[[2,2],[3,2],[3,3],[2,2]]]]}",
        "",
    ),
    (
        "a ring that is no array",
        "'id':'Z','geometry':{'type':'Polygon','coordinates':[\n'x']}",
        "3 GEO_SHAPE",
    ),
    (
        "a position of one number",
        "'id':'Z','geometry':{'type':'Polygon','coordinates':[[[0,0],\n[1]]]}",
        "3 GEO_SHAPE",
    ),
    (
        "a position of texts",
        "'id':'Z','geometry':{'type':'Polygon','coordinates':[[\n['0','0']]]}",
        "3 GEO_SHAPE",
    ),
    (
        "heights are passed over",
        "'id':'Z','geometry':{'type':'Polygon','coordinates':[[[0,0,'x'],[1,0,7],[1,1],[0,0]]]}",
        "",
    ),
    (
        "greatest coordinates",
        "'id':'Z','geometry':{'type':'Polygon','coordinates':[[[-180,-90],[180,-90],[180,90],[-180,-90]]]}",
        "",
    ),
    (
        "a longitude beyond 180",
        "'id':'Z','geometry':{'type':'Polygon','coordinates':[[[0,0],[\n180.000000000000001,91]]]}",
        "3 BAD_COORDINATE",
    ),
    (
        "a latitude beyond 90",
        "'id':'Z','geometry':{'type':'Polygon','coordinates':[[[0,0],[1,\n-90.1]]]}",
        "3 BAD_COORDINATE",
    ),
    (
        "60 digits",
        "'id':'Z','geometry':{'type':'Polygon','coordinates':[[[0.00000000000000000000000000000000000000000000000000000000001,0],[1,0],[1,1],[0,0]]]}",
        "",
    ),
    (
        "66 digits",
        "'id':'Z','geometry':{'type':'Polygon','coordinates':[[[\n0.00000000000000000000000000000000000000000000000000000000000000001,0]]]}",
        "3 BAD_COORDINATE",
    ),
    (
        "a ring of three positions",
        "'id':'Z','geometry':{'type':'Polygon','coordinates':[\n[[0,0],[1,0],[0,0]]]}",
        "3 RING_SHORT",
    ),
    (
        "an open ring of three positions",
        "'id':'Z','geometry':{'type':'Polygon','coordinates':[\n[[0,0],[1,0],[1,1]]]}",
        "3 RING_SHORT",
    ),
    (
        "an open ring",
        "'id':'Z','geometry':{'type':'Polygon','coordinates':[\n[[0,0],[1,0],[1,1],[0,0.000000000000001]]]}",
        "3 RING_OPEN",
    ),
    (
        "a ring that is closed as it is kept",
        "'id':'Z','geometry':{'type':'Polygon','coordinates':[[[0,0],[1,0],[1,1],[0,0.0000000000000009]]]}",
        "",
    ),
    (
        "an open hole",
        "'id':'Z','geometry':{'type':'Polygon','coordinates':[[[0,0],[9,0],[9,9],[0,0]],\n[[1,1],[2,1],[2,2],[1,2]]]}",
        "3 RING_OPEN",
    ),
    (
        "the id of a stop",
        "'id':'A','geometry':{'type':'Polygon','coordinates':[[[0,0],[1,0],[1,1],[0,0]]]}",
        "2 SHARED_ID",
    ),
    (
        "the id of a station, with an escape",
        "'id':'\\u0053','geometry':{'type':'Polygon','coordinates':[[[0,0],[1,0],[1,1],[0,0]]]}",
        "2 SHARED_ID",
    ),
    (
        "an id again",
        "'id':'Z','geometry':{'type':'Polygon','coordinates':[[[0,0],[1,0],[1,1],[0,0]]]}},\n{'type':'Feature','id':'Z','geometry':{'type':'Polygon','coordinates':[[[0,0],[1,0],[1,1],[0,0]]]}},\n{'type':'Feature','id':'Z','geometry':{'type':'Polygon','coordinates':[[[0,0],[1,0],[1,1],[0,0]]]}",
        "3 DUPLICATE_KEY\n4 DUPLICATE_KEY",
    ),
    (
        "a stop's id again",
        "'id':'A','geometry':{'type':'Polygon','coordinates':[[[0,0],[1,0],[1,1],[0,0]]]}},\n{'type':'Feature','id':'A','geometry':{'type':'Polygon','coordinates':[[[0,0],[1,0],[1,1],[0,0]]]}",
        "3 DUPLICATE_KEY",
    ),
];

#[test]
fn texts_of_locations_are_judged(rt: HostRuntime) -> Result<(), Fail> {
    let alloc = rt.alloc();
    for (name, text, faults) in TEXTS.as_slice() {
        let contents = quoted(alloc, text)?;
        assert_file(
            &rt,
            alloc,
            name,
            "locations.geojson",
            contents.as_slice(),
            faults,
        )?;
    }
    Ok(())
}

#[test]
fn features_are_judged(rt: HostRuntime) -> Result<(), Fail> {
    let alloc = rt.alloc();
    for (name, members, faults) in FEATURES.as_slice() {
        let mut contents = quoted(
            alloc,
            "{'type':'FeatureCollection','features':[\n{'type':'Feature',",
        )?;
        contents.extend_from_slice(quoted(alloc, members)?.as_slice())?;
        contents.extend_from_slice(b"}]}")?;
        assert_file(
            &rt,
            alloc,
            name,
            "locations.geojson",
            contents.as_slice(),
            faults,
        )?;
    }
    Ok(())
}

// The same with one byte order mark, with two, and bytes that are no text.
#[test]
fn marks_and_bytes_of_locations_are_judged(rt: HostRuntime) -> Result<(), Fail> {
    let alloc = rt.alloc();
    for (start, faults) in [
        (b"\xEF\xBB\xBF".as_slice(), ""),
        (b"\xEF\xBB\xBF\xEF\xBB\xBF".as_slice(), "1 JSON_SYNTAX"),
        (b"\n\n\xFF".as_slice(), "3 NOT_UTF8"),
        (b"\xEF\xBB\xBF\n\xC3".as_slice(), "2 NOT_UTF8"),
    ] {
        let mut contents = Vec::new(alloc);
        contents.extend_from_slice(start)?;
        contents.extend_from_slice(quoted(alloc, ZONE)?.as_slice())?;
        assert_file(
            &rt,
            alloc,
            "a start",
            "locations.geojson",
            contents.as_slice(),
            faults,
        )?;
    }
    Ok(())
}

// Each text that ends too early.
#[test]
fn locations_may_be_cut_short(rt: HostRuntime) -> Result<(), Fail> {
    let alloc = rt.alloc();
    let whole = quoted(alloc, ZONE)?;
    for length in 0..whole.len() {
        let text = &whole.as_slice()[..length];
        assert_file(
            &rt,
            alloc,
            "a cut",
            "locations.geojson",
            text,
            "1 JSON_SYNTAX",
        )?;
    }
    Ok(())
}

// Beside a zone Z: other contents of a table, and the whole list.
const BESIDE: [(&str, &str, &str); 5] = [
    (
        "stop_times.txt",
        "trip_id,stop_sequence,location_id,start_pickup_drop_off_window,end_pickup_drop_off_window\nT,1,Z,08:00:00,09:00:00\nT,2,Z,08:00:00,09:00:00\n",
        "",
    ),
    (
        "stop_times.txt",
        "trip_id,stop_sequence,location_id,start_pickup_drop_off_window,end_pickup_drop_off_window\nT,1,Z,08:00:00,09:00:00\nT,2,X,08:00:00,09:00:00\n",
        "fault stop_times.txt 3 UNKNOWN_ID\n",
    ),
    (
        "stop_times.txt",
        "trip_id,stop_sequence,stop_id,start_pickup_drop_off_window,end_pickup_drop_off_window\nT,1,Z,08:00:00,09:00:00\n",
        "fault stop_times.txt 2 UNKNOWN_ID\n",
    ),
    (
        "location_groups.txt",
        "location_group_id\nG\nZ\n",
        "fault location_groups.txt 3 SHARED_ID\n",
    ),
    (
        "stops.txt",
        "stop_id,stop_lat,stop_lon,location_type\nA,50,5,\nB,50.1,5,0\nC,50.2,5,\nZ,50.3,5,1\n",
        "fault locations.geojson 1 SHARED_ID\n",
    ),
];

#[test]
fn zones_are_judged_beside_tables(rt: HostRuntime) -> Result<(), Fail> {
    let alloc = rt.alloc();
    let zone = quoted(alloc, ZONE)?;
    for (file, contents, list) in BESIDE.as_slice() {
        let mut files = feed_without(alloc, "", "")?;
        put(alloc, &mut files, "locations.geojson", zone.as_slice())?;
        put(alloc, &mut files, file, contents.as_bytes())?;
        assert_list(&rt, alloc, file, &mut files, list.as_bytes());
    }
    Ok(())
}

// A feed of zones alone, without stops.txt.
const ZONES_ALONE: [(&str, &str); 5] = [
    ("agency.txt", "agency_timezone\nUTC\n"),
    ("routes.txt", "route_id\n7\n"),
    ("trips.txt", "route_id,service_id,trip_id\n7,W,T\n"),
    (
        "stop_times.txt",
        "trip_id,stop_sequence,location_id,start_pickup_drop_off_window,end_pickup_drop_off_window\nT,1,Z,08:00:00,09:00:00\nT,2,Z,08:00:00,09:00:00\n",
    ),
    (
        "calendar_dates.txt",
        "service_id,date,exception_type\nW,20250604,1\n",
    ),
];

#[test]
fn stops_may_be_missing_beside_zones(rt: HostRuntime) -> Result<(), Fail> {
    let alloc = rt.alloc();
    for (text, list) in [(ZONE, ""), ("{", "fault locations.geojson 1 JSON_SYNTAX\n")] {
        let mut files = MemFiles::new(alloc);
        for (file, contents) in ZONES_ALONE.as_slice() {
            put(alloc, &mut files, file, contents.as_bytes())?;
        }
        let zones = quoted(alloc, text)?;
        put(alloc, &mut files, "locations.geojson", zones.as_slice())?;
        assert_list(&rt, alloc, "zones alone", &mut files, list.as_bytes());
    }
    Ok(())
}
