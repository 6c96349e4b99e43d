// Small folders, each with the list that `lint` prints for it: at least one for each rule that a table or locations.geojson
// can break, by itself or with others, and some that just break none.

mod locations;
mod tables;

use crate::run::run;
use crate::status::Status;
use flex_io::{MemFiles, MemSink};
use std::alloc::Global;
use std::process::Abort;
use std::test::Fail;

// A feed without faults. S is a station, the middle record of T has no time, and services D and E stand in one calendar only.
const FEED: [(&str, &str); 12] = [
    ("agency.txt", "agency_timezone\nUTC\n"),
    (
        "stops.txt",
        "stop_id,stop_lat,stop_lon,location_type\nA,50,5,\nB,50.1,5,0\nC,50.2,5,\nS,50.3,5,1\n",
    ),
    ("routes.txt", "route_id\n7\n"),
    ("trips.txt", "route_id,service_id,trip_id\n7,W,T\n7,W,U\n"),
    (
        "stop_times.txt",
        "trip_id,stop_sequence,stop_id,arrival_time,departure_time\n\
         T,1,A,08:00:00,08:01:00\nT,2,B,,\nT,3,C,08:20:00,08:20:00\n",
    ),
    (
        "calendar.txt",
        "service_id,monday,tuesday,wednesday,thursday,friday,saturday,sunday,start_date,end_date\n\
         W,1,1,1,1,1,0,0,20250101,20251231\nD,0,0,0,0,0,1,1,20250101,20251231\n",
    ),
    (
        "calendar_dates.txt",
        "service_id,date,exception_type\nW,20250604,2\nE,20250604,1\n",
    ),
    ("location_groups.txt", "location_group_id\nG\n"),
    (
        "location_group_stops.txt",
        "location_group_id,stop_id\nG,A\n",
    ),
    (
        "booking_rules.txt",
        "booking_rule_id,booking_type,prior_notice_duration_min\nR,1,30\n",
    ),
    (
        "transfers.txt",
        "from_stop_id,to_stop_id,transfer_type\nA,B,0\n",
    ),
    (
        "frequencies.txt",
        "trip_id,start_time,end_time,headway_secs\nT,08:00:00,09:00:00,600\n",
    ),
];

// Puts a file into the folder.
fn put(alloc: Global, files: &mut MemFiles, file: &str, contents: &[u8]) -> Result<(), Fail> {
    let path = format!(in alloc; "a/{file}")?;
    files.add(path.as_str(), contents)?;
    Ok(())
}

// The feed without faults, but for two files that are left out.
fn feed_without(alloc: Global, first: &str, second: &str) -> Result<MemFiles, Fail> {
    let mut files = MemFiles::new(alloc);
    for (file, contents) in FEED.as_slice() {
        if **file != *first && **file != *second {
            put(alloc, &mut files, file, contents.as_bytes())?;
        }
    }
    Ok(files)
}

// Asserts what `lint` prints for the folder, and its status.
fn assert_list(rt: &impl Abort, alloc: Global, name: &str, files: &mut MemFiles, list: &[u8]) {
    let mut out = MemSink::new(alloc);
    let mut err = MemSink::new(alloc);
    let status = run(alloc, &["lint", "a"], files, &mut out, &mut err);
    assert_eq!(rt; out.bytes(), list, "{name}");
    let expected = if list.is_empty() {
        Status::Done
    } else {
        Status::FeedFaulty
    };
    assert_eq!(rt; status, expected, "{name}");
}

// The list of one file, from a line for each fault with its row and its code.
fn list_of(alloc: Global, file: &str, faults: &str) -> Result<String, Fail> {
    let mut list = String::new(alloc);
    for fault in faults.lines() {
        let line = format!(in alloc; "fault {file} {fault}\n")?;
        list.push_str(line.as_str())?;
    }
    Ok(list)
}

// Asserts the list of the feed with other contents of one file, which has all the faults.
fn assert_file(
    rt: &impl Abort,
    alloc: Global,
    name: &str,
    file: &str,
    contents: &[u8],
    faults: &str,
) -> Result<(), Fail> {
    let case = format!(in alloc; "{file}: {name}")?;
    let mut files = feed_without(alloc, "", "")?;
    put(alloc, &mut files, file, contents)?;
    let list = list_of(alloc, file, faults)?;
    assert_list(rt, alloc, case.as_str(), &mut files, list.as_bytes());
    Ok(())
}

// The same for each case: its name, the records below the header, and the faults.
fn assert_records(
    rt: &impl Abort,
    alloc: Global,
    file: &str,
    header: &str,
    cases: &[(&str, &str, &str)],
) -> Result<(), Fail> {
    for (name, records, faults) in cases {
        let contents = format!(in alloc; "{header}\n{records}\n")?;
        assert_file(rt, alloc, name, file, contents.as_bytes(), faults)?;
    }
    Ok(())
}

// The same for each of several files: the file, and its faults.
fn assert_files(
    rt: &impl Abort,
    alloc: Global,
    name: &str,
    contents: &[u8],
    files: &[(&str, &str)],
) -> Result<(), Fail> {
    for (file, faults) in files {
        assert_file(rt, alloc, name, file, contents, faults)?;
    }
    Ok(())
}

// Files that are left out, and the whole list.
const LEFT_OUT: [(&str, &str, &str); 15] = [
    ("agency.txt", "", "fault agency.txt 0 MISSING_FILE\n"),
    ("stops.txt", "", "fault stops.txt 0 MISSING_FILE\n"),
    ("routes.txt", "", "fault routes.txt 0 MISSING_FILE\n"),
    ("trips.txt", "", "fault trips.txt 0 MISSING_FILE\n"),
    (
        "stop_times.txt",
        "",
        "fault stop_times.txt 0 MISSING_FILE\n",
    ),
    (
        "routes.txt",
        "trips.txt",
        "fault routes.txt 0 MISSING_FILE\nfault trips.txt 0 MISSING_FILE\n",
    ),
    ("calendar.txt", "", ""),
    ("calendar_dates.txt", "", ""),
    (
        "calendar.txt",
        "calendar_dates.txt",
        "fault calendar.txt 0 MISSING_FILE\n",
    ),
    (
        "location_groups.txt",
        "",
        "fault location_group_stops.txt 2 UNKNOWN_ID\n",
    ),
    ("location_groups.txt", "location_group_stops.txt", ""),
    ("location_group_stops.txt", "", ""),
    ("booking_rules.txt", "", ""),
    ("transfers.txt", "", ""),
    ("frequencies.txt", "", ""),
];

#[test]
fn files_may_be_missing(rt: HostRuntime) -> Result<(), Fail> {
    let alloc = rt.alloc();
    for (first, second, list) in LEFT_OUT.as_slice() {
        let mut files = feed_without(alloc, first, second)?;
        assert_list(&rt, alloc, first, &mut files, list.as_bytes());
    }
    let list = "fault agency.txt 0 MISSING_FILE\nfault stops.txt 0 MISSING_FILE\n\
                fault routes.txt 0 MISSING_FILE\nfault trips.txt 0 MISSING_FILE\n\
                fault stop_times.txt 0 MISSING_FILE\nfault calendar.txt 0 MISSING_FILE\n";
    let mut files = MemFiles::new(alloc);
    assert_list(&rt, alloc, "no file at all", &mut files, list.as_bytes());
    Ok(())
}

// What blank files give. A blank table of groups leaves an id of another file unknown.
const BLANK_FILES: [(&str, &str); 11] = [
    ("agency.txt", "0 NO_HEADER"),
    ("stops.txt", "0 MISSING_FILE"),
    ("routes.txt", "0 NO_HEADER"),
    ("trips.txt", "0 NO_HEADER"),
    ("stop_times.txt", "0 NO_HEADER"),
    ("calendar.txt", ""),
    ("calendar_dates.txt", ""),
    ("location_group_stops.txt", ""),
    ("booking_rules.txt", ""),
    ("transfers.txt", ""),
    ("frequencies.txt", ""),
];

#[test]
fn files_may_be_blank(rt: HostRuntime) -> Result<(), Fail> {
    assert_files(&rt, rt.alloc(), "no byte", b"", &BLANK_FILES)?;
    assert_files(&rt, rt.alloc(), "empty lines", b"\n\r\n\n", &BLANK_FILES)
}

// What files without any of their needed columns give.
const BARE_FILES: [(&str, &str); 12] = [
    ("agency.txt", "1 MISSING_COLUMN"),
    ("stops.txt", "1 MISSING_COLUMN"),
    ("routes.txt", "1 MISSING_COLUMN"),
    (
        "trips.txt",
        "1 MISSING_COLUMN\n1 MISSING_COLUMN\n1 MISSING_COLUMN",
    ),
    ("stop_times.txt", "1 MISSING_COLUMN\n1 MISSING_COLUMN"),
    (
        "calendar.txt",
        "1 MISSING_COLUMN\n1 MISSING_COLUMN\n1 MISSING_COLUMN\n1 MISSING_COLUMN\n1 MISSING_COLUMN\n\
      1 MISSING_COLUMN\n1 MISSING_COLUMN\n1 MISSING_COLUMN\n1 MISSING_COLUMN\n1 MISSING_COLUMN",
    ),
    (
        "calendar_dates.txt",
        "1 MISSING_COLUMN\n1 MISSING_COLUMN\n1 MISSING_COLUMN",
    ),
    ("location_groups.txt", "1 MISSING_COLUMN"),
    (
        "location_group_stops.txt",
        "1 MISSING_COLUMN\n1 MISSING_COLUMN",
    ),
    ("booking_rules.txt", "1 MISSING_COLUMN\n1 MISSING_COLUMN"),
    ("transfers.txt", "1 MISSING_COLUMN"),
    (
        "frequencies.txt",
        "1 MISSING_COLUMN\n1 MISSING_COLUMN\n1 MISSING_COLUMN\n1 MISSING_COLUMN",
    ),
];

#[test]
fn columns_may_be_missing(rt: HostRuntime) -> Result<(), Fail> {
    assert_files(&rt, rt.alloc(), "no needed column", b"x\ny\n", &BARE_FILES)
}

// Contents that are no table, whatever the file is, and the one fault.
const NO_TABLES: [(&[u8], &str); 5] = [
    (b"x,y,x\n", "1 DUPLICATE_COLUMN"),
    (b"x\n\xff\n", "2 NOT_UTF8"),
    (b"\xff,x,x\ny,y,y,y\n", "1 NOT_UTF8"),
    (b"x\ny\ny,y\n", "3 ROW_TOO_LONG"),
    (b"x\ny,y\n\xff\n", "2 ROW_TOO_LONG"),
];

// Each of them in place of one file.
fn assert_no_table(rt: &impl Abort, alloc: Global, file: &str) -> Result<(), Fail> {
    for (contents, fault) in NO_TABLES.as_slice() {
        assert_file(rt, alloc, fault, file, contents, fault)?;
    }
    Ok(())
}

#[test]
fn files_may_be_no_tables(rt: HostRuntime) -> Result<(), Fail> {
    for (file, _) in FEED.as_slice() {
        assert_no_table(&rt, rt.alloc(), file)?;
    }
    Ok(())
}

// A case is its name, the file, its contents, and the faults.
const WRITTEN: [(&str, &str, &str, &str); 11] = [
    (
        "a mark, other line ends, quotes, blanks",
        "stops.txt",
        "\u{feff}stop_id,stop_name,stop_lat,stop_lon\r\nA,\"Old \"\"Mill\"\", north\",50,5\r\n\r\n B\t,, 50,5 , ,\r\n\"C\",\"two\nlines\",50,5",
        "",
    ),
    (
        "another order, other columns, names that are empty",
        "trips.txt",
        "trip_id,shape_id, route_id,service_id,,\nT,x,7,W,y,z\nU,,7,W",
        "",
    ),
    ("two marks", "routes.txt", "\u{feff}\u{feff}route_id\n7", ""),
    (
        "three marks",
        "routes.txt",
        "\u{feff}\u{feff}\u{feff}route_id\n7",
        "1 MISSING_COLUMN",
    ),
    (
        "capital letters",
        "routes.txt",
        "Route_ID\n7",
        "1 MISSING_COLUMN",
    ),
    (
        "a missing column hides empty fields",
        "trips.txt",
        "trip_id,service_id\n,",
        "1 MISSING_COLUMN",
    ),
    (
        "two missing columns hide bad fields",
        "frequencies.txt",
        "exact_times,headway_secs,start_time\n9,9,9",
        "1 MISSING_COLUMN\n1 MISSING_COLUMN",
    ),
    (
        "columns that aren't needed, but their values are",
        "stops.txt",
        "stop_id\nA",
        "2 EMPTY_FIELD\n2 EMPTY_FIELD",
    ),
    (
        "empty lines don't count",
        "routes.txt",
        "\nroute_id\n\n7\n\n7",
        "3 DUPLICATE_KEY",
    ),
    (
        "lines of a blank or an empty quote count",
        "routes.txt",
        "route_id\n7\n \n\"\"",
        "3 EMPTY_FIELD\n4 EMPTY_FIELD",
    ),
    (
        "a record of two lines counts one",
        "stops.txt",
        "stop_id,stop_lat,stop_lon\nM,50.0,5.02\n\"N\nx\",91,5.03\nM,50.0,5.02",
        "3 BAD_COORDINATE\n4 DUPLICATE_KEY",
    ),
];

#[test]
fn tables_may_be_written_in_many_ways(rt: HostRuntime) -> Result<(), Fail> {
    for (name, file, contents, faults) in WRITTEN.as_slice() {
        assert_file(&rt, rt.alloc(), name, file, contents.as_bytes(), faults)?;
    }
    Ok(())
}

// A case is its name, two files with their contents, and the whole list.
const TWO_FILES: [(&str, &str, &str, &str, &str, &str); 12] = [
    (
        "faults by themselves hide those between files",
        "trips.txt",
        "route_id,service_id,trip_id\n8,W,T",
        "transfers.txt",
        "from_stop_id,to_stop_id,transfer_type\nA,B,9",
        "fault transfers.txt 2 BAD_ENUM\n",
    ),
    (
        "faults by themselves, in the order of files",
        "booking_rules.txt",
        "booking_rule_id,booking_type\n,0",
        "agency.txt",
        "",
        "fault agency.txt 0 NO_HEADER\nfault booking_rules.txt 2 EMPTY_FIELD\n",
    ),
    (
        "faults between files, in the order of files",
        "frequencies.txt",
        "trip_id,start_time,end_time,headway_secs\nV,8:00:00,9:00:00,600",
        "trips.txt",
        "route_id,service_id,trip_id\n7,W,U\n8,W,T",
        "fault trips.txt 3 UNKNOWN_ID\nfault frequencies.txt 2 UNKNOWN_ID\n",
    ),
    (
        "both calendars blank",
        "calendar.txt",
        "",
        "calendar_dates.txt",
        "\n",
        "fault calendar.txt 0 MISSING_FILE\n",
    ),
    (
        "a calendar that is no table, and no other",
        "calendar.txt",
        "x,x",
        "calendar_dates.txt",
        "",
        "fault calendar.txt 1 DUPLICATE_COLUMN\n",
    ),
    (
        "no service",
        "calendar.txt",
        "service_id,monday,tuesday,wednesday,thursday,friday,saturday,sunday,start_date,end_date",
        "calendar_dates.txt",
        "",
        "fault trips.txt 2 UNKNOWN_ID\nfault trips.txt 3 UNKNOWN_ID\n",
    ),
    (
        "no stop",
        "stops.txt",
        "stop_id",
        "location_group_stops.txt",
        "",
        "fault stop_times.txt 2 UNKNOWN_ID\nfault stop_times.txt 3 UNKNOWN_ID\nfault stop_times.txt 4 UNKNOWN_ID\nfault transfers.txt 2 UNKNOWN_ID\nfault transfers.txt 2 UNKNOWN_ID\n",
    ),
    (
        "no route",
        "routes.txt",
        "route_id",
        "trips.txt",
        "trip_id,service_id,route_id\nT,W,7",
        "fault trips.txt 2 UNKNOWN_ID\n",
    ),
    (
        "no trip",
        "trips.txt",
        "route_id,service_id,trip_id",
        "stop_times.txt",
        "trip_id,stop_sequence,stop_id,arrival_time\nT,1,A,8:00:00",
        "fault stop_times.txt 2 UNKNOWN_ID\nfault frequencies.txt 2 UNKNOWN_ID\n",
    ),
    (
        "no group",
        "location_groups.txt",
        "location_group_id",
        "location_group_stops.txt",
        "stop_id,location_group_id\nA,G",
        "fault location_group_stops.txt 2 UNKNOWN_ID\n",
    ),
    (
        "entrances, nodes and boarding areas",
        "stops.txt",
        "stop_id,stop_lat,stop_lon,location_type\nA,50,5,\nB,50,5,\nE,,,2\nN,,,3\nP,,,4",
        "stop_times.txt",
        "trip_id,stop_sequence,stop_id,arrival_time\nT,1,E,8:00:00\nT,2,N,8:00:00\nT,3,P,8:00:00",
        "fault stop_times.txt 2 BAD_STOP_KIND\nfault stop_times.txt 3 BAD_STOP_KIND\nfault stop_times.txt 4 BAD_STOP_KIND\n",
    ),
    (
        "a rule that only this folder has",
        "booking_rules.txt",
        "booking_rule_id,booking_type\nQ,0",
        "stop_times.txt",
        "trip_id,stop_sequence,stop_id,arrival_time,pickup_type,pickup_booking_rule_id\nT,1,A,8:00:00,2,Q\nT,2,C,8:00:00,2,R",
        "fault stop_times.txt 3 UNKNOWN_ID\n",
    ),
];

#[test]
fn files_are_judged_together(rt: HostRuntime) -> Result<(), Fail> {
    let alloc = rt.alloc();
    for (name, file, contents, other, others_contents, list) in TWO_FILES.as_slice() {
        let mut files = feed_without(alloc, "", "")?;
        put(alloc, &mut files, file, contents.as_bytes())?;
        put(alloc, &mut files, other, others_contents.as_bytes())?;
        assert_list(&rt, alloc, name, &mut files, list.as_bytes());
    }
    Ok(())
}
