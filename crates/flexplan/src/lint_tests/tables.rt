// The rules of each table: those by itself, and those between it and the others of the feed without faults.

use super::assert_records;
use std::test::Fail;

const AGENCIES: [(&str, &str, &str); 8] = [
    ("no agency", "", ""),
    ("one agency", "X,UTC", ""),
    ("one zone", "X,UTC\nY,UTC", ""),
    ("an empty zone", "X,", "2 EMPTY_FIELD"),
    ("another zone", "X,UTC\nY,CET", "3 TIMEZONE_DIFFERS"),
    (
        "another than the first",
        "X,UTC\nY,CET\nZ,UTC",
        "3 TIMEZONE_DIFFERS",
    ),
    (
        "an empty zone, which differs too",
        "X,UTC\nY,",
        "3 EMPTY_FIELD\n3 TIMEZONE_DIFFERS",
    ),
    (
        "an empty zone, from which the next differs",
        "X,\nY,UTC",
        "2 EMPTY_FIELD\n3 TIMEZONE_DIFFERS",
    ),
];

#[test]
fn agencies_are_judged(rt: HostRuntime) -> Result<(), Fail> {
    assert_records(
        &rt,
        rt.alloc(),
        "agency.txt",
        "agency_name,agency_timezone",
        &AGENCIES,
    )
}

const STOPS: [(&str, &str, &str); 17] = [
    (
        "greatest values",
        "A,90,180,\nB,-90,-180,0\nC,90.0000000000000009,5,",
        "",
    ),
    (
        "other places may lack both",
        "A,5,5,\nB,5,5,\nC,5,5,\nS,,,1\nE,,,2\nN,,,3\nP,,,4",
        "",
    ),
    ("an empty id", ",50,5,", "2 EMPTY_FIELD"),
    (
        "two empty ids",
        ",50,5,\n,50,5,",
        "2 EMPTY_FIELD\n3 EMPTY_FIELD",
    ),
    (
        "an id again",
        "A,50,5,\nB,50,5,\nA,50,5,",
        "4 DUPLICATE_KEY",
    ),
    ("an unknown type", "A,50,5,5", "2 BAD_ENUM"),
    ("a type of two digits", "A,50,5,01", "2 BAD_ENUM"),
    ("no latitude", "A,,5,", "2 EMPTY_FIELD"),
    ("no latitude at type 0", "A,,5,0", "2 EMPTY_FIELD"),
    ("no longitude", "A,50,,", "2 EMPTY_FIELD"),
    ("no longitude at type 0", "A,50,,0", "2 EMPTY_FIELD"),
    (
        "a latitude over 90",
        "A,90.000000000000001,5,",
        "2 BAD_COORDINATE",
    ),
    ("a latitude in words", "A,50N,5,", "2 BAD_COORDINATE"),
    (
        "a longitude below -180",
        "A,50,-180.000000000000001,",
        "2 BAD_COORDINATE",
    ),
    ("a longitude in words", "A,50,E5,", "2 BAD_COORDINATE"),
    ("a station's latitude", "S,91,5,1", "2 BAD_COORDINATE"),
    (
        "several rules",
        ",91,181,9",
        "2 EMPTY_FIELD\n2 BAD_ENUM\n2 BAD_COORDINATE\n2 BAD_COORDINATE",
    ),
];

#[test]
fn stops_are_judged(rt: HostRuntime) -> Result<(), Fail> {
    assert_records(
        &rt,
        rt.alloc(),
        "stops.txt",
        "stop_id,stop_lat,stop_lon,location_type",
        &STOPS,
    )
}

const ROUTES: [(&str, &str, &str); 4] = [
    ("two routes", "7,x\n8,x", ""),
    ("an empty id", ",x", "2 EMPTY_FIELD"),
    ("an id again", "7,x\n7,y", "3 DUPLICATE_KEY"),
    ("an id again, in blanks", "7,x\n 7\t,y", "3 DUPLICATE_KEY"),
];

#[test]
fn routes_are_judged(rt: HostRuntime) -> Result<(), Fail> {
    assert_records(
        &rt,
        rt.alloc(),
        "routes.txt",
        "route_id,route_short_name",
        &ROUTES,
    )
}

const TRIPS: [(&str, &str, &str); 10] = [
    ("services of one calendar", "7,D,T\n7,E,U", ""),
    ("an empty id", "7,W,", "2 EMPTY_FIELD"),
    ("an empty route", ",W,T", "2 EMPTY_FIELD"),
    ("an empty service", "7,,T", "2 EMPTY_FIELD"),
    (
        "three empty fields",
        ",,",
        "2 EMPTY_FIELD\n2 EMPTY_FIELD\n2 EMPTY_FIELD",
    ),
    ("an id again", "7,W,T\n7,D,T", "3 DUPLICATE_KEY"),
    ("an unknown route", "8,W,T", "2 UNKNOWN_ID"),
    ("an unknown service", "7,V,T", "2 UNKNOWN_ID"),
    ("a small letter", "7,w,T", "2 UNKNOWN_ID"),
    ("both unknown", "7,W,T\n8,V,U", "3 UNKNOWN_ID\n3 UNKNOWN_ID"),
];

#[test]
fn trips_are_judged(rt: HostRuntime) -> Result<(), Fail> {
    assert_records(
        &rt,
        rt.alloc(),
        "trips.txt",
        "route_id,service_id,trip_id",
        &TRIPS,
    )
}

const STOP_TIMES: [(&str, &str, &str); 15] = [
    ("no record", "", ""),
    (
        "greatest values",
        "T,0,A,0:00:00,0:00:00\nT,4294967294,C,167:59:59,167:59:59",
        "",
    ),
    (
        "one sequence of two trips",
        "T,1,A,8:00:00\nU,1,A,8:00:00",
        "",
    ),
    (
        "all types",
        "T,1,A,8:00:00,,0,1\nT,2,B,,,1,0\nT,3,C,9:00:00,,2,3\nT,4,C,9:00:00,,3,2",
        "",
    ),
    ("an empty trip", ",1,A", "2 EMPTY_FIELD"),
    ("an empty sequence", "T,,A", "2 EMPTY_FIELD"),
    ("too great a sequence", "T,4294967295,A", "2 BAD_NUMBER"),
    ("a sequence with a sign", "T,+1,A", "2 BAD_NUMBER"),
    ("a sequence again", "T,1,A\nT,01,B", "3 DUPLICATE_KEY"),
    ("no place", "T,1,,8:00:00", "2 PLACE_COUNT"),
    ("a bad arrival", "T,1,A,8:60:00,8:00:00", "2 BAD_TIME"),
    ("a bad departure", "T,1,A,8:00:00,8:00", "2 BAD_TIME"),
    ("a bad pickup", "T,1,A,8:00:00,,4", "2 BAD_ENUM"),
    ("a bad drop-off", "T,1,A,8:00:00,,,4", "2 BAD_ENUM"),
    ("falling times", "T,1,A,8:00:01,8:00:00", "2 TIME_ORDER"),
];

#[test]
fn stop_times_are_judged(rt: HostRuntime) -> Result<(), Fail> {
    assert_records(
        &rt,
        rt.alloc(),
        "stop_times.txt",
        "trip_id,stop_sequence,stop_id,arrival_time,departure_time,pickup_type,drop_off_type",
        &STOP_TIMES,
    )
}

const WINDOWS: [(&str, &str, &str); 14] = [
    (
        "windows",
        "T,1,A,8:00:00,8:00:00,1,1\nT,2,A,0:00:00,167:59:59,2,2\nT,3,A,8:00:00,9:00:00,,3",
        "",
    ),
    ("a bad start", "T,1,A,8,9:00:00", "2 BAD_TIME"),
    ("a bad end", "T,1,A,8:00:00,168:00:00", "2 BAD_TIME"),
    ("no end", "T,1,A,8:00:00,", "2 WINDOW_PAIR"),
    ("no start", "T,1,A,,9:00:00", "2 WINDOW_PAIR"),
    (
        "an arrival too",
        "T,1,A,8:00:00,9:00:00,,,8:00:00",
        "2 WINDOW_WITH_TIME",
    ),
    (
        "a departure too",
        "T,1,A,8:00:00,9:00:00,,,,8:00:00",
        "2 WINDOW_WITH_TIME",
    ),
    (
        "no end, and both times",
        "T,1,A,8:00:00,,,,8:00:00,8:00:00",
        "2 WINDOW_PAIR\n2 WINDOW_WITH_TIME",
    ),
    ("falling", "T,1,A,9:00:01,9:00:00", "2 WINDOW_ORDER"),
    ("pickup 0", "T,1,A,8:00:00,9:00:00,0", "2 WINDOW_PICKUP"),
    ("pickup 3", "T,1,A,8:00:00,9:00:00,3", "2 WINDOW_PICKUP"),
    (
        "drop-off 0",
        "T,1,A,8:00:00,9:00:00,,0",
        "2 WINDOW_DROP_OFF",
    ),
    (
        "bad fields, with empty ones",
        ",x,,8,8,9,9,8,8",
        "2 EMPTY_FIELD\n2 BAD_NUMBER\n2 PLACE_COUNT\n2 BAD_TIME\n2 BAD_TIME\n2 BAD_TIME\n2 BAD_TIME\n2 BAD_ENUM\n2 BAD_ENUM\n2 WINDOW_WITH_TIME",
    ),
    (
        "each rule on good times",
        "T,1,A,9:00:01,9:00:00,0,0,8:00:01,8:00:00",
        "2 WINDOW_WITH_TIME\n2 WINDOW_ORDER\n2 WINDOW_PICKUP\n2 WINDOW_DROP_OFF\n2 TIME_ORDER",
    ),
];

#[test]
fn windows_are_judged(rt: HostRuntime) -> Result<(), Fail> {
    assert_records(
        &rt,
        rt.alloc(),
        "stop_times.txt",
        "trip_id,stop_sequence,stop_id,start_pickup_drop_off_window,end_pickup_drop_off_window,pickup_type,drop_off_type,arrival_time,departure_time",
        &WINDOWS,
    )
}

const PLACES: [(&str, &str, &str); 11] = [
    ("a group", "T,1,,G,,8:00:00,9:00:00", ""),
    ("no place", "T,1,,,,8:00:00,9:00:00", "2 PLACE_COUNT"),
    (
        "a stop and a group",
        "T,1,A,G,,8:00:00,9:00:00",
        "2 PLACE_COUNT",
    ),
    (
        "a stop and a zone",
        "T,1,A,,Z,8:00:00,9:00:00",
        "2 PLACE_COUNT",
    ),
    (
        "a group and a zone",
        "T,1,,G,Z,8:00:00,9:00:00",
        "2 PLACE_COUNT",
    ),
    ("three places", "T,1,A,G,Z,8:00:00,9:00:00", "2 PLACE_COUNT"),
    (
        "a group, no window",
        "T,1,,G,,,,8:00:00",
        "2 WINDOW_MISSING",
    ),
    ("a zone, no window", "T,1,,,Z", "2 WINDOW_MISSING"),
    ("a group, no end", "T,1,,G,,8:00:00,", "2 WINDOW_PAIR"),
    (
        "an unknown group",
        "T,1,,H,,8:00:00,9:00:00",
        "2 UNKNOWN_ID",
    ),
    ("an unknown zone", "T,1,,,Z,8:00:00,9:00:00", "2 UNKNOWN_ID"),
];

#[test]
fn places_of_stop_times_are_judged(rt: HostRuntime) -> Result<(), Fail> {
    assert_records(
        &rt,
        rt.alloc(),
        "stop_times.txt",
        "trip_id,stop_sequence,stop_id,location_group_id,location_id,start_pickup_drop_off_window,end_pickup_drop_off_window,arrival_time",
        &PLACES,
    )
}

const IDS_OF_STOP_TIMES: [(&str, &str, &str); 8] = [
    ("rules", "T,1,A,8:00:00,R,R", ""),
    ("an unknown trip", "V,1,A,8:00:00", "2 UNKNOWN_ID"),
    ("an unknown stop", "T,1,D,8:00:00", "2 UNKNOWN_ID"),
    ("a station", "T,1,S,8:00:00", "2 BAD_STOP_KIND"),
    ("an unknown pickup rule", "T,1,A,8:00:00,Q", "2 UNKNOWN_ID"),
    (
        "an unknown drop-off rule",
        "T,1,A,8:00:00,,Q",
        "2 UNKNOWN_ID",
    ),
    (
        "four unknown ids",
        "V,1,D,8:00:00,Q,Q",
        "2 UNKNOWN_ID\n2 UNKNOWN_ID\n2 UNKNOWN_ID\n2 UNKNOWN_ID",
    ),
    (
        "ids, and no time",
        "V,1,S,,,Q",
        "2 UNKNOWN_ID\n2 BAD_STOP_KIND\n2 UNKNOWN_ID\n2 UNTIMED_END",
    ),
];

#[test]
fn ids_of_stop_times_are_judged(rt: HostRuntime) -> Result<(), Fail> {
    assert_records(
        &rt,
        rt.alloc(),
        "stop_times.txt",
        "trip_id,stop_sequence,stop_id,arrival_time,pickup_booking_rule_id,drop_off_booking_rule_id",
        &IDS_OF_STOP_TIMES,
    )
}

const TIMES_OF_TRIPS: [(&str, &str, &str); 18] = [
    ("one time each", "T,1,A,8:00:00\nT,2,C,,8:20:00", ""),
    (
        "an untimed record that is first in the file alone",
        "T,2,B\nT,1,A,8:00:00\nT,3,C,8:20:00",
        "",
    ),
    (
        "an untimed first record",
        "T,1,A\nT,2,C,8:20:00",
        "2 UNTIMED_END",
    ),
    (
        "an untimed last record",
        "T,1,A,8:00:00\nT,2,C",
        "3 UNTIMED_END",
    ),
    ("an untimed record alone", "T,1,A", "2 UNTIMED_END"),
    (
        "an untimed first record in the middle of the file",
        "T,2,B,8:10:00\nT,1,A\nT,3,C,8:20:00",
        "3 UNTIMED_END",
    ),
    (
        "untimed after a window",
        "T,1,A,,,8:00:00,9:00:00\nT,2,B\nT,3,C,8:20:00",
        "3 UNTIMED_END",
    ),
    (
        "untimed before a window",
        "T,1,A,8:00:00\nT,2,B\nT,3,C,,,8:00:00,9:00:00",
        "3 UNTIMED_END",
    ),
    (
        "untimed between records of another trip",
        "U,1,A,8:00:00\nT,2,B\nU,3,C,8:20:00",
        "3 UNTIMED_END",
    ),
    (
        "a stop of no time",
        "T,1,A,8:00:00,8:10:00\nT,2,C,8:10:00,8:20:00",
        "",
    ),
    ("sequences are numbers", "T,10,C,8:20:00\nT,9,A,8:00:00", ""),
    ("another trip", "T,1,A,8:10:00\nU,2,C,8:00:00", ""),
    (
        "an arrival before the departure before",
        "T,1,A,8:00:00,8:10:00\nT,2,C,8:09:59,8:20:00",
        "3 TIME_ORDER",
    ),
    (
        "one time counts for both",
        "T,1,A,8:10:00\nT,2,C,,8:09:59",
        "3 TIME_ORDER",
    ),
    (
        "falling against the order of the file",
        "T,2,C,8:05:00\nT,1,A,8:00:00,8:10:00",
        "2 TIME_ORDER",
    ),
    (
        "falling over an untimed record",
        "T,1,A,8:00:00,8:10:00\nT,2,B\nT,3,C,8:09:59",
        "4 TIME_ORDER",
    ),
    (
        "falling over a window",
        "T,1,A,8:00:00,8:10:00\nT,2,B,,,6:00:00,7:00:00\nT,3,C,8:09:59",
        "4 TIME_ORDER",
    ),
    (
        "only the nearest record counts",
        "T,1,A,8:00:00,9:00:00\nT,2,B,8:30:00\nT,3,C,8:40:00",
        "3 TIME_ORDER",
    ),
];

#[test]
fn times_along_a_trip_are_judged(rt: HostRuntime) -> Result<(), Fail> {
    assert_records(
        &rt,
        rt.alloc(),
        "stop_times.txt",
        "trip_id,stop_sequence,stop_id,arrival_time,departure_time,start_pickup_drop_off_window,end_pickup_drop_off_window",
        &TIMES_OF_TRIPS,
    )
}

const CALENDARS: [(&str, &str, &str); 18] = [
    ("no service", "", ""),
    ("one day", "W,0,0,1,0,0,0,0,20250604,20250604", ""),
    ("all days", "W,1,1,1,1,1,1,1,00010101,99991231", ""),
    ("no id", ",1,1,1,1,1,0,0,20250101,20251231", "2 EMPTY_FIELD"),
    (
        "an id again",
        "W,1,1,1,1,1,0,0,20250101,20251231\nW,0,0,0,0,0,1,1,20260101,20261231",
        "3 DUPLICATE_KEY",
    ),
    ("Monday", "W,2,1,1,1,1,1,1,20250101,20251231", "2 BAD_ENUM"),
    ("Tuesday", "W,1,2,1,1,1,1,1,20250101,20251231", "2 BAD_ENUM"),
    (
        "Wednesday",
        "W,1,1,2,1,1,1,1,20250101,20251231",
        "2 BAD_ENUM",
    ),
    (
        "Thursday",
        "W,1,1,1,2,1,1,1,20250101,20251231",
        "2 BAD_ENUM",
    ),
    ("Friday", "W,1,1,1,1,2,1,1,20250101,20251231", "2 BAD_ENUM"),
    (
        "Saturday",
        "W,1,1,1,1,1,2,1,20250101,20251231",
        "2 BAD_ENUM",
    ),
    ("Sunday", "W,1,1,1,1,1,1,2,20250101,20251231", "2 BAD_ENUM"),
    (
        "empty flags",
        "W,,,,,,,,20250101,20251231",
        "2 BAD_ENUM\n2 BAD_ENUM\n2 BAD_ENUM\n2 BAD_ENUM\n2 BAD_ENUM\n2 BAD_ENUM\n2 BAD_ENUM",
    ),
    ("start", "W,1,1,1,1,1,0,0,20250229,20251231", "2 BAD_DATE"),
    ("no start", "W,1,1,1,1,1,0,0,,20251231", "2 BAD_DATE"),
    ("end", "W,1,1,1,1,1,0,0,20250101,20250631", "2 BAD_DATE"),
    ("no end", "W,1,1,1,1,1,0,0,20250101,", "2 BAD_DATE"),
    ("order", "W,1,1,1,1,1,0,0,20250605,20250604", "2 DATE_ORDER"),
];

#[test]
fn calendars_are_judged(rt: HostRuntime) -> Result<(), Fail> {
    assert_records(
        &rt,
        rt.alloc(),
        "calendar.txt",
        "service_id,monday,tuesday,wednesday,thursday,friday,saturday,sunday,start_date,end_date",
        &CALENDARS,
    )
}

const CALENDAR_DATES: [(&str, &str, &str); 9] = [
    ("no date", "", ""),
    ("dates", "W,20250604,1\nW,20250605,2\nD,20250604,2", ""),
    ("an empty service", ",20250604,1", "2 EMPTY_FIELD"),
    ("a bad date", "W,20250631,1", "2 BAD_DATE"),
    ("an empty date", "W,,1", "2 BAD_DATE"),
    ("type 3", "W,20250604,3", "2 BAD_ENUM"),
    ("type 0", "W,20250604,0", "2 BAD_ENUM"),
    ("an empty type", "W,20250604,", "2 BAD_ENUM"),
    (
        "a date again",
        "W,20250604,1\nW,20250604,2",
        "3 DUPLICATE_KEY",
    ),
];

#[test]
fn calendar_dates_are_judged(rt: HostRuntime) -> Result<(), Fail> {
    assert_records(
        &rt,
        rt.alloc(),
        "calendar_dates.txt",
        "service_id,date,exception_type",
        &CALENDAR_DATES,
    )
}

const GROUPS: [(&str, &str, &str); 5] = [
    ("two groups", "G,x\nH,x", ""),
    ("an empty id", ",x", "2 EMPTY_FIELD"),
    ("an id again", "G,x\nG,y", "3 DUPLICATE_KEY"),
    ("the id of a stop", "G,x\nA,x", "3 SHARED_ID"),
    ("the id of a station", "G,x\nS,x", "3 SHARED_ID"),
];

#[test]
fn location_groups_are_judged(rt: HostRuntime) -> Result<(), Fail> {
    assert_records(
        &rt,
        rt.alloc(),
        "location_groups.txt",
        "location_group_id,location_group_name",
        &GROUPS,
    )
}

const GROUP_STOPS: [(&str, &str, &str); 9] = [
    ("no stop", "", ""),
    ("a pair again", "G,A\nG,A", ""),
    ("a station", "G,S", ""),
    ("an empty group", ",A", "2 EMPTY_FIELD"),
    ("an empty stop", "G,", "2 EMPTY_FIELD"),
    ("both empty", ",", "2 EMPTY_FIELD\n2 EMPTY_FIELD"),
    ("an unknown group", "H,A", "2 UNKNOWN_ID"),
    ("an unknown stop", "G,D", "2 UNKNOWN_ID"),
    ("both unknown", "H,D", "2 UNKNOWN_ID\n2 UNKNOWN_ID"),
];

#[test]
fn stops_of_location_groups_are_judged(rt: HostRuntime) -> Result<(), Fail> {
    assert_records(
        &rt,
        rt.alloc(),
        "location_group_stops.txt",
        "location_group_id,stop_id",
        &GROUP_STOPS,
    )
}

const BOOKING_RULES: [(&str, &str, &str); 36] = [
    ("no rule", "", ""),
    ("a rule of each type", "R,0\nP,1,30\nQ,2,,,1,17:00:00", ""),
    (
        "greatest values",
        "R,1,1000000,1000000\nP,1,30,,,,1000,167:59:59\nQ,2,,,1000,167:59:59,1000,167:59:59",
        "",
    ),
    (
        "services of one calendar",
        "P,2,,,1,17:00:00,,,D\nQ,2,,,1,17:00:00,,,E",
        "",
    ),
    ("an empty id", ",0", "2 EMPTY_FIELD"),
    ("an id again", "R,0\nR,1,30", "3 DUPLICATE_KEY"),
    ("type 3", "R,3", "2 BAD_ENUM"),
    ("an empty type", "R,", "2 BAD_ENUM"),
    (
        "a bad type hides the rest",
        "R,x,x,x,x,x,x,x,x",
        "2 BAD_ENUM",
    ),
    ("type 1, no duration_min", "R,1", "2 FIELD_MISSING"),
    ("type 0, duration_min", "R,0,30", "2 FIELD_FORBIDDEN"),
    (
        "type 2, a bad duration_min",
        "R,2,x,,1,17:00:00",
        "2 FIELD_FORBIDDEN",
    ),
    ("too great a duration_min", "R,1,1000001", "2 BAD_NUMBER"),
    ("type 0, duration_max", "R,0,,60", "2 FIELD_FORBIDDEN"),
    (
        "type 2, duration_max",
        "R,2,,60,1,17:00:00",
        "2 FIELD_FORBIDDEN",
    ),
    ("too great a duration_max", "R,1,30,1000001", "2 BAD_NUMBER"),
    ("type 2, no last_day", "R,2", "2 FIELD_MISSING"),
    ("type 0, last_day", "R,0,,,1,17:00:00", "2 FIELD_FORBIDDEN"),
    (
        "type 1, last_day",
        "R,1,30,,1,17:00:00",
        "2 FIELD_FORBIDDEN",
    ),
    (
        "too great a last_day",
        "R,2,,,1001,17:00:00",
        "2 BAD_NUMBER",
    ),
    ("last_day, no last_time", "R,2,,,1,", "2 FIELD_MISSING"),
    (
        "last_time, no last_day",
        "R,0,,,,17:00:00",
        "2 FIELD_FORBIDDEN",
    ),
    ("a bad last_time", "R,2,,,1,17:60:00", "2 BAD_TIME"),
    (
        "type 0, start_day",
        "R,0,,,,,2,8:00:00",
        "2 FIELD_FORBIDDEN",
    ),
    (
        "duration_max and start_day",
        "R,1,30,60,,,2,8:00:00",
        "2 FIELD_FORBIDDEN",
    ),
    (
        "too great a start_day",
        "R,1,30,,,,1001,8:00:00",
        "2 BAD_NUMBER",
    ),
    (
        "type 2, too great a start_day",
        "R,2,,,1,17:00:00,1001,8:00:00",
        "2 BAD_NUMBER",
    ),
    (
        "start_day, no start_time",
        "R,1,30,,,,2,",
        "2 FIELD_MISSING",
    ),
    (
        "start_time, no start_day",
        "R,1,30,,,,,8:00:00",
        "2 FIELD_FORBIDDEN",
    ),
    ("a bad start_time", "R,1,30,,,,2,8:00", "2 BAD_TIME"),
    ("type 0, service_id", "R,0,,,,,,,W", "2 FIELD_FORBIDDEN"),
    ("type 1, service_id", "R,1,30,,,,,,W", "2 FIELD_FORBIDDEN"),
    (
        "a forbidden last_day, no last_time",
        "R,0,,,1,",
        "2 FIELD_FORBIDDEN\n2 FIELD_MISSING",
    ),
    (
        "type 2, last_time, no last_day",
        "R,2,,,,17:00:00",
        "2 FIELD_MISSING\n2 FIELD_FORBIDDEN",
    ),
    (
        "type 0, every field",
        "R,0,30,60,1,17:00:00,2,8:00:00,W",
        "2 FIELD_FORBIDDEN\n2 FIELD_FORBIDDEN\n2 FIELD_FORBIDDEN\n2 FIELD_FORBIDDEN\n2 FIELD_FORBIDDEN",
    ),
    ("an unknown service", "R,2,,,1,17:00:00,,,V", "2 UNKNOWN_ID"),
];

#[test]
fn booking_rules_are_judged(rt: HostRuntime) -> Result<(), Fail> {
    assert_records(
        &rt,
        rt.alloc(),
        "booking_rules.txt",
        "booking_rule_id,booking_type,prior_notice_duration_min,prior_notice_duration_max,prior_notice_last_day,prior_notice_last_time,prior_notice_start_day,prior_notice_start_time,prior_notice_service_id",
        &BOOKING_RULES,
    )
}

const TRANSFERS: [(&str, &str, &str); 18] = [
    ("no transfer", "", ""),
    (
        "types and times",
        "A,B,\nB,A,0,x\nA,C,1,x\nC,A,2,86400\nB,C,2,\nC,B,3,x\nA,A,2,0",
        "",
    ),
    (
        "passed over: no field is judged",
        ",,4\n,,5,x\n,,2,x,7\n,,2,x,,7\n,,2,x,,,T\n,,2,x,,,,T",
        "",
    ),
    ("passed over: no key", "A,B,4\nA,B,0\nA,B,0,,7\nA,B,5", ""),
    ("passed over: unknown stops", "D,D,4\nD,D,0,,7", ""),
    ("a station", "S,A,2,60\nA,S,2,60", ""),
    ("a bad type", "A,B,6", "2 BAD_ENUM"),
    ("passed over: a bad type", ",,6,,7", "2 BAD_ENUM"),
    ("an empty first stop", ",B,0", "2 EMPTY_FIELD"),
    ("an empty second stop", "A,,0", "2 EMPTY_FIELD"),
    ("too great a time", "A,B,2,86401", "2 BAD_NUMBER"),
    ("a time in words", "A,B,2,1.5", "2 BAD_NUMBER"),
    ("a pair again", "A,B,0\nB,A,0\nA,B,3", "4 DUPLICATE_KEY"),
    (
        "a pair again, after a bad type",
        "A,B,6\nA,B,0",
        "2 BAD_ENUM\n3 DUPLICATE_KEY",
    ),
    (
        "a bad type and two empty stops",
        ",,x",
        "2 BAD_ENUM\n2 EMPTY_FIELD\n2 EMPTY_FIELD",
    ),
    ("an unknown first stop", "D,A,0", "2 UNKNOWN_ID"),
    ("an unknown second stop", "A,D,3", "2 UNKNOWN_ID"),
    ("both unknown", "D,D,", "2 UNKNOWN_ID\n2 UNKNOWN_ID"),
];

#[test]
fn transfers_are_judged(rt: HostRuntime) -> Result<(), Fail> {
    assert_records(
        &rt,
        rt.alloc(),
        "transfers.txt",
        "from_stop_id,to_stop_id,transfer_type,min_transfer_time,from_route_id,to_route_id,from_trip_id,to_trip_id",
        &TRANSFERS,
    )
}

const FREQUENCIES: [(&str, &str, &str); 16] = [
    ("no frequency", "", ""),
    (
        "least and greatest values",
        "T,0:00:00,0:00:01,1,\nT,8:00:00,167:59:59,86400,0\nU,8:00:00,9:00:00,600,1",
        "",
    ),
    ("an empty trip", ",8:00:00,9:00:00,600", "2 EMPTY_FIELD"),
    ("a bad start", "T,8,9:00:00,600", "2 BAD_TIME"),
    ("no start", "T,,9:00:00,600", "2 BAD_TIME"),
    ("a bad end", "T,8:00:00,168:00:00,600", "2 BAD_TIME"),
    ("no end", "T,8:00:00,,600", "2 BAD_TIME"),
    ("no duration", "T,9:00:00,09:00:00,600", "2 TIME_ORDER"),
    ("falling", "T,9:00:00,8:59:59,600", "2 TIME_ORDER"),
    ("headway 0", "T,8:00:00,9:00:00,0", "2 BAD_NUMBER"),
    ("no headway", "T,8:00:00,9:00:00,", "2 BAD_NUMBER"),
    (
        "too great a headway",
        "T,8:00:00,9:00:00,86401",
        "2 BAD_NUMBER",
    ),
    ("exactness 2", "T,8:00:00,9:00:00,600,2", "2 BAD_ENUM"),
    (
        "a start again",
        "T,8:00:00,9:00:00,600\nT,08:00:00,10:00:00,900",
        "3 DUPLICATE_KEY",
    ),
    (
        "several rules",
        ",8,9,x,x",
        "2 EMPTY_FIELD\n2 BAD_TIME\n2 BAD_TIME\n2 BAD_NUMBER\n2 BAD_ENUM",
    ),
    ("an unknown trip", "V,8:00:00,9:00:00,600", "2 UNKNOWN_ID"),
];

#[test]
fn frequencies_are_judged(rt: HostRuntime) -> Result<(), Fail> {
    assert_records(
        &rt,
        rt.alloc(),
        "frequencies.txt",
        "trip_id,start_time,end_time,headway_secs,exact_times",
        &FREQUENCIES,
    )
}
