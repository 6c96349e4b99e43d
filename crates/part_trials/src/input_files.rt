// Input files, fetched within their limits, and their faults.

use feed_meaning::{
    add_faults, add_missing_columns, byte_limit, code_name, fetch_file, fetch_input, file_name,
    is_bad, is_empty, is_given, is_later, is_text, may_be_blank, refusal_fault, rule, value,
};
use feed_tables::{Table, TableRefusal};
use flex_io::{LoadError, MemFiles};
use flex_model::{Fault, FaultCode, InputFile, Listed, RawFile};
use std::test::Fail;

#[test]
fn faults_are_listed_in_order(rt: HostRuntime) -> Result<(), Fail> {
    let table = Table::read(rt.alloc(), b"trip_id\n")?;
    let mut faults = Listed::new(rt.alloc());
    add_missing_columns(
        &mut faults,
        InputFile::Trips,
        &table,
        &["route_id", "service_id", "trip_id"],
    )?;
    let rules = [
        rule(FaultCode::EmptyField, is_empty("")),
        rule(FaultCode::DuplicateKey, false),
        rule(FaultCode::BadTime, is_bad("noon", None::<u32>)),
    ];
    add_faults(&mut faults, InputFile::Trips, 7, &rules)?;
    let refusal = TableRefusal::RowTooLong { row: 3 };
    let refused = refusal_fault(InputFile::Routes, refusal).ok_or("a refusal")?;
    faults.push(refused)?;
    let wanted = [
        (InputFile::Trips, 1, FaultCode::MissingColumn),
        (InputFile::Trips, 1, FaultCode::MissingColumn),
        (InputFile::Trips, 7, FaultCode::EmptyField),
        (InputFile::Trips, 7, FaultCode::BadTime),
        (InputFile::Routes, 3, FaultCode::RowTooLong),
    ]
    .map(|(file, row, code)| Fault { file, row, code });
    assert!(rt; faults.as_slice() == wanted.as_slice());
    Ok(())
}

#[test]
fn rules_compare_fields(rt: HostRuntime) {
    assert!(rt; is_given("M"));
    assert!(rt; !is_given(""));
    assert!(rt; is_text("2", "2"));
    assert!(rt; !is_text("02", "2"));
    assert!(rt; !is_bad("", None::<u32>));
    assert!(rt; is_later(Some(30_000), Some(28_800)));
    assert!(rt; !is_later(Some(28_800), Some(28_800)));
    assert!(rt; !is_later(Some(28_800), None));
}

// Limits are 64 MiB, but for 256 MiB of the two long tables and 1 MiB of a zone.
#[test]
fn files_have_names_and_limits(rt: HostRuntime) {
    for (file, name, limit, blank) in [
        (InputFile::Trips, "trips.txt", 67_108_864, false),
        (InputFile::StopTimes, "stop_times.txt", 268_435_456, false),
        (InputFile::Calendar, "calendar.txt", 67_108_864, true),
        (InputFile::Locations, "locations.geojson", 67_108_864, false),
        (InputFile::ZoneTzif, "zone.tzif", 1_048_576, false),
        (InputFile::Direct, "direct.txt", 268_435_456, true),
        (InputFile::Queries, "queries", 67_108_864, false),
    ] {
        assert_eq!(rt; file_name(file), name);
        assert_eq!(rt; byte_limit(file), limit, "of {name}");
        assert_eq!(rt; may_be_blank(file), blank, "of {name}");
    }
    assert_eq!(rt; code_name(FaultCode::BadStopKind), "BAD_STOP_KIND");
    assert_eq!(rt; code_name(FaultCode::NotUtf8), "NOT_UTF8");
}

#[test]
fn values_are_empty_where_the_table_lacks_the_column(rt: HostRuntime) -> Result<(), Fail> {
    let table = Table::read(rt.alloc(), b"stop_id,stop_lat\nM,50.5\n")?;
    let row = table.rows().next().ok_or("a row")?;
    assert_eq!(rt; value(&row, table.column("stop_lat")), "50.5");
    assert_eq!(rt; value(&row, table.column("stop_lon")), "");
    Ok(())
}

// The bytes of a file that was fetched whole.
fn bytes_of(raw: RawFile) -> Option<Listed<u8>> {
    match raw {
        RawFile::Bytes(bytes) => Some(bytes),
        _ => None,
    }
}

// Of four fetches of a file of four bytes the first is over its limit, and the third fails.
#[test]
fn a_file_is_fetched_within_its_limit(rt: HostRuntime) -> Result<(), Fail> {
    let alloc = rt.alloc();
    let mut files = MemFiles::new(alloc);
    files.add("a/zone.txt", b"UTC0")?;
    files.fail_at(3)?;
    let raw = fetch_file(alloc, &mut files, "a/zone.txt", 3)?;
    assert!(rt; matches!(raw, RawFile::TooLarge));
    let raw = fetch_file(alloc, &mut files, "a/zone.txt", 4)?;
    assert!(rt; bytes_of(raw).ok_or("bytes")?.as_slice() == b"UTC0".as_slice());
    let failed = fetch_file(alloc, &mut files, "a/zone.txt", 4).err();
    assert_eq!(rt; failed, Some(LoadError::ReadFault));
    let raw = fetch_input(alloc, &mut files, "a", InputFile::ZoneText)?;
    assert!(rt; bytes_of(raw).ok_or("bytes")?.as_slice() == b"UTC0".as_slice());
    let raw = fetch_input(alloc, &mut files, "a", InputFile::ZoneTzif)?;
    assert!(rt; matches!(raw, RawFile::Absent));
    Ok(())
}
