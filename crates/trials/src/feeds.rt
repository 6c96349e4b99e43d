// Feeds of folders.

use crate::loaded::{FEED, files_of, zone_feed};
use feed_load::{GivenRow, Loaded, fill_times, load};
use flex_io::LoadError;
use flex_model::{Fault, FaultCode, Feed, InputFile, Listed, Spot};
use std::test::Fail;
use trial_feeds::{AGENCY, BY_TEN, CALENDAR, DAY_AHEAD, ONE_TRIP, ROUTES, STOPS, ZONE};

fn clean(loaded: Loaded) -> Option<Feed> {
    match loaded {
        Loaded::Clean(feed) => Some(feed),
        _ => None,
    }
}

fn faulty(loaded: Loaded) -> Option<Listed<Fault>> {
    match loaded {
        Loaded::Faulty(faults) => Some(faults),
        _ => None,
    }
}

#[test]
fn a_clean_folder_is_loaded(rt: HostRuntime) -> Result<(), Fail> {
    let mut files = files_of(rt.alloc(), &FEED)?;
    let feed = clean(load(rt.alloc(), &mut files, "a")?).ok_or("faults")?;
    assert_eq!(rt; feed.stops.as_slice().len(), 5);
    assert_eq!(rt; feed.services.as_slice().len(), 1);
    let [trip] = feed.trips.as_slice() else {
        return Err("one trip".into());
    };
    assert!(rt; trip.id.as_str() == "T");
    let [_, row] = trip.rows.as_slice() else {
        return Err("two rows".into());
    };
    assert_eq!(rt; row.sequence, 2);
    assert_eq!(rt; row.spot, Spot::Stop(1));
    Ok(())
}

// M and N lie in the zone, and so does K, where one can't board.
#[test]
fn the_stops_of_a_zone_are_loaded(rt: HostRuntime) -> Result<(), Fail> {
    let feed = zone_feed(rt.alloc(), BY_TEN)?;
    let [zone] = feed.zones.as_slice() else {
        return Err("one zone".into());
    };
    assert!(rt; zone.id.as_str() == "Z");
    assert!(rt; zone.stops.as_slice() == [0, 1].as_slice());
    Ok(())
}

#[test]
fn an_empty_folder_lacks_files(rt: HostRuntime) -> Result<(), Fail> {
    let mut files = files_of(rt.alloc(), &[])?;
    let faults = faulty(load(rt.alloc(), &mut files, "a")?).ok_or("a feed")?;
    let first = faults.as_slice().first().copied();
    let agency = Fault {
        file: InputFile::Agency,
        row: 0,
        code: FaultCode::MissingFile,
    };
    assert_eq!(rt; first, Some(agency));
    Ok(())
}

// Faults of several tables beside a zone.
const FAULTY: [(&str, &[u8]); 8] = [
    AGENCY,
    (
        "a/stops.txt",
        b"stop_id,stop_lat,stop_lon\nM,50.0,5.02\n\"N\nx\",91,5.03\nM,50.0,5.02\n",
    ),
    ROUTES,
    ONE_TRIP,
    (
        "a/stop_times.txt",
        b"trip_id,stop_sequence,location_id,start_pickup_drop_off_window,end_pickup_drop_off_window,pickup_type,drop_off_type,pickup_booking_rule_id,drop_off_booking_rule_id\n\
          F1,1,Z,08:00:00,,2,1,B,\nF1,2,Z,08:00:00,10:00:00,3,2,,B\n",
    ),
    CALENDAR,
    ZONE,
    (
        "a/booking_rules.txt",
        b"booking_rule_id,booking_type,prior_notice_last_day,prior_notice_last_time\nB,2,1,\n",
    ),
];

// A feed without faults, but for the trips that it lacks.
const NO_TRIPS: [(&str, &[u8]); 7] = [AGENCY, STOPS, ROUTES, BY_TEN, CALENDAR, ZONE, DAY_AHEAD];

#[test]
fn the_faults_of_a_folder_are_listed(rt: HostRuntime) -> Result<(), Fail> {
    let several = [
        (InputFile::Stops, 3, FaultCode::BadCoordinate),
        (InputFile::Stops, 4, FaultCode::DuplicateKey),
        (InputFile::StopTimes, 2, FaultCode::WindowPair),
        (InputFile::StopTimes, 3, FaultCode::WindowPickup),
        (InputFile::BookingRules, 2, FaultCode::FieldMissing),
    ];
    let missing = [(InputFile::Trips, 0, FaultCode::MissingFile)];
    for (folder, wanted) in [
        (FAULTY.as_slice(), several.as_slice()),
        (NO_TRIPS.as_slice(), missing.as_slice()),
    ] {
        let mut files = files_of(rt.alloc(), folder)?;
        let faults = faulty(load(rt.alloc(), &mut files, "a")?).ok_or("a feed")?;
        let faults = faults.as_slice();
        assert_eq!(rt; faults.len(), wanted.len());
        for (fault, (file, row, code)) in faults.iter().zip(wanted) {
            assert_eq!(rt; fault.file, *file);
            assert_eq!(rt; fault.row, *row);
            assert_eq!(rt; fault.code, *code);
        }
    }
    Ok(())
}

// The thirteen files are fetched once each.
#[test]
fn a_fetch_that_fails_ends_a_load(rt: HostRuntime) -> Result<(), Fail> {
    for failing in [1, 5, 13] {
        let mut files = files_of(rt.alloc(), &FEED)?;
        files.fail_at(failing)?;
        let failed = load(rt.alloc(), &mut files, "a").err();
        assert_eq!(rt; failed, Some(LoadError::ReadFault));
    }
    let mut files = files_of(rt.alloc(), &FEED)?;
    files.fail_at(14)?;
    assert!(rt; clean(load(rt.alloc(), &mut files, "a")?).is_some());
    Ok(())
}

fn row(arrives: Option<u32>, departs: Option<u32>) -> GivenRow {
    GivenRow {
        window: false,
        arrives,
        departs,
    }
}

// Between 08:00:00 and 08:10:01 lie two rows, and the last row lies between no two times.
#[test]
fn untimed_rows_share_what_lies_between(rt: HostRuntime) {
    let mut rows = [
        row(None, Some(28_800)),
        row(None, None),
        row(None, None),
        row(Some(29_401), None),
        row(None, None),
    ];
    fill_times(&mut rows);
    let filled = [
        row(None, Some(28_800)),
        row(Some(29_000), Some(29_000)),
        row(Some(29_200), Some(29_200)),
        row(Some(29_401), None),
        row(None, None),
    ];
    assert!(rt; rows == filled);
}
