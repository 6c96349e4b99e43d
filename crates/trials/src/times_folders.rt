// Times folders.

use crate::loaded::{loaded_times, sample_feed};
use flex_io::LoadError;
use flex_model::{Fault, FaultCode, InputFile, Listed, Moment, Place, Position, Span, Times};
use place_times::LoadedTimes;
use service_days::{ZoneValue, begin, day_table};
use std::test::Fail;

// The zone of New York.
const RULE: (&str, &[u8]) = ("t/zone.txt", b"EST5EDT,M3.2.0,M11.1.0");

// 2025-03-10T12:00:00Z.
const DEPART: Moment = 1_741_608_000;

fn clean(loaded: LoadedTimes) -> Option<(Times, ZoneValue)> {
    match loaded {
        LoadedTimes::Clean(times, zone) => Some((times, zone)),
        LoadedTimes::Faulty(_) => None,
    }
}

fn faulty(loaded: LoadedTimes) -> Option<Listed<Fault>> {
    match loaded {
        LoadedTimes::Clean(_, _) => None,
        LoadedTimes::Faulty(faults) => Some(faults),
    }
}

#[test]
fn a_clean_folder_is_loaded(rt: HostRuntime) -> Result<(), Fail> {
    let feed = sample_feed(rt.alloc())?;
    let files: [(&str, &[u8]); 4] = [
        RULE,
        (
            "t/points.txt",
            b"point_id,point_lat,point_lon\nP,50.0,5.0\nA,-90,180\n",
        ),
        (
            "t/direct.txt",
            b"from_id,to_id,seconds\nA,M,604800\nP,A,4\nP,N,3\nN,M,0\nM,P,1\n",
        ),
        ("t/walks.txt", b"seconds,to_id,from_id\n86400,N,M\n60,M,N\n"),
    ];
    let (times, zone) = clean(loaded_times(rt.alloc(), &feed, &files, 0)?).ok_or("faults")?;
    let points = times.points.as_slice();
    assert_eq!(rt; points.len(), 2);
    assert!(rt; points[0].id.as_str() == "P");
    assert!(rt; points[1].id.as_str() == "A");
    assert_eq!(rt;
        points[1].at,
        Position {
            lon: 180_000_000_000_000_000,
            lat: -90_000_000_000_000_000
        }
    );
    let direct = [
        (Place::Stop(0), Place::Point(0), 1),
        (Place::Stop(1), Place::Stop(0), 0),
        (Place::Point(0), Place::Stop(1), 3),
        (Place::Point(0), Place::Point(1), 4),
        (Place::Point(1), Place::Stop(0), 604_800),
    ]
    .map(|(from, to, seconds)| Span { from, to, seconds });
    assert!(rt; times.direct.as_slice() == direct.as_slice());
    let walks = [
        (Place::Stop(0), Place::Stop(1), 86_400),
        (Place::Stop(1), Place::Stop(0), 60),
    ]
    .map(|(from, to, seconds)| Span { from, to, seconds });
    assert!(rt; times.walks.as_slice() == walks.as_slice());
    // The service day on which the clocks go forward begins at 04:00:00Z.
    let days = day_table(rt.alloc(), &zone, DEPART)?;
    assert_eq!(rt; begin(&days, 20_156), Some(1_741_492_800));
    Ok(())
}

// A zone file of the first version that has one offset, an hour ahead of UTC.
const HOUR_AHEAD: &[u8] =
    b"TZif\0\0\0\0\0\0\0\0\0\0\0\0\0\0\0\0\0\0\0\0\0\0\0\0\0\0\0\0\0\0\0\0\0\0\0\x01\0\0\0\x04\0\0\x0E\x10\0\0CET\0";

#[test]
fn the_faults_of_a_folder_are_listed(rt: HostRuntime) -> Result<(), Fail> {
    let feed = sample_feed(rt.alloc())?;
    let cases: [(&[(&str, &[u8])], &[(InputFile, u64, FaultCode)]); 5] = [
        (
            &[("t/zone.txt", b"!")],
            &[(InputFile::ZoneText, 0, FaultCode::BadZone)],
        ),
        (
            &[("t/zone.tzif", b"TZif")],
            &[(InputFile::ZoneTzif, 0, FaultCode::BadZone)],
        ),
        (&[], &[(InputFile::ZoneText, 0, FaultCode::MissingFile)]),
        (
            &[
                RULE,
                (
                    "t/points.txt",
                    b"point_id,point_lat,point_lon\nP,50.0,5.0\nM,50.0,5.0\n",
                ),
                ("t/direct.txt", b"from_id,to_id,seconds\nP,K,600\n"),
            ],
            &[
                (InputFile::Points, 3, FaultCode::SharedId),
                (InputFile::Direct, 2, FaultCode::UnknownId),
            ],
        ),
        (
            &[("t/zone.txt", b""), ("t/zone.tzif", HOUR_AHEAD)],
            &[(InputFile::ZoneText, 0, FaultCode::BadZone)],
        ),
    ];
    for (files, wanted) in cases {
        let faults = faulty(loaded_times(rt.alloc(), &feed, files, 0)?).ok_or("times")?;
        let faults = faults.as_slice();
        assert_eq!(rt; faults.len(), wanted.len());
        for (fault, (file, row, code)) in faults.iter().zip(wanted) {
            assert_eq!(rt; fault.file, *file);
            assert_eq!(rt; fault.row, *row);
            assert_eq!(rt; fault.code, *code);
        }
    }
    Ok(())
}

// The file of the zone and three tables are fetched, and zone.tzif only where zone.txt is absent.
#[test]
fn each_file_is_fetched_once(rt: HostRuntime) -> Result<(), Fail> {
    let feed = sample_feed(rt.alloc())?;
    for (zone, fetches) in [(RULE, 4), (("t/zone.tzif", HOUR_AHEAD), 5)] {
        let failed = loaded_times(rt.alloc(), &feed, &[zone], fetches).err();
        assert_eq!(rt; failed, Some(LoadError::ReadFault));
        assert!(rt; clean(loaded_times(rt.alloc(), &feed, &[zone], fetches + 1)?).is_some());
    }
    Ok(())
}
