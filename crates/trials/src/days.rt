// Service days: when they begin, which of them a service runs on, and how they are counted back.

use crate::loaded::sample_feed;
use flex_model::{Listed, Moment, NoMemory, Service, Text};
use service_days::{
    ZoneForm, ZoneRefusal, active, begin, count_back, day_table, days_back, first_travel_day,
    is_running, is_travel_day, moment, read_zone,
};
use std::alloc::Global;
use std::test::Fail;

// Days of June 2025: the 2nd was a Monday.
const MONDAY: i32 = 20_241;

const WEDNESDAY: i32 = 20_243;

const THURSDAY: i32 = 20_244;

const FRIDAY: i32 = 20_245;

const NEXT_MONDAY: i32 = 20_248;

// 2025-06-04T07:30:00Z, and the midnight before.
const DEPART: Moment = 1_749_022_200;

const MIDNIGHT: Moment = 1_748_995_200;

// Mondays to Fridays of 2025, with one date that adds a day and one that removes one.
fn weekdays(alloc: Global, added: i32, removed: i32) -> Result<Service, NoMemory> {
    let mut service = Service {
        id: Text::new(alloc),
        flags: [true, true, true, true, true, false, false],
        first: 20_089,
        last: 20_453,
        added: Listed::new(alloc),
        removed: Listed::new(alloc),
    };
    service.added.push(added)?;
    service.removed.push(removed)?;
    Ok(service)
}

// No weekly rule, and one date that adds a day.
fn one_day(alloc: Global, added: i32) -> Result<Service, NoMemory> {
    let mut service = Service {
        id: Text::new(alloc),
        flags: [false; 7],
        first: 1,
        last: 0,
        added: Listed::new(alloc),
        removed: Listed::new(alloc),
    };
    service.added.push(added)?;
    Ok(service)
}

#[test]
fn services_follow_the_week_and_the_dates(rt: HostRuntime) -> Result<(), Fail> {
    let service = weekdays(rt.alloc(), FRIDAY + 1, FRIDAY)?;
    let cases = [
        (20_088, false),
        (20_089, true),
        (MONDAY, true),
        (WEDNESDAY, true),
        (THURSDAY, true),
        (FRIDAY, false),
        (FRIDAY + 1, true),
        (FRIDAY + 2, false),
        (NEXT_MONDAY, true),
        (20_453, true),
        (20_454, false),
        (i32::MIN, false),
        (i32::MAX, false),
    ];
    for (day, runs) in cases {
        assert_eq!(rt; active(&service, day), runs);
    }
    let both = weekdays(rt.alloc(), FRIDAY, FRIDAY)?;
    assert!(rt; active(&both, FRIDAY));
    Ok(())
}

#[test]
fn active_days_are_counted_back(rt: HostRuntime) -> Result<(), Fail> {
    let service = weekdays(rt.alloc(), MONDAY, FRIDAY)?;
    for (n, day) in [(0, NEXT_MONDAY), (1, THURSDAY), (2, WEDNESDAY)] {
        assert_eq!(rt; days_back(&service, NEXT_MONDAY, n), Some(day));
    }
    let single = one_day(rt.alloc(), WEDNESDAY)?;
    let cases = [
        (WEDNESDAY, None),
        (WEDNESDAY + 1_500, Some(WEDNESDAY)),
        (WEDNESDAY + 1_501, None),
        (i32::MIN, None),
    ];
    for (day, earlier) in cases {
        assert_eq!(rt; days_back(&single, day, 1), earlier);
    }
    Ok(())
}

#[test]
fn days_begin_at_midnight_in_utc(rt: HostRuntime) -> Result<(), Fail> {
    let zone = read_zone(rt.alloc(), b"UTC0\n", ZoneForm::Posix)?;
    let days = day_table(rt.alloc(), &zone, DEPART)?;
    let base = days.base.as_slice();
    assert_eq!(rt; base.first().copied(), Some(MIDNIGHT - 1_520 * 86_400));
    assert_eq!(rt; base.last().copied(), Some(MIDNIGHT + 5 * 86_400));
    assert_eq!(rt; moment(&days, WEDNESDAY, 90_600), Some(MIDNIGHT + 90_600));
    assert_eq!(rt; first_travel_day(&days), WEDNESDAY - 16);
    let cases = [
        (WEDNESDAY - 1_521, None, false),
        (WEDNESDAY - 17, Some(MIDNIGHT - 17 * 86_400), false),
        (WEDNESDAY - 16, Some(MIDNIGHT - 16 * 86_400), true),
        (WEDNESDAY + 5, Some(MIDNIGHT + 5 * 86_400), true),
        (WEDNESDAY + 6, None, false),
    ];
    for (day, base, travels) in cases {
        assert_eq!(rt; begin(&days, day), base);
        assert_eq!(rt; is_travel_day(&days, day), travels);
    }
    Ok(())
}

// 2025-11-02T00:00:00Z.
const NOVEMBER: Moment = 1_762_041_600;

// The clocks of New York go forward on 2025-03-09, whose service day begins at 04:00:00Z, and back on 2025-11-02, whose
// service day begins at 05:00:00Z.
#[test]
fn rules_tell_when_clocks_change(rt: HostRuntime) -> Result<(), Fail> {
    let text = b"\xEF\xBB\xBF\tEST5EDT,M3.2.0,M11.1.0 \r\n";
    let zone = read_zone(rt.alloc(), text, ZoneForm::Posix)?;
    let days = day_table(rt.alloc(), &zone, NOVEMBER)?;
    let cases = [
        (20_155, 1_741_410_000),
        (20_156, 1_741_492_800),
        (20_393, 1_761_969_600),
        (20_394, 1_762_059_600),
    ];
    for (day, base) in cases {
        assert_eq!(rt; begin(&days, day), Some(base));
    }
    Ok(())
}

// A zone file of the first version that has one offset, an hour ahead of UTC.
const HOUR_AHEAD: [u8; 54] =
    *b"TZif\0\0\0\0\0\0\0\0\0\0\0\0\0\0\0\0\0\0\0\0\0\0\0\0\0\0\0\0\0\0\0\0\0\0\0\x01\0\0\0\x04\0\0\x0E\x10\0\0CET\0";

#[test]
fn zone_files_are_read(rt: HostRuntime) -> Result<(), Fail> {
    let zone = read_zone(rt.alloc(), &HOUR_AHEAD, ZoneForm::Tzif)?;
    let days = day_table(rt.alloc(), &zone, DEPART)?;
    assert_eq!(rt; begin(&days, WEDNESDAY), Some(MIDNIGHT - 3_600));
    Ok(())
}

#[test]
fn what_is_no_zone_is_refused(rt: HostRuntime) {
    let bad = Some(ZoneRefusal::BadZone);
    assert_eq!(rt; read_zone(rt.alloc(), b"!", ZoneForm::Posix).err(), bad);
    assert_eq!(rt;
        read_zone(rt.alloc(), b"UTC0\xFF", ZoneForm::Posix).err(),
        bad
    );
    assert_eq!(rt; read_zone(rt.alloc(), b"TZif", ZoneForm::Tzif).err(), bad);
}

#[test]
fn days_of_a_feed_are_counted_back(rt: HostRuntime) -> Result<(), Fail> {
    let feed = sample_feed(rt.alloc())?;
    assert_eq!(rt; feed.services.as_slice().len(), 1);
    assert_eq!(rt; count_back(&feed, Some(0), NEXT_MONDAY, 2), Some(WEDNESDAY));
    assert_eq!(rt; count_back(&feed, None, NEXT_MONDAY, 2), Some(FRIDAY + 1));
    Ok(())
}

#[test]
fn trips_run_on_travel_days(rt: HostRuntime) -> Result<(), Fail> {
    let zone = read_zone(rt.alloc(), b"UTC0", ZoneForm::Posix)?;
    let days = day_table(rt.alloc(), &zone, DEPART)?;
    let feed = sample_feed(rt.alloc())?;
    let [trip] = feed.trips.as_slice() else {
        return Err("one trip".into());
    };
    assert_eq!(rt; feed.services.as_slice().len(), 1);
    assert_eq!(rt; trip.service, 0);
    for (day, runs) in [(WEDNESDAY, true), (FRIDAY, false), (WEDNESDAY - 21, false)] {
        assert_eq!(rt; is_running(&feed, &days, trip, day), runs);
    }
    Ok(())
}
