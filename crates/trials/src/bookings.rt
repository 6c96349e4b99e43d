// When bookings close and open.

ghost use Rattle.std.specs.Prelude.{IsTrue};
ghost use Rattle.booking_rules.specs.Ends.{HasRows};

use crate::loaded::read_feed;
use booking_rules::{Opening, bookable, closing, opening};
use flex_model::{Deadline, Feed, Moment, Ride};
use service_days::is_travel_day;
use std::test::Fail;
use trial_feeds::{
    AGENCY, CALENDAR, DAY_BEFORE, EIGHT, GROUPS, MEMBERS, ONE_TRIP, RIDE, ROUTES, STOPS, june_days,
};

// Rules 1 and 3 count on the service W, which doesn't run on Friday, 6 June, and rules 4 and 5 on V, which runs on 4 June
// alone.
const RULES: (&str, &[u8]) = (
    "a/booking_rules.txt",
    b"booking_rule_id,booking_type,prior_notice_duration_min,prior_notice_duration_max,prior_notice_last_day,prior_notice_last_time,prior_notice_start_day,prior_notice_start_time,prior_notice_service_id\n\
      A,1,30,,,,,,\nB,2,,,2,17:00:00,,,W\nC,1,30,60,,,,,\nD,2,,,0,12:00:00,,,\nE,2,,,1,17:00:00,,,V\nF,2,,,1,17:00:00,3,09:00:00,V\n",
);

const DATES: (&str, &[u8]) = (
    "a/calendar_dates.txt",
    b"service_id,date,exception_type\nW,20250606,2\nV,20250604,1\n",
);

// The pickup has rule D, and the drop-off rule C.
const STOP_TIMES: (&str, &[u8]) = (
    "a/stop_times.txt",
    b"trip_id,stop_sequence,location_group_id,start_pickup_drop_off_window,end_pickup_drop_off_window,pickup_type,drop_off_type,pickup_booking_rule_id,drop_off_booking_rule_id\n\
      F1,1,G,08:00:00,10:00:00,2,1,D,\nF1,2,G,08:00:00,10:00:00,1,2,,C\n",
);

const FEED: [(&str, &[u8]); 10] = [
    AGENCY, STOPS, ROUTES, ONE_TRIP, CALENDAR, DATES, STOP_TIMES, GROUPS, MEMBERS, RULES,
];

#[test]
fn bookings_close_and_open(rt: HostRuntime) -> Result<(), Fail> {
    let feed = read_feed(rt.alloc(), &FEED)?;
    let days = june_days(rt.alloc())?;
    let cases: [(u32, i32, i64, Option<Moment>, Opening); 6] = [
        (0, 20_243, 6_600, Some(4_800), Opening::Always),
        (1, 20_248, 432_000, Some(32_400), Opening::Always),
        (2, 20_243, 0, Some(-1_800), Opening::From(EIGHT - 3_600)),
        (3, 20_243, 180, Some(180), Opening::Always),
        (4, 20_243, 0, None, Opening::Always),
        (5, 20_243, 0, None, Opening::Never),
    ];
    for (rule, day, after, closes, opens) in cases {
        let known = (rule as usize) < feed.rules.len();
        if !known || !is_travel_day(&days, day) || after < 0 || after > 1_000_000 {
            return Err("no such rule or day".into());
        }
        let departs = EIGHT + after;
        let closes_at = closing(&feed, &days, Some(rule), day, departs);
        assert_eq!(rt;
            closes_at.map(|closing| closing.saturating_sub(EIGHT)),
            closes,
            "of rule {rule}"
        );
        assert_eq!(rt;
            opening(&feed, &days, Some(rule), day, departs),
            opens,
            "of rule {rule}"
        );
    }
    Ok(())
}

// Whether the feed has the ride's trip and records.
pub(crate) fn has_rows(feed: &Feed, ride: &Ride) -> bool
    ensures { IsTrue result → HasRows feed.now ride.now }
{
    let Some(trip) = feed.trips.get(ride.trip as usize) else {
        return false;
    };
    (ride.from_row as usize) < trip.rows.len() && (ride.to_row as usize) < trip.rows.len()
}

// The pickup can be booked up to the departure, and the drop-off from one hour to half an hour before it.
#[test]
fn a_ride_can_be_booked_up_to_the_first_closing(rt: HostRuntime) -> Result<(), Fail> {
    let feed = read_feed(rt.alloc(), &FEED)?;
    let days = june_days(rt.alloc())?;
    if !has_rows(&feed, &RIDE) || !is_travel_day(&days, RIDE.day) {
        return Err("no such ride".into());
    }
    let closes = EIGHT - 1_800;
    for (now, until) in [
        (DAY_BEFORE, Some(Deadline::At(closes))),
        (closes, Some(Deadline::At(closes))),
        (closes + 1, None),
    ] {
        assert_eq!(rt; bookable(&feed, &days, &RIDE, now), until);
    }
    Ok(())
}
