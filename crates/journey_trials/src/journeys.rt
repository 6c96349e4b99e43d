// What is judged of journeys.

ghost use Rattle.std.specs.Prelude.{◌≤ℤ◌, pos};

use crate::loaded::{queries_of, read_feed, read_times};
use flex_model::{Deadline, JourneyFlaw, Moment, Place, Ride, RideFlaw, Triple};
use journey_judge::judge_journey;
use std::alloc::Global;
use std::process::Abort;
use std::test::Fail;
use trial_feeds::{
    AGENCY, CALENDAR, DAY_AHEAD, DAY_BEFORE, DIRECT, EIGHT, GROUPS, M, MEMBERS, N, O, ONE_TRIP,
    POINTS, Q, RIDE, ROUTES, STOPS, UTC, X1, X2, arrival, changing, june_days,
};

// Asserts what is judged of rides as journeys of queries, which are records of a query file.
fn assert_journeys(
    rt: &impl Abort,
    alloc: Global,
    feed: &[(&str, &[u8])],
    times: &[(&str, &[u8])],
    cases: &[(&str, &[Ride], Result<Triple, JourneyFlaw>)],
) -> Result<(), Fail> {
    let feed = read_feed(alloc, feed)?;
    let times = read_times(alloc, &feed, times)?;
    let days = june_days(alloc)?;
    for (record, rides, answer) in cases {
        let queries = queries_of(alloc, &feed, &times, record)?;
        for query in &queries {
            assert_eq!(rt;
                judge_journey(&feed, &times, &days, query, rides),
                *answer,
                "{record} {rides:?}"
            );
        }
        assert_eq!(rt; queries.len(), 1);
    }
    Ok(())
}

// F1 is a ride of the group G, X1 goes from M to N, X2 from O to Q, and X3 from N to Q.
const TRIPS: (&str, &[u8]) = (
    "a/trips.txt",
    b"route_id,service_id,trip_id\nR,W,F1\nR,W,X1\nR,W,X2\nR,W,X3\n",
);

const STOP_TIMES: (&str, &[u8]) = (
    "a/stop_times.txt",
    b"trip_id,stop_sequence,stop_id,location_group_id,arrival_time,departure_time,start_pickup_drop_off_window,end_pickup_drop_off_window,pickup_type,drop_off_type,pickup_booking_rule_id,drop_off_booking_rule_id\n\
      F1,1,,G,,,08:00:00,10:00:00,2,1,B,\nF1,2,,G,,,08:00:00,10:00:00,1,2,,B\n\
      X1,1,M,,08:00:00,08:00:00,,,,,,\nX1,2,N,,08:20:00,08:20:00,,,,,,\n\
      X2,1,O,,08:25:00,08:25:00,,,,,,\nX2,2,Q,,08:40:00,08:40:00,,,,,,\n\
      X3,1,N,,08:25:00,08:25:00,,,,,,\nX3,2,Q,,08:40:00,08:40:00,,,,,,\n",
);

const WALKS: (&str, &[u8]) = ("t/walks.txt", b"from_id,to_id,seconds\nQ,D,1200\n");

const F1: Ride = RIDE;

const X3: Ride = Ride {
    trip: 3,
    board: N,
    ..X2
};

// From M to the point D, with the end of the record as it is asked.
const TO_D: &str = "M,D,q1,2025-06-04T08:00:00Z,2025-06-03T12:00:00Z,1,60,0\n";

const TO_D_WALKING: &str = "M,D,q1,2025-06-04T08:00:00Z,2025-06-03T12:00:00Z,1,60,1\n";

// Asserts what is judged with these transfers and walks.
fn assert_with(
    rt: &impl Abort,
    alloc: Global,
    transfers: &'static [u8],
    walks: (&'static str, &'static [u8]),
    cases: &[(&str, &[Ride], Result<Triple, JourneyFlaw>)],
) -> Result<(), Fail> {
    let rules = ("a/transfers.txt", transfers);
    let feed = [
        AGENCY, STOPS, ROUTES, TRIPS, CALENDAR, STOP_TIMES, GROUPS, MEMBERS, DAY_AHEAD, rules,
    ];
    assert_journeys(rt, alloc, &feed, &[UTC, POINTS, DIRECT, walks], cases)
}

const IN_300: &[u8] = b"from_stop_id,to_stop_id,transfer_type,min_transfer_time\nN,O,2,300\n";

#[test]
fn a_journey_changes_and_walks(rt: HostRuntime) -> Result<(), Fail> {
    let cases: [(&str, &[Ride], Result<Triple, JourneyFlaw>); 13] = [
        (TO_D, &[X1, X2], Ok(changing(0))),
        (TO_D_WALKING, &[X1, X2], Ok(changing(1_500))),
        (TO_D, &[X1, X3], Ok(changing(0))),
        (TO_D_WALKING, &[X1, X3], Ok(changing(1_200))),
        (TO_D, &[], Err(JourneyFlaw::NoRide)),
        (TO_D, &[X1, X2, X2], Err(JourneyFlaw::TooManyRides)),
        (
            "M,D,q1,2025-06-04T08:00:00Z,2025-06-03T12:00:00Z,0,60,0\n",
            &[X1, X2],
            Err(JourneyFlaw::TooManyRides),
        ),
        (
            "M,D,q1,2025-06-04T08:00:00Z,2025-06-03T12:00:00Z,1,59,0\n",
            &[X1, X2],
            Err(JourneyFlaw::TooLate),
        ),
        (
            "M,D,q1,2025-06-04T08:00:01Z,2025-06-03T12:00:00Z,1,60,0\n",
            &[X1, X2],
            Err(JourneyFlaw::TooEarly(1)),
        ),
        (TO_D, &[X2], Err(JourneyFlaw::NoAccess)),
        (TO_D, &[X1], Err(JourneyFlaw::NoEgress)),
        (
            TO_D,
            &[
                X1,
                Ride {
                    arrives: i64::MAX,
                    ..X2
                },
            ],
            Err(JourneyFlaw::Ride(2, RideFlaw::WrongArrival)),
        ),
        (
            TO_D,
            &[Ride { trip: 9, ..X1 }, Ride { trip: 9, ..X2 }],
            Err(JourneyFlaw::Ride(1, RideFlaw::NoTrip)),
        ),
    ];
    assert_with(&rt, rt.alloc(), IN_300, WALKS, &cases)
}

// F1 boards at M, where X1 doesn't alight, and its booking has closed.
#[test]
fn a_booking_is_tried_before_a_change(rt: HostRuntime) -> Result<(), Fail> {
    let cases: [(&str, &[Ride], Result<Triple, JourneyFlaw>); 2] = [
        (
            "M,N,q1,2025-06-04T08:00:00Z,2025-06-03T17:00:01Z,1,60,0\n",
            &[X1, F1],
            Err(JourneyFlaw::NotBookable(2)),
        ),
        (
            "M,N,q1,2025-06-04T08:00:00Z,2025-06-03T17:00:00Z,1,60,0\n",
            &[X1, F1],
            Err(JourneyFlaw::NoChange(2)),
        ),
    ];
    assert_with(&rt, rt.alloc(), IN_300, WALKS, &cases)
}

// The walk from M to O takes 15 minutes, and that from N to D ten.
#[test]
fn a_journey_walks_at_its_ends(rt: HostRuntime) -> Result<(), Fail> {
    let walks: (&str, &[u8]) = (
        "t/walks.txt",
        b"from_id,to_id,seconds\nQ,D,1200\nM,O,900\nN,D,600\n",
    );
    let later = arrival(Deadline::Never, EIGHT + 3_600);
    let sooner = arrival(Deadline::Never, EIGHT + 1_800);
    let cases: [(&str, &[Ride], Result<Triple, JourneyFlaw>); 5] = [
        (
            "M,D,q1,2025-06-04T08:10:00Z,2025-06-03T12:00:00Z,1,60,0\n",
            &[X2],
            Ok(later),
        ),
        (
            "M,D,q1,2025-06-04T08:10:00Z,2025-06-03T12:00:00Z,1,60,1\n",
            &[X2],
            Ok(Triple {
                walk: 2_100,
                ..later
            }),
        ),
        (
            "M,D,q1,2025-06-04T08:10:01Z,2025-06-03T12:00:00Z,1,60,1\n",
            &[X2],
            Err(JourneyFlaw::TooEarly(1)),
        ),
        (TO_D, &[X1], Ok(sooner)),
        (
            TO_D_WALKING,
            &[X1],
            Ok(Triple {
                walk: 600,
                ..sooner
            }),
        ),
    ];
    assert_with(&rt, rt.alloc(), IN_300, walks, &cases)
}

#[test]
fn changes_take_what_the_rules_say(rt: HostRuntime) -> Result<(), Fail> {
    let other: [(&str, &[Ride], Result<Triple, JourneyFlaw>); 3] = [
        (TO_D, &[X1, X2], Err(JourneyFlaw::TooEarly(2))),
        (TO_D, &[X1, X3], Ok(changing(0))),
        (TO_D_WALKING, &[X1, X3], Ok(changing(1_200))),
    ];
    let slow = b"from_stop_id,to_stop_id,transfer_type,min_transfer_time\nN,O,2,301\nN,N,2,300\n";
    assert_with(&rt, rt.alloc(), slow, WALKS, &other)?;
    let neither: [(&str, &[Ride], Result<Triple, JourneyFlaw>); 2] = [
        (TO_D, &[X1, X2], Err(JourneyFlaw::NoChange(2))),
        (TO_D, &[X1, X3], Err(JourneyFlaw::NoChange(2))),
    ];
    let forbidden = b"from_stop_id,to_stop_id,transfer_type,min_transfer_time\nN,O,3,\nN,N,3,\n";
    assert_with(&rt, rt.alloc(), forbidden, WALKS, &neither)?;
    let within: [(&str, &[Ride], Result<Triple, JourneyFlaw>); 2] = [
        (TO_D, &[X1, X2], Err(JourneyFlaw::NoChange(2))),
        (TO_D, &[X1, X3], Err(JourneyFlaw::TooEarly(2))),
    ];
    let slow_within = b"from_stop_id,to_stop_id,transfer_type,min_transfer_time\nN,N,2,301\n";
    assert_with(&rt, rt.alloc(), slow_within, WALKS, &within)
}

// One is picked up and left in the group G from 08:00:00 to 10:00:00, under the rule B.
const BOOKED: (&str, &[u8]) = (
    "a/stop_times.txt",
    b"trip_id,stop_sequence,location_group_id,start_pickup_drop_off_window,end_pickup_drop_off_window,pickup_type,drop_off_type,pickup_booking_rule_id,drop_off_booking_rule_id\n\
      F1,1,G,08:00:00,10:00:00,2,1,B,\nF1,2,G,08:00:00,10:00:00,1,2,,B\n",
);

// Asserts what is judged where a booking has this rule, and the services these dates.
fn assert_booked(
    rt: &impl Abort,
    alloc: Global,
    rule: &'static [u8],
    dates: &'static [u8],
    cases: &[(&str, &[Ride], Result<Triple, JourneyFlaw>)],
) -> Result<(), Fail> {
    let rules = ("a/booking_rules.txt", rule);
    let dates = ("a/calendar_dates.txt", dates);
    let feed = [
        AGENCY, STOPS, ROUTES, ONE_TRIP, CALENDAR, dates, BOOKED, GROUPS, MEMBERS, rules,
    ];
    assert_journeys(rt, alloc, &feed, &[UTC, DIRECT], cases)
}

const NO_DATES: &[u8] = b"service_id,date,exception_type\n";

const EARLY: &str = "M,N,q1,2025-06-04T07:30:00Z,2025-06-03T12:00:00Z,0,240\n";

#[test]
fn a_ride_is_booked_by_a_time_of_the_day_before(rt: HostRuntime) -> Result<(), Fail> {
    let rule =
        b"booking_rule_id,booking_type,prior_notice_last_day,prior_notice_last_time\nB,2,1,17:00:00\n";
    let booked = Ok(arrival(Deadline::At(DAY_BEFORE), EIGHT + 600));
    let cases: [(&str, &[Ride], Result<Triple, JourneyFlaw>); 7] = [
        (EARLY, &[F1], booked),
        (
            "M,N,q1,2025-06-04T07:30:00Z,2025-06-03T17:00:00Z,0,240\n",
            &[F1],
            booked,
        ),
        (
            "M,N,q1,2025-06-04T07:30:00Z,2025-06-03T17:00:01Z,0,240\n",
            &[F1],
            Err(JourneyFlaw::NotBookable(1)),
        ),
        (
            "M,N,q1,2025-06-04T08:00:00Z,2025-06-03T12:00:00Z,0,10\n",
            &[F1],
            booked,
        ),
        (
            "M,N,q1,2025-06-04T08:00:00Z,2025-06-03T12:00:00Z,0,9\n",
            &[F1],
            Err(JourneyFlaw::TooLate),
        ),
        (
            "M,N,q1,2025-06-04T08:00:01Z,2025-06-03T12:00:00Z,0,240\n",
            &[F1],
            Err(JourneyFlaw::TooEarly(1)),
        ),
        (
            EARLY,
            &[Ride {
                departs: i64::MIN,
                ..F1
            }],
            Err(JourneyFlaw::Ride(1, RideFlaw::WrongDeparture)),
        ),
    ];
    assert_booked(&rt, rt.alloc(), rule, NO_DATES, &cases)?;
    let noon =
        b"booking_rule_id,booking_type,prior_notice_last_day,prior_notice_last_time\nB,2,0,12:00:00\n";
    let at_departure = Ok(arrival(Deadline::At(EIGHT), EIGHT + 600));
    assert_booked(
        &rt,
        rt.alloc(),
        noon,
        NO_DATES,
        &[(EARLY, &[F1], at_departure)],
    )
}

// The ride that leaves so many minutes after 08:00:00.
const fn later(minutes: i64) -> Ride
    requires low { pos 0 ≤ℤ minutes }
    requires high { minutes ≤ℤ pos 120 }
{
    Ride {
        departs: EIGHT + 60 * minutes,
        arrives: EIGHT + 60 * minutes + 600,
        ..F1
    }
}

// Asserts that the rides of the first four minutes can be booked, each a minute longer than the one before it, the first one
// up to that moment.
fn assert_each_minute(
    rt: &impl Abort,
    alloc: Global,
    rule: &'static [u8],
    asked: &str,
    closing: Moment,
) -> Result<(), Fail>
    requires low { pos 0 ≤ℤ closing }
    requires high { closing ≤ℤ pos 10000000000 }
{
    let until = |seconds: i64| Ok(arrival(Deadline::At(closing + seconds), EIGHT + 600 + seconds));
    let cases: [(&str, &[Ride], Result<Triple, JourneyFlaw>); 4] = [
        (asked, &[later(0)], until(0)),
        (asked, &[later(1)], until(60)),
        (asked, &[later(2)], until(120)),
        (asked, &[later(3)], until(180)),
    ];
    assert_booked(rt, alloc, rule, NO_DATES, &cases)
}

#[test]
fn a_ride_is_booked_some_minutes_ahead(rt: HostRuntime) -> Result<(), Fail> {
    let last = Ride {
        departs: EIGHT + 6_600,
        arrives: EIGHT + 7_200,
        ..F1
    };
    let rule = b"booking_rule_id,booking_type,prior_notice_duration_min\nB,1,30\n";
    let booked = Ok(arrival(Deadline::At(EIGHT + 4_800), EIGHT + 7_200));
    let cases: [(&str, &[Ride], Result<Triple, JourneyFlaw>); 2] = [
        (
            "M,N,q1,2025-06-04T07:30:00Z,2025-06-04T09:20:00Z,0,240\n",
            &[last],
            booked,
        ),
        (
            "M,N,q1,2025-06-04T07:30:00Z,2025-06-04T09:20:01Z,0,240\n",
            &[last],
            Err(JourneyFlaw::NotBookable(1)),
        ),
    ];
    assert_booked(&rt, rt.alloc(), rule, NO_DATES, &cases)?;
    let up_to_then = b"booking_rule_id,booking_type\nB,0\n";
    assert_each_minute(&rt, rt.alloc(), up_to_then, EARLY, EIGHT)
}

// An opening may come after the query's moment, and not after the closing.
#[test]
fn a_booking_opens_before_it_closes(rt: HostRuntime) -> Result<(), Fail> {
    let asked = "M,N,q1,2025-06-04T07:30:00Z,2025-06-04T05:00:00Z,0,240\n";
    let rule =
        b"booking_rule_id,booking_type,prior_notice_duration_min,prior_notice_duration_max\nB,1,30,60\n";
    assert_each_minute(&rt, rt.alloc(), rule, asked, EIGHT - 1_800)?;
    let rule =
        b"booking_rule_id,booking_type,prior_notice_duration_min,prior_notice_duration_max\nB,1,30,20\n";
    let refused = Err(JourneyFlaw::NotBookable(1));
    assert_booked(&rt, rt.alloc(), rule, NO_DATES, &[(asked, &[F1], refused)])
}

// It may open at a time of an earlier day, or of the day itself.
#[test]
fn a_booking_opens_at_a_time_of_a_day(rt: HostRuntime) -> Result<(), Fail> {
    let refused = Err(JourneyFlaw::NotBookable(1));
    let half_an_hour = Ok(arrival(Deadline::At(EIGHT - 1_800), EIGHT + 600));
    let day_before_at_nine = b"booking_rule_id,booking_type,prior_notice_duration_min,\
        prior_notice_start_day,prior_notice_start_time\nB,1,30,1,09:00:00\n";
    let just_then = b"booking_rule_id,booking_type,prior_notice_duration_min,\
        prior_notice_start_day,prior_notice_start_time\nB,1,30,0,07:30:00\n";
    let too_late = b"booking_rule_id,booking_type,prior_notice_duration_min,\
        prior_notice_start_day,prior_notice_start_time\nB,1,30,0,07:30:01\n";
    let cases: [(&'static [u8], Result<Triple, JourneyFlaw>); 3] = [
        (day_before_at_nine, half_an_hour),
        (just_then, half_an_hour),
        (too_late, refused),
    ];
    for (rule, answer) in cases {
        assert_booked(&rt, rt.alloc(), rule, NO_DATES, &[(EARLY, &[F1], answer)])?;
    }
    let by_days = b"booking_rule_id,booking_type,prior_notice_last_day,prior_notice_last_time,\
        prior_notice_start_day,prior_notice_start_time\nB,2,1,17:00:00,2,09:00:00\n";
    let day_before = Ok(arrival(Deadline::At(DAY_BEFORE), EIGHT + 600));
    assert_booked(
        &rt,
        rt.alloc(),
        by_days,
        NO_DATES,
        &[(EARLY, &[F1], day_before)],
    )?;
    let on_the_day = b"booking_rule_id,booking_type,prior_notice_last_day,prior_notice_last_time,\
        prior_notice_start_day,prior_notice_start_time\nB,2,0,12:00:00,0,08:01:30\n";
    let at_departure = Ok(arrival(Deadline::At(EIGHT + 120), EIGHT + 720));
    let cases: [(&str, &[Ride], Result<Triple, JourneyFlaw>); 2] = [
        (EARLY, &[later(1)], refused),
        (EARLY, &[later(2)], at_departure),
    ];
    assert_booked(&rt, rt.alloc(), on_the_day, NO_DATES, &cases)
}

// The pickup is booked without a rule, and the ride arrives with the trip.
#[test]
fn a_ride_without_a_rule_is_booked_up_to_its_departure(rt: HostRuntime) -> Result<(), Fail> {
    let stop_times = (
        "a/stop_times.txt",
        b"trip_id,stop_sequence,location_group_id,stop_id,start_pickup_drop_off_window,\
          end_pickup_drop_off_window,arrival_time,departure_time,pickup_type,drop_off_type\n\
          F1,1,G,,08:00:00,08:30:00,,,2,1\nF1,2,,N,,,08:20:00,08:20:00,1,0\n"
            .as_slice(),
    );
    let feed = [
        AGENCY, STOPS, ROUTES, ONE_TRIP, CALENDAR, stop_times, GROUPS, MEMBERS,
    ];
    let whole = Ok(arrival(Deadline::At(EIGHT + 600), EIGHT + 1_200));
    let cases: [(&str, &[Ride], Result<Triple, JourneyFlaw>); 1] = [(EARLY, &[later(10)], whole)];
    assert_journeys(&rt, rt.alloc(), &feed, &[UTC, DIRECT], &cases)
}

// Two active days before Monday, 9 June, is Wednesday, since Friday is removed. V runs on 4 June alone.
#[test]
fn days_are_counted_back_on_a_service(rt: HostRuntime) -> Result<(), Fail> {
    let monday = Ride {
        day: 20_248,
        departs: EIGHT + 432_000,
        arrives: EIGHT + 432_600,
        ..F1
    };
    let rule =
        b"booking_rule_id,booking_type,prior_notice_last_day,prior_notice_last_time,prior_notice_service_id\nB,2,2,17:00:00,W\n";
    let dates = b"service_id,date,exception_type\nW,20250606,2\n";
    let booked = Ok(arrival(Deadline::At(EIGHT + 32_400), EIGHT + 432_600));
    let asked = "M,N,q1,2025-06-09T07:30:00Z,2025-06-02T12:00:00Z,0,240\n";
    assert_booked(&rt, rt.alloc(), rule, dates, &[(asked, &[monday], booked)])?;
    let rule =
        b"booking_rule_id,booking_type,prior_notice_last_day,prior_notice_last_time,prior_notice_service_id\nB,2,1,17:00:00,V\n";
    let dates = b"service_id,date,exception_type\nV,20250604,1\n";
    let refused = Err(JourneyFlaw::NotBookable(1));
    assert_booked(&rt, rt.alloc(), rule, dates, &[(EARLY, &[F1], refused)])
}
