// What is judged of rides and journeys in a zone.

use crate::loaded::{queries_of, zone_feed, zone_times};
use flex_model::{Deadline, JourneyFlaw, Place, Ride, RideFlaw};
use journey_judge::{judge_journey, judge_ride};
use std::test::Fail;
use trial_feeds::{
    BY_TEN, BY_TEN_PAST_EIGHT, DAY_BEFORE, EIGHT, INSIDE, M, N, OUTSIDE, P, TEN_MINUTES, TO_M,
    arrival, june_days,
};

#[test]
fn a_ride_in_a_zone_takes_the_direct_time(rt: HostRuntime) -> Result<(), Fail> {
    let feed = zone_feed(rt.alloc(), BY_TEN)?;
    let times = zone_times(rt.alloc(), &feed, INSIDE, TEN_MINUTES)?;
    let days = june_days(rt.alloc())?;
    let cases = [
        (TO_M, Ok(())),
        (
            Ride {
                departs: EIGHT + 6_600,
                arrives: EIGHT + 7_200,
                ..TO_M
            },
            Ok(()),
        ),
        (
            Ride {
                departs: EIGHT + 7_200,
                arrives: EIGHT + 7_800,
                ..TO_M
            },
            Err(RideFlaw::WrongArrival),
        ),
        (
            Ride {
                board: Place::Stop(7),
                ..TO_M
            },
            Err(RideFlaw::NotBoarded),
        ),
        (
            Ride {
                board: Place::Point(u32::MAX),
                ..TO_M
            },
            Err(RideFlaw::NotBoarded),
        ),
        (
            Ride {
                alight: Place::Point(1),
                ..TO_M
            },
            Err(RideFlaw::NotAlighted),
        ),
        (
            Ride {
                alight: Place::Stop(u32::MAX),
                ..TO_M
            },
            Err(RideFlaw::NotAlighted),
        ),
        (
            Ride {
                board: M,
                alight: N,
                ..TO_M
            },
            Err(RideFlaw::NoDirect),
        ),
        (
            Ride {
                arrives: EIGHT + 601,
                ..TO_M
            },
            Err(RideFlaw::WrongArrival),
        ),
    ];
    for (ride, answer) in cases {
        assert_eq!(rt; judge_ride(&feed, &times, &days, &ride), answer, "{ride:?}");
    }
    let outside = zone_times(rt.alloc(), &feed, OUTSIDE, TEN_MINUTES)?;
    assert_eq!(rt;
        judge_ride(&feed, &outside, &days, &TO_M),
        Err(RideFlaw::NotBoarded)
    );
    Ok(())
}

#[test]
fn a_ride_arrives_in_the_window_of_its_zone(rt: HostRuntime) -> Result<(), Fail> {
    let feed = zone_feed(rt.alloc(), BY_TEN_PAST_EIGHT)?;
    let days = june_days(rt.alloc())?;
    let times = zone_times(rt.alloc(), &feed, INSIDE, TEN_MINUTES)?;
    assert_eq!(rt; judge_ride(&feed, &times, &days, &TO_M), Ok(()));
    let slower = zone_times(
        rt.alloc(),
        &feed,
        INSIDE,
        b"from_id,to_id,seconds\nP,M,601\n",
    )?;
    let late = Ride {
        arrives: EIGHT + 601,
        ..TO_M
    };
    assert_eq!(rt;
        judge_ride(&feed, &slower, &days, &late),
        Err(RideFlaw::WrongArrival)
    );
    Ok(())
}

#[test]
fn a_journey_in_a_zone_has_its_deadline(rt: HostRuntime) -> Result<(), Fail> {
    let feed = zone_feed(rt.alloc(), BY_TEN)?;
    let times = zone_times(rt.alloc(), &feed, INSIDE, TEN_MINUTES)?;
    let days = june_days(rt.alloc())?;
    let records = "P,M,q1,2025-06-04T07:30:00Z,2025-06-03T12:00:00Z,0,240\n\
                   P,M,q2,2025-06-04T07:30:00Z,2025-06-03T12:00:00Z,1,240\n";
    let queries = queries_of(rt.alloc(), &feed, &times, records)?;
    let [query, changing] = queries.as_slice() else {
        return Err("two queries".into());
    };
    let whole = arrival(Deadline::At(DAY_BEFORE), EIGHT + 600);
    assert_eq!(rt;
        judge_journey(&feed, &times, &days, query, &[TO_M]),
        Ok(whole)
    );
    assert_eq!(rt;
        judge_journey(&feed, &times, &days, query, &[TO_M, TO_M]),
        Err(JourneyFlaw::TooManyRides)
    );
    assert_eq!(rt;
        judge_journey(&feed, &times, &days, changing, &[TO_M, TO_M]),
        Err(JourneyFlaw::NoChange(2))
    );
    Ok(())
}
