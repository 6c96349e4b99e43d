// Changes between rides, and the walks from the origin and to the destination.

use crate::loaded::{queries_of, sample_feed, sample_times};
use flex_model::Place;
use std::test::Fail;
use transfers::{access, change, egress};

// Stops, and the point where the journey ends.
const M: Place = Place::Stop(0);

const N: Place = Place::Stop(1);

const O: Place = Place::Stop(2);

const Q: Place = Place::Stop(3);

const D: Place = Place::Point(1);

#[test]
fn one_changes_as_the_rules_say(rt: HostRuntime) -> Result<(), Fail> {
    let feed = sample_feed(rt.alloc())?;
    assert_eq!(rt; change(&feed, N, O), Some(300));
    assert_eq!(rt; change(&feed, O, N), None);
    assert_eq!(rt; change(&feed, N, N), Some(0));
    assert_eq!(rt; change(&feed, Q, Q), None);
    assert_eq!(rt; change(&feed, D, D), None);
    Ok(())
}

#[test]
fn one_walks_to_the_destination(rt: HostRuntime) -> Result<(), Fail> {
    let feed = sample_feed(rt.alloc())?;
    let times = sample_times(rt.alloc(), &feed)?;
    let record = "M,D,q1,2025-06-04T08:00:00Z,2025-06-03T12:00:00Z,1,60\n";
    let queries = queries_of(rt.alloc(), &feed, &times, record)?;
    let [query] = queries.as_slice() else {
        return Err("one query".into());
    };
    assert_eq!(rt; access(&times, query, M), Some(0));
    assert_eq!(rt; access(&times, query, N), None);
    assert_eq!(rt; egress(&times, query, Q), Some(1200));
    assert_eq!(rt; egress(&times, query, D), Some(0));
    Ok(())
}
