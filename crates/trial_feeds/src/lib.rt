//! What tests over whole feeds share: the tables of small feeds and times, and the places, moments, rides and triples of their answers.
//! It has no tests of its own, and loads nothing.
#![tactic(auto)]

mod june;
mod ridden;
mod tables;

pub use june::{DAY_BEFORE, EIGHT, june_days};
pub use ridden::{M, N, O, P, Q, RIDE, TO_M, X1, X2, arrival, changing};
pub use tables::{
    AGENCY, BY_TEN, BY_TEN_PAST_EIGHT, CALENDAR, DAY_AHEAD, DIRECT, GROUPS, HEADWAYS, INSIDE,
    MEMBERS, ONE_TRIP, OUTSIDE, POINTS, QUERIES, ROUTES, STOPS, TEN_MINUTES, UTC, ZONE,
};
