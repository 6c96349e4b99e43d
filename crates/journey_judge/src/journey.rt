// Whether rides are a permitted journey.

ghost use Rattle.std.specs.Prelude.{◌≡◌, ◌↔◌, ◌+◌, ◌<◌, ◌≤◌, Err, MatchResult, Ok, length};
ghost use Rattle.flex_model.specs.Deadline.{lesser};
ghost use Rattle.flex_model.specs.Flaw.{IsFirstJourneyFlaw, PassesBefore};
ghost use Rattle.flex_model.specs.Journey.{Attains, limit};
ghost use Rattle.flex_model.specs.SoundFeed.{IsSoundFeed};
ghost use Rattle.flex_model.specs.SoundQuery.{IsQueryMoment, IsSoundDayTable, IsSoundQuery};
ghost use Rattle.flex_model.specs.SoundTimes.{AreSoundTimes};
ghost use Rattle.flex_model.specs.declared.answer.Triple.{Triple};
ghost use Rattle.flex_model.specs.declared.flaw.JourneyFlaw.{JourneyFlaw};
ghost use Rattle.journey_judge.specs.Tallies.{IsOneTally, IsTally};

use crate::ride::judge_ride;
use crate::tally::Tally;
use crate::ways::{counted, no_way, ready_at, walk_of_way, way};
use crate::windows::{after, is_by};
use booking_rules::bookable;
use flex_model::{DayTable, Deadline, Feed, JourneyFlaw, Moment, Query, Ride, Times, Triple};
use transfers::egress;

/// Whether the rides are a permitted journey of the query, and then its triple, told without
/// memory. Any numbers may stand in the rides. The flaw is the first test that they fail, in the
/// order that `JourneyFlaw` gives. This project's own.
pub fn judge_journey(
    feed: &Feed,
    times: &Times,
    days: &DayTable,
    query: &Query,
    rides: &[Ride],
) -> Result<Triple, JourneyFlaw>
    requires feed { IsSoundFeed feed.now }
    requires times { AreSoundTimes feed.now times.now }
    requires days { IsSoundDayTable days.now }
    requires query { IsSoundQuery feed.now times.now query.now }
    ensures ok { (triple : Triple)
        → (result ≡ Ok triple)
        ↔ Attains feed.now times.now days.now query.entry.now rides.now triple }
    ensures flaw { (flaw : JourneyFlaw)
        → (result ≡ Err flaw)
        ↔ IsFirstJourneyFlaw feed.now times.now days.now query.entry.now rides.now flaw }
{
    if rides.is_empty() {
        return Err(JourneyFlaw::NoRide);
    }
    if rides.len() > usize::from(query.transfers) + 1 {
        return Err(JourneyFlaw::TooManyRides);
    }
    let tally = judge_each(feed, times, days, query, rides)?;
    let last = &rides[rides.len() - 1];
    let Some(seconds) = egress(times, query, last.alight) else {
        return Err(JourneyFlaw::NoEgress);
    };
    let Some(arrival) = after(last.arrives, seconds, latest(query)) else {
        return Err(JourneyFlaw::TooLate);
    };
    Ok(Triple {
        deadline: tally.deadline,
        arrival,
        transfers: (rides.len() - 1) as u8,
        walk: tally.walk + counted(query, seconds),
    })
}

// The latest arrival that the query allows.
fn latest(query: &Query) -> Moment
    requires depart { IsQueryMoment query.now.depart }
    requires horizon { query.now.horizon ≤ 2880 }
    ensures { result ≡ limit query.entry.now }
{
    query.depart + i64::from(60 * query.horizon)
}

// Tries the rides in order.
fn judge_each(
    feed: &Feed,
    times: &Times,
    days: &DayTable,
    query: &Query,
    rides: &[Ride],
) -> Result<Tally, JourneyFlaw>
    requires feed { IsSoundFeed feed.now }
    requires times { AreSoundTimes feed.now times.now }
    requires days { IsSoundDayTable days.now }
    requires query { IsSoundQuery feed.now times.now query.now }
    requires some { 0 < length rides.now }
    requires few { length rides.now ≤ query.now.transfers + 1 }
    ensures { MatchResult result
        (IsTally feed.now times.now days.now query.entry.now rides.now)
        (IsFirstJourneyFlaw feed.now times.now days.now query.entry.now rides.now) }
{
    let mut whole = Tally {
        deadline: Deadline::Never,
        walk: 0,
    };
    for k in 0..rides.len() {
        let one = judge_at(feed, times, days, query, rides, k)?;
        whole = Tally {
            deadline: earlier(whole.deadline, one.deadline),
            walk: whole.walk + one.walk,
        };
    }
    Ok(whole)
}

// The lesser of two deadlines.
fn earlier(a: Deadline, b: Deadline) -> Deadline
    ensures { result ≡ lesser a b }
{
    a.min(b)
}

// Tries the ride at the index, where those before it pass their tests.
fn judge_at(
    feed: &Feed,
    times: &Times,
    days: &DayTable,
    query: &Query,
    rides: &[Ride],
    k: usize,
) -> Result<Tally, JourneyFlaw>
    requires feed { IsSoundFeed feed.now }
    requires times { AreSoundTimes feed.now times.now }
    requires days { IsSoundDayTable days.now }
    requires query { IsSoundQuery feed.now times.now query.now }
    requires before { PassesBefore feed.now times.now days.now query.now rides.now k }
    requires within { k < length rides.now }
    ensures { MatchResult result
        (IsOneTally feed.now times.now days.now query.entry.now rides.now k)
        (IsFirstJourneyFlaw feed.now times.now days.now query.entry.now rides.now) }
{
    let ride = &rides[k];
    let number = k as u32 + 1;
    if let Err(flaw) = judge_ride(feed, times, days, ride) {
        return Err(JourneyFlaw::Ride(number, flaw));
    }
    let Some(deadline) = bookable(feed, days, ride, query.now) else {
        return Err(JourneyFlaw::NotBookable(number));
    };
    let Some(seconds) = way(feed, times, query, rides, k) else {
        return Err(no_way(number));
    };
    if !is_by(ready_at(query, rides, k), seconds, ride.departs) {
        return Err(JourneyFlaw::TooEarly(number));
    }
    Ok(Tally {
        deadline,
        walk: walk_of_way(query, rides, k, seconds),
    })
}
