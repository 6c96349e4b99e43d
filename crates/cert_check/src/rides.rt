// Rides that can be taken after a way so far, and are not held.

ghost use Rattle.std.specs.Prelude.{◌≡◌, ◌⊎◌, ◌↔◌, ◌<◌, ◌≤ℤ◌, ◌+ℤ◌, ◌*◌, ℕ, All, IfOk, IsTrue, pos};
ghost use Rattle.booking_rules.specs.Departures.{later as deadline_after};
ghost use Rattle.flex_model.specs.Answer.{triples};
ghost use Rattle.flex_model.specs.Deadline.{IsNoLater, lesser};
ghost use Rattle.flex_model.specs.Journey.{limit};
ghost use Rattle.ride_index.specs.OfferedRuns.{nth_deadline, nth_ride};
ghost use Rattle.cert_check.specs.Modest.{IsModest, IsModestDeadline};
ghost use Rattle.cert_check.specs.Tasks.{AreLookupsOf, CoversLater, IsCoveredFrom, IsNthHeld, IsSoundTask, IsUnheldFrom, IsUnheldOf, IsUnheldOfAny, pair_after, pair_of_made, wanted_from};

use crate::held::is_held;
use crate::made::{Boarded, Made, earlier, is_no_later, limit_of};
use crate::task::{Lookups, Task};
use flex_model::{Answer, Deadline, Moment, NoMemory, Place, Ride, Triple};
use ride_index::{ActiveDays, OfferedRun, Wanted, offers_from};
use std::alloc::Global;

// So many minutes after the moment.
fn minutes_after(moment: Moment, number: u32) -> Moment
    requires { moment ≤ℤ pos 30000000000 }
    ensures { result ≡ moment +ℤ pos (60 * number) }
{
    let seconds = 60 * number as u64;
    moment + seconds as i64
}

// The deadline so many minutes later, and no later than the latest.
fn deadline_at(closes: Deadline, latest: Deadline, number: u32) -> Deadline
    requires { IsModestDeadline (lesser (deadline_after closes (60 * number)) latest) }
    ensures { result ≡ lesser (deadline_after closes (60 * number)) latest }
{
    if is_no_later(latest, closes) {
        return latest;
    }
    match closes {
        Deadline::Never => latest,
        Deadline::At(first) => earlier(Deadline::At(minutes_after(first, number)), latest),
    }
}

// The ride of the run with this number, counted from 0.
fn ride_at(run: &OfferedRun, number: u32) -> Ride
    requires { IsModest run.now number }
    ensures { result ≡ nth_ride run.now number }
{
    Ride {
        departs: minutes_after(run.ride.departs, number),
        arrives: minutes_after(run.ride.arrives, number),
        ..run.ride
    }
}

// What the ride with the deadline makes of what is boarded.
fn made_of(boarded: &Boarded, ride: &Ride, deadline: Deadline) -> Made
    ensures { pair_of_made result ≡ pair_after boarded.now ride.now deadline }
{
    Made {
        deadline: earlier(boarded.deadline, deadline),
        arrival: ride.arrives,
        walk: boarded.walk,
    }
}

// Whether what the ride of the run with this number makes of what is boarded is held.
fn is_nth_held(
    task: &Task<'_>,
    lookups: &Lookups<'_>,
    boarded: &Boarded,
    run: &OfferedRun,
    number: u32,
) -> bool
    requires lookups { AreLookupsOf task.now lookups.now }
    requires modest { IsModest run.now number }
    ensures { IsTrue result ↔ IsNthHeld task.now boarded.now run.now number }
{
    let ride = ride_at(run, number);
    let deadline = deadline_at(run.closes, run.latest, number);
    let made = made_of(boarded, &ride, deadline);
    is_held(task, lookups, ride.alight, &made, boarded.round)
}

// Whether no ride of the run can be booked later than the one with this number, coming from what is
// boarded.
fn is_last_booked(boarded: &Boarded, run: &OfferedRun, number: u32) -> bool
    requires { IsModest run.now number }
    ensures { IsTrue result → IsNoLater (lesser boarded.now.deadline run.now.latest)
        (lesser boarded.now.deadline (nth_deadline run.now number)) }
{
    let latest = earlier(boarded.deadline, run.latest);
    let deadline = deadline_at(run.closes, run.latest, number);
    is_no_later(latest, earlier(boarded.deadline, deadline))
}

// A ride of the run that isn't held. Those after one than which none can be booked later are held
// with it.
fn unheld_of(
    task: &Task<'_>,
    lookups: &Lookups<'_>,
    boarded: &Boarded,
    run: &OfferedRun,
) -> Option<Ride>
    requires lookups { AreLookupsOf task.now lookups.now }
    requires modest { (k : ℕ) → k < run.now.count → IsModest run.now k }
    ensures { IsUnheldOf task.now boarded.now run.now result }
{
    for number in 0..run.count {
        if !is_nth_held(task, lookups, boarded, run, number) {
            return Some(ride_at(run, number));
        }
        if is_last_booked(boarded, run, number) {
            return None;
        }
    }
    None
}

// A ride of one of the runs that isn't held.
fn unheld_of_any(
    task: &Task<'_>,
    lookups: &Lookups<'_>,
    boarded: &Boarded,
    runs: &[OfferedRun],
) -> Option<Ride>
    requires lookups { AreLookupsOf task.now lookups.now }
    requires modest { All (λ run. (k : ℕ) → k < run.count → IsModest run k) runs.now }
    ensures { IsUnheldOfAny task.now boarded.now runs.now result }
{
    for i in 0..runs.len() {
        if let Some(ride) = unheld_of(task, lookups, boarded, &runs[i]) {
            return Some(ride);
        }
    }
    None
}

// Whether the triple covers each pair that arrives no earlier than it and that a ride in this round
// makes of what is boarded.
fn covers_later(triple: &Triple, boarded: &Boarded) -> bool
    ensures { IsTrue result → CoversLater triple.now boarded.now }
{
    is_no_later(boarded.deadline, triple.deadline)
        && u64::from(triple.walk) <= boarded.walk
        && u64::from(triple.transfers) < boarded.round
}

// The moment, or the triple's arrival where the triple covers what arrives from then on.
fn lowered(latest: Moment, triple: &Triple, boarded: &Boarded) -> Moment
    ensures low { result ≤ℤ latest }
    ensures late { (result ≡ latest)
        ⊎ (CoversLater triple.now boarded.now × triple.now.arrival ≤ℤ result) }
{
    if triple.arrival < latest && covers_later(triple, boarded) {
        triple.arrival
    } else {
        latest
    }
}

// The earliest moment from which an answer covers what rides make of what is boarded, or the limit.
fn covered_from(answers: &[Answer], boarded: &Boarded, limit: Moment) -> Moment
    ensures low { result ≤ℤ limit }
    ensures late { (result ≡ limit) ⊎ IsCoveredFrom (triples answers.now) boarded.now result }
{
    let mut latest = limit;
    for i in 0..answers.len() {
        latest = lowered(latest, &answers[i].triple, boarded);
    }
    latest
}

// The latest moment up to which rides have to be asked for: what arrives later, but by the limit, is
// covered by an answer.
fn latest_asked(task: &Task<'_>, boarded: &Boarded) -> Moment
    requires { IsSoundTask task.now }
    ensures low { result ≤ℤ limit task.now.query.now }
    ensures late { (result ≡ limit task.now.query.now)
        ⊎ IsCoveredFrom (triples task.now.part.now.answers) boarded.now result }
{
    covered_from(task.part.answers.as_slice(), boarded, limit_of(task.query))
}

// The rides that are wanted from the place, where one can be at the moment, and that arrive by the
// latest one.
fn wanted_at<'s>(
    task: &Task<'s>,
    active: &'s ActiveDays,
    place: Place,
    earliest: Moment,
    latest: Moment,
) -> Wanted<'s>
    ensures { result ≡ wanted_from task.now active.entry place earliest latest }
{
    Wanted {
        feed: task.feed,
        times: task.times,
        days: task.days,
        active,
        asked: task.query.now,
        destination: task.query.destination,
        place,
        earliest,
        limit: latest,
    }
}

/// A ride on the way that is boarded at the place, leaves at the moment or later, and isn't held.
pub(crate) fn unheld_from(
    alloc: Global,
    task: &Task<'_>,
    lookups: &Lookups<'_>,
    boarded: &Boarded,
    place: Place,
    earliest: Moment,
) -> Result<Option<Ride>, NoMemory>
    requires task { IsSoundTask task.now }
    requires lookups { AreLookupsOf task.now lookups.now }
    ensures { IfOk result (IsUnheldFrom task.now boarded.now place earliest) }
{
    let mut runs = Vec::new(alloc);
    let latest = latest_asked(task, boarded);
    let wanted = wanted_at(task, lookups.active, place, earliest, latest);
    offers_from(alloc, lookups.index, &wanted, &mut runs)?;
    Ok(unheld_of_any(task, lookups, boarded, runs.as_slice()))
}
