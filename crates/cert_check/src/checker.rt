// The checker.

ghost use Rattle.std.specs.Prelude.{◌≡◌, ℕ, IfOk, None, Ok};
ghost use Rattle.flex_model.specs.Answer.{IsExactAnswer};
ghost use Rattle.flex_model.specs.SoundFeed.{IsSoundFeed};
ghost use Rattle.flex_model.specs.SoundQuery.{IsSoundDayTable, IsSoundQuery};
ghost use Rattle.flex_model.specs.SoundTimes.{AreSoundTimes};
ghost use Rattle.ride_index.specs.Index.{IsIndexOf};
ghost use Rattle.cert_check.specs.Reasons.{IsVerdict};
ghost use Rattle.cert_check.specs.Tasks.{IsFound, IsFoundBelow, IsSoundTask};
ghost use Rattle.cert_check.specs.declared.reason.Verdict.TheVariants.{Yes};

use crate::answers::{beaten, differing_triple, flawed_journey, unordered};
use crate::ends::{misplaced, uncovered_end};
use crate::labels::{RoundLabel, by_place, labels_of};
use crate::reason::{Reason, Verdict};
use crate::task::{Lookups, Task};
use crate::ways::uncovered;
use bound_cert::CertPart;
use flex_model::{DayTable, Feed, NoMemory, Query, Times};
use ride_index::{ActiveDays, RideIndex};
use std::alloc::Global;

// That the part is not one for the query.
fn wrong_query(task: &Task<'_>) -> Option<Reason>
    ensures { IsFound task.now 0 result }
{
    if task.part.query.as_str() != task.query.id.as_str() {
        return Some(Reason::Query);
    }
    if task.part.walking != task.query.walking {
        return Some(Reason::Query);
    }
    None
}

// That the part has not as many rounds as it is to have.
fn wrong_rounds(task: &Task<'_>) -> Option<Reason>
    ensures { IsFound task.now 1 result }
{
    if task.part.rounds.as_slice().len() != task.query.transfers as usize + 1 {
        return Some(Reason::Rounds);
    }
    None
}

// The first test that the part fails of those of the part and its answers.
fn first_of_answers(task: &Task<'_>) -> Option<Reason>
    requires { IsSoundTask task.now }
    ensures { IsFoundBelow task.now 6 result }
{
    if let Some(reason) = wrong_query(task) {
        return Some(reason);
    }
    if let Some(reason) = wrong_rounds(task) {
        return Some(reason);
    }
    if let Some(reason) = flawed_journey(task) {
        return Some(reason);
    }
    if let Some(reason) = differing_triple(task) {
        return Some(reason);
    }
    if let Some(reason) = unordered(task) {
        return Some(reason);
    }
    beaten(task)
}

// The first test that the part fails.
fn first_reason(
    alloc: Global,
    task: &Task<'_>,
    index: &RideIndex,
) -> Result<Option<Reason>, NoMemory>
    requires task { IsSoundTask task.now }
    requires index { IsIndexOf task.now.feed.now index.now }
    ensures { IfOk result (IsFoundBelow task.now 9) }
{
    if let Some(reason) = first_of_answers(task) {
        return Ok(Some(reason));
    }
    let labels = labels_of(alloc, task.part.rounds.as_slice())?;
    if let Some(reason) = misplaced(task, labels.as_slice()) {
        return Ok(Some(reason));
    }
    if let Some(reason) = uncovered_end(task, labels.as_slice()) {
        return Ok(Some(reason));
    }
    let sorted = by_place(labels_of(alloc, task.part.rounds.as_slice())?)?;
    let active = ActiveDays::build(alloc, task.feed, task.days)?;
    let lookups = Lookups {
        index,
        active: &active,
        labels: sorted.as_slice(),
    };
    let reason = uncovered(alloc, task, &lookups, labels.as_slice())?;
    Ok(reason)
}

/// Checks a part of a certificate for the query, with an index of the feed that was built before.
/// It says `Yes` just where the part is valid: then its answers are exact, whoever made them. Any
/// numbers may stand in the part. Want of memory is the only refusal. This project's own.
pub fn check(
    alloc: Global,
    index: &RideIndex,
    feed: &Feed,
    times: &Times,
    days: &DayTable,
    query: &Query,
    part: &CertPart,
) -> Result<Verdict, NoMemory>
    requires feed { IsSoundFeed feed.now }
    requires times { AreSoundTimes feed.now times.now }
    requires days { IsSoundDayTable days.now }
    requires query { IsSoundQuery feed.now times.now query.now }
    requires index { IsIndexOf feed.now index.now }
    ensures verdict { IfOk result
        (IsVerdict feed.now times.now days.now query.entry.now part.now) }
    ensures exact { result ≡ Ok Yes
        → IsExactAnswer feed.now times.now days.now query.entry.now part.now.answers }
{
    let task = Task {
        feed,
        times,
        days,
        query,
        part,
    };
    match first_reason(alloc, &task, index)? {
        None => Ok(Verdict::Yes),
        Some(reason) => Ok(Verdict::No(reason)),
    }
}
