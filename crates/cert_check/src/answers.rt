// The tests of the answers.

ghost use Rattle.std.specs.Prelude.{◌↔◌, ◌≡◌, ◌+◌, ◌<◌, ℕ, IsTrue, None, Some, length, slice_get};
ghost use Rattle.flex_model.specs.Journey.{IsPermittedJourney};
ghost use Rattle.flex_model.specs.Triple.{IsTripleBefore};
ghost use Rattle.flex_model.specs.declared.answer.Answer.{Answer as TheAnswer};
ghost use Rattle.cert_check.specs.Answers.{IsBetter, IsFlawOf, IsRealTriple};
ghost use Rattle.cert_check.specs.Tasks.{IsFound, IsSoundTask};

use crate::numbers::number_at;
use crate::reason::Reason;
use crate::task::Task;
use flex_model::{Answer, JourneyFlaw, Triple, covers};
use journey_judge::judge_journey;

// Why the rides of the answer are no permitted journey, where they are none.
fn flaw_of(task: &Task<'_>, answer: &Answer) -> Option<JourneyFlaw>
    requires { IsSoundTask task.now }
    ensures { IsFlawOf task.now answer.now result }
{
    let rides = answer.rides.as_slice();
    match judge_journey(task.feed, task.times, task.days, task.query, rides) {
        Ok(_triple) => None,
        Err(flaw) => Some(flaw),
    }
}

/// The first answer whose rides are no permitted journey.
pub(crate) fn flawed_journey(task: &Task<'_>) -> Option<Reason>
    requires { IsSoundTask task.now }
    ensures { IsFound task.now 2 result }
{
    let answers = task.part.answers.as_slice();
    for i in 0..answers.len() {
        if let Some(flaw) = flaw_of(task, &answers[i]) {
            return Some(Reason::Journey {
                answer: number_at(i),
                flaw,
            });
        }
    }
    None
}

// Whether the two are one triple.
fn is_same(a: &Triple, b: &Triple) -> bool
    ensures { IsTrue result ↔ (a.now ≡ b.now) }
{
    a == b
}

// The triple of the rides of the answer, where that is not the answer's own.
fn real_triple(task: &Task<'_>, answer: &Answer) -> Option<Triple>
    requires task { IsSoundTask task.now }
    requires permitted { IsPermittedJourney task.now.feed.now task.now.times.now task.now.days.now
        task.now.query.now answer.now.rides }
    ensures { IsRealTriple task.now answer.now result }
{
    let rides = answer.rides.as_slice();
    match judge_journey(task.feed, task.times, task.days, task.query, rides) {
        Ok(real) => {
            if is_same(&real, &answer.triple) {
                None
            } else {
                Some(real)
            }
        }
        Err(_flaw) => None,
    }
}

/// The first answer whose triple is not that of its rides, where all journeys are permitted.
pub(crate) fn differing_triple(task: &Task<'_>) -> Option<Reason>
    requires task { IsSoundTask task.now }
    requires permitted { IsFound task.now 2 None }
    ensures { IsFound task.now 3 result }
{
    let answers = task.part.answers.as_slice();
    for i in 0..answers.len() {
        let answer = &answers[i];
        if let Some(real) = real_triple(task, answer) {
            return Some(Reason::TripleDiffers {
                answer: number_at(i),
                told: answer.triple,
                real,
            });
        }
    }
    None
}

// Whether the one triple comes before the other: by transfers, then by arrival, then by walk.
fn is_before(a: &Triple, b: &Triple) -> bool
    ensures { IsTrue result ↔ IsTripleBefore a.now b.now }
{
    if a.transfers != b.transfers {
        return a.transfers < b.transfers;
    }
    if a.arrival != b.arrival {
        return a.arrival < b.arrival;
    }
    a.walk < b.walk
}

// Whether the answer at the index comes before the next one, if there is one.
fn rises_at(answers: &[Answer], at: usize) -> bool
    requires { at < length answers.now }
    ensures order { (answer next : TheAnswer) → slice_get answers.now at ≡ Some answer
        → slice_get answers.now (at + 1) ≡ Some next
        → IsTrue result ↔ IsTripleBefore answer.triple next.triple }
    ensures last { length answers.now ≡ at + 1 → IsTrue result }
{
    if answers.len() - at == 1 {
        return true;
    }
    is_before(&answers[at].triple, &answers[at + 1].triple)
}

/// The first answer that doesn't come before the next one.
pub(crate) fn unordered(task: &Task<'_>) -> Option<Reason>
    ensures { IsFound task.now 4 result }
{
    let answers = task.part.answers.as_slice();
    for i in 0..answers.len() {
        if !rises_at(answers, i) {
            return Some(Reason::NotOrdered {
                answer: number_at(i),
            });
        }
    }
    None
}

// The index of the first answer but the one at this index that covers the triple.
fn better(answers: &[Answer], at: usize, triple: &Triple) -> Option<usize>
    ensures { IsBetter answers.now at triple.now result }
{
    for j in 0..answers.len() {
        if j != at && covers(&answers[j].triple, triple) {
            return Some(j);
        }
    }
    None
}

/// The first answer that another one covers, and the first that covers it.
pub(crate) fn beaten(task: &Task<'_>) -> Option<Reason>
    ensures { IsFound task.now 5 result }
{
    let answers = task.part.answers.as_slice();
    for i in 0..answers.len() {
        if let Some(j) = better(answers, i, &answers[i].triple) {
            return Some(Reason::Beaten {
                answer: number_at(i),
                by: number_at(j),
            });
        }
    }
    None
}
