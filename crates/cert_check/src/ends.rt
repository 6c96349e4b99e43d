// The tests of the labels, but for the rides after them.

ghost use Rattle.std.specs.Prelude.{◌↔◌, ◌≡◌, ◌<◌, IsTrue, false};
ghost use Rattle.flex_model.specs.Journey.{IsLabelPlace};
ghost use Rattle.cert_check.specs.Ends.{IsEndCovered, IsEndOf, IsEndUncovered};
ghost use Rattle.cert_check.specs.Labels as Labels;
ghost use Rattle.cert_check.specs.Tasks.{IsFound, IsSoundTask};

use crate::held::is_held_by_answer;
use crate::labels::RoundLabel;
use crate::made::{Made, counted_walk, later, limit_of};
use crate::numbers::number_at;
use crate::reason::Reason;
use crate::task::Task;
use flex_model::{Feed, Place, Query};
use transfers::egress;

// Whether a label may stand at the place.
fn is_label_place(feed: &Feed, query: &Query, place: Place) -> bool
    ensures { IsTrue result ↔ IsLabelPlace feed.now query.entry.now place }
{
    if place == query.destination {
        return true;
    }
    let Place::Stop(stop) = place else {
        return false;
    };
    let stops = feed.stops.as_slice();
    let number = stop as usize;
    if number >= stops.len() {
        return false;
    }
    stops[number].boards
}

/// The first label at a place where none may stand.
pub(crate) fn misplaced(task: &Task<'_>, labels: &[RoundLabel]) -> Option<Reason>
    requires { labels.now ≡ Labels.labels_of task.now.part.now }
    ensures { IsFound task.now 6 result }
{
    for i in 0..labels.len() {
        if !is_label_place(task.feed, task.query, labels[i].label.place) {
            return Some(Reason::LabelPlace {
                label: number_at(i),
            });
        }
    }
    None
}

// What is reached at the destination from the label, if that is in time.
fn end_of(task: &Task<'_>, label: &RoundLabel) -> Option<Made>
    requires { IsSoundTask task.now }
    ensures { IsEndOf task.now label.now result }
{
    let latest = limit_of(task.query);
    if label.label.arrival > latest {
        return None;
    }
    let Some(seconds) = egress(task.times, task.query, label.label.place) else {
        return None;
    };
    let arrival = later(label.label.arrival, seconds);
    if arrival > latest {
        return None;
    }
    Some(Made {
        deadline: label.label.deadline,
        arrival,
        walk: label.label.walk as u64 + counted_walk(task.query, seconds) as u64,
    })
}

// Whether the destination is reached from the label in time, and no answer covers that.
fn is_uncovered(task: &Task<'_>, label: &RoundLabel) -> bool
    requires task { IsSoundTask task.now }
    requires round { 0 < label.now.round }
    ensures yes { IsTrue result → IsEndUncovered task.now label.now }
    ensures no { result ≡ false → IsEndCovered task.now label.now }
{
    let Some(made) = end_of(task, label) else {
        return false;
    };
    !is_held_by_answer(task.part.answers.as_slice(), &made, label.round)
}

/// The first label from which the destination is reached in time, where no answer covers that.
pub(crate) fn uncovered_end(task: &Task<'_>, labels: &[RoundLabel]) -> Option<Reason>
    requires task { IsSoundTask task.now }
    requires labels { labels.now ≡ Labels.labels_of task.now.part.now }
    ensures { IsFound task.now 7 result }
{
    for i in 0..labels.len() {
        let label = labels[i];
        if is_uncovered(task, &label) {
            return Some(Reason::FinalUncovered {
                label: number_at(i),
            });
        }
    }
    None
}
