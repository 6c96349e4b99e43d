// Rides from the origin and after each label that are not held.

ghost use Rattle.std.specs.Prelude.{◌≡◌, ◌≤◌, ◌≤ℤ◌, IfOk, None};
ghost use Rattle.flex_model.specs.Journey.{limit};
ghost use Rattle.cert_check.specs.Labels as Labels;
ghost use Rattle.cert_check.specs.Tasks.{AreLookupsOf, IsFound, IsSoundTask};
ghost use Rattle.cert_check.specs.Ways.{IsUnheldAccess, IsUnheldChange, IsUnheldFirst, IsUnheldNext, IsUnheldRule, IsUnheldWalk};

use crate::labels::RoundLabel;
use crate::made::{Boarded, counted_walk, later, limit_of, walk_between};
use crate::numbers::number_at;
use crate::reason::Reason;
use crate::rides::unheld_from;
use crate::task::{Lookups, Task};
use flex_model::{ChangeRow, Deadline, NoMemory, Place, Ride, Span};
use std::alloc::Global;
use transfers::{access, change, changes_from, spans_from};

// A ride from the origin that is boarded at the place and isn't held.
fn unheld_access(
    alloc: Global,
    task: &Task<'_>,
    lookups: &Lookups<'_>,
    place: Place,
) -> Result<Option<Ride>, NoMemory>
    requires task { IsSoundTask task.now }
    requires lookups { AreLookupsOf task.now lookups.now }
    ensures { IfOk result (IsUnheldAccess task.now place) }
{
    let Some(seconds) = access(task.times, task.query, place) else {
        return Ok(None);
    };
    let boarded = Boarded {
        deadline: Deadline::Never,
        walk: counted_walk(task.query, seconds) as u64,
        round: 1,
    };
    let earliest = later(task.query.depart, seconds);
    let ride = unheld_from(alloc, task, lookups, &boarded, place, earliest)?;
    Ok(ride)
}

// A ride from the origin that is boarded where one of the walks ends and isn't held.
fn unheld_walk(
    alloc: Global,
    task: &Task<'_>,
    lookups: &Lookups<'_>,
    walks: &[Span],
) -> Result<Option<Ride>, NoMemory>
    requires task { IsSoundTask task.now }
    requires lookups { AreLookupsOf task.now lookups.now }
    ensures { IfOk result (IsUnheldWalk task.now walks.now) }
{
    for i in 0..walks.len() {
        if let Some(ride) = unheld_access(alloc, task, lookups, walks[i].to)? {
            return Ok(Some(ride));
        }
    }
    Ok(None)
}

// A ride from the origin that isn't held.
fn unheld_first(
    alloc: Global,
    task: &Task<'_>,
    lookups: &Lookups<'_>,
) -> Result<Option<Ride>, NoMemory>
    requires task { IsSoundTask task.now }
    requires lookups { AreLookupsOf task.now lookups.now }
    ensures { IfOk result (IsUnheldFirst task.now) }
{
    if let Some(ride) = unheld_access(alloc, task, lookups, task.query.origin)? {
        return Ok(Some(ride));
    }
    let walks = spans_from(task.times.walks.as_slice(), task.query.origin);
    let ride = unheld_walk(alloc, task, lookups, walks)?;
    Ok(ride)
}

// A ride after the label that is boarded at the place and isn't held.
fn unheld_change(
    alloc: Global,
    task: &Task<'_>,
    lookups: &Lookups<'_>,
    label: &RoundLabel,
    place: Place,
) -> Result<Option<Ride>, NoMemory>
    requires task { IsSoundTask task.now }
    requires lookups { AreLookupsOf task.now lookups.now }
    requires round { label.now.round ≤ task.now.query.now.transfers }
    requires in_time { label.now.label.arrival ≤ℤ limit task.now.query.now }
    ensures { IfOk result (IsUnheldChange task.now label.now place) }
{
    let Some(seconds) = change(task.feed, label.label.place, place) else {
        return Ok(None);
    };
    let walk = counted_walk(task.query, walk_between(label.label.place, place, seconds));
    let boarded = Boarded {
        deadline: label.label.deadline,
        walk: label.label.walk as u64 + walk as u64,
        round: label.round + 1,
    };
    let earliest = later(label.label.arrival, seconds);
    let ride = unheld_from(alloc, task, lookups, &boarded, place, earliest)?;
    Ok(ride)
}

// A ride after the label that is boarded where one of the rules leads and isn't held.
fn unheld_rule(
    alloc: Global,
    task: &Task<'_>,
    lookups: &Lookups<'_>,
    label: &RoundLabel,
    rows: &[ChangeRow],
) -> Result<Option<Ride>, NoMemory>
    requires task { IsSoundTask task.now }
    requires lookups { AreLookupsOf task.now lookups.now }
    requires round { label.now.round ≤ task.now.query.now.transfers }
    requires in_time { label.now.label.arrival ≤ℤ limit task.now.query.now }
    ensures { IfOk result (IsUnheldRule task.now label.now rows.now) }
{
    for i in 0..rows.len() {
        let place = Place::Stop(rows[i].to);
        if let Some(ride) = unheld_change(alloc, task, lookups, label, place)? {
            return Ok(Some(ride));
        }
    }
    Ok(None)
}

// A ride after the label, from which one can go on, that isn't held.
fn unheld_on(
    alloc: Global,
    task: &Task<'_>,
    lookups: &Lookups<'_>,
    label: &RoundLabel,
) -> Result<Option<Ride>, NoMemory>
    requires task { IsSoundTask task.now }
    requires lookups { AreLookupsOf task.now lookups.now }
    requires round { label.now.round ≤ task.now.query.now.transfers }
    requires in_time { label.now.label.arrival ≤ℤ limit task.now.query.now }
    ensures { IfOk result (IsUnheldNext task.now label.now) }
{
    let Place::Stop(stop) = label.label.place else {
        return Ok(None);
    };
    if let Some(ride) = unheld_change(alloc, task, lookups, label, label.label.place)? {
        return Ok(Some(ride));
    }
    let ride = unheld_rule(alloc, task, lookups, label, changes_from(task.feed, stop))?;
    Ok(ride)
}

// A ride after the label that isn't held.
fn unheld_next(
    alloc: Global,
    task: &Task<'_>,
    lookups: &Lookups<'_>,
    label: &RoundLabel,
) -> Result<Option<Ride>, NoMemory>
    requires task { IsSoundTask task.now }
    requires lookups { AreLookupsOf task.now lookups.now }
    ensures { IfOk result (IsUnheldNext task.now label.now) }
{
    if label.round > task.query.transfers as u64 {
        return Ok(None);
    }
    if label.label.arrival > limit_of(task.query) {
        return Ok(None);
    }
    let ride = unheld_on(alloc, task, lookups, label)?;
    Ok(ride)
}

// The first label after which a ride is not held.
fn uncovered_after(
    alloc: Global,
    task: &Task<'_>,
    lookups: &Lookups<'_>,
    labels: &[RoundLabel],
) -> Result<Option<Reason>, NoMemory>
    requires task { IsSoundTask task.now }
    requires lookups { AreLookupsOf task.now lookups.now }
    requires labels { labels.now ≡ Labels.labels_of task.now.part.now }
    requires first { IsUnheldFirst task.now None }
    ensures { IfOk result (IsFound task.now 8) }
{
    for i in 0..labels.len() {
        if let Some(ride) = unheld_next(alloc, task, lookups, &labels[i])? {
            return Ok(Some(Reason::Uncovered {
                from: number_at(i),
                ride,
            }));
        }
    }
    Ok(None)
}

/// The first of the origin and the labels after which a ride is not held.
pub(crate) fn uncovered(
    alloc: Global,
    task: &Task<'_>,
    lookups: &Lookups<'_>,
    labels: &[RoundLabel],
) -> Result<Option<Reason>, NoMemory>
    requires task { IsSoundTask task.now }
    requires lookups { AreLookupsOf task.now lookups.now }
    requires labels { labels.now ≡ Labels.labels_of task.now.part.now }
    ensures { IfOk result (IsFound task.now 8) }
{
    if let Some(ride) = unheld_first(alloc, task, lookups)? {
        return Ok(Some(Reason::Uncovered { from: 0, ride }));
    }
    let reason = uncovered_after(alloc, task, lookups, labels)?;
    Ok(reason)
}
