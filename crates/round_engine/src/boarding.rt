// Where rides of the next round can be boarded.

ghost use Rattle.std.specs.Prelude.{◌≡◌, ◌-◌, ◌<◌, ◌+ℤ◌, ◌≢◌, ℕ, [], All, Contains, OnOk, length, pos};
ghost use Rattle.round_engine.specs.Attained.{IsBoarding, IsLabel, IsSoundTask};
ghost use Rattle.round_engine.specs.Bags.{bag_at, round_at};
ghost use Rattle.round_engine.specs.Flat.{AreFirstBoardings, AreNextBoardings, IsBoarded};
ghost use Rattle.round_engine.specs.Boardings.{AreChangesBoarded, AreLabelsOf, GainsBoardings, IsBagBoarded, IsBoardedAfter, IsRuleAfter, IsRuleBoarded, IsWalkAway, IsWalkBoarded};
ghost use Rattle.round_engine.specs.Chain.{place_of, round_of};
ghost use Rattle.flex_model.specs.declared.moment.Deadline.TheVariants.{Never};
ghost use Rattle.flex_model.specs.declared.place.Place.{Place};
ghost use Rattle.flex_model.specs.declared.place.Place.TheVariants.{Stop};
ghost use Rattle.flex_model.specs.declared.change.ChangeKind.TheVariants.{Least};
ghost use Rattle.flex_model.specs.Place.{IsStop};
ghost use Rattle.flex_model.specs.Change.{HasAccess, HasChange};
ghost use Rattle.flex_model.specs.Journey.{counted};
ghost use Rattle.round_engine.specs.Searched.{AreEntries};

use crate::bags::Bags;
use crate::label::Label;
use crate::moments::{counted_walk, later, walk_between};
use crate::task::Task;
use bumpalo::Bump;
use flex_model::{ChangeKind, ChangeRow, Moment, NoMemory, Pair, Place, Span};
use std::alloc::Global;
use transfers::{change, changes_from, spans_from};

/// A place where one can board from a moment on with a walk, coming from the label, or from the origin.
#[derive(Clone, Copy)]
pub(crate) struct Boarding<'a> {
    pub(crate) place: Place,
    pub(crate) earliest: Moment,
    /// The walk up to the place, that before the label among it.
    pub(crate) walk: u32,
    pub(crate) parent: Option<&'a Label<'a>>,
}

/// The boardings of a round, in the arena.
pub(crate) type Boardings<'a> = Vec<Boarding<'a>, &'a Bump<Global>>;

// Boards after the label, so many seconds later at the place.
fn board_then<'a>(
    task: &Task<'_>,
    label: &'a Label<'a>,
    place: Place,
    seconds: u32,
    into: &mut Boardings<'a>,
) -> Result<(), NoMemory>
    requires task { IsSoundTask task.now }
    requires label { IsLabel task.now (round_of label.now) label.now }
    requires change { HasChange task.now.feed.now (place_of label.now) place seconds }
    ensures gains { OnOk result
        (GainsBoardings task.now (round_of label.now) into.old.items into.new.items) }
    ensures boarded { OnOk result
        (IsBoardedAfter task.now label.now into.new.items place seconds) }
{
    let walk = counted_walk(task.query, walk_between(label.place, place, seconds));
    into.push(Boarding {
        place,
        earliest: later(label.pair.arrival, seconds),
        walk: label.pair.walk + walk,
        parent: Some(label),
    })?;
    Ok(())
}

// Boards so many seconds after the query's departure.
fn board_first<'a>(
    task: &Task<'_>,
    place: Place,
    seconds: u32,
    into: &mut Boardings<'a>,
) -> Result<(), NoMemory>
    requires task { IsSoundTask task.now }
    requires access { HasAccess task.now.times.now task.now.query.now place seconds }
    ensures gains { OnOk result (GainsBoardings task.now 0 into.old.items into.new.items) }
    ensures boarded { OnOk result (IsBoarded into.new.items place
        (task.now.query.now.depart +ℤ pos seconds) Never (counted task.now.query.now seconds)) }
{
    into.push(Boarding {
        place,
        earliest: later(task.query.depart, seconds),
        walk: counted_walk(task.query, seconds),
        parent: None,
    })?;
    Ok(())
}

// Boards after the label where the rule lets one change to, if that is another stop.
fn board_after_rule<'a>(
    task: &Task<'_>,
    label: &'a Label<'a>,
    row: &ChangeRow,
    into: &mut Boardings<'a>,
) -> Result<(), NoMemory>
    requires task { IsSoundTask task.now }
    requires label { IsLabel task.now (round_of label.now) label.now }
    requires row { Contains task.now.feed.now.changes row.now }
    requires from { place_of label.now ≡ Stop row.now.from }
    ensures gains { OnOk result
        (GainsBoardings task.now (round_of label.now) into.old.items into.new.items) }
    ensures boarded { OnOk result ((seconds : ℕ) → row.now.kind ≡ Least seconds
        → row.now.to ≢ row.now.from
        → IsBoardedAfter task.now label.now into.new.items (Stop row.now.to) seconds) }
{
    if row.to == row.from {
        return Ok(());
    }
    let ChangeKind::Least(seconds) = row.kind else {
        return Ok(());
    };
    board_then(task, label, Place::Stop(row.to), seconds, into)?;
    Ok(())
}

// Boards after the label where the rules for changing from its stop let one change to.
fn board_after_rules<'a>(
    task: &Task<'_>,
    label: &'a Label<'a>,
    rows: &[ChangeRow],
    into: &mut Boardings<'a>,
) -> Result<(), NoMemory>
    requires task { IsSoundTask task.now }
    requires label { IsLabel task.now (round_of label.now) label.now }
    requires rows { All (IsRuleAfter task.now label.now) rows.now }
    ensures gains { OnOk result
        (GainsBoardings task.now (round_of label.now) into.old.items into.new.items) }
    ensures boarded { OnOk result
        (All (IsRuleBoarded task.now label.now into.new.items) rows.now) }
{
    for row in rows {
        board_after_rule(task, label, row, into)?;
    }
    Ok(())
}

// Boards where the walk from the origin ends, if that is another stop.
fn board_after_walk<'a>(
    task: &Task<'_>,
    span: &Span,
    into: &mut Boardings<'a>,
) -> Result<(), NoMemory>
    requires task { IsSoundTask task.now }
    requires span { Contains task.now.times.now.walks span.now }
    requires from { span.now.from ≡ task.now.query.now.origin }
    ensures gains { OnOk result (GainsBoardings task.now 0 into.old.items into.new.items) }
    ensures boarded { OnOk result (IsStop span.now.to → span.now.to ≢ task.now.query.now.origin
        → IsBoarded into.new.items span.now.to
        (task.now.query.now.depart +ℤ pos span.now.seconds) Never
        (counted task.now.query.now span.now.seconds)) }
{
    if span.to == task.query.origin {
        return Ok(());
    }
    let Place::Stop(_) = span.to else {
        return Ok(());
    };
    board_first(task, span.to, span.seconds, into)?;
    Ok(())
}

// Boards where the walks from the origin end.
fn board_after_walks<'a>(
    task: &Task<'_>,
    walks: &[Span],
    into: &mut Boardings<'a>,
) -> Result<(), NoMemory>
    requires task { IsSoundTask task.now }
    requires walks { All (IsWalkAway task.now) walks.now }
    ensures gains { OnOk result (GainsBoardings task.now 0 into.old.items into.new.items) }
    ensures boarded { OnOk result (All (IsWalkBoarded task.now into.new.items) walks.now) }
{
    for span in walks {
        board_after_walk(task, span, into)?;
    }
    Ok(())
}

// Boards at the origin, and where the walks from there end.
fn first_boardings<'a>(task: &Task<'_>, into: &mut Boardings<'a>) -> Result<(), NoMemory>
    requires task { IsSoundTask task.now }
    ensures gains { OnOk result (GainsBoardings task.now 0 into.old.items into.new.items) }
    ensures boarded { OnOk result (AreFirstBoardings task.now into.new.items) }
{
    board_first(task, task.query.origin, 0, into)?;
    let walks = spans_from(task.times.walks.as_slice(), task.query.origin);
    board_after_walks(task, walks, into)?;
    Ok(())
}

// Boards after the label where it is.
fn board_within<'a>(
    task: &Task<'_>,
    label: &'a Label<'a>,
    into: &mut Boardings<'a>,
) -> Result<(), NoMemory>
    requires task { IsSoundTask task.now }
    requires label { IsLabel task.now (round_of label.now) label.now }
    ensures gains { OnOk result
        (GainsBoardings task.now (round_of label.now) into.old.items into.new.items) }
    ensures boarded { OnOk result ((seconds : ℕ)
        → HasChange task.now.feed.now (place_of label.now) (place_of label.now) seconds
        → IsBoardedAfter task.now label.now into.new.items (place_of label.now) seconds) }
{
    let Some(seconds) = change(task.feed, label.place, label.place) else {
        return Ok(());
    };
    board_then(task, label, label.place, seconds, into)?;
    Ok(())
}

// Boards after the label at other stops.
fn board_elsewhere<'a>(
    task: &Task<'_>,
    label: &'a Label<'a>,
    into: &mut Boardings<'a>,
) -> Result<(), NoMemory>
    requires task { IsSoundTask task.now }
    requires label { IsLabel task.now (round_of label.now) label.now }
    ensures gains { OnOk result
        (GainsBoardings task.now (round_of label.now) into.old.items into.new.items) }
    ensures boarded { OnOk result ((place : Place) (seconds : ℕ) → place ≢ place_of label.now
        → HasChange task.now.feed.now (place_of label.now) place seconds
        → IsBoardedAfter task.now label.now into.new.items place seconds) }
{
    let Place::Stop(stop) = label.place else {
        return Ok(());
    };
    board_after_rules(task, label, changes_from(task.feed, stop), into)?;
    Ok(())
}

// Boards after the label, where it is and at other stops.
fn board_after<'a>(
    task: &Task<'_>,
    label: &'a Label<'a>,
    into: &mut Boardings<'a>,
) -> Result<(), NoMemory>
    requires task { IsSoundTask task.now }
    requires label { IsLabel task.now (round_of label.now) label.now }
    ensures gains { OnOk result
        (GainsBoardings task.now (round_of label.now) into.old.items into.new.items) }
    ensures boarded { OnOk result (AreChangesBoarded task.now label.now into.new.items) }
{
    board_within(task, label, into)?;
    board_elsewhere(task, label, into)?;
    Ok(())
}

// Boards after the labels of a bag, which are of one round.
fn board_after_all<'a>(
    task: &Task<'_>,
    entries: &[(Pair, &'a Label<'a>)],
    into: &mut Boardings<'a>,
) -> Result<(), NoMemory>
    requires task { IsSoundTask task.now }
    requires labels { (k : ℕ) × AreLabelsOf task.now k entries.now }
    ensures gains { OnOk result ((k : ℕ) → AreLabelsOf task.now k entries.now
        → GainsBoardings task.now k into.old.items into.new.items) }
    ensures boarded { OnOk result (IsBagBoarded task.now into.new.items entries.now) }
{
    for entry in entries {
        board_after(task, entry.1, into)?;
    }
    Ok(())
}

// Boards after the labels of a round.
fn next_boardings<'a>(
    task: &Task<'_>,
    last: &Bags<'a>,
    into: &mut Boardings<'a>,
) -> Result<(), NoMemory>
    requires task { IsSoundTask task.now }
    requires labels { (k : ℕ) × ((i : ℕ) → AreLabelsOf task.now k (bag_at last.now i)) }
    ensures gains { OnOk result ((k : ℕ) → ((i : ℕ) → AreLabelsOf task.now k (bag_at last.now i))
        → GainsBoardings task.now k into.old.items into.new.items) }
    ensures boarded { OnOk result
        ((i : ℕ) → IsBagBoarded task.now into.new.items (bag_at last.now i)) }
{
    let marked = last.marked();
    for at in marked {
        board_after_all(task, last.labels(*at), into)?;
    }
    Ok(())
}

/// The boardings of the next round, put into an empty list.
pub(crate) fn boardings_after<'a>(
    task: &Task<'_>,
    earlier: &[Bags<'a>],
    into: &mut Boardings<'a>,
) -> Result<(), NoMemory>
    requires task { IsSoundTask task.now }
    requires entries { AreEntries task.now earlier.now }
    requires none { into.old.items ≡ [] }
    ensures sound { OnOk result (All (IsBoarding task.now (length earlier.now)) into.new.items) }
    ensures first { OnOk result (length earlier.now ≡ 0
        → AreFirstBoardings task.now into.new.items) }
    ensures next { OnOk result (0 < length earlier.now → AreNextBoardings task.now
        (round_at earlier.now (length earlier.now - 1)) into.new.items) }
{
    match earlier.last() {
        None => {
            first_boardings(task, into)?;
            Ok(())
        }
        Some(last) => {
            next_boardings(task, last, into)?;
            Ok(())
        }
    }
}
