// Changes between two rides.

ghost use Rattle.std.specs.Prelude.{◌≡◌, ◌↔◌, ◌≤◌, ℕ, AllPairs, Contains, Some, false, length, true};
ghost use Rattle.std.specs.List.Sorted.{IsPartitionPoint};
ghost use Rattle.flex_model.specs.Change.{HasChange};
ghost use Rattle.flex_model.specs.SoundFeed.{IsChangeBefore};
ghost use Rattle.flex_model.specs.declared.change.ChangeKind.{ChangeKind};
ghost use Rattle.flex_model.specs.declared.change.ChangeRow.{ChangeRow};
ghost use Rattle.transfers.specs.ChangeOrder.{change_cmp};
ghost use Rattle.transfers.specs.ChangeOrder as Order;

use flex_model::{ChangeKind, ChangeRow, Feed, Place};
use std::cmp::Ordering;

/// The least seconds of a change from `a`, where a ride is left, to `b`, where the next one is boarded, without memory.
/// Between two stops it is what a record of type 2 in `transfers.txt` says (GTFS Schedule reference), and there is none
/// without such a record. Within a stop it is 0 where no record names the stop twice, and there is none where a record
/// of type 3 does. At points there is none.
pub fn change(feed: &Feed, a: Place, b: Place) -> Option<u32>
    requires { AllPairs IsChangeBefore feed.now.changes }
    ensures { (seconds : ℕ) → HasChange feed.now a b seconds ↔ (result ≡ Some seconds) }
{
    let Place::Stop(from) = a else {
        return None;
    };
    let Place::Stop(to) = b else {
        return None;
    };
    match change_kind(feed.changes.as_slice(), from, to) {
        Some(ChangeKind::Least(seconds)) => Some(seconds),
        Some(ChangeKind::Forbidden) => None,
        None => { if from == to { Some(0) } else { None } }
    }
}

// What the rule for changing from the one stop to the other says.
fn change_kind(changes: &[ChangeRow], from: u32, to: u32) -> Option<ChangeKind>
    requires { AllPairs IsChangeBefore changes.now }
    ensures { (kind : ChangeKind)
        → Contains changes.now (record { from = from; to = to; kind = kind })
        ↔ (result ≡ Some kind) }
{
    match changes.binary_search_by(move |row| compare_change(row, from, to)) {
        Ok(index) => Some(changes[index].kind),
        Err(_) => None,
    }
}

// Where the rule stands among those for changing from the one stop to the other.
fn compare_change(row: &ChangeRow, from: u32, to: u32) -> Ordering
    ensures { result ≡ change_cmp from to row.now }
{
    row.from.cmp(&from).then(row.to.cmp(&to))
}

// Whether the rule is for changing from an earlier stop.
fn begins_before(row: &ChangeRow, stop: u32) -> bool
    ensures { result ≡ Order.begins_before stop row.now }
{
    row.from < stop
}

// Whether the rule is for changing from the stop or an earlier one.
fn begins_by(row: &ChangeRow, stop: u32) -> bool
    ensures { result ≡ Order.begins_by stop row.now }
{
    row.from <= stop
}

// How many rules are for changing from an earlier stop.
fn count_before(changes: &[ChangeRow], stop: u32) -> usize
    requires { AllPairs IsChangeBefore changes.now }
    ensures bound { result ≤ length changes.now }
    ensures point { IsPartitionPoint (λ row. Order.begins_before stop row ≡ true)
        (λ row. Order.begins_before stop row ≡ false) changes.now result }
{
    changes.partition_point(move |row| begins_before(row, stop))
}

// How many rules are for changing from the stop or an earlier one.
fn count_by(changes: &[ChangeRow], stop: u32) -> usize
    requires { AllPairs IsChangeBefore changes.now }
    ensures bound { result ≤ length changes.now }
    ensures point { IsPartitionPoint (λ row. Order.begins_by stop row ≡ true)
        (λ row. Order.begins_by stop row ≡ false) changes.now result }
{
    changes.partition_point(move |row| begins_by(row, stop))
}

// The rules for changing from the stop.
fn rows_from(changes: &[ChangeRow], stop: u32) -> &[ChangeRow]
    requires { AllPairs IsChangeBefore changes.now }
    ensures { (row : ChangeRow) → Contains result.now row
        ↔ (Contains changes.now row × (row.from ≡ stop)) }
{
    let start = count_before(changes, stop);
    let end = count_by(changes, stop);
    if end < start {
        return &changes[start..start];
    }
    &changes[start..end]
}

/// The rules for changing from the stop, within it or to another one, in the order of the stops to which they lead, without
/// memory (GTFS Schedule reference, `transfers.txt`, records of type 2 and 3).
pub fn changes_from(feed: &Feed, stop: u32) -> &[ChangeRow]
    requires { AllPairs IsChangeBefore feed.now.changes }
    ensures { (row : ChangeRow) → Contains result.now row
        ↔ (Contains feed.now.changes row × (row.from ≡ stop)) }
{
    rows_from(feed.changes.as_slice(), stop)
}
