// The rules for changing between stops, of transfers.txt.

ghost use Rattle.std.specs.Prelude.{◌≡◌, ◌⊎◌, ℕ, List, false, true, filter, All, AllPairs, IfOk, map};
ghost use Rattle.flex_model.specs.declared.fault.InputFile.TheVariants.{Transfers};
ghost use Rattle.field_text.specs.Grammars as Grammars;
ghost use Rattle.feed_tables.specs.Records.{header_of};
ghost use Rattle.feed_meaning.specs.FeedLinks.{Tables};
ghost use Rattle.feed_meaning.specs.FeedValue as Value;
ghost use Rattle.feed_meaning.specs.FeedValue.{change_before, is_change, rising};
ghost use Rattle.feed_meaning.specs.Rules;
ghost use Rattle.feed_meaning.specs.Tables.{values_of};
ghost use Rattle.feed_rules.specs.Links.{records_in};
ghost use Rattle.feed_load.specs.ChangeColumns as Columns;
ghost use Rattle.feed_load.specs.ChangeColumns.{is_passed_over_at};
ghost use Rattle.feed_load.specs.ChangeTables.{AreSoundChanges, AreStopsOf, HasSeconds, HasSoundSeconds, boarding_stop_at, given_change, kind_by};
ghost use Rattle.feed_load.specs.TableValues.{values_in};

use feed_meaning::{Ids, is_given, is_text, value};
use feed_tables::{RowView, Table};
use field_text::read_count;
use flex_model::limits::GREATEST_CHANGE;
use flex_model::{ChangeKind, ChangeRow, Listed, NoMemory, Stop};
use std::alloc::Global;

/// The columns of transfers.txt that say which changes there are.
#[derive(Clone, Copy)]
pub(crate) struct ChangeColumns {
    kind: Option<u32>,
    from: Option<u32>,
    to: Option<u32>,
    seconds: Option<u32>,
    from_route: Option<u32>,
    to_route: Option<u32>,
    from_trip: Option<u32>,
    to_trip: Option<u32>,
}

// The columns of a table.
fn change_columns(table: &Table) -> ChangeColumns
    ensures { result ≡ Columns.change_columns (header_of table.now) }
{
    ChangeColumns {
        kind: table.column("transfer_type"),
        from: table.column("from_stop_id"),
        to: table.column("to_stop_id"),
        seconds: table.column("min_transfer_time"),
        from_route: table.column("from_route_id"),
        to_route: table.column("to_route_id"),
        from_trip: table.column("from_trip_id"),
        to_trip: table.column("to_trip_id"),
    }
}

// Whether a record is an in-seat transfer, or one for a route or a trip.
fn is_passed_over(row: &RowView<'_>, columns: ChangeColumns) -> bool
    ensures { result ≡ is_passed_over_at columns row.now.fields }
{
    let kind = value(row, columns.kind);
    is_text(kind, "4")
        || is_text(kind, "5")
        || is_given(value(row, columns.from_route))
        || is_given(value(row, columns.to_route))
        || is_given(value(row, columns.from_trip))
        || is_given(value(row, columns.to_trip))
}

// The seconds of a field, 0 where it is empty.
fn seconds_of(text: &str) -> u32
    ensures { Rules.is_bad (Grammars.count 86400) text.now ≡ false
        → result ≡ Grammars.number text.now }
{
    match read_count(text, GREATEST_CHANGE) {
        Ok(seconds) => seconds as u32,
        Err(_) => 0,
    }
}

// Whether one may change, and how fast. Types other than 2 and 3 say nothing of it.
fn kind_of(kind: &str, seconds: &str) -> Option<ChangeKind>
    ensures { HasSeconds kind.now seconds.now → result ≡ kind_by kind.now seconds.now }
{
    if is_text(kind, "2") {
        return Some(ChangeKind::Least(seconds_of(seconds)));
    }
    if is_text(kind, "3") {
        return Some(ChangeKind::Forbidden);
    }
    None
}

// The number of the stop with an id, where one can board there.
fn boarding_stop(text: &str, stops: &Listed<Stop>, stop_ids: &Ids<'_>) -> Option<u32>
    ensures { (tables : Tables) → AreStopsOf stops.now stop_ids.now tables
        → result ≡ boarding_stop_at tables text.now }
{
    let index = stop_ids.index_of(text)?;
    let stop = stops.get(index as usize)?;
    if stop.boards { Some(index) } else { None }
}

// The change of a record, where it gives one.
fn change_of(
    row: &RowView<'_>,
    columns: ChangeColumns,
    stops: &Listed<Stop>,
    stop_ids: &Ids<'_>,
) -> Option<ChangeRow>
    ensures { (tables : Tables) (header : List (List ℕ))
        → AreStopsOf stops.now stop_ids.now tables → columns ≡ Columns.change_columns header
        → HasSoundSeconds (values_of header row.now.fields)
        → result ≡ given_change tables (values_of header row.now.fields) }
{
    if is_passed_over(row, columns) {
        return None;
    }
    let kind = kind_of(value(row, columns.kind), value(row, columns.seconds))?;
    let from = boarding_stop(value(row, columns.from), stops, stop_ids)?;
    let to = boarding_stop(value(row, columns.to), stops, stop_ids)?;
    Some(ChangeRow { from, to, kind })
}

// The changes in the order of the file.
fn unordered_changes(
    alloc: Global,
    transfers: &Table,
    stops: &Listed<Stop>,
    stop_ids: &Ids<'_>,
) -> Result<Vec<ChangeRow>, NoMemory>
    ensures { (tables : Tables) → AreStopsOf stops.now stop_ids.now tables
        → All HasSoundSeconds (values_in transfers.now)
        → IfOk result (λ changes. changes.items
        ≡ map (Value.change_of tables) (filter (is_change tables) (values_in transfers.now))) }
{
    let columns = change_columns(transfers);
    let mut changes = Vec::new(alloc);
    for row in transfers.rows() {
        let Some(change) = change_of(&row, columns, stops, stop_ids) else {
            continue;
        };
        changes.push(change)?;
    }
    Ok(changes)
}

// The changes rising by their two stops.
fn in_order(mut changes: Vec<ChangeRow>) -> Result<Listed<ChangeRow>, NoMemory>
    ensures { AllPairs
        (λ a b. (change_before a b ≡ true) ⊎ (change_before b a ≡ true)) changes.items
        → IfOk result (λ ordered. ordered ≡ rising change_before changes.items) }
{
    changes.sort_by_key(|change| (change.from, change.to))?;
    Ok(Listed::from_vec(changes))
}

/// The rules for changing between stops where one can board, of transfers.txt if there is one: the
/// records of type 2 and 3 that name neither a route nor a trip, rising by their two stops. It goes
/// over the records once and sorts the changes.
pub(crate) fn changes_of(
    alloc: Global,
    transfers: Option<&Table>,
    stops: &Listed<Stop>,
    stop_ids: &Ids<'_>,
) -> Result<Listed<ChangeRow>, NoMemory>
    ensures { (tables : Tables) → tables Transfers ≡ records_in transfers.entry
        → AreStopsOf stops.now stop_ids.now tables → AreSoundChanges tables
        → IfOk result (λ changes. changes ≡ rising change_before
        (map (Value.change_of tables) (filter (is_change tables) (tables Transfers)))) }
{
    let Some(table) = transfers else {
        return Ok(Listed::new(alloc));
    };
    let changes = unordered_changes(alloc, table, stops, stop_ids)?;
    in_order(changes)
}
