// The records of stop_times.txt, as they are before their times are filled.

ghost use Rattle.std.specs.Prelude.{◌≡◌, unwrap_or};
ghost use Rattle.feed_tables.specs.Records.{header_of};
ghost use Rattle.field_text.specs.Grammars;
ghost use Rattle.feed_load.specs.Columns as Columns;
ghost use Rattle.feed_load.specs.Drafts as Drafted;
ghost use Rattle.feed_load.specs.Drafts.{draft_at};

use crate::fields::sequence_of;
use crate::linear_times::GivenRow;
use crate::named_ids::FeedIds;
use feed_meaning::{Ids, is_empty, is_given, is_text, value};
use feed_tables::{RowView, Table};
use field_text::read_time;
use flex_model::{Row, Spot, Timing, Way};

/// The columns of stop_times.txt that are read of a record of a trip.
#[derive(Clone, Copy)]
pub(crate) struct DraftColumns {
    sequence: Option<u32>,
    stop: Option<u32>,
    group: Option<u32>,
    location: Option<u32>,
    arrival: Option<u32>,
    departure: Option<u32>,
    start: Option<u32>,
    end: Option<u32>,
    pickup: Option<u32>,
    drop_off: Option<u32>,
    pickup_rule: Option<u32>,
    drop_off_rule: Option<u32>,
}

/// A record of a trip, whose times may be missing yet. Its start and its end are those of its
/// window, where it has one.
#[derive(Clone, Copy, Debug)]
pub(crate) struct Draft {
    pub(crate) sequence: u32,
    pub(crate) spot: Spot,
    pub(crate) start: u32,
    pub(crate) end: u32,
    pub(crate) given: GivenRow,
    pub(crate) pickup: Way,
    pub(crate) drop_off: Way,
}

/// The columns of a table.
pub(crate) fn draft_columns(table: &Table) -> DraftColumns
    ensures { result ≡ Drafted.draft_columns (header_of table.now) }
{
    DraftColumns {
        sequence: table.column("stop_sequence"),
        stop: table.column("stop_id"),
        group: table.column("location_group_id"),
        location: table.column("location_id"),
        arrival: table.column("arrival_time"),
        departure: table.column("departure_time"),
        start: table.column("start_pickup_drop_off_window"),
        end: table.column("end_pickup_drop_off_window"),
        pickup: table.column("pickup_type"),
        drop_off: table.column("drop_off_type"),
        pickup_rule: table.column("pickup_booking_rule_id"),
        drop_off_rule: table.column("drop_off_booking_rule_id"),
    }
}

// A time of a service day.
fn time(text: &str) -> Option<u32>
    ensures { result ≡ Grammars.time text.now }
{
    read_time(text).ok()
}

// The index of an id among these, 0 where it isn't among them.
fn place_among(ids: &Ids<'_>, text: &str) -> u32
    ensures { result ≡ Columns.place_among ids.now text.now }
{
    ids.index_of(text).unwrap_or(0)
}

// What a record names: a stop or a group, else a zone.
fn spot_of(stop: &str, group: &str, location: &str, ids: &FeedIds<'_>) -> Spot
    ensures { result ≡ Drafted.spot_among ids.now stop.now group.now location.now }
{
    if is_given(stop) {
        Spot::Stop(place_among(&ids.stops, stop))
    } else if is_given(group) {
        Spot::Group(place_among(&ids.groups, group))
    } else {
        Spot::Zone(place_among(&ids.zones, location))
    }
}

// How one boards or alights, by the type and beside a window.
fn way_of(kind: &str, has_window: bool, rule: &str, rules: &Ids<'_>) -> Way
    ensures { result ≡ Drafted.way_among rules.now has_window kind.now rule.now }
{
    if is_text(kind, "1") {
        return Way::No;
    }
    if !is_text(kind, "2") && !(is_empty(kind) && has_window) {
        return Way::Free;
    }
    if is_given(rule) {
        Way::Book(Some(place_among(rules, rule)))
    } else {
        Way::Book(None)
    }
}

/// A record of a trip, which names what it names by its index among the ids.
pub(crate) fn draft_of(row: &RowView<'_>, columns: DraftColumns, ids: &FeedIds<'_>) -> Draft
    ensures { result ≡ draft_at ids.now columns row.now.fields }
{
    let stop = value(row, columns.stop);
    let group = value(row, columns.group);
    let location = value(row, columns.location);
    let start = value(row, columns.start);
    let end = value(row, columns.end);
    let has_window = is_given(start) || is_given(end);
    let pickup_rule = value(row, columns.pickup_rule);
    let drop_off_rule = value(row, columns.drop_off_rule);
    let rules = &ids.booking_rules;
    Draft {
        sequence: sequence_of(value(row, columns.sequence)),
        spot: spot_of(stop, group, location, ids),
        start: time(start).unwrap_or(0),
        end: time(end).unwrap_or(0),
        given: GivenRow {
            window: has_window,
            arrives: time(value(row, columns.arrival)),
            departs: time(value(row, columns.departure)),
        },
        pickup: way_of(value(row, columns.pickup), has_window, pickup_rule, rules),
        drop_off: way_of(
            value(row, columns.drop_off),
            has_window,
            drop_off_rule,
            rules,
        ),
    }
}

/// The record with these times, of which one stands for both.
pub(crate) fn row_with(draft: &Draft, times: GivenRow) -> Row
    ensures { result ≡ Drafted.row_with draft.now times }
{
    let timing = if draft.given.window {
        Timing::Window {
            start: draft.start,
            end: draft.end,
        }
    } else {
        Timing::Times {
            arrives: times.arrives.or(times.departs).unwrap_or(0),
            departs: times.departs.or(times.arrives).unwrap_or(0),
        }
    };
    Row {
        sequence: draft.sequence,
        spot: draft.spot,
        timing,
        pickup: draft.pickup,
        drop_off: draft.drop_off,
    }
}
