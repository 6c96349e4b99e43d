// The sequences of the records of each trip.

ghost use Rattle.std.specs.Prelude.{◌≡◌, ◌∷◌, ◌++◌, [], List, IfOk, OnOk, map};
ghost use Rattle.std.specs.List.{filter};
ghost use Rattle.std.specs.Option.{option_and_then};
ghost use Rattle.feed_meaning.specs.FeedLinks;
ghost use Rattle.feed_meaning.specs.FeedLinks.{nearest_before};
ghost use Rattle.feed_meaning.specs.FeedRules;
ghost use Rattle.feed_meaning.specs.Rules.{Values, stand};
ghost use Rattle.feed_meaning.specs.Tables.{entries_of};
ghost use Rattle.feed_rules.specs.Orders.{AreOrdersOf};
ghost use Rattle.feed_rules.specs.StopTimes.{IsRead};

use crate::sequences::{has_after, last_before, note_first};
use crate::stop_times::{StopTime, has_time, has_window, read_stop_time, stop_time_columns};
use feed_meaning::is_later;
use feed_tables::Table;
use flex_model::NoMemory;
use std::alloc::Global;
use std::collections::BTreeMap;

/// The records without window of each trip by stop_sequence, and those of them that have a time.
#[derive(Drop)]
pub(crate) struct TripOrder<'a> {
    pub(crate) windowless: BTreeMap<(&'a str, u32), Option<u32>>,
    pub(crate) timed: BTreeMap<(&'a str, u32), Option<u32>>,
}

/// Whether a record has a time and no window.
pub(crate) fn is_timed(s: &StopTime<'_>) -> bool
    ensures { (r : Values) → IsRead r s.now → result ≡ FeedLinks.is_timed r }
{
    !has_window(s) && has_time(s)
}

/// Whether a record has neither a time nor a window.
pub(crate) fn is_untimed(s: &StopTime<'_>) -> bool
    ensures { (r : Values) → IsRead r s.now → result ≡ FeedLinks.is_untimed r }
{
    !has_window(s) && !has_time(s)
}

/// The arrival of a record, for which its departure stands in.
pub(crate) fn arrival(s: &StopTime<'_>) -> Option<u32>
    ensures { (r : Values) → IsRead r s.now → result ≡ FeedLinks.arrival r }
{
    s.arrives.or(s.departs)
}

/// The departure of a record, for which its arrival stands in.
pub(crate) fn departure(s: &StopTime<'_>) -> Option<u32>
    ensures { (r : Values) → IsRead r s.now → result ≡ FeedLinks.departure r }
{
    s.departs.or(s.arrives)
}

// Notes one more record.
fn note_record<'a>(order: &mut TripOrder<'a>, s: &StopTime<'a>) -> Result<(), NoMemory>
    ensures { OnOk result ((records : List Values) (r : Values) → IsRead r s.now
        → AreOrdersOf order.old records → AreOrdersOf order.new (records ++ r ∷ [])) }
{
    if has_window(s) {
        return Ok(());
    }
    let departs = departure(s);
    note_first(&mut order.windowless, s.trip, s.number, departs)?;
    if !has_time(s) {
        return Ok(());
    }
    note_first(&mut order.timed, s.trip, s.number, departs)
}

/// The sequences of the records of stop_times.txt.
pub(crate) fn trip_order<'a>(
    alloc: Global,
    stop_times: &'a Table,
) -> Result<TripOrder<'a>, NoMemory>
    ensures { IfOk result (λ order. AreOrdersOf order
        (map (λ e. e.values) (entries_of stop_times.now))) }
{
    let columns = stop_time_columns(stop_times);
    let mut order = TripOrder {
        windowless: BTreeMap::new(alloc),
        timed: BTreeMap::new(alloc),
    };
    for row in stop_times.rows() {
        let record = read_stop_time(&row, columns);
        note_record(&mut order, &record)?;
    }
    Ok(order)
}

/// Whether a record is the first or the last one without window of its trip.
pub(crate) fn is_end<'a>(s: &StopTime<'a>, order: &TripOrder<'a>) -> bool
    ensures { (records : List Values) (r : Values) → IsRead r s.now → AreOrdersOf order.now records
        → result ≡ FeedLinks.is_end records r }
{
    last_before(&order.windowless, s.trip, s.number).is_none()
        || !has_after(&order.windowless, s.trip, s.number)
}

/// Whether the nearest timed record before this one departs after this one's arrival.
pub(crate) fn is_overtaken<'a>(s: &StopTime<'a>, order: &TripOrder<'a>) -> bool
    ensures { (records : List Values) (r : Values) → IsRead r s.now → AreOrdersOf order.now records
        → result ≡ stand FeedRules.is_later
        (option_and_then FeedLinks.departure (nearest_before (filter FeedLinks.is_timed records) r))
        (FeedLinks.arrival r) }
{
    match last_before(&order.timed, s.trip, s.number) {
        Some(departs) => is_later(departs, arrival(s)),
        None => false,
    }
}
