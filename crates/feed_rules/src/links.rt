// The faults of trips.txt and stop_times.txt beside the other tables.

ghost use Rattle.std.specs.Prelude.{◌≡◌, ◌&&◌, List, IfOk, not};
ghost use Rattle.std.specs.List.{flat_map, list_any};
ghost use Rattle.std.specs.Str.{bytes_eq};
ghost use Rattle.flex_model.specs.declared.fault.InputFile.TheVariants as InputFiles;
ghost use Rattle.feed_tables.specs.Refusals.{is_given};
ghost use Rattle.feed_meaning.specs.FeedLinks;
ghost use Rattle.feed_meaning.specs.FeedLinks.{Tables};
ghost use Rattle.feed_meaning.specs.Rules.{Values};
ghost use Rattle.feed_meaning.specs.Tables.{entries_of, faults_at};
ghost use Rattle.feed_rules.specs.Links.{StandFor};
ghost use Rattle.feed_rules.specs.Orders.{AreOrdersOf};
ghost use Rattle.feed_rules.specs.StopTimes.{IsRead};

use crate::orders::{TripOrder, is_end, is_overtaken, is_timed, is_untimed};
use crate::stop_times::{StopTime, read_stop_time, stop_time_columns};
use feed_meaning::{Ids, add_faults, is_given, rule, value};
use feed_tables::Table;
use flex_model::{Fault, FaultCode, InputFile, Listed, NoMemory};
use std::alloc::Global;

/// The ids that other records may name.
#[derive(Drop)]
pub(crate) struct LinkIds<'a> {
    pub(crate) routes: Ids<'a>,
    pub(crate) calendar: Ids<'a>,
    pub(crate) dates: Ids<'a>,
    pub(crate) trips: Ids<'a>,
    pub(crate) stops: Ids<'a>,
    pub(crate) stations: Ids<'a>,
    pub(crate) groups: Ids<'a>,
    pub(crate) zones: Ids<'a>,
    pub(crate) booking_rules: Ids<'a>,
}

/// Whether a text is given and not among the ids.
pub(crate) fn is_unknown(ids: &Ids<'_>, text: &str) -> bool
    ensures { result ≡ (is_given text.now && not (list_any (bytes_eq text.now) ids.now)) }
{
    is_given(text) && !ids.has(text)
}

// Whether a text is given and among the ids.
fn is_known(ids: &Ids<'_>, text: &str) -> bool
    ensures { result ≡ (is_given text.now && list_any (bytes_eq text.now) ids.now) }
{
    is_given(text) && ids.has(text)
}

/// Whether a text is given and no service of either calendar.
pub(crate) fn is_unknown_service(ids: &LinkIds<'_>, service: &str) -> bool
    ensures { (tables : Tables) → StandFor ids.now tables
        → result ≡ FeedLinks.is_unknown_service tables service.now }
{
    is_unknown(&ids.calendar, service) && is_unknown(&ids.dates, service)
}

// The rules of a trip beside the other tables.
fn trip_links(route: &str, service: &str, ids: &LinkIds<'_>) -> [Option<FaultCode>; 2]
    ensures { (tables : Tables) (r : Values) → StandFor ids.now tables → route.now ≡ r "route_id"
        → service.now ≡ r "service_id" → result ≡ FeedLinks.trip_links tables r }
{
    [
        rule(FaultCode::UnknownId, is_unknown(&ids.routes, route)),
        rule(FaultCode::UnknownId, is_unknown_service(ids, service)),
    ]
}

/// The faults of trips.txt beside the other tables.
pub(crate) fn trip_link_faults(
    alloc: Global,
    trips: &Table,
    ids: &LinkIds<'_>,
) -> Result<Listed<Fault>, NoMemory>
    ensures { IfOk result (λ faults. (tables : Tables) → StandFor ids.now tables
        → faults ≡ flat_map (λ e. faults_at InputFiles.Trips e.row
        (FeedLinks.trip_links tables e.values)) (entries_of trips.now)) }
{
    let route_id = trips.column("route_id");
    let service_id = trips.column("service_id");
    let mut faults = Listed::new(alloc);
    for row in trips.rows() {
        let route = value(&row, route_id);
        let service = value(&row, service_id);
        let rules = trip_links(route, service, ids);
        add_faults(&mut faults, InputFile::Trips, row.number(), &rules)?;
    }
    Ok(faults)
}

// The rules of a record of stop_times.txt beside the other tables.
fn stop_time_links<'a>(
    s: &StopTime<'a>,
    ids: &LinkIds<'_>,
    order: &TripOrder<'a>,
) -> [Option<FaultCode>; 9]
    ensures { (tables : Tables) (r : Values) → IsRead r s.now → StandFor ids.now tables
        → AreOrdersOf order.now (tables InputFiles.StopTimes)
        → result ≡ FeedLinks.stop_time_links tables r }
{
    [
        rule(FaultCode::UnknownId, is_unknown(&ids.trips, s.trip)),
        rule(FaultCode::UnknownId, is_unknown(&ids.stops, s.stop)),
        rule(FaultCode::BadStopKind, is_known(&ids.stations, s.stop)),
        rule(FaultCode::UnknownId, is_unknown(&ids.groups, s.group)),
        rule(FaultCode::UnknownId, is_unknown(&ids.zones, s.location)),
        rule(
            FaultCode::UnknownId,
            is_unknown(&ids.booking_rules, s.pickup_rule),
        ),
        rule(
            FaultCode::UnknownId,
            is_unknown(&ids.booking_rules, s.drop_off_rule),
        ),
        rule(FaultCode::UntimedEnd, is_untimed(s) && is_end(s, order)),
        rule(FaultCode::TimeOrder, is_timed(s) && is_overtaken(s, order)),
    ]
}

/// The faults of stop_times.txt beside the other tables.
pub(crate) fn stop_time_link_faults<'a>(
    alloc: Global,
    stop_times: &'a Table,
    ids: &LinkIds<'_>,
    order: &TripOrder<'a>,
) -> Result<Listed<Fault>, NoMemory>
    ensures { IfOk result (λ faults. (tables : Tables) → StandFor ids.now tables
        → AreOrdersOf order.now (tables InputFiles.StopTimes)
        → faults ≡ flat_map (λ e. faults_at InputFiles.StopTimes e.row
        (FeedLinks.stop_time_links tables e.values)) (entries_of stop_times.now)) }
{
    let columns = stop_time_columns(stop_times);
    let mut faults = Listed::new(alloc);
    for row in stop_times.rows() {
        let record = read_stop_time(&row, columns);
        let rules = stop_time_links(&record, ids, order);
        add_faults(&mut faults, InputFile::StopTimes, row.number(), &rules)?;
    }
    Ok(faults)
}
