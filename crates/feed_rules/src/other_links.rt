// The faults of the tables after stop_times.txt beside the other tables.

ghost use Rattle.std.specs.Prelude.{◌≡◌, ◌||◌, IfOk, true};
ghost use Rattle.std.specs.List.{flat_map};
ghost use Rattle.flex_model.specs.declared.fault.InputFile.TheVariants as InputFiles;
ghost use Rattle.feed_tables.specs.Refusals.{is_given};
ghost use Rattle.feed_meaning.specs.FeedLinks;
ghost use Rattle.feed_meaning.specs.FeedLinks.{Tables, is_in};
ghost use Rattle.feed_meaning.specs.Rules.{Values};
ghost use Rattle.feed_meaning.specs.Tables.{entries_of, faults_at};
ghost use Rattle.feed_rules.specs.Links.{HaveGroupIds, StandFor};
ghost use Rattle.feed_rules.specs.Transfers.{IsReadTransfer};

use crate::links::{LinkIds, is_unknown, is_unknown_service};
use crate::transfers::{Transfer, is_passed_over, read_transfer, transfer_columns};
use feed_meaning::{add_faults, rule, value};
use feed_tables::Table;
use flex_model::{Fault, FaultCode, InputFile, Listed, NoMemory};
use std::alloc::Global;

// Whether a text is the id of a stop or of a feature.
fn is_shared(ids: &LinkIds<'_>, text: &str) -> bool
    ensures { (tables : Tables) → StandFor ids.now tables → is_given text.now ≡ true
        → result ≡ (is_in tables InputFiles.Stops "stop_id" text.now
        || is_in tables InputFiles.Locations "id" text.now) }
{
    ids.stops.has(text) || ids.zones.has(text)
}

// The rules of a location group beside the other tables.
fn group_links(group: &str, ids: &LinkIds<'_>) -> [Option<FaultCode>; 1]
    ensures { (tables : Tables) (r : Values) → StandFor ids.now tables
        → group.now ≡ r "location_group_id" → is_given (r "location_group_id") ≡ true
        → result ≡ FeedLinks.group_links tables r }
{
    [rule(FaultCode::SharedId, is_shared(ids, group))]
}

/// The faults of location_groups.txt beside the other tables, where each of its records has an id.
pub(crate) fn group_link_faults(
    alloc: Global,
    groups: &Table,
    ids: &LinkIds<'_>,
) -> Result<Listed<Fault>, NoMemory>
    ensures { IfOk result (λ faults. (tables : Tables) → StandFor ids.now tables
        → HaveGroupIds InputFiles.LocationGroups (entries_of groups.now)
        → faults ≡ flat_map (λ e. faults_at InputFiles.LocationGroups e.row
        (FeedLinks.group_links tables e.values)) (entries_of groups.now)) }
{
    let location_group_id = groups.column("location_group_id");
    let mut faults = Listed::new(alloc);
    for row in groups.rows() {
        let group = value(&row, location_group_id);
        let rules = group_links(group, ids);
        add_faults(&mut faults, InputFile::LocationGroups, row.number(), &rules)?;
    }
    Ok(faults)
}

// The rules of a member of a location group beside the other tables.
fn group_stop_links(group: &str, stop: &str, ids: &LinkIds<'_>) -> [Option<FaultCode>; 2]
    ensures { (tables : Tables) (r : Values) → StandFor ids.now tables
        → group.now ≡ r "location_group_id" → stop.now ≡ r "stop_id"
        → result ≡ FeedLinks.group_stop_links tables r }
{
    [
        rule(FaultCode::UnknownId, is_unknown(&ids.groups, group)),
        rule(FaultCode::UnknownId, is_unknown(&ids.stops, stop)),
    ]
}

/// The faults of location_group_stops.txt beside the other tables.
pub(crate) fn group_stop_link_faults(
    alloc: Global,
    group_stops: &Table,
    ids: &LinkIds<'_>,
) -> Result<Listed<Fault>, NoMemory>
    ensures { IfOk result (λ faults. (tables : Tables) → StandFor ids.now tables
        → faults ≡ flat_map (λ e. faults_at InputFiles.LocationGroupStops e.row
        (FeedLinks.group_stop_links tables e.values)) (entries_of group_stops.now)) }
{
    let location_group_id = group_stops.column("location_group_id");
    let stop_id = group_stops.column("stop_id");
    let mut faults = Listed::new(alloc);
    for row in group_stops.rows() {
        let group = value(&row, location_group_id);
        let stop = value(&row, stop_id);
        let rules = group_stop_links(group, stop, ids);
        add_faults(
            &mut faults,
            InputFile::LocationGroupStops,
            row.number(),
            &rules,
        )?;
    }
    Ok(faults)
}

// The rules of a booking rule beside the other tables.
fn booking_rule_links(service: &str, ids: &LinkIds<'_>) -> [Option<FaultCode>; 1]
    ensures { (tables : Tables) (r : Values) → StandFor ids.now tables
        → service.now ≡ r "prior_notice_service_id"
        → result ≡ FeedLinks.booking_rule_links tables r }
{
    [rule(FaultCode::UnknownId, is_unknown_service(ids, service))]
}

/// The faults of booking_rules.txt beside the other tables.
pub(crate) fn booking_rule_link_faults(
    alloc: Global,
    booking_rules: &Table,
    ids: &LinkIds<'_>,
) -> Result<Listed<Fault>, NoMemory>
    ensures { IfOk result (λ faults. (tables : Tables) → StandFor ids.now tables
        → faults ≡ flat_map (λ e. faults_at InputFiles.BookingRules e.row
        (FeedLinks.booking_rule_links tables e.values)) (entries_of booking_rules.now)) }
{
    let service_id = booking_rules.column("prior_notice_service_id");
    let mut faults = Listed::new(alloc);
    for row in booking_rules.rows() {
        let service = value(&row, service_id);
        let rules = booking_rule_links(service, ids);
        add_faults(&mut faults, InputFile::BookingRules, row.number(), &rules)?;
    }
    Ok(faults)
}

// The rules of a change between two stops beside the other tables.
fn change_links(t: &Transfer<'_>, ids: &LinkIds<'_>) -> [Option<FaultCode>; 2]
    ensures { (tables : Tables) (r : Values) → IsReadTransfer r t.now → StandFor ids.now tables
        → result ≡ FeedLinks.change_links tables r }
{
    [
        rule(FaultCode::UnknownId, is_unknown(&ids.stops, t.from)),
        rule(FaultCode::UnknownId, is_unknown(&ids.stops, t.to)),
    ]
}

/// The faults of transfers.txt beside the other tables.
pub(crate) fn transfer_link_faults(
    alloc: Global,
    transfers: &Table,
    ids: &LinkIds<'_>,
) -> Result<Listed<Fault>, NoMemory>
    ensures { IfOk result (λ faults. (tables : Tables) → StandFor ids.now tables
        → faults ≡ flat_map (λ e. faults_at InputFiles.Transfers e.row
        (FeedLinks.transfer_links tables e.values)) (entries_of transfers.now)) }
{
    let columns = transfer_columns(transfers);
    let mut faults = Listed::new(alloc);
    for row in transfers.rows() {
        let transfer = read_transfer(&row, columns);
        if is_passed_over(&transfer) {
            continue;
        }
        let rules = change_links(&transfer, ids);
        add_faults(&mut faults, InputFile::Transfers, row.number(), &rules)?;
    }
    Ok(faults)
}

// The rules of a range of repeated trips beside the other tables.
fn frequency_links(trip: &str, ids: &LinkIds<'_>) -> [Option<FaultCode>; 1]
    ensures { (tables : Tables) (r : Values) → StandFor ids.now tables → trip.now ≡ r "trip_id"
        → result ≡ FeedLinks.frequency_links tables r }
{
    [rule(FaultCode::UnknownId, is_unknown(&ids.trips, trip))]
}

/// The faults of frequencies.txt beside the other tables.
pub(crate) fn frequency_link_faults(
    alloc: Global,
    frequencies: &Table,
    ids: &LinkIds<'_>,
) -> Result<Listed<Fault>, NoMemory>
    ensures { IfOk result (λ faults. (tables : Tables) → StandFor ids.now tables
        → faults ≡ flat_map (λ e. faults_at InputFiles.Frequencies e.row
        (FeedLinks.frequency_links tables e.values)) (entries_of frequencies.now)) }
{
    let trip_id = frequencies.column("trip_id");
    let mut faults = Listed::new(alloc);
    for row in frequencies.rows() {
        let trip = value(&row, trip_id);
        let rules = frequency_links(trip, ids);
        add_faults(&mut faults, InputFile::Frequencies, row.number(), &rules)?;
    }
    Ok(faults)
}
