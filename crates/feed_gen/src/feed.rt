// The files of the feed but for its stop times.

ghost use Rattle.std.specs.Prelude.{◌≡◌, ◌++◌, ◌<◌, IfOk, OnOk};
ghost use Rattle.feed_gen.specs.FeedTexts as Texts;
ghost use Rattle.feed_gen.specs.Texts.{lines, record_line};

use flex_model::{NoMemory, Text};
use std::alloc::Global;

/// The text of agency.txt.
#[tactic(auto, unfolding(crate::specs::FeedTexts::agency_text, crate::specs::Texts::table_text, crate::specs::Texts::lines))]
pub(crate) fn agency_text() -> &'static str
    ensures { result.now ≡ Texts.agency_text }
{
    "agency_name,agency_url,agency_timezone\nDemo,http://localhost/,UTC\n"
}

/// The text of calendar.txt.
#[tactic(auto, unfolding(crate::specs::FeedTexts::calendar_text, crate::specs::Texts::table_text, crate::specs::Texts::lines))]
pub(crate) fn calendar_text() -> &'static str
    ensures { result.now ≡ Texts.calendar_text }
{
    "service_id,monday,tuesday,wednesday,thursday,friday,saturday,sunday,start_date,end_date\nd,1,1,1,1,1,1,1,20250101,20261231\n"
}

/// The text of locations.geojson.
#[tactic(auto, unfolding(crate::specs::FeedTexts::locations_text))]
pub(crate) fn locations_text() -> &'static str
    ensures { result.now ≡ Texts.locations_text }
{
    "{\"type\":\"FeatureCollection\",\"features\":[\n\
{\"type\":\"Feature\",\"id\":\"zA\",\"properties\":{},\
\"geometry\":{\"type\":\"Polygon\",\"coordinates\":[[\
[4.995,49.995],[5.035,49.995],[5.035,50.025],[4.995,50.025],[4.995,49.995]]]}},\n\
{\"type\":\"Feature\",\"id\":\"zB\",\"properties\":{},\
\"geometry\":{\"type\":\"Polygon\",\"coordinates\":[[\
[5.025,50.015],[5.075,50.015],[5.075,50.045],[5.025,50.045],[5.025,50.015]]]}}\n\
]}\n"
}

/// The text of booking_rules.txt.
#[tactic(auto, unfolding(crate::specs::FeedTexts::booking_rules_text, crate::specs::Texts::table_text, crate::specs::Texts::lines))]
pub(crate) fn booking_rules_text() -> &'static str
    ensures { result.now ≡ Texts.booking_rules_text }
{
    "booking_rule_id,booking_type,prior_notice_duration_min,prior_notice_last_day,prior_notice_last_time\nb1,1,30,,\nb2,2,,1,17:00:00\n"
}

// Appends the line of a stop.
fn add_stop(alloc: Global, i: u64, into: &mut Text) -> Result<(), NoMemory>
    ensures { OnOk result (into.new ≡ into.old ++ record_line (Texts.stop_record i)) }
{
    let line = format!(in alloc; "s{i},50.0{},5.0{}\n", i / 8, i % 8)?;
    into.append(line.as_str())
}

/// The text of stops.txt.
#[tactic(auto, using(crate::proofs::LineFacts::line_steps), unfolding(crate::specs::FeedTexts::stops_text, crate::specs::FeedTexts::stop_records, crate::specs::Texts::table_text))]
pub(crate) fn stops_text(alloc: Global) -> Result<Text, NoMemory>
    ensures { IfOk result (λ text. text ≡ Texts.stops_text) }
{
    let mut text = Text::new(alloc);
    text.append("stop_id,stop_lat,stop_lon\n")?;
    for i in 0..40 {
        add_stop(alloc, i, &mut text)?;
    }
    Ok(text)
}

// Appends the line of a route.
fn add_route(alloc: Global, l: u64, into: &mut Text) -> Result<(), NoMemory>
    ensures { OnOk result (into.new ≡ into.old ++ record_line (Texts.route_record l)) }
{
    let line = format!(in alloc; "r{l}\n")?;
    into.append(line.as_str())
}

/// The text of routes.txt.
#[tactic(auto, using(crate::proofs::LineFacts::line_steps), unfolding(crate::specs::FeedTexts::routes_text, crate::specs::FeedTexts::route_records, crate::specs::Texts::table_text))]
pub(crate) fn routes_text(alloc: Global) -> Result<Text, NoMemory>
    ensures { IfOk result (λ text. text ≡ Texts.routes_text) }
{
    let mut text = Text::new(alloc);
    text.append("route_id\n")?;
    for l in 0..10 {
        add_route(alloc, l, &mut text)?;
    }
    Ok(text)
}

// Appends the line of a trip.
fn add_trip(alloc: Global, l: u64, k: u64, into: &mut Text) -> Result<(), NoMemory>
    ensures { OnOk result (into.new ≡ into.old ++ record_line (Texts.trip_record l k)) }
{
    let trip = format!(in alloc; "f{l}_{k}")?;
    let line = format!(in alloc; "r{l},d,{trip}\n")?;
    into.append(line.as_str())
}

/// The text of trips.txt.
#[tactic(auto, using(crate::proofs::LineFacts::line_steps, crate::proofs::TripLines::trip_lines), unfolding(crate::specs::FeedTexts::trips_text, crate::specs::Texts::table_text))]
pub(crate) fn trips_text(alloc: Global) -> Result<Text, NoMemory>
    ensures { IfOk result (λ text. text ≡ Texts.trips_text) }
{
    let mut text = Text::new(alloc);
    text.append("route_id,service_id,trip_id\n")?;
    for t in 0..240 {
        add_trip(alloc, t / 24, t % 24, &mut text)?;
    }
    text.append("r0,d,za\nr0,d,zb\n")?;
    Ok(text)
}

// Appends the line of the change from a stop to the next one.
fn add_transfer(alloc: Global, i: u64, into: &mut Text) -> Result<(), NoMemory>
    requires { i < 40 }
    ensures { OnOk result (into.new ≡ into.old ++ record_line (Texts.transfer_record i)) }
{
    let line = format!(in alloc; "s{i},s{},2,240\n", i + 1)?;
    into.append(line.as_str())
}

/// The text of transfers.txt.
#[tactic(auto, using(crate::proofs::LineFacts::line_steps), unfolding(crate::specs::FeedTexts::transfers_text, crate::specs::FeedTexts::transfer_records, crate::specs::Texts::table_text))]
pub(crate) fn transfers_text(alloc: Global) -> Result<Text, NoMemory>
    ensures { IfOk result (λ text. text ≡ Texts.transfers_text) }
{
    let mut text = Text::new(alloc);
    text.append("from_stop_id,to_stop_id,transfer_type,min_transfer_time\n")?;
    for i in 0..40 {
        if i % 8 == 7 {
            continue;
        }
        add_transfer(alloc, i, &mut text)?;
    }
    Ok(text)
}
