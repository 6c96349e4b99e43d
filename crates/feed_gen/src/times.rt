// The files of the times folder.

ghost use Rattle.std.specs.Prelude.{◌≡◌, ◌++◌, ◌<◌, ◌≤◌, IfOk, OnOk};
ghost use Rattle.feed_gen.specs.TimesTexts as Texts;
ghost use Rattle.feed_gen.specs.Texts.{lines, record_line};

use flex_model::{NoMemory, Text};
use std::alloc::Global;

/// The text of zone.txt.
#[tactic(auto, unfolding(crate::specs::TimesTexts::zone_text))]
pub(crate) fn zone_text() -> &'static str
    ensures { result.now ≡ Texts.zone_text }
{
    "UTC0\n"
}

// Appends the line of a point.
fn add_point(alloc: Global, i: u64, into: &mut Text) -> Result<(), NoMemory>
    requires { i < 10 }
    ensures { OnOk result (into.new ≡ into.old ++ record_line (Texts.point_record i)) }
{
    let line = format!(in alloc; "p{i},50.0{}3,5.0{}3\n", 4 * i / 8, 4 * i % 8)?;
    into.append(line.as_str())
}

/// The text of points.txt.
#[tactic(auto, using(crate::proofs::LineFacts::line_steps), unfolding(crate::specs::TimesTexts::points_text, crate::specs::TimesTexts::point_records, crate::specs::Texts::table_text))]
pub(crate) fn points_text(alloc: Global) -> Result<Text, NoMemory>
    ensures { IfOk result (λ text. text ≡ Texts.points_text) }
{
    let mut text = Text::new(alloc);
    text.append("point_id,point_lat,point_lon\n")?;
    for i in 0..10 {
        add_point(alloc, i, &mut text)?;
    }
    Ok(text)
}

// How many rows and places within a row two stops lie apart.
fn far(a: u64, b: u64) -> u64
    requires from { a < 40 }
    requires to { b < 40 }
    ensures value { result ≡ Texts.far a b }
    ensures bound { result ≤ 12 }
{
    (a / 8).abs_diff(b / 8) + (a % 8).abs_diff(b % 8)
}

// Appends the line of the drive between two stops.
fn add_between_stops(alloc: Global, a: u64, b: u64, into: &mut Text) -> Result<(), NoMemory>
    requires from { a < 40 }
    requires to { b < 40 }
    ensures { OnOk result (into.new ≡ into.old ++ record_line (Texts.between_stops a b)) }
{
    let line = format!(in alloc; "s{a},s{b},{}\n", 120 + 120 * far(a, b))?;
    into.append(line.as_str())
}

// Appends the line of the drive from a point to a stop.
fn add_from_point(alloc: Global, i: u64, b: u64, into: &mut Text) -> Result<(), NoMemory>
    requires from { i < 10 }
    requires to { b < 40 }
    ensures { OnOk result (into.new ≡ into.old ++ record_line (Texts.from_point i b)) }
{
    let line = format!(in alloc; "p{i},s{b},{}\n", 180 + 120 * far(4 * i, b))?;
    into.append(line.as_str())
}

// Appends the lines of the drives between stops.
#[tactic(auto, using(crate::proofs::LineFacts::line_steps, crate::proofs::TripLines::pair_lines))]
fn add_stop_drives(alloc: Global, into: &mut Text) -> Result<(), NoMemory>
    ensures { OnOk result (into.new ≡ into.old ++ lines Texts.stop_drives) }
{
    for i in 0..1600 {
        if i / 40 == i % 40 {
            continue;
        }
        add_between_stops(alloc, i / 40, i % 40, into)?;
    }
    Ok(())
}

// Appends the lines of the drives from points.
#[tactic(auto, using(crate::proofs::LineFacts::line_steps, crate::proofs::TripLines::point_lines))]
fn add_point_drives(alloc: Global, into: &mut Text) -> Result<(), NoMemory>
    ensures { OnOk result (into.new ≡ into.old ++ lines Texts.point_drives) }
{
    for i in 0..400 {
        add_from_point(alloc, i / 40, i % 40, into)?;
    }
    Ok(())
}

/// The text of direct.txt.
#[tactic(auto, using(crate::proofs::TripLines::direct_lines), unfolding(crate::specs::TimesTexts::direct_text, crate::specs::Texts::table_text))]
pub(crate) fn direct_text(alloc: Global) -> Result<Text, NoMemory>
    ensures { IfOk result (λ text. text ≡ Texts.direct_text) }
{
    let mut text = Text::new(alloc);
    text.append("from_id,to_id,seconds\n")?;
    add_stop_drives(alloc, &mut text)?;
    add_point_drives(alloc, &mut text)?;
    Ok(text)
}

// Appends the line of the walk from a point to its stop.
fn add_walk(alloc: Global, i: u64, into: &mut Text) -> Result<(), NoMemory>
    requires { i < 10 }
    ensures { OnOk result (into.new ≡ into.old ++ record_line (Texts.walk_record i)) }
{
    let seconds: u64 = 240;
    let line = format!(in alloc; "p{i},s{},{seconds}\n", 4 * i)?;
    into.append(line.as_str())
}

/// The text of walks.txt.
#[tactic(auto, using(crate::proofs::LineFacts::line_steps), unfolding(crate::specs::TimesTexts::walks_text, crate::specs::TimesTexts::walk_records, crate::specs::Texts::table_text))]
pub(crate) fn walks_text(alloc: Global) -> Result<Text, NoMemory>
    ensures { IfOk result (λ text. text ≡ Texts.walks_text) }
{
    let mut text = Text::new(alloc);
    text.append("from_id,to_id,seconds\n")?;
    for i in 0..10 {
        add_walk(alloc, i, &mut text)?;
    }
    Ok(text)
}
