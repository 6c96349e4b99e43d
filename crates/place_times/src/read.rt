// The times of a folder as it was fetched, or its faults.

ghost use Rattle.std.specs.Prelude.{◌≡◌, ◌++◌, ◌<◌, ◌^◌, List, IfOk, OnOk, false, map};
ghost use Rattle.std.specs.Option.{option_to_list};
ghost use Rattle.flex_model.specs.declared.fault.InputFile as FileType;
ghost use Rattle.flex_model.specs.declared.feed.Feed as Feeds;
ghost use Rattle.flex_model.specs.declared.place.Point as Places;
ghost use Rattle.flex_model.specs.SoundFeed.{IsSoundFeed};
ghost use Rattle.feed_meaning.specs.FeedValue.{rising};
ghost use Rattle.feed_meaning.specs.Folder.{Folder};
ghost use Rattle.feed_meaning.specs.Rules.{Values};
ghost use Rattle.feed_meaning.specs.TimesValue as Value;
ghost use Rattle.feed_meaning.specs.TimesValue.{point_of, span_before};
ghost use Rattle.place_times.specs.Fetches.{AreCounted, AreFetched};
ghost use Rattle.place_times.specs.Found.{records_of, values_of_found};
ghost use Rattle.place_times.specs.Levels as Levels;
ghost use Rattle.place_times.specs.Levels.{AreAcceptedTables, AreLinked, AreRead, AreTablesOf, HoldsTimes, bad_zone, judged, point_link_list, span_link_list, times_in, zone_list};
ghost use Rattle.place_times.specs.Places.{AreAcceptedSpans, ArePlaceIds};

use crate::fetch::TimesFiles;
use crate::file_faults::table_faults;
use crate::found::{Found, read_file};
use crate::links::{point_link_faults, span_link_faults};
use crate::places::{PlaceIds, place_ids};
use crate::point_records::points_of;
use crate::spans::spans_of;
use flex_model::limits::{GREATEST_DIRECT, GREATEST_WALK};
use flex_model::{
    Fault, FaultCode, Feed, InputFile, Listed, NoMemory, Point, RawFile, Span, Times,
};
use std::alloc::Global;

/// What a times folder holds beside its zone.
#[derive(Drop)]
pub(crate) enum ReadTimes {
    /// The times of an accepted folder.
    Clean(Times),
    /// The fault list of a folder that isn't accepted.
    Faulty(Listed<Fault>),
}

/// The tables of a times folder as they were read.
#[derive(Drop)]
pub(crate) struct TimesTables {
    pub(crate) points: Found,
    pub(crate) direct: Found,
    pub(crate) walks: Found,
}

/// The spans of a times folder, or the faults of its tables beside the feed.
#[derive(Drop)]
pub(crate) enum LinkedSpans {
    Clean {
        direct: Listed<Span>,
        walks: Listed<Span>,
    },
    Faulty(Listed<Fault>),
}

/// Reads the tables.
pub(crate) fn read_tables(alloc: Global, files: &TimesFiles) -> Result<TimesTables, NoMemory>
    requires { AreCounted files.now }
    ensures { IfOk result (AreTablesOf files.now) }
{
    let points = read_file(alloc, InputFile::Points, &files.points)?;
    let direct = read_file(alloc, InputFile::Direct, &files.direct)?;
    let walks = read_file(alloc, InputFile::Walks, &files.walks)?;
    Ok(TimesTables {
        points,
        direct,
        walks,
    })
}

// The fault of a file that tells a zone, if that is bad.
fn bad_zone(file: InputFile, is_bad: bool) -> Option<Fault>
    ensures { option_to_list result ≡ bad_zone file is_bad }
{
    if !is_bad {
        return None;
    }
    Some(Fault {
        file,
        row: 0,
        code: FaultCode::BadZone,
    })
}

// The fault of a file as a whole.
fn whole_fault(file: InputFile, code: FaultCode) -> Fault
    ensures { result ≡ record { file = file; row = 0; code = code } }
{
    Fault { file, row: 0, code }
}

/// The fault of the two zone files.
pub(crate) fn zone_fault(text: &RawFile, tzif: &RawFile, is_bad: bool) -> Option<Fault>
    ensures { option_to_list result ≡ zone_list text.now tzif.now is_bad }
{
    match text {
        RawFile::Bytes(_) => return bad_zone(InputFile::ZoneText, is_bad),
        RawFile::TooLarge => {
            return Some(whole_fault(InputFile::ZoneText, FaultCode::FileTooLarge));
        }
        RawFile::Absent => {}
    }
    match tzif {
        RawFile::Bytes(_) => bad_zone(InputFile::ZoneTzif, is_bad),
        RawFile::TooLarge => Some(whole_fault(InputFile::ZoneTzif, FaultCode::FileTooLarge)),
        RawFile::Absent => Some(whole_fault(InputFile::ZoneText, FaultCode::MissingFile)),
    }
}

// Adds faults to others.
fn add_all(faults: &mut Listed<Fault>, more: &Listed<Fault>) -> Result<(), NoMemory>
    ensures { OnOk result (faults.new ≡ faults.old ++ more.now) }
{
    for fault in more.as_slice() {
        faults.push(*fault)?;
    }
    Ok(())
}

// A list of one fault, or of none.
fn fault_list(alloc: Global, fault: Option<Fault>) -> Result<Listed<Fault>, NoMemory>
    ensures { IfOk result (λ faults. faults ≡ option_to_list fault) }
{
    let mut faults = Listed::new(alloc);
    if let Some(fault) = fault {
        faults.push(fault)?;
    }
    Ok(faults)
}

/// The faults of the files by themselves, after that of the zone.
pub(crate) fn level_one(
    alloc: Global,
    zone: Option<Fault>,
    tables: &TimesTables,
) -> Result<Listed<Fault>, NoMemory>
    ensures { IfOk result (λ faults. faults ≡ Levels.level_one (option_to_list zone) tables.now) }
{
    let mut faults = fault_list(alloc, zone)?;
    let points = table_faults(alloc, InputFile::Points, &tables.points)?;
    add_all(&mut faults, &points)?;
    let direct = table_faults(alloc, InputFile::Direct, &tables.direct)?;
    add_all(&mut faults, &direct)?;
    let walks = table_faults(alloc, InputFile::Walks, &tables.walks)?;
    add_all(&mut faults, &walks)?;
    Ok(faults)
}

// The faults of points.txt beside the feed, none where it has no records.
fn found_point_links(
    alloc: Global,
    found: &Found,
    ids: &PlaceIds<'_>,
) -> Result<Listed<Fault>, NoMemory>
    ensures { IfOk result (λ faults. (feed : Feeds.Feed) (points : List Places.Point)
        → ArePlaceIds feed points ids.now → faults ≡ point_link_list feed found.now) }
{
    match found {
        Found::Read(table) => point_link_faults(alloc, table, ids),
        _ => Ok(Listed::new(alloc)),
    }
}

// The faults of a table of spans beside the feed and the points, none where it has no records.
fn found_span_links(
    alloc: Global,
    file: InputFile,
    found: &Found,
    ids: &PlaceIds<'_>,
) -> Result<Listed<Fault>, NoMemory>
    ensures { IfOk result (λ faults. (feed : Feeds.Feed) (points : List Values)
        → ArePlaceIds feed (map point_of points) ids.now
        → faults ≡ span_link_list feed points file found.now) }
{
    match found {
        Found::Read(table) => span_link_faults(alloc, file, table, ids),
        _ => Ok(Listed::new(alloc)),
    }
}

// The faults of the tables beside the feed and the points.
fn link_list(
    alloc: Global,
    tables: &TimesTables,
    ids: &PlaceIds<'_>,
) -> Result<Listed<Fault>, NoMemory>
    ensures { IfOk result (λ faults. (feed : Feeds.Feed) (points : List Values)
        → ArePlaceIds feed (map point_of points) ids.now
        → faults ≡ Levels.link_list feed points tables.now) }
{
    let mut faults = found_point_links(alloc, &tables.points, ids)?;
    let direct = found_span_links(alloc, InputFile::Direct, &tables.direct, ids)?;
    add_all(&mut faults, &direct)?;
    let walks = found_span_links(alloc, InputFile::Walks, &tables.walks, ids)?;
    add_all(&mut faults, &walks)?;
    Ok(faults)
}

// The points of points.txt, none where it has no records.
fn found_points(alloc: Global, found: &Found) -> Result<Listed<Point>, NoMemory>
    ensures { IfOk result (λ points. points ≡ map point_of (values_of_found found.now)) }
{
    match found {
        Found::Read(table) => points_of(alloc, table),
        _ => Ok(Listed::new(alloc)),
    }
}

// The spans of an accepted table, rising, none where it has no records.
fn found_spans(
    alloc: Global,
    found: &Found,
    ids: &PlaceIds<'_>,
    most: u64,
) -> Result<Listed<Span>, NoMemory>
    requires { most < 2 ^ 32 }
    ensures { IfOk result (λ spans. (feed : Feeds.Feed) (points : List Values)
        (file : FileType.InputFile) → ArePlaceIds feed (map point_of points) ids.now
        → AreAcceptedSpans feed points file most (records_of found.now)
        → spans ≡ rising span_before (map (Value.span_of feed (map point_of points))
        (values_of_found found.now))) }
{
    match found {
        Found::Read(table) => spans_of(alloc, table, ids, most),
        _ => Ok(Listed::new(alloc)),
    }
}

// The spans of tables without faults by themselves, or their faults beside the feed and the points.
fn linked_spans(
    alloc: Global,
    feed: &Feed,
    points: &[Point],
    tables: &TimesTables,
) -> Result<LinkedSpans, NoMemory>
    requires feed { IsSoundFeed feed.now }
    requires accepted { AreAcceptedTables tables.now }
    requires points { points.now ≡ map point_of (values_of_found tables.now.points) }
    ensures { IfOk result (AreLinked feed.now tables.now) }
{
    let ids = place_ids(alloc, feed, points)?;
    let faults = link_list(alloc, tables, &ids)?;
    if !faults.is_empty() {
        return Ok(LinkedSpans::Faulty(faults));
    }
    let direct = found_spans(alloc, &tables.direct, &ids, GREATEST_DIRECT)?;
    let walks = found_spans(alloc, &tables.walks, &ids, GREATEST_WALK)?;
    Ok(LinkedSpans::Clean { direct, walks })
}

// The times of tables without faults by themselves, or their faults beside the feed.
fn read_accepted(alloc: Global, feed: &Feed, tables: &TimesTables) -> Result<ReadTimes, NoMemory>
    requires feed { IsSoundFeed feed.now }
    requires accepted { AreAcceptedTables tables.now }
    ensures { IfOk result (HoldsTimes
        (Levels.link_list feed.now (values_of_found tables.now.points) tables.now)
        (times_in feed.now tables.now)) }
{
    let points = found_points(alloc, &tables.points)?;
    match linked_spans(alloc, feed, points.as_slice(), tables)? {
        LinkedSpans::Clean { direct, walks } => Ok(ReadTimes::Clean(Times {
            points,
            direct,
            walks,
        })),
        LinkedSpans::Faulty(faults) => Ok(ReadTimes::Faulty(faults)),
    }
}

/// Reads the files of a times folder whose zone isn't bad beside an accepted feed: its times where it has no fault, and
/// else its fault list. Each table is parsed once, and its rows are gone over for its own rules, for those beside the feed
/// and for its values. Places are found by their ids, and the spans are sorted once.
pub(crate) fn read_times(
    alloc: Global,
    feed: &Feed,
    files: &TimesFiles,
) -> Result<ReadTimes, NoMemory>
    requires feed { IsSoundFeed feed.now }
    requires counted { AreCounted files.now }
    ensures { IfOk result (λ read. (folder : Folder) → AreFetched folder files.now
        → AreRead (judged false) feed.now folder read) }
{
    let tables = read_tables(alloc, files)?;
    let zone = zone_fault(&files.zone_text, &files.zone_tzif, false);
    let alone = level_one(alloc, zone, &tables)?;
    if !alone.is_empty() {
        return Ok(ReadTimes::Faulty(alone));
    }
    read_accepted(alloc, feed, &tables)
}
