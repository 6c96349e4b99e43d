// The faults of the tables beside the feed and the points.

ghost use Rattle.std.specs.Prelude.{◌≡◌, List, IfOk, map};
ghost use Rattle.std.specs.List.{flat_map};
ghost use Rattle.flex_model.specs.declared.fault.InputFile.TheVariants as InputFiles;
ghost use Rattle.flex_model.specs.declared.feed.Feed as Feeds;
ghost use Rattle.flex_model.specs.declared.place.Point as Places;
ghost use Rattle.feed_meaning.specs.Rules.{Values};
ghost use Rattle.feed_meaning.specs.Tables.{entries_of, faults_at};
ghost use Rattle.feed_meaning.specs.TimesFaults;
ghost use Rattle.feed_meaning.specs.TimesValue.{point_of};
ghost use Rattle.place_times.specs.Places.{ArePlaceIds};

use crate::places::{PlaceIds, is_place, is_stop};
use feed_meaning::{add_faults, rule, value};
use feed_tables::Table;
use flex_model::{Fault, FaultCode, InputFile, Listed, NoMemory};
use std::alloc::Global;

// The rule of a point beside the feed.
fn point_links(ids: &PlaceIds<'_>, point: &str) -> [Option<FaultCode>; 1]
    ensures { (feed : Feeds.Feed) (points : List Places.Point) (r : Values)
        → ArePlaceIds feed points ids.now → point.now ≡ r "point_id"
        → result ≡ TimesFaults.point_links feed r }
{
    [rule(FaultCode::SharedId, is_stop(ids, point))]
}

/// The faults of points.txt beside the feed.
pub(crate) fn point_link_faults(
    alloc: Global,
    table: &Table,
    ids: &PlaceIds<'_>,
) -> Result<Listed<Fault>, NoMemory>
    ensures { IfOk result (λ faults. (feed : Feeds.Feed) (points : List Places.Point)
        → ArePlaceIds feed points ids.now
        → faults ≡ flat_map (λ e. faults_at InputFiles.Points e.row
        (TimesFaults.point_links feed e.values)) (entries_of table.now)) }
{
    let point_id = table.column("point_id");
    let mut faults = Listed::new(alloc);
    for row in table.rows() {
        let point = value(&row, point_id);
        let rules = point_links(ids, point);
        add_faults(&mut faults, InputFile::Points, row.number(), &rules)?;
    }
    Ok(faults)
}

// The rules of a span beside the feed and the points.
fn span_links(ids: &PlaceIds<'_>, from: &str, to: &str) -> [Option<FaultCode>; 2]
    ensures { (feed : Feeds.Feed) (points : List Values) (r : Values)
        → ArePlaceIds feed (map point_of points) ids.now → from.now ≡ r "from_id"
        → to.now ≡ r "to_id"
        → result ≡ TimesFaults.span_links feed points r }
{
    [
        rule(FaultCode::UnknownId, !is_place(ids, from)),
        rule(FaultCode::UnknownId, !is_place(ids, to)),
    ]
}

/// The faults of direct.txt or walks.txt beside the feed and the points.
pub(crate) fn span_link_faults(
    alloc: Global,
    file: InputFile,
    table: &Table,
    ids: &PlaceIds<'_>,
) -> Result<Listed<Fault>, NoMemory>
    ensures { IfOk result (λ faults. (feed : Feeds.Feed) (points : List Values)
        → ArePlaceIds feed (map point_of points) ids.now
        → faults ≡ flat_map (λ e. faults_at file e.row
        (TimesFaults.span_links feed points e.values)) (entries_of table.now)) }
{
    let from_id = table.column("from_id");
    let to_id = table.column("to_id");
    let mut faults = Listed::new(alloc);
    for row in table.rows() {
        let from = value(&row, from_id);
        let to = value(&row, to_id);
        let rules = span_links(ids, from, to);
        add_faults(&mut faults, file, row.number(), &rules)?;
    }
    Ok(faults)
}
