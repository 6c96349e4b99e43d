// The records of points.txt: the rules that each breaks by itself, and its point.

ghost use Rattle.std.specs.Prelude.{◌≡◌, List, IfOk, map};
ghost use Rattle.flex_model.specs.declared.fault.InputFile.TheVariants as InputFiles;
ghost use Rattle.feed_meaning.specs.FeedValue.{coordinate};
ghost use Rattle.feed_meaning.specs.Rules.{Values, repeats_id};
ghost use Rattle.feed_meaning.specs.Tables.{entries_of, record_faults};
ghost use Rattle.feed_meaning.specs.TimesFaults;
ghost use Rattle.feed_meaning.specs.TimesValue;

use crate::fields::{is_no, latitude, latitude_or_zero, longitude, longitude_or_zero, text_of};
use feed_meaning::{Ids, add_faults, is_empty, rule, value};
use feed_tables::Table;
use flex_model::{Fault, FaultCode, InputFile, Listed, NoMemory, Point, Position};
use std::alloc::Global;

// The rules of a point.
fn point_rules(point: &str, is_repeated: bool, lat: &str, lon: &str) -> [Option<FaultCode>; 4]
    ensures { (earlier : List Values) (r : Values) → point.now ≡ r "point_id"
        → is_repeated ≡ repeats_id "point_id" earlier r
        → lat.now ≡ r "point_lat" → lon.now ≡ r "point_lon"
        → result ≡ TimesFaults.point_rules earlier r }
{
    [
        rule(FaultCode::EmptyField, is_empty(point)),
        rule(FaultCode::DuplicateKey, is_repeated),
        rule(FaultCode::BadCoordinate, is_no(latitude(lat))),
        rule(FaultCode::BadCoordinate, is_no(longitude(lon))),
    ]
}

/// The faults of the records of points.txt by themselves.
pub(crate) fn point_faults(alloc: Global, table: &Table) -> Result<Listed<Fault>, NoMemory>
    ensures { IfOk result
        (λ faults. faults ≡ record_faults InputFiles.Points TimesFaults.point_rules
        (entries_of table.now)) }
{
    let point_id = table.column("point_id");
    let point_lat = table.column("point_lat");
    let point_lon = table.column("point_lon");
    let mut faults = Listed::new(alloc);
    let mut ids = Ids::new(alloc);
    for row in table.rows() {
        let point = value(&row, point_id);
        let lat = value(&row, point_lat);
        let lon = value(&row, point_lon);
        let is_repeated = ids.note(point)?;
        let rules = point_rules(point, is_repeated, lat, lon);
        add_faults(&mut faults, InputFile::Points, row.number(), &rules)?;
    }
    Ok(faults)
}

// A point by the texts of its columns.
fn point_of(alloc: Global, id: &str, lon: &str, lat: &str) -> Result<Point, NoMemory>
    ensures { IfOk result
        (λ point. point ≡ record {
          id = id.now;
          at = record
              { lon = coordinate 180 lon.now; lat = coordinate 90 lat.now };
        }) }
{
    Ok(Point {
        id: text_of(alloc, id)?,
        at: Position {
            lon: longitude_or_zero(lon),
            lat: latitude_or_zero(lat),
        },
    })
}

/// The points of points.txt, in the order of the file.
pub(crate) fn points_of(alloc: Global, table: &Table) -> Result<Listed<Point>, NoMemory>
    ensures { IfOk result (λ points. points ≡ map TimesValue.point_of
        (map (λ e. e.values) (entries_of table.now))) }
{
    let point_id = table.column("point_id");
    let point_lat = table.column("point_lat");
    let point_lon = table.column("point_lon");
    let mut points = Listed::new(alloc);
    for row in table.rows() {
        let id = value(&row, point_id);
        let lat = value(&row, point_lat);
        let lon = value(&row, point_lon);
        points.push(point_of(alloc, id, lon, lat)?)?;
    }
    Ok(points)
}
