// The values of a query's fields.

ghost use Rattle.std.specs.Prelude.{◌≡◌, List, ℕ};
ghost use Rattle.feed_tables.specs.Records.{header_of};
ghost use Rattle.feed_meaning.specs.Tables.{values_of};
ghost use Rattle.field_text.specs.Grammars;
ghost use Rattle.flex_model.specs.declared.feed.Feed as Feeds;
ghost use Rattle.flex_model.specs.declared.times.Times as Spans;
ghost use Rattle.query_io.specs.QueryFields.{HasFields, walking_asked};
ghost use Rattle.query_io.specs.QueryFields as FieldValues;
ghost use Rattle.query_io.specs.QueryPlaces.{ArePlaceIds};

use crate::query_places::{PlaceIds, read_place};
use feed_meaning::{is_empty, is_text, value};
use feed_tables::{RowView, Table};
use field_text::{read_count, read_moment};
use flex_model::limits::{
    FIRST_QUERY_MOMENT, GREATEST_HORIZON, GREATEST_TRANSFERS, LAST_QUERY_MOMENT,
};
use flex_model::{FaultCode, Moment, Place};

/// Where the columns of a query file stand.
#[derive(Clone, Copy)]
pub(crate) struct QueryColumns {
    pub(crate) id: Option<u32>,
    pub(crate) origin: Option<u32>,
    pub(crate) destination: Option<u32>,
    pub(crate) depart: Option<u32>,
    pub(crate) asked: Option<u32>,
    pub(crate) transfers: Option<u32>,
    pub(crate) horizon: Option<u32>,
    pub(crate) walking: Option<u32>,
}

/// The values of a record: each is there where its text is of its kind.
#[derive(Clone, Copy)]
pub(crate) struct QueryFields<'a> {
    pub(crate) id: &'a str,
    pub(crate) origin: Result<Place, FaultCode>,
    pub(crate) destination: Result<Place, FaultCode>,
    pub(crate) depart: Option<Moment>,
    pub(crate) asked: Option<Moment>,
    pub(crate) transfers: Option<u8>,
    pub(crate) horizon: Option<u32>,
    pub(crate) walking: Option<bool>,
}

/// The columns of a query file.
pub(crate) fn query_columns(table: &Table) -> QueryColumns
    ensures { result ≡ FieldValues.query_columns (header_of table.now) }
{
    QueryColumns {
        id: table.column("query_id"),
        origin: table.column("origin"),
        destination: table.column("destination"),
        depart: table.column("depart"),
        asked: table.column("now"),
        transfers: table.column("transfers"),
        horizon: table.column("horizon"),
        walking: table.column("walking"),
    }
}

// A moment of the years 1990 to 2199.
fn moment(text: &str) -> Option<Moment>
    ensures { result ≡ Grammars.moment 1990 2199 text.now }
{
    let Ok(moment) = read_moment(text) else {
        return None;
    };
    if moment < FIRST_QUERY_MOMENT || LAST_QUERY_MOMENT < moment {
        return None;
    }
    Some(moment)
}

// A number of transfers.
fn transfers(text: &str) -> Option<u8>
    ensures { result ≡ Grammars.count 7 text.now }
{
    match read_count(text, GREATEST_TRANSFERS) {
        Ok(number) => Some(number as u8),
        Err(_) => None,
    }
}

// A horizon in minutes, 0 among them.
fn horizon(text: &str) -> Option<u32>
    ensures { result ≡ Grammars.count 2880 text.now }
{
    match read_count(text, GREATEST_HORIZON) {
        Ok(number) => Some(number as u32),
        Err(_) => None,
    }
}

// Whether a text asks for walking, if it says so or not.
fn walking(text: &str) -> Option<bool>
    ensures { result ≡ walking_asked text.now }
{
    if is_text(text, "1") {
        return Some(true);
    }
    if is_empty(text) || is_text(text, "0") {
        return Some(false);
    }
    None
}

/// The values of a record.
pub(crate) fn read_fields<'a>(
    ids: &PlaceIds<'_>,
    columns: &QueryColumns,
    row: &RowView<'a>,
) -> QueryFields<'a>
    ensures { (feed : Feeds.Feed) (times : Spans.Times) (header : List (List ℕ))
        → ArePlaceIds feed times ids.now → columns.now ≡ FieldValues.query_columns header
        → HasFields feed times (values_of header row.now.fields) result }
{
    let id = value(row, columns.id);
    let origin = read_place(ids, value(row, columns.origin));
    let destination = read_place(ids, value(row, columns.destination));
    let depart = moment(value(row, columns.depart));
    let asked = moment(value(row, columns.asked));
    let transfers = transfers(value(row, columns.transfers));
    let horizon = horizon(value(row, columns.horizon));
    let walking = walking(value(row, columns.walking));
    QueryFields {
        id,
        origin,
        destination,
        depart,
        asked,
        transfers,
        horizon,
        walking,
    }
}
