// The spans of direct.txt and walks.txt, by where they begin and then by where they end.

ghost use Rattle.std.specs.Prelude.{◌≡◌, ◌<◌, ◌^◌, List, IfOk, IsPermutation, IsSortedBy, map};
ghost use Rattle.flex_model.specs.declared.fault.InputFile as FileType;
ghost use Rattle.flex_model.specs.declared.feed.Feed as Feeds;
ghost use Rattle.flex_model.specs.declared.place.Point as Places;
ghost use Rattle.flex_model.specs.Times.{span_cmp};
ghost use Rattle.feed_meaning.specs.FeedValue.{rising};
ghost use Rattle.feed_meaning.specs.Rules.{Values};
ghost use Rattle.feed_meaning.specs.Tables.{entries_of};
ghost use Rattle.feed_meaning.specs.TimesValue as Value;
ghost use Rattle.feed_meaning.specs.TimesValue.{point_of, span_before};
ghost use Rattle.place_times.specs.Places.{AreAcceptedSpans, ArePlaceIds, read_span, span_by};

use crate::fields::seconds_or_zero;
use crate::places::{PlaceIds, place_named};
use feed_meaning::value;
use feed_tables::Table;
use flex_model::{Listed, NoMemory, Span};
use std::alloc::Global;
use std::cmp::Ordering;

// A span by the texts of its columns.
fn span_of(ids: &PlaceIds<'_>, from: &str, to: &str, seconds: &str, most: u64) -> Span
    requires { most < 2 ^ 32 }
    ensures { (feed : Feeds.Feed) (points : List Places.Point) → ArePlaceIds feed points ids.now
        → result ≡ span_by feed points most from.now to.now seconds.now }
{
    Span {
        from: place_named(ids, from),
        to: place_named(ids, to),
        seconds: seconds_or_zero(seconds, most),
    }
}

// The spans in the order of the file.
fn unsorted_spans(
    alloc: Global,
    table: &Table,
    ids: &PlaceIds<'_>,
    most: u64,
) -> Result<Vec<Span>, NoMemory>
    requires { most < 2 ^ 32 }
    ensures { IfOk result (λ spans. (feed : Feeds.Feed) (points : List Places.Point)
        → ArePlaceIds feed points ids.now
        → spans.items ≡ map (read_span feed points most)
        (map (λ e. e.values) (entries_of table.now))) }
{
    let from_id = table.column("from_id");
    let to_id = table.column("to_id");
    let seconds_column = table.column("seconds");
    let mut spans = Vec::new(alloc);
    for row in table.rows() {
        let from = value(&row, from_id);
        let to = value(&row, to_id);
        let seconds = value(&row, seconds_column);
        spans.push(span_of(ids, from, to, seconds, most))?;
    }
    Ok(spans)
}

// Where a span stands beside another: by where they begin, and then by where they end.
fn compare_spans(a: &Span, b: &Span) -> Ordering
    ensures { result ≡ span_cmp b.now.from b.now.to a.now }
{
    a.from.cmp(&b.from).then(a.to.cmp(&b.to))
}

// The spans in their order.
fn in_order(spans: Vec<Span>) -> Result<Listed<Span>, NoMemory>
    ensures moved { IfOk result (IsPermutation spans.items) }
    ensures sorted { IfOk result (IsSortedBy span_before) }
{
    let mut spans = spans;
    spans.sort_by(|a, b| compare_spans(a, b))?;
    Ok(Listed::from_vec(spans))
}

/// The spans of an accepted table, rising.
pub(crate) fn spans_of(
    alloc: Global,
    table: &Table,
    ids: &PlaceIds<'_>,
    most: u64,
) -> Result<Listed<Span>, NoMemory>
    requires { most < 2 ^ 32 }
    ensures { IfOk result (λ spans. (feed : Feeds.Feed) (points : List Values)
        (file : FileType.InputFile) → ArePlaceIds feed (map point_of points) ids.now
        → AreAcceptedSpans feed points file most (entries_of table.now)
        → spans ≡ rising span_before (map (Value.span_of feed (map point_of points))
        (map (λ e. e.values) (entries_of table.now)))) }
{
    let spans = unsorted_spans(alloc, table, ids, most)?;
    in_order(spans)
}
