// The spans of seconds from a place: direct times, or walks.

ghost use Rattle.std.specs.Prelude.{◌≡◌, ◌↔◌, ◌≤◌, AllPairs, Contains, false, length, true};
ghost use Rattle.std.specs.List.Sorted.{IsPartitionPoint};
ghost use Rattle.flex_model.specs.Times.{IsSpanBefore};
ghost use Rattle.flex_model.specs.declared.times.Span.{Span};
ghost use Rattle.transfers.specs.Spans as Spans;

use flex_model::{Place, Span};

// Whether the span begins at an earlier place.
fn begins_before(span: &Span, place: Place) -> bool
    ensures { result ≡ Spans.begins_before place span.now }
{
    span.from < place
}

// Whether the span begins at the place or an earlier one.
fn begins_by(span: &Span, place: Place) -> bool
    ensures { result ≡ Spans.begins_by place span.now }
{
    span.from <= place
}

// How many spans begin at an earlier place.
fn count_before(spans: &[Span], place: Place) -> usize
    requires { AllPairs IsSpanBefore spans.now }
    ensures bound { result ≤ length spans.now }
    ensures point { IsPartitionPoint (λ span. Spans.begins_before place span ≡ true)
        (λ span. Spans.begins_before place span ≡ false) spans.now result }
{
    spans.partition_point(move |span| begins_before(span, place))
}

// How many spans begin at the place or an earlier one.
fn count_by(spans: &[Span], place: Place) -> usize
    requires { AllPairs IsSpanBefore spans.now }
    ensures bound { result ≤ length spans.now }
    ensures point { IsPartitionPoint (λ span. Spans.begins_by place span ≡ true)
        (λ span. Spans.begins_by place span ≡ false) spans.now result }
{
    spans.partition_point(move |span| begins_by(span, place))
}

/// The spans that begin at the place, in their order, without memory: of direct times or of walks, which rise by where they
/// begin. This project's own.
pub fn spans_from(spans: &[Span], place: Place) -> &[Span]
    requires { AllPairs IsSpanBefore spans.now }
    ensures { (span : Span) → Contains result.now span
        ↔ (Contains spans.now span × (span.from ≡ place)) }
{
    let start = count_before(spans, place);
    let end = count_by(spans, place);
    if end < start {
        return &spans[start..start];
    }
    &spans[start..end]
}
