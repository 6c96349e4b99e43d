// The slabs of a ring, and the edges that are kept in them.

ghost use Rattle.std.specs.Prelude.{◌≡◌, ◌+◌, ◌-◌, ◌<◌, ◌≤◌, [], All, IfOk, OnOk, count_by, length, replicate};
ghost use Rattle.std.specs.Int.{int_max, int_min};
ghost use Rattle.std.specs.List.{list_any};
ghost use Rattle.flex_model.specs.SoundTimes.{IsOnGlobe};
ghost use Rattle.flex_model.specs.Zone as spec;
ghost use Rattle.zone_test.specs.Slabs as Slabs;
ghost use Rattle.zone_test.specs.Slabs.{AreBounds, AreSlabsBelow, IsWithNumber, edge_from};

use crate::bounds::slab_of;
use crate::edges::{is_crossed, is_on_edge};
use flex_model::{Listed, NoMemory, Position};
use std::alloc::Global;

// So many slabs without an edge.
fn empty_slabs(alloc: Global, count: usize) -> Result<Vec<Listed<usize>>, NoMemory>
    ensures { IfOk result (λ slabs. slabs.items ≡ replicate count []) }
{
    let mut slabs = Vec::new(alloc);
    for at in 0..count {
        slabs.push(Listed::new(alloc))?;
    }
    Ok(slabs)
}

// Adds the number at the end of the slabs from the first to the last one.
fn add_number(
    slabs: &mut Vec<Listed<usize>>,
    number: usize,
    first: usize,
    last: usize,
) -> Result<(), NoMemory>
    requires order { first ≤ last }
    requires last { last < length slabs.old.items }
    ensures { OnOk result (IsWithNumber slabs.old.items number first last slabs.new.items) }
{
    for at in first..last + 1 {
        let slab = &mut slabs[at];
        slab.push(number)?;
    }
    Ok(())
}

// The number of the slab of the latitude farther south.
fn first_slab(bounds: &[i64], a: &i64, b: &i64) -> usize
    requires { AreBounds bounds.now }
    ensures slab { result ≡ Slabs.slab_of bounds.now (int_min a.now b.now) }
    ensures within { result ≤ length bounds.now }
{
    if *b < *a {
        slab_of(bounds, b)
    } else {
        slab_of(bounds, a)
    }
}

// The number of the slab of the latitude farther north.
fn last_slab(bounds: &[i64], a: &i64, b: &i64) -> usize
    requires { AreBounds bounds.now }
    ensures slab { result ≡ Slabs.slab_of bounds.now (int_max a.now b.now) }
    ensures within { result ≤ length bounds.now }
{
    if *b < *a {
        slab_of(bounds, a)
    } else {
        slab_of(bounds, b)
    }
}

/// The slabs of a ring, each with the numbers of the edges that reach into it, rising.
pub(crate) fn slabs_of(
    alloc: Global,
    corners: &[Position],
    bounds: &[i64],
) -> Result<Vec<Listed<usize>>, NoMemory>
    requires { AreBounds bounds.now }
    ensures { IfOk result (λ slabs.
        AreSlabsBelow corners.now bounds.now (length corners.now - 1) slabs.items) }
{
    let mut slabs = empty_slabs(alloc, bounds.len() + 1)?;
    for at in 0..corners.len().saturating_sub(1) {
        let first = first_slab(bounds, &corners[at].lat, &corners[at + 1].lat);
        let last = last_slab(bounds, &corners[at].lat, &corners[at + 1].lat);
        add_number(&mut slabs, at, first, last)?;
    }
    Ok(slabs)
}

/// Whether the point lies on one of the edges with these numbers.
pub(crate) fn is_on_some(corners: &[Position], numbers: &[usize], point: &Position) -> bool
    requires corners { All IsOnGlobe corners.now }
    requires numbers { All (λ at. at < length corners.now - 1) numbers.now }
    requires point { IsOnGlobe point.now }
    ensures { result ≡ list_any (λ at. spec.is_on_edge point.now (edge_from corners.now at))
        numbers.now }
{
    for at in numbers {
        if is_on_edge(point, &corners[*at], &corners[*at + 1]) {
            return true;
        }
    }
    false
}

/// How many of the edges with these numbers the half-line eastwards from the point crosses.
pub(crate) fn crossings(corners: &[Position], numbers: &[usize], point: &Position) -> usize
    requires corners { All IsOnGlobe corners.now }
    requires numbers { All (λ at. at < length corners.now - 1) numbers.now }
    requires point { IsOnGlobe point.now }
    ensures { result ≡ count_by (λ at. spec.is_crossed point.now (edge_from corners.now at))
        numbers.now }
{
    let mut crossings = 0;
    for at in numbers {
        if is_crossed(point, &corners[*at], &corners[*at + 1]) {
            crossings += 1;
        }
    }
    crossings
}
