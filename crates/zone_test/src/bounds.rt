// The latitudes that part the slabs of a ring.

ghost use Rattle.std.specs.Prelude.{◌≡◌, ◌↔◌, ◌≤◌, ◌<◌, ◌-◌, ◌<ℤ◌, ℤ, IfOk, IsTrue, int_le, length, slice_index_or};
ghost use Rattle.zone_test.specs.Slabs as Slabs;
ghost use Rattle.zone_test.specs.Slabs.{AreBounds};

use flex_model::{Listed, NoMemory, Position};
use std::alloc::Global;

// How many slabs an edge may be kept in on the average. Where it would be more, slabs are joined, so that a ring of long
// edges takes no more memory than a multiple of its corners.
const SLABS_AN_EDGE: usize = 16;

/// The number of a latitude's slab: how many bounds aren't north of it.
pub(crate) fn slab_of(bounds: &[i64], lat: &i64) -> usize
    requires { AreBounds bounds.now }
    ensures slab { result ≡ Slabs.slab_of bounds.now lat.now }
    ensures within { result ≤ length bounds.now }
{
    let limit = *lat;
    bounds.partition_point(
        |bound: &i64| -> bool
            ensures { result ≡ int_le bound.now limit }
        { *bound <= limit },
    )
}

// Whether the latitude is north of the last bound.
fn is_beyond(bounds: &Listed<i64>, lat: i64) -> bool
    ensures { IsTrue result ↔ ((d : ℤ) → 0 < length bounds.now
        → slice_index_or bounds.now (length bounds.now - 1) d <ℤ lat) }
{
    match bounds.as_slice().last() {
        Some(last) => *last < lat,
        None => true,
    }
}

// One of so many latitudes, without those that don't rise.
fn rising(alloc: Global, lats: &[i64], every: usize) -> Result<Listed<i64>, NoMemory>
    requires { 0 < every }
    ensures { IfOk result AreBounds }
{
    let mut bounds = Listed::new(alloc);
    for at in 0..lats.len() {
        if at % every == 0 && is_beyond(&bounds, lats[at]) {
            bounds.push(lats[at])?;
        }
    }
    Ok(bounds)
}

// The latitudes of the corners, rising.
fn latitudes(alloc: Global, corners: &[Position]) -> Result<Listed<i64>, NoMemory>
    ensures { IfOk result AreBounds }
{
    let mut lats = Vec::new(alloc);
    for corner in corners {
        lats.push(corner.lat)?;
    }
    lats.sort_unstable();
    rising(alloc, &lats, 1)
}

// In how many slabs between all latitudes the edges would be kept.
fn spread(corners: &[Position], lats: &[i64]) -> usize
    requires { AreBounds lats.now }
{
    let mut spread: usize = 0;
    for at in 0..corners.len().saturating_sub(1) {
        let from = slab_of(lats, &corners[at].lat);
        let to = slab_of(lats, &corners[at + 1].lat);
        spread = spread.saturating_add(from.abs_diff(to)).saturating_add(1);
    }
    spread
}

/// The bounds of a ring's slabs: the latitudes of its corners, or one of so many where the edges would be kept too often.
pub(crate) fn bounds_of(alloc: Global, corners: &[Position]) -> Result<Listed<i64>, NoMemory>
    ensures { IfOk result AreBounds }
{
    let lats = latitudes(alloc, corners)?;
    let every = spread(corners, &lats) / corners.len().max(1) / SLABS_AN_EDGE + 1;
    rising(alloc, &lats, every)
}
