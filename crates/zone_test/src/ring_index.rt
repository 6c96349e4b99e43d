// A ring with the slabs of its edges.

ghost use Rattle.std.specs.Prelude.{◌≡◌, ◌-◌, ◌<◌, ◌≤◌, All, IfOk, length};
ghost use Rattle.std.specs.List.{list_any};
ghost use Rattle.flex_model.specs.SoundTimes.{IsOnGlobe};
ghost use Rattle.flex_model.specs.Zone as spec;

use crate::bounds::{bounds_of, slab_of};
use crate::slabs::{crossings, is_on_some, slabs_of};
use flex_model::{Listed, NoMemory, Position, Ring};
use std::alloc::Global;
use std::marker::Model;

/// A ring whose edges are found by their latitudes. Contracts see the ring.
#[derive(Drop)]
pub(crate) struct RingIndex {
    corners: Listed<Position>,
    // The latitudes between the slabs, rising.
    bounds: Listed<i64>,
    // For each slab the numbers of the edges that reach into it. An edge has the number of its first corner.
    slabs: Listed<Listed<usize>>,
}

impl Model for RingIndex {
    ghost use Rattle.flex_model.specs.declared.place.Ring.{Ring};
    ghost use Rattle.zone_test.specs.Slabs.{AreIndexed};

    ghost Value = { Ring };

    ghost view = { λ index. record { corners = index.corners } };

    ghost invariant = { λ index. AreIndexed index.corners index.bounds index.slabs };
}

impl RingIndex {
    /// Puts the edges of a ring into slabs.
    pub(crate) fn build(alloc: Global, ring: &Ring) -> Result<RingIndex, NoMemory>
        requires { All IsOnGlobe ring.now.corners }
        ensures { IfOk result (λ index. index ≡ ring.now) }
    {
        let corners = Listed::from_vec(ring.corners.as_slice().to_vec(alloc)?);
        let bounds = bounds_of(alloc, &corners)?;
        let slabs = Listed::from_vec(slabs_of(alloc, &corners, &bounds)?);
        Ok(RingIndex {
            corners,
            bounds,
            slabs,
        })
    }

    /// Whether the point lies on an edge of the ring.
    pub(crate) fn has_on_edge(&self, point: &Position) -> bool
        requires { IsOnGlobe point.now }
        ensures { result ≡ list_any (spec.is_on_edge point.now) (spec.edges self.now) }
    {
        let slab = slab_of(&self.bounds, &point.lat);
        is_on_some(&self.corners, &self.slabs[slab], point)
    }

    /// Whether the half-line eastwards from the point crosses an odd number of edges of the ring.
    pub(crate) fn surrounds(&self, point: &Position) -> bool
        requires { IsOnGlobe point.now }
        ensures { result ≡ spec.is_odd (spec.crossings point.now self.now) }
    {
        let slab = slab_of(&self.bounds, &point.lat);
        crossings(&self.corners, &self.slabs[slab], point) % 2 == 1
    }
}
