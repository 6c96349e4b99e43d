// A zone as it was read.

use flex_model::{Listed, Polygon, Text};

/// A feature of `locations.geojson`.
#[derive(Debug, Drop)]
pub struct ZoneRecord {
    /// The line on which the feature begins. Lines count from 1.
    pub line: u64,
    /// The feature's `id`, not empty. An earlier feature may have the same.
    pub id: Text,
    /// The polygons of its geometry, one at least. Each has a ring, and each ring has four corners
    /// or more and ends where it begins.
    pub polygons: Listed<Polygon>,
}
