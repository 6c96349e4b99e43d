//! Whether points lie in the zones of demand-responsive services, and which places the records of trips serve.
#![tactic(auto)]

mod bounds;
mod cross;
mod edges;
mod places;
mod ring_index;
mod rings;
mod slabs;
mod zone_index;
mod zones;

pub use places::serves;
pub use zone_index::ZoneIndex;
pub use zones::{contains, zone_stops};
