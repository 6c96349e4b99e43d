//! The zones of a GeoJSON text (RFC 7946): the features of `locations.geojson` (GTFS Schedule
//! reference), or the first thing that is wrong with it.
#![tactic(auto)]

mod features;
mod form;
mod laws;
mod lines;
mod members;
mod polygons;
mod positions;
mod record;
mod refusal;
mod rings;
mod values;
mod zones;

pub use laws::{features_are_few, texts_have_scans};
pub use record::ZoneRecord;
pub use refusal::GeoRefusal;
pub use zones::read_zones;
