//! The rides from a place, found by an index that is built once for a feed.
#![tactic(auto)]

mod active_days;
mod alightings;
mod boarded;
mod boardings;
mod departure;
mod departures;
mod index;
mod legs;
mod listing;
mod members;
mod number_lists;
mod offered_run;
mod offers;
mod place_offers;
mod rides;
mod started;
mod stop_rides;
mod times;
mod wanted;
mod windows;

pub use active_days::ActiveDays;
pub use boarded::{Boarded, BoardingPoint, Carried};
pub use departure::{Departure, DepartureKind};
pub use departures::DepartureList;
pub use index::RideIndex;
pub use members::{Member, MemberList};
pub use offered_run::OfferedRun;
pub use place_offers::{offers_after, offers_from};
pub use rides::add_rides;
pub use started::add_rides_at_starts;
pub use stop_rides::add_timed_rides;
pub use wanted::Wanted;
