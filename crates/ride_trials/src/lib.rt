//! Tests of rides over whole feeds: what is judged of them, also in zones, and which of them the index offers.
#![tactic(auto)]

#[cfg(test)]
mod loaded;
#[cfg(test)]
mod offered;
#[cfg(test)]
mod rides;
#[cfg(test)]
mod zone_rides;
