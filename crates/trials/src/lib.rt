//! Tests of the public functions of the crates below the program over whole feeds: loading, days, bookings, changes, the runs of trips,
//! certificates. So none of those crates is proved once more for tests. Those that need no feed stand in `part_trials`, those of rides in
//! `ride_trials`, of journeys in `journey_trials`, of searches in `search_trials`.
#![tactic(auto)]

#[cfg(test)]
mod bookings;
#[cfg(test)]
mod certs;
#[cfg(test)]
mod changes;
#[cfg(test)]
mod days;
#[cfg(test)]
mod feeds;
#[cfg(test)]
mod loaded;
#[cfg(test)]
mod narrowed;
#[cfg(test)]
mod patterns;
#[cfg(test)]
mod queries;
#[cfg(test)]
mod runs;
#[cfg(test)]
mod times_folders;
#[cfg(test)]
mod window_runs;
#[cfg(test)]
mod zone_runs;
