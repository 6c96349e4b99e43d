//! Tests over whole feeds of searches, and of the checker: the best journeys that are found, each with its rides, and what is said of a
//! certificate of them.
#![tactic(auto)]

#[cfg(test)]
mod checks;
#[cfg(test)]
mod loaded;
#[cfg(test)]
mod searches;
