//! Tests of what is judged of journeys over whole feeds: their changes and walks, and when they have to be booked.
#![tactic(auto)]

#[cfg(test)]
mod journeys;
#[cfg(test)]
mod loaded;
