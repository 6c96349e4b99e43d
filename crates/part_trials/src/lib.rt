//! Tests of the public functions of crates below the program that need no feed: texts, tables, the outside, zones, bags. So none of
//! those crates is proved once more for tests. Those over whole feeds stand in `trials`.
#![tactic(auto)]

#[cfg(test)]
mod answers;
#[cfg(test)]
mod bags;
#[cfg(test)]
mod ids;
#[cfg(test)]
mod input_files;
#[cfg(test)]
mod json;
#[cfg(test)]
mod outside;
#[cfg(test)]
mod plain_holders;
#[cfg(test)]
mod tables;
#[cfg(test)]
mod times_and_numbers;
#[cfg(test)]
mod zones;
#[cfg(test)]
mod zones_of_geojson;
