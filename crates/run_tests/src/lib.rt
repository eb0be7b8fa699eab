//! Tests of runs over all stages: their ends, what a keeper is told, and how few rows a search compares. Texts of restart files.
//!
//! The crates below hold no tests themselves: a crate with tests is proved once with and once without them.
#![tactic(auto)]

#[cfg(test)]
mod ends;
#[cfg(test)]
mod keeps;
#[cfg(test)]
mod systems;
#[cfg(test)]
mod texts;
#[cfg(test)]
mod visits;
