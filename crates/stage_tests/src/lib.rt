//! Tests of one stage's public calls: norm by norm, built anew, its numbered pairs beside plain counts and plain sums.
//!
//! The crate of the stage holds no tests itself: a crate with tests is proved once with and once without them.
#![tactic(auto)]

#[cfg(test)]
mod counts;
#[cfg(test)]
mod drawn;
#[cfg(test)]
mod plain;
#[cfg(test)]
mod rebuilds;
#[cfg(test)]
mod stages;
#[cfg(test)]
mod sums;
