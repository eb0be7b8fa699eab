//! Tests of the top call, from the files of a project to those of its solutions.
//!
//! The crate of the call holds none: a crate with tests is proved once with and once without them.
#![tactic(auto)]

#[cfg(test)]
mod tests;
