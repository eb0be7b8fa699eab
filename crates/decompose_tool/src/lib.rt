//! Solutions as conformal sums of given ones.
//!
//! The walk takes each candidate as often as it fits below what is left (Graver 1975). Where the candidates have all
//! minimal solutions, nothing is left. [`run_decompose`] writes the sum for a project's system, set and point.
#![tactic(auto)]

mod checking;
mod ends;
pub mod laws;
mod messages;
mod reading;
mod requests;
mod rows;
mod top;
mod walking;

pub use ends::{DecEnd, DecFile, DecStatus};
pub use top::run_decompose;
