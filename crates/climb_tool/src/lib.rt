//! Optimal points by Graver steps: from a feasible point of `A x = b, 0 <= x <= u` to one of least linear cost.
//!
//! A point is optimal exactly where no vector of the Graver basis, nor its negative, leads to a cheaper feasible point
//! (Graver 1975). [`run_climb`] steps along the first vector of a set that helps, as far as the bounds allow, until none
//! helps; where the set is the Graver basis, no feasible point is then cheaper.
#![tactic(auto)]

mod candidates;
mod climbing;
mod commands;
mod ends;
pub mod laws;
mod messages;
mod points;
mod problems;
mod reading;
mod top;

pub use ends::{ClimbEnd, ClimbFile, ClimbStatus};
pub use top::run_climb;
