//! The circuits of a matrix, from its Graver basis.
//!
//! A circuit is a nonzero whole vector of the kernel with coprime entries, whose support holds that of no other nonzero
//! vector of the kernel strictly inside (Sturmfels, "Groebner Bases and Convex Polytopes", chapter 4). [`run_circuits`]
//! writes the rows of a set of least support; of a Graver basis they are exactly the circuits.
#![tactic(auto)]

mod ends;
pub mod laws;
mod messages;
mod projects;
mod reading;
mod selection;
mod supports;
mod top;

pub use ends::{CirEnd, CirFile, CirStatus};
pub use top::run_circuits;
