//! The run of the lifting: each norm of each stage is closed in turn, by several workers, within a budget of pairs and one of
//! rows, and a Keep is told of it.
#![tactic(auto)]

mod ends;
mod keeping;
pub mod laws;
mod norms;
mod stages;

pub use ends::{Limits, Place, RunEnd};
pub use keeping::{Keep, NoKeep};
pub use norms::Norms;
pub use stages::{run, run_system, run_with};
