//! Lifting of minimal solutions from one equation to the next: the definitions, their laws, and the system that is lifted.
#![tactic(auto)]

mod capped;
pub mod halves;
mod int_row;
pub mod laws;
mod machine;
mod ordering;
mod system;

pub use int_row::IntRow;
pub use machine::{Core, Event, StepEnd};
pub use ordering::put_in_order;
pub use system::System;

/// What a system is solved for, after the commands of 4ti2.
#[derive(Clone, Copy, Debug, PartialEq, Eq, Drop)]
pub enum Tool {
    /// The minimal solutions with any sign, in the order of Graver (1975): of a matrix alone, its Graver basis.
    Graver,
    /// The minimal solutions with given signs: of a cone, its Hilbert basis.
    Hilbert,
    /// The minimal homogeneous and inhomogeneous solutions of equations and inequalities.
    Zsolve,
}
