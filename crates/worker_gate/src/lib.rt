//! The workers of one norm: each draws blocks from the board, works them out, and puts them into the book.
//!
//! Workers run in threads of their own, and wait for nobody. A [`Gate`] is told of the points that a worker passes, so that a
//! test can hold one there; the program's own gate does nothing.
#![tactic(auto)]

mod gate;
mod record;
mod team;
mod worker;

pub use gate::{FreeGate, Gate, Point};
pub use team::run_norm;
pub use worker::work;
