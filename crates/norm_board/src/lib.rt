//! One norm of a stage that several workers fill at once.
//!
//! The pairs of the norm are cut into numbered blocks. A [`Board`] counts the blocks that were drawn, says who has the turn,
//! and keeps the book: the irreducible sums of the blocks that were put. Each worker steps on it with a [`Pass`] of its own and
//! keeps what it has worked out in a [`Share`]. No call waits, and none takes a runtime value: a worker that finds the turn
//! taken keeps its share and goes on. Whatever the schedule, the closed norm is the same list.
#![tactic(auto)]

mod block;
mod board;
mod book;
pub mod laws;
mod pass;
mod plays;
mod rule;
mod runs;
mod scratch;
mod share;

pub use block::{Block, blocks_of};
pub use board::{Board, CloseRefused, Put};
pub use pass::Pass;
pub use share::{Share, Turn};
