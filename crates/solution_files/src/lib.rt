//! From the finished rows of a run to the rows that are written, and the writing of their file.
//!
//! A solution file has the counts of rows and columns in its first line and a line for each row (4ti2 user manual,
//! "Matrix files"). Its rows are the minimal solutions of one kind in the user's columns, in lexicographic order.
#![tactic(auto)]

pub mod laws;
mod output;
mod selection;

pub use output::write_grid;
pub use selection::{Kind, lay_out, select};
