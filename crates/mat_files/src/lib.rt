//! Matrices as texts: a reader that names the first fault and its place, and the printer.
//!
//! A text has the count of rows, the count of columns and the cells row by row, as words between
//! white space: the matrix files of 4ti2 (user manual), with a limit on the counts and each number
//! of absolute value at most 2^63 - 1.
#![tactic(auto)]

mod caps;
mod faults;
mod grid;
mod numerals;
mod printing;
mod relations;
mod scanning;
mod tables;

pub use caps::{CapGrid, read_cap};
pub use faults::{TextEnd, TextFault};
pub use grid::{Grid, read_grid};
pub use printing::{print_grid, print_line};
pub use relations::{Rel, RelGrid, read_rel};
