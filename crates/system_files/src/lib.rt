//! The files of a project, as the programs read them: each file within its limits, the user's system, and sets of
//! vectors of the kernel.
//!
//! One implementation reads the input of every program: [`read_shaped`] takes a project's files in their order, each
//! before the next is looked at, and stops at the first fault.
#![tactic(auto)]

mod faults;
mod files;
mod kernel;
mod rows;
mod sources;
mod systems;

pub use faults::{FileEnd, FileFault, InputEnd, InputFault, InputStop};
pub use files::{file_name, read_grid_file};
pub use kernel::kernel_fault;
pub use rows::{row, row_count};
pub use sources::Source;
pub use systems::{Shaped, read_shaped, read_system, shape_input};
