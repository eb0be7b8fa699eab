//! The system of equations that the user's matrices stand for.
//!
//! A user's system has inequalities and right sides. The system that is solved has equations with right side 0, over
//! the user's columns, a slack column for each inequality, and for `zsolve` the homogenising column x0.
#![tactic(auto)]

mod columns;
mod equations;
mod faults;
mod files;
mod first_fault;
pub mod laws;
mod shaping;
mod table_matrix;

pub use faults::{ShapeEnd, ShapeFault};
pub use files::Input;
pub use shaping::shape;
pub use table_matrix::tables;
