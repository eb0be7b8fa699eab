//! The user's matrices.

use mat_files::{CapGrid, Grid, RelGrid};

/// The matrices of a user's system (4ti2 user manual, "zsolve").
#[derive(Drop)]
pub struct Input {
    /// The coefficients: a row for each inequality or equation, a column for each unknown.
    pub mat: Grid,
    /// The signs of the columns, in one row: 1 for at least 0, -1 for at most 0, 2 for any number. Where there are none, each
    /// column is free for `graver`, and at least 0 for `hilbert`.
    pub sign: Option<Grid>,
    /// How each row stands to its right side, in one row. Where there are none, each row is equal to its right side.
    pub rel: Option<RelGrid>,
    /// The right sides, in one row. Where there are none, each is 0.
    pub rhs: Option<Grid>,
    /// The caps of the columns, in one row: each bounds the absolute value of its column. Where there are none, no column
    /// has one.
    pub cap: Option<CapGrid>,
}
