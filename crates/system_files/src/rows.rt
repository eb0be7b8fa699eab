//! The rows of a matrix.

ghost use Rattle.std.specs.Prelude.{◌≡◌, ◌<◌, ◌^◌, [], length, All, slice_index_or};
ghost use Rattle.int_vector.specs.Range.{InRange};
ghost use Rattle.system_files.specs.Kernel.{rows_in};

use mat_files::Grid;

/// The number of rows.
#[tactic(auto, using(crate::proofs::Cutting::row_laws))]
pub fn row_count(grid: &Grid) -> usize
    ensures count { result ≡ length (rows_in grid.now) }
    ensures rows { result ≡ grid.now.rows }
    ensures small { result < 2 ^ 32 }
{
    grid.rows as usize
}

/// The i-th row of the matrix, counted from 0.
pub fn row(grid: &Grid, i: usize) -> &[i64]
    requires { i < grid.now.rows }
    ensures row { result.now ≡ slice_index_or (rows_in grid.now) i [] }
    ensures width { length result.now ≡ grid.now.cols }
    ensures range { All InRange result.now }
{
    let width = grid.cols as usize;
    let start = i * width;
    &grid.cells[start..start + width]
}
