//! Which rows are in the kernel of a matrix.

ghost use Rattle.std.specs.Prelude.{◌≡◌, ◌≤◌, ◌↔◌, ◌<◌, length, IsTrue};
ghost use Rattle.system_files.specs.Kernel.{rows_in, IsKernelRow, FirstOutside};

use crate::{row, row_count};
use int_vector::{dot, norm};
use mat_files::Grid;

// Whether the vector's norm is in range, and its product with each row of the matrix is 0.
fn is_kernel_row(mat: &Grid, v: &[i64]) -> bool
    requires { length v.now ≡ mat.now.cols }
    ensures { IsTrue result ↔ IsKernelRow (rows_in mat.now) v.now }
{
    if norm(v).is_none() {
        return false;
    }
    for i in 0..row_count(mat) {
        if dot(row(mat, i), v) != Some(0) {
            return false;
        }
    }
    true
}

/// The number, from 1, of the first row of `set` whose norm is above 2^63-1 or whose product with some row of `mat` is
/// not 0; none where each row is in the kernel of `mat`. Both have equally many columns. It takes no memory.
#[tactic(auto, using(crate::proofs::Cutting::row_laws))]
pub fn kernel_fault(mat: &Grid, set: &Grid) -> Option<u32>
    requires columns { mat.now.cols ≡ set.now.cols }
    requires most { mat.now.cols ≤ 64 }
    ensures { FirstOutside (rows_in mat.now) (rows_in set.now) result }
{
    for i in 0..set.rows {
        if !is_kernel_row(mat, row(set, i as usize)) {
            return Some(i + 1);
        }
    }
    None
}
