//! The tables with three rows whose row sums and column sums are 0.

ghost use Rattle.std.specs.Prelude.{◌≡◌, ◌≤◌, ◌++◌, IfOk, OnOk};
ghost use Rattle.std.specs.List.{flat_map, range_with_len};
ghost use Rattle.system_shape.specs.Tables.{mark, row_sum, column_sum, tables_input};

use crate::Input;
use mat_files::Grid;
use std::alloc::{AllocError, Global};

// The coefficient of a cell in a sum: 1 where it stands in the row or column that is summed.
fn mark(here: bool) -> i64
    ensures { result ≡ mark here }
{
    if here { 1 } else { 0 }
}

// Adds the sum of table row i.
fn push_row_sum(cells: &mut Vec<i64>, k: u32, i: u32) -> Result<(), AllocError>
    requires { (2 ≤ k) × (k ≤ 20) }
    ensures { OnOk result (cells.new.items ≡ cells.old.items ++ row_sum k i) }
{
    for c in 0..3 * k {
        cells.push(mark(c / k == i))?;
    }
    Ok(())
}

// Adds the sum of table column j.
fn push_column_sum(cells: &mut Vec<i64>, k: u32, j: u32) -> Result<(), AllocError>
    requires { (2 ≤ k) × (k ≤ 20) }
    ensures { OnOk result (cells.new.items ≡ cells.old.items ++ column_sum k j) }
{
    for c in 0..3 * k {
        cells.push(mark(c % k == j))?;
    }
    Ok(())
}

// Adds the three row sums.
fn push_row_sums(cells: &mut Vec<i64>, k: u32) -> Result<(), AllocError>
    requires { (2 ≤ k) × (k ≤ 20) }
    ensures { OnOk result
        (cells.new.items ≡ cells.old.items ++ flat_map (row_sum k) (range_with_len 0 3)) }
{
    for i in 0..3 {
        push_row_sum(cells, k, i)?;
    }
    Ok(())
}

// Adds the k column sums.
fn push_column_sums(cells: &mut Vec<i64>, k: u32) -> Result<(), AllocError>
    requires { (2 ≤ k) × (k ≤ 20) }
    ensures { OnOk result
        (cells.new.items ≡ cells.old.items ++ flat_map (column_sum k) (range_with_len 0 k)) }
{
    for j in 0..k {
        push_column_sum(cells, k, j)?;
    }
    Ok(())
}

/// The matrix of the 3 x k tables, and no further file. The cell of table row i and table column j, counted from 1, is
/// column (i - 1) k + j of the matrix. The rows of the matrix are the three row sums and then the k column sums, so that
/// its kernel has the tables whose sums are all 0 (Diaconis and Sturmfels, "Algebraic algorithms for sampling from
/// conditional distributions").
pub fn tables(alloc: Global, k: u32) -> Result<Input, AllocError>
    requires { (2 ≤ k) × (k ≤ 20) }
    ensures made { IfOk result (λ input. input ≡ tables_input k) }
    ensures limits { IfOk result (λ input. (input.mat.rows ≤ 64) × (input.mat.cols ≤ 64)) }
{
    let mut cells = Vec::new(alloc);
    push_row_sums(&mut cells, k)?;
    push_column_sums(&mut cells, k)?;
    let mat = Grid {
        rows: 3 + k,
        cols: 3 * k,
        cells,
    };
    Ok(Input {
        mat,
        sign: None,
        rel: None,
        rhs: None,
        cap: None,
    })
}
