//! The rows of least support.

ghost use Rattle.std.specs.Prelude.{◌≡◌, ◌≤◌, ◌<◌, ◌^◌, List, ℤ, length, IfOk};
ghost use Rattle.std.specs.List.{AllByRecursion, filter};
ghost use Rattle.solution_files.specs.Outputs.{grid_of};
ghost use Rattle.lift_core.specs.Inside.OrderedRows.{rows_behind};
ghost use Rattle.solution_files.specs.Steps.{AreRows};
ghost use Rattle.system_files.specs.Kernel.{rows_in};
ghost use Rattle.circuit_tool.specs.Circuits.{AreLeastRows};
ghost use Rattle.circuit_tool.specs.Inside.Supports.{is_kept};

use crate::supports::{has_strictly_within, least_supports, support};
use lift_core::put_in_order;
use mat_files::Grid;
use solution_files::lay_out;
use std::alloc::{AllocError, Global};
use system_files::{row, row_count};

// Whether the row is not zero, and none of the supports is strictly within its own.
fn is_kept(least: &[u64], vector: &[i64]) -> bool
    requires { length vector.now ≤ 64 }
    ensures { result ≡ is_kept least.now vector.now }
{
    let word = support(vector);
    word != 0 && !has_strictly_within(least, word)
}

// The rows that are kept.
fn kept_rows<'a>(alloc: Global, set: &'a Grid, least: &[u64]) -> Result<Vec<&'a [i64]>, AllocError>
    requires { set.now.cols ≤ 64 }
    ensures rows { IfOk result
        (λ rows. rows_behind rows.items ≡ filter (is_kept least.now) (rows_in set.now)) }
    ensures shape { IfOk result (λ rows. AreRows set.now.cols (rows_behind rows.items)) }
    ensures count { IfOk result (λ rows. length rows.items < 2 ^ 32) }
{
    let mut rows = Vec::new(alloc);
    for i in 0..row_count(set) {
        let vector = row(set, i);
        if is_kept(least, vector) {
            rows.push(vector)?;
        }
    }
    Ok(rows)
}

// The rows of least support, in lexicographic order, each once.
pub(crate) fn least_rows(alloc: Global, set: &Grid) -> Result<Grid, AllocError>
    requires { set.now.cols ≤ 64 }
    ensures { IfOk result (λ grid. (rows : List (List ℤ)) × AreLeastRows (rows_in set.now) rows
        × AllByRecursion (λ r. length r ≡ set.now.cols) rows × (grid ≡ grid_of set.now.cols rows)) }
{
    let least = least_supports(alloc, set)?;
    let mut rows = kept_rows(alloc, set, &least)?;
    put_in_order(&mut rows);
    lay_out(alloc, set.cols, &rows)
}
