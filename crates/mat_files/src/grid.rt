//! Matrices of whole numbers.

ghost use Rattle.std.specs.Prelude.{◌≡◌, ◌≤◌, ◌^◌, IfOk, Ok};
ghost use Rattle.mat_files.specs.Cells.{matrix_of, Matrix};
ghost use Rattle.mat_files.specs.Answers.{Gives};
ghost use Rattle.mat_files.specs.Grammar.{IsTextOf, IsMatrixWithin};

use crate::TextEnd;
use crate::tables::read_table;
use std::alloc::Global;
use std::marker::Model;

/// A matrix: the counts of rows and columns, and the cells row by row.
#[derive(Drop)]
pub struct Grid {
    /// How many rows there are; none is fine.
    pub rows: u32,
    /// How many columns there are, at least 1.
    pub cols: u32,
    /// The `rows * cols` cells, row by row, each of absolute value at most 2^63 - 1.
    pub cells: Vec<i64>,
}

impl Model for Grid {
    ghost use Rattle.mat_files.specs.Cells.{Matrix};
    ghost use Rattle.mat_files.specs.Grids.{IsMatrix, matrix_code};

    ghost Value = { Matrix };

    ghost coded = { matrix_code };

    ghost view = { λ g. record { rows = g.rows; cols = g.cols; cells = g.cells.items } };

    ghost invariant = { λ g. IsMatrix g.rows g.cols g.cells.items };
}

// The matrix that the text spells within the limits, or the text's first fault.
fn read_matrix(alloc: Global, bytes: &[u8], max_rows: u32, max_cols: u32) -> Result<Grid, TextEnd>
    requires rows { max_rows ≤ 2 ^ 21 }
    requires cols { max_cols ≤ 64 }
    ensures { Gives (λ grid. grid) result (matrix_of max_rows max_cols bytes.now) }
{
    let table = read_table(alloc, bytes, max_rows, max_cols)?;
    Ok(Grid {
        rows: table.rows,
        cols: table.cols,
        cells: table.cells,
    })
}

/// The matrix that the text spells within the limits, or the text's first fault in reading order.
///
/// The words of the text are the count of rows, the count of columns, the cells row by row, and
/// nothing else. White space is space, tab, LF, CR, VT and FF; a word is a longest run of other
/// bytes. A number is an optional `+` or `-` and one or more digits, a count a number without `-`.
/// Each absolute value is at most 2^63 - 1, and there is a column.
///
/// `max_rows` is at most 2^21 and `max_cols` at most 64. Reading is one pass over the bytes, and
/// takes memory for the cells alone.
///
/// # Errors
/// `Bad` with the first fault, and `Memory` where memory ran out.
pub fn read_grid(alloc: Global, bytes: &[u8], max_rows: u32, max_cols: u32) -> Result<Grid, TextEnd>
    requires rows { max_rows ≤ 2 ^ 21 }
    requires cols { max_cols ≤ 64 }

    // What is read is spelled so.
    ensures found { IfOk result
        (λ grid. IsTextOf bytes.now grid × IsMatrixWithin max_rows max_cols grid) }

    // What is spelled so is read, unless memory runs out.
    ensures only { (m : Matrix) → IsTextOf bytes.now m → IsMatrixWithin max_rows max_cols m
        → Gives (λ grid. grid) result (Ok m) }

    // Else the first fault is answered.
    ensures exact { Gives (λ grid. grid) result (matrix_of max_rows max_cols bytes.now) }
    ensures limits { IfOk result
        (λ grid. (grid.rows ≤ max_rows) × (grid.cols ≤ max_cols) × (1 ≤ grid.cols)) }
{
    read_matrix(alloc, bytes, max_rows, max_cols)
}
