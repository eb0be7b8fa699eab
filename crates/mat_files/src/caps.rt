//! Matrices of caps.

ghost use Rattle.std.specs.Prelude.{◌≡◌, ◌≤◌, ◌^◌, IfOk, Ok};
ghost use Rattle.mat_files.specs.Cells.{cap_at, cap_table_of, CapTable};
ghost use Rattle.mat_files.specs.Answers.{Gives};
ghost use Rattle.mat_files.specs.Grammar.{IsCapTextOf, IsCapWithin};

use crate::numerals::cap;
use crate::scanning::TextWord;
use crate::tables::{Cell, read_table};
use crate::{TextEnd, TextFault};
use std::alloc::Global;
use std::marker::Model;

impl Cell for Option<u64> {
    ghost cell_at = { cap_at };

    fn read(word: &TextWord<'_>) -> Result<Option<u64>, TextFault> {
        cap(word)
    }
}

/// A matrix of caps: the counts of rows and columns, and the cells row by row.
#[derive(Drop)]
pub struct CapGrid {
    /// How many rows there are; none is fine.
    pub rows: u32,
    /// How many columns there are, at least 1.
    pub cols: u32,
    /// The `rows * cols` cells, row by row: `None` where there is no cap, and else the cap, at most 2^63 - 1.
    pub cells: Vec<Option<u64>>,
}

impl Model for CapGrid {
    ghost use Rattle.mat_files.specs.Cells.{CapTable};
    ghost use Rattle.mat_files.specs.Grids.{AreCapCells};

    ghost Value = { CapTable };

    ghost view = { λ g. record { rows = g.rows; cols = g.cols; cells = g.cells.items } };

    ghost invariant = { λ g. AreCapCells g.rows g.cols g.cells.items };
}

// The matrix that the text spells within the limits, or the text's first fault.
fn read_caps(alloc: Global, bytes: &[u8], max_rows: u32, max_cols: u32) -> Result<CapGrid, TextEnd>
    requires rows { max_rows ≤ 2 ^ 21 }
    requires cols { max_cols ≤ 64 }
    ensures { Gives (λ grid. grid) result (cap_table_of max_rows max_cols bytes.now) }
{
    let table = read_table(alloc, bytes, max_rows, max_cols)?;
    Ok(CapGrid {
        rows: table.rows,
        cols: table.cols,
        cells: table.cells,
    })
}

/// The caps that the text spells within the limits, or the text's first fault in reading order.
///
/// The text and the limits are as for [`crate::read_grid`], with each cell `*`, for no cap, or a count: one or more
/// digits behind an optional `+`, of a value up to 2^63 - 1.
///
/// # Errors
/// `Bad` with the first fault, and `Memory` where memory ran out.
pub fn read_cap(
    alloc: Global,
    bytes: &[u8],
    max_rows: u32,
    max_cols: u32,
) -> Result<CapGrid, TextEnd>
    requires rows { max_rows ≤ 2 ^ 21 }
    requires cols { max_cols ≤ 64 }

    // What is read is spelled so.
    ensures found { IfOk result
        (λ grid. IsCapTextOf bytes.now grid × IsCapWithin max_rows max_cols grid) }

    // What is spelled so is read, unless memory runs out.
    ensures only { (m : CapTable) → IsCapTextOf bytes.now m → IsCapWithin max_rows max_cols m
        → Gives (λ grid. grid) result (Ok m) }

    // Else the first fault is answered.
    ensures exact { Gives (λ grid. grid) result (cap_table_of max_rows max_cols bytes.now) }
    ensures limits { IfOk result
        (λ grid. (grid.rows ≤ max_rows) × (grid.cols ≤ max_cols) × (1 ≤ grid.cols)) }
{
    read_caps(alloc, bytes, max_rows, max_cols)
}
