//! Matrices of relations.

ghost use Rattle.std.specs.Prelude.{◌≡◌, ◌≤◌, ◌^◌, IfOk, Ok};
ghost use Rattle.mat_files.specs.Cells.{relation_at, relation_table_of, Relations};
ghost use Rattle.mat_files.specs.Answers.{Gives};
ghost use Rattle.mat_files.specs.Grammar.{IsRelTextOf, IsRelWithin};

use crate::scanning::TextWord;
use crate::tables::{Cell, read_table};
use crate::{TextEnd, TextFault};
use std::alloc::Global;
use std::marker::Model;

/// How a row stands to its right side.
#[derive(Clone, Copy, Debug, PartialEq, Eq)]
pub enum Rel {
    /// `<`: the row is at most its right side.
    Most,
    /// `>`: the row is at least its right side.
    Least,
    /// `=`: the row is equal to its right side.
    Equal,
}

impl Cell for Rel {
    ghost cell_at = { relation_at };

    fn read(word: &TextWord<'_>) -> Result<Rel, TextFault> {
        match word.bytes {
            [b'<'] => Ok(Rel::Most),
            [b'>'] => Ok(Rel::Least),
            [b'='] => Ok(Rel::Equal),
            _ => Err(TextFault::NotRelation { at: word.at }),
        }
    }
}

/// A matrix of relations: the counts of rows and columns, and the cells row by row.
#[derive(Drop)]
pub struct RelGrid {
    /// How many rows there are; none is fine.
    pub rows: u32,
    /// How many columns there are, at least 1.
    pub cols: u32,
    /// The `rows * cols` cells, row by row.
    pub cells: Vec<Rel>,
}

impl Model for RelGrid {
    ghost use Rattle.mat_files.specs.Cells.{Relations};
    ghost use Rattle.mat_files.specs.Grids.{AreRelations};

    ghost Value = { Relations };

    ghost view = { λ g. record { rows = g.rows; cols = g.cols; cells = g.cells.items } };

    ghost invariant = { λ g. AreRelations g.rows g.cols g.cells.items };
}

// The matrix that the text spells within the limits, or the text's first fault.
fn read_relations(
    alloc: Global,
    bytes: &[u8],
    max_rows: u32,
    max_cols: u32,
) -> Result<RelGrid, TextEnd>
    requires rows { max_rows ≤ 2 ^ 21 }
    requires cols { max_cols ≤ 64 }
    ensures { Gives (λ grid. grid) result (relation_table_of max_rows max_cols bytes.now) }
{
    let table = read_table(alloc, bytes, max_rows, max_cols)?;
    Ok(RelGrid {
        rows: table.rows,
        cols: table.cols,
        cells: table.cells,
    })
}

/// The relations that the text spells within the limits, or the text's first fault in reading order.
///
/// The text and the limits are as for [`crate::read_grid`], with each cell one of `<`, `>` and `=`.
///
/// # Errors
/// `Bad` with the first fault, and `Memory` where memory ran out.
pub fn read_rel(
    alloc: Global,
    bytes: &[u8],
    max_rows: u32,
    max_cols: u32,
) -> Result<RelGrid, TextEnd>
    requires rows { max_rows ≤ 2 ^ 21 }
    requires cols { max_cols ≤ 64 }

    // What is read is spelled so.
    ensures found { IfOk result
        (λ grid. IsRelTextOf bytes.now grid × IsRelWithin max_rows max_cols grid) }

    // What is spelled so is read, unless memory runs out.
    ensures only { (m : Relations) → IsRelTextOf bytes.now m → IsRelWithin max_rows max_cols m
        → Gives (λ grid. grid) result (Ok m) }

    // Else the first fault is answered.
    ensures exact { Gives (λ grid. grid) result (relation_table_of max_rows max_cols bytes.now) }
    ensures limits { IfOk result
        (λ grid. (grid.rows ≤ max_rows) × (grid.cols ≤ max_cols) × (1 ≤ grid.cols)) }
{
    read_relations(alloc, bytes, max_rows, max_cols)
}
