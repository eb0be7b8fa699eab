//! Printing matrices.

ghost use Rattle.std.specs.Prelude.{◌≡◌, ◌<◌, ◌*◌, ◌^◌, ◌++◌, length, take, decimal, IfOk, OnOk, OnErr};
ghost use Rattle.std.specs.Fmt.{signed_decimal};
ghost use Rattle.mat_files.specs.Grids.{IsMatrix};
ghost use Rattle.mat_files.specs.Grammar.{IsTextOf, ReadsAs};
ghost use Rattle.mat_files.specs.Texts.{head_of, line_of};
ghost use Rattle.mat_files.specs.Printed.{lines_of, text_of};

use crate::Grid;
use itoa::Buffer;
use std::alloc::{AllocError, Global};

// Adds one cell.
fn push_cell(line: &mut Vec<u8>, cell: i64) -> Result<(), AllocError>
    ensures ok { OnOk result (line.new.items ≡ line.old.items ++ signed_decimal cell) }
    ensures err { OnErr result (line.new.items ≡ line.old.items) }
{
    let mut buffer = Buffer::new();
    line.extend_from_slice(buffer.format(cell).as_bytes())
}

// Adds a number in digits.
fn push_count(line: &mut Vec<u8>, count: u32) -> Result<(), AllocError>
    ensures { OnOk result (line.new.items ≡ line.old.items ++ decimal count) }
{
    let mut buffer = Buffer::new();
    line.extend_from_slice(buffer.format(count).as_bytes())
}

// Adds the cells, joined by one space, and the end of the line. An error may leave a part.
fn push_cells(line: &mut Vec<u8>, cells: &[i64]) -> Result<(), AllocError>
    ensures ok { OnOk result (line.new.items ≡ line.old.items ++ line_of cells.now) }
    ensures grows { take (length line.old.items) line.new.items ≡ line.old.items }
{
    let mut rest = cells;
    while let [first, others @ ..] = rest {
        push_cell(line, *first)?;
        if !others.is_empty() {
            line.push(b' ')?;
        }
        rest = others;
    }
    line.push(b'\n')?;
    Ok(())
}

/// Adds the cells, joined by one space, and LF.
///
/// # Errors
/// Memory ran out, and the line is as it was.
pub fn print_line(cells: &[i64], line: &mut Vec<u8>) -> Result<(), AllocError>
    ensures ok { OnOk result (line.new.items ≡ line.old.items ++ line_of cells.now) }
    ensures err { OnErr result (line.new.items ≡ line.old.items) }
{
    let start = line.len();
    let pushed = push_cells(line, cells);
    if pushed.is_err() {
        line.truncate(start);
    }
    pushed
}

// Adds a line for each row.
fn push_lines(text: &mut Vec<u8>, rows: u32, cols: u32, cells: &[i64]) -> Result<(), AllocError>
    requires { length cells.now ≡ rows * cols }
    ensures { OnOk result (text.new.items ≡ text.old.items ++ lines_of rows cols cells.now) }
{
    let mut rest = cells;
    for _row in 0..rows {
        let (row, others) = rest.split_at(cols as usize);
        print_line(row, text)?;
        rest = others;
    }
    Ok(())
}

// Adds the line of the two counts.
fn push_head(text: &mut Vec<u8>, rows: u32, cols: u32) -> Result<(), AllocError>
    ensures { OnOk result (text.new.items ≡ text.old.items ++ head_of rows cols) }
{
    push_count(text, rows)?;
    text.push(b' ')?;
    push_count(text, cols)?;
    text.push(b'\n')?;
    Ok(())
}

// The two counts, and a line for each row.
fn print_matrix(alloc: Global, grid: &Grid) -> Result<Vec<u8>, AllocError>
    ensures text { IfOk result (λ text. text.items ≡ text_of grid.now) }
    ensures kept { IsMatrix grid.now.rows grid.now.cols grid.now.cells }
    ensures rows { grid.now.rows < 2 ^ 32 }
    ensures cols { grid.now.cols < 2 ^ 32 }
{
    let mut text = Vec::new(alloc);
    push_head(&mut text, grid.rows, grid.cols)?;
    push_lines(&mut text, grid.rows, grid.cols, &grid.cells)?;
    Ok(text)
}

/// The text of the matrix: the counts of rows and columns in the first line, and a line for each row.
///
/// # Errors
/// Memory ran out.
pub fn print_grid(alloc: Global, grid: &Grid) -> Result<Vec<u8>, AllocError>
    ensures text { IfOk result (λ text. text.items ≡ text_of grid.now) }

    // What is printed reads back.
    ensures spelled { IfOk result (λ text. IsTextOf text.items grid.now) }
    ensures reads_back { IfOk result (λ text. ReadsAs text.items grid.now) }
{
    print_matrix(alloc, grid)
}
