//! Writing a grid into a file, line by line.

ghost use Rattle.std.specs.Prelude.{◌≡◌, ℕ, List, Option, OnOk, OnErr};
ghost use Rattle.std.specs.Option.{option_map};
ghost use Rattle.outside.specs.Causes.{HasCause};
ghost use Rattle.outside.specs.Files.{Files, appended, MayAppend, written, MayWrite};
ghost use Rattle.outside.specs.Inside.Writing.{IsPartWritten};
ghost use Rattle.mat_files.specs.Texts.{line_of};
ghost use Rattle.mat_files.specs.Printed.{lines_of, text_of};

use mat_files::{Grid, print_line};
use outside::{Folder, PutEnd};
use std::alloc::Global;

// Appends the line of the cells.
fn append_line<F: Folder>(
    folder: &mut F,
    name: &str,
    cells: &[i64],
    line: &mut Vec<u8>,
) -> Result<(), PutEnd>
    ensures done { OnOk result
        (F.held folder.new
        ≡ option_map (appended name.now (line_of cells.now)) (F.held folder.old)) }
    ensures refused { OnErr result
        (MayAppend name.now (line_of cells.now) (F.held folder.old) (F.held folder.new)) }
    ensures cause { HasCause (F.faults folder.old) (F.faults folder.new) result }
{
    line.clear();
    print_line(cells, line)?;
    folder.append(name, line)
}

// Appends a line for each row, where these lines are the rest of a text.
fn append_rows<F: Folder>(
    folder: &mut F,
    name: &str,
    grid: &Grid,
    line: &mut Vec<u8>,
) -> Result<(), PutEnd>
    ensures done { (text : List ℕ) (before : Option Files)
        → IsPartWritten name.now text (lines_of grid.now.rows grid.now.cols grid.now.cells)
        before (F.held folder.old)
        → OnOk result (F.held folder.new ≡ option_map (written name.now text) before) }
    ensures refused { (text : List ℕ) (before : Option Files)
        → IsPartWritten name.now text (lines_of grid.now.rows grid.now.cols grid.now.cells)
        before (F.held folder.old)
        → OnErr result (MayWrite name.now text before (F.held folder.new)) }
    ensures cause { HasCause (F.faults folder.old) (F.faults folder.new) result }
{
    let mut rest = grid.cells.as_slice();
    for _row in 0..grid.rows {
        let (row, others) = rest.split_at(grid.cols as usize);
        append_line(folder, name, row, line)?;
        rest = others;
    }
    Ok(())
}

/// Writes the grid into the file: begins it anew, and appends the text of `print_grid` line by line.
///
/// All other files stay as they are. It takes memory for one line.
///
/// # Errors
/// `Failed` where the folder failed, and `Memory` where memory ran out. The file is then as before, empty, or a prefix
/// of the text.
pub fn write_grid<F: Folder>(
    alloc: Global,
    folder: &mut F,
    name: &str,
    grid: &Grid,
) -> Result<(), PutEnd>
    ensures done { OnOk result
        (F.held folder.new ≡ option_map (written name.now (text_of grid.now)) (F.held folder.old)) }
    ensures refused { OnErr result
        (MayWrite name.now (text_of grid.now) (F.held folder.old) (F.held folder.new)) }
    ensures cause { HasCause (F.faults folder.old) (F.faults folder.new) result }
{
    folder.begin(name)?;
    let mut line = Vec::new(alloc);
    let counts = [i64::from(grid.rows), i64::from(grid.cols)];
    append_line(folder, name, &counts, &mut line)?;
    append_rows(folder, name, grid, &mut line)
}
