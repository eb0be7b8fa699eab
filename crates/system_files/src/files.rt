//! Reading one file.

ghost use Rattle.std.specs.Prelude.{◌≡◌, ◌≤◌, ◌^◌, ◌++◌, IfOk, IfSome, string_bytes};
ghost use Rattle.std.specs.Option.{option_map};
ghost use Rattle.std.specs.FinMap.{get};
ghost use Rattle.mat_files.specs.Cells.{matrix_of, relation_table_of, cap_table_of};
ghost use Rattle.system_files.specs.Files.{text_in, spelled, optional_grid_in, grid_in, optional_relations_in, optional_caps_in, Reads, ReadsBy, HasFileCause};

use crate::{FileEnd, FileFault};
use mat_files::{CapGrid, Grid, RelGrid, read_cap, read_grid, read_rel};
use outside::{Folder, read_all};
use std::alloc::{AllocError, Global};

/// The name of a project's file: the project, followed by the ending.
pub fn file_name(alloc: Global, project: &str, ending: &str) -> Result<String, AllocError>
    ensures { IfOk result (λ name. string_bytes name ≡ project.now ++ ending.now) }
{
    let mut name = String::from_str(alloc, project)?;
    name.push_str(ending)?;
    Ok(name)
}

// The file's bytes, none where it is not there.
fn read_text<F: Folder>(
    alloc: Global,
    folder: &mut F,
    project: &str,
    ending: &str,
    limit: u64,
) -> Result<Option<Vec<u8>>, FileEnd>
    ensures same { F.held folder.new ≡ F.held folder.old }
    ensures text { IfSome (F.held folder.old)
        (λ files. ReadsBy (λ found. option_map (λ v. v.items) found) result
        (text_in limit (get files (project.now ++ ending.now)))) }
    ensures cause { HasFileCause (F.faults folder.old) (F.faults folder.new) result }
{
    let name = file_name(alloc, project, ending)?;
    let text = read_all(alloc, folder, name.as_str(), limit)?;
    Ok(text)
}

// The matrix that the text spells, where there is one.
fn parse_grid(
    alloc: Global,
    text: &Option<Vec<u8>>,
    max_rows: u32,
    max_cols: u32,
) -> Result<Option<Grid>, FileEnd>
    requires rows { max_rows ≤ 2 ^ 21 }
    requires cols { max_cols ≤ 64 }
    ensures grid { Reads result
        (spelled (matrix_of max_rows max_cols) (option_map (λ v. v.items) text.now)) }
    ensures limits { IfOk result
        (λ found. IfSome found (λ grid. (grid.rows ≤ max_rows) × (grid.cols ≤ max_cols))) }
    ensures calm { result ≡ Err FileEnd.Failed → ⊥ }
{
    let Some(text) = text else {
        return Ok(None);
    };
    let grid = read_grid(alloc, text, max_rows, max_cols)?;
    Ok(Some(grid))
}

// The relations that the text spells, where there is one.
fn parse_relations(
    alloc: Global,
    text: &Option<Vec<u8>>,
    max_rows: u32,
    max_cols: u32,
) -> Result<Option<RelGrid>, FileEnd>
    requires rows { max_rows ≤ 2 ^ 21 }
    requires cols { max_cols ≤ 64 }
    ensures relations { Reads result
        (spelled (relation_table_of max_rows max_cols) (option_map (λ v. v.items) text.now)) }
    ensures calm { result ≡ Err FileEnd.Failed → ⊥ }
{
    let Some(text) = text else {
        return Ok(None);
    };
    let relations = read_rel(alloc, text, max_rows, max_cols)?;
    Ok(Some(relations))
}

// The caps that the text spells, where there is one.
fn parse_caps(
    alloc: Global,
    text: &Option<Vec<u8>>,
    max_rows: u32,
    max_cols: u32,
) -> Result<Option<CapGrid>, FileEnd>
    requires rows { max_rows ≤ 2 ^ 21 }
    requires cols { max_cols ≤ 64 }
    ensures caps { Reads result
        (spelled (cap_table_of max_rows max_cols) (option_map (λ v. v.items) text.now)) }
    ensures calm { result ≡ Err FileEnd.Failed → ⊥ }
{
    let Some(text) = text else {
        return Ok(None);
    };
    let caps = read_cap(alloc, text, max_rows, max_cols)?;
    Ok(Some(caps))
}

// The matrix in the file, none where it is not there.
pub(crate) fn read_optional_grid<F: Folder>(
    alloc: Global,
    folder: &mut F,
    project: &str,
    ending: &str,
    limit: u64,
    max_rows: u32,
    max_cols: u32,
) -> Result<Option<Grid>, FileEnd>
    requires rows { max_rows ≤ 2 ^ 21 }
    requires cols { max_cols ≤ 64 }
    ensures same { F.held folder.new ≡ F.held folder.old }
    ensures grid { IfSome (F.held folder.old) (λ files. Reads result
        (optional_grid_in limit max_rows max_cols (get files (project.now ++ ending.now)))) }
    ensures limits { IfOk result
        (λ found. IfSome found (λ grid. (grid.rows ≤ max_rows) × (grid.cols ≤ max_cols))) }
    ensures cause { HasFileCause (F.faults folder.old) (F.faults folder.new) result }
{
    let text = read_text(alloc, folder, project, ending, limit)?;
    parse_grid(alloc, &text, max_rows, max_cols)
}

// The relations in the file, none where it is not there.
pub(crate) fn read_optional_relations<F: Folder>(
    alloc: Global,
    folder: &mut F,
    project: &str,
    ending: &str,
    limit: u64,
    max_rows: u32,
    max_cols: u32,
) -> Result<Option<RelGrid>, FileEnd>
    requires rows { max_rows ≤ 2 ^ 21 }
    requires cols { max_cols ≤ 64 }
    ensures same { F.held folder.new ≡ F.held folder.old }
    ensures relations { IfSome (F.held folder.old) (λ files. Reads result
        (optional_relations_in limit max_rows max_cols (get files (project.now ++ ending.now)))) }
    ensures cause { HasFileCause (F.faults folder.old) (F.faults folder.new) result }
{
    let text = read_text(alloc, folder, project, ending, limit)?;
    parse_relations(alloc, &text, max_rows, max_cols)
}

// The caps in the file, none where it is not there.
pub(crate) fn read_optional_caps<F: Folder>(
    alloc: Global,
    folder: &mut F,
    project: &str,
    ending: &str,
    limit: u64,
    max_rows: u32,
    max_cols: u32,
) -> Result<Option<CapGrid>, FileEnd>
    requires rows { max_rows ≤ 2 ^ 21 }
    requires cols { max_cols ≤ 64 }
    ensures same { F.held folder.new ≡ F.held folder.old }
    ensures caps { IfSome (F.held folder.old) (λ files. Reads result
        (optional_caps_in limit max_rows max_cols (get files (project.now ++ ending.now)))) }
    ensures cause { HasFileCause (F.faults folder.old) (F.faults folder.new) result }
{
    let text = read_text(alloc, folder, project, ending, limit)?;
    parse_caps(alloc, &text, max_rows, max_cols)
}

/// The matrix in the file whose name is `project` followed by `ending`. The file has at most `limit` bytes, and the
/// matrix at most `max_rows` rows (at most 2^21) and `max_cols` columns (at most 64).
///
/// # Errors
/// `Bad` with `Missing` where there is no such file, with `TooLong` where its length is above the limit, and with the
/// first fault of its text; `Failed` where the folder failed, and `Memory` where memory ran out.
pub fn read_grid_file<F: Folder>(
    alloc: Global,
    folder: &mut F,
    project: &str,
    ending: &str,
    limit: u64,
    max_rows: u32,
    max_cols: u32,
) -> Result<Grid, FileEnd>
    requires rows { max_rows ≤ 2 ^ 21 }
    requires cols { max_cols ≤ 64 }

    // The folder is as it was.
    ensures same { F.held folder.new ≡ F.held folder.old }

    // Each refusal is the file's own, and the matrix is what the file says.
    ensures grid { IfSome (F.held folder.old) (λ files. Reads result
        (grid_in limit max_rows max_cols (get files (project.now ++ ending.now)))) }
    ensures limits { IfOk result (λ grid. (grid.rows ≤ max_rows) × (grid.cols ≤ max_cols)) }

    // A failure is answered only where the folder's count of faults rose.
    ensures cause { HasFileCause (F.faults folder.old) (F.faults folder.new) result }
{
    let found = read_optional_grid(alloc, folder, project, ending, limit, max_rows, max_cols)?;
    match found {
        Some(grid) => Ok(grid),
        None => Err(FileEnd::Bad(FileFault::Missing)),
    }
}
