//! Reading the set and the point.
ghost use Rattle.std.specs.Prelude.{◌≡◌, ◌≤◌, ◌++◌, IfOk, IfSome, Err};
ghost use Rattle.std.specs.FinMap.{get};
ghost use Rattle.system_files.specs.Files.{grid_in};
ghost use Rattle.decompose_tool.specs.Endings.{ending};
ghost use Rattle.decompose_tool.specs.Ends.{HasCause};
ghost use Rattle.decompose_tool.specs.Sets.{placed, at, limits_of, first_file, second_in, fitting, second_fitting, point_fitting, all_fitting, found_in, sets_in, Finds};

use crate::DecFile;
use crate::ends::Stop;
use lift_core::Tool;
use mat_files::Grid;
use outside::Folder;
use std::alloc::Global;
use system_files::{FileEnd, read_grid_file};
use tool_frame::Limits;

// The files of the set, and the point.
#[derive(Drop)]
pub(crate) struct Sets {
    pub(crate) first: Grid,
    // The homogeneous solutions of `zsolve`.
    pub(crate) second: Option<Grid>,
    pub(crate) point: Grid,
}

// The most bytes, rows and columns of a file.
pub(crate) fn limits(file: DecFile) -> Limits
    ensures { result ≡ limits_of file }
{
    match file {
        DecFile::Gra | DecFile::Hil | DecFile::Zinhom | DecFile::Zhom => Limits {
            bytes: 268_435_456,
            rows: 2_097_152,
            cols: 64,
        },
        DecFile::Sol => Limits {
            bytes: 4_194_304,
            rows: 64,
            cols: 64,
        },
    }
}

// The file of the solutions that a tool writes, the first one of `zsolve`.
pub(crate) fn first_file(tool: Tool) -> DecFile
    ensures { result ≡ first_file tool }
{
    match tool {
        Tool::Graver => DecFile::Gra,
        Tool::Hilbert => DecFile::Hil,
        Tool::Zsolve => DecFile::Zinhom,
    }
}

// The end of a file, with the file.
fn placed<T>(file: DecFile, found: Result<T, FileEnd>) -> Result<T, Stop>
    ensures { result ≡ placed file found }
{
    match found {
        Ok(value) => Ok(value),
        Err(FileEnd::Bad(fault)) => Err(Stop::File(file, fault)),
        Err(FileEnd::Failed) => Err(Stop::Outside),
        Err(FileEnd::Memory) => Err(Stop::Memory),
    }
}

// The matrix in the project's file.
fn read_matrix<F: Folder>(
    alloc: Global,
    folder: &mut F,
    project: &str,
    file: DecFile,
) -> Result<Grid, Stop>
    ensures same { F.held folder.new ≡ F.held folder.old }
    ensures matrix { IfSome (F.held folder.old) (λ files. Finds result
        (at file (grid_in (limits_of file).bytes (limits_of file).rows (limits_of file).cols
        (get files (project.now ++ ending file))))) }
    ensures limits { IfOk result (λ grid. (grid.rows ≤ 2097152) × (grid.cols ≤ 64)) }
    ensures words { result ≡ Err Stop.Usage → ⊥ }
    ensures cause { HasCause (F.faults folder.old) (F.faults folder.new) result }
{
    let limits = limits(file);
    let found = read_grid_file(
        alloc,
        folder,
        project,
        file.ending(),
        limits.bytes,
        limits.rows,
        limits.cols,
    );
    placed(file, found)
}

// The second file of the set, where the tool has one.
fn read_second<F: Folder>(
    alloc: Global,
    tool: Tool,
    folder: &mut F,
    project: &str,
) -> Result<Option<Grid>, Stop>
    ensures same { F.held folder.new ≡ F.held folder.old }
    ensures matrix { IfSome (F.held folder.old)
        (λ files. Finds result (second_in tool project.now files)) }
    ensures limits { IfOk result
        (λ found. IfSome found (λ grid. (grid.rows ≤ 2097152) × (grid.cols ≤ 64))) }
    ensures words { result ≡ Err Stop.Usage → ⊥ }
    ensures cause { HasCause (F.faults folder.old) (F.faults folder.new) result }
{
    match tool {
        Tool::Graver | Tool::Hilbert => Ok(None),
        Tool::Zsolve => match read_matrix(alloc, folder, project, DecFile::Zhom) {
            Ok(grid) => Ok(Some(grid)),
            Err(stop) => Err(stop),
        },
    }
}

// All files, one after another.
fn read_all<F: Folder>(
    alloc: Global,
    tool: Tool,
    folder: &mut F,
    project: &str,
) -> Result<Sets, Stop>
    ensures same { F.held folder.new ≡ F.held folder.old }
    ensures sets { IfSome (F.held folder.old)
        (λ files. Finds result (found_in tool project.now files)) }
    ensures first { IfOk result (λ sets. sets.first.rows ≤ 2097152) }
    ensures second { IfOk result (λ sets. IfSome sets.second (λ grid. grid.rows ≤ 2097152)) }
    ensures words { result ≡ Err Stop.Usage → ⊥ }
    ensures cause { HasCause (F.faults folder.old) (F.faults folder.new) result }
{
    let first = read_matrix(alloc, folder, project, first_file(tool))?;
    let second = read_second(alloc, tool, folder, project)?;
    let point = read_matrix(alloc, folder, project, DecFile::Sol)?;
    Ok(Sets {
        first,
        second,
        point,
    })
}

// Whether the file has n columns.
fn fit(n: u32, file: DecFile, grid: &Grid) -> Result<(), Stop>
    ensures { result ≡ fitting n file grid.now }
{
    if grid.cols == n {
        Ok(())
    } else {
        Err(Stop::Shape(file, grid.rows, grid.cols))
    }
}

// Whether the second file has n columns, where there is one.
fn fit_second(n: u32, second: &Option<Grid>) -> Result<(), Stop>
    ensures { result ≡ second_fitting n second.now }
{
    match second {
        Some(grid) => fit(n, DecFile::Zhom, grid),
        None => Ok(()),
    }
}

// Whether the point is one row of n columns.
fn fit_point(n: u32, grid: &Grid) -> Result<(), Stop>
    ensures { result ≡ point_fitting n grid.now }
{
    if grid.rows == 1 && grid.cols == n {
        Ok(())
    } else {
        Err(Stop::Shape(DecFile::Sol, grid.rows, grid.cols))
    }
}

// The files, where all have the shape that they have to have.
fn fit_all(tool: Tool, n: u32, sets: Sets) -> Result<Sets, Stop>
    ensures { result ≡ all_fitting tool n sets }
{
    fit(n, first_file(tool), &sets.first)?;
    fit_second(n, &sets.second)?;
    fit_point(n, &sets.point)?;
    Ok(sets)
}

// The files of the set and the point for n columns.
pub(crate) fn read_sets<F: Folder>(
    alloc: Global,
    tool: Tool,
    n: u32,
    folder: &mut F,
    project: &str,
) -> Result<Sets, Stop>
    ensures same { F.held folder.new ≡ F.held folder.old }
    ensures sets { IfSome (F.held folder.old)
        (λ files. Finds result (sets_in tool n project.now files)) }
    ensures fits { IfOk result (λ sets. all_fitting tool n sets ≡ Ok sets) }
    ensures first { IfOk result (λ sets. sets.first.rows ≤ 2097152) }
    ensures second { IfOk result (λ sets. IfSome sets.second (λ grid. grid.rows ≤ 2097152)) }
    ensures words { result ≡ Err Stop.Usage → ⊥ }
    ensures cause { HasCause (F.faults folder.old) (F.faults folder.new) result }
{
    let sets = read_all(alloc, tool, folder, project)?;
    fit_all(tool, n, sets)
}
