//! Reading the matrix and the set.

ghost use Rattle.std.specs.Prelude.{◌≡◌, ◌≤◌, ◌++◌, IfOk, IfSome, Err};
ghost use Rattle.std.specs.FinMap.{get};
ghost use Rattle.system_files.specs.Files.{grid_in};
ghost use Rattle.circuit_tool.specs.Ends.{HasCause};
ghost use Rattle.circuit_tool.specs.Endings.{ending};
ghost use Rattle.circuit_tool.specs.Sets.{placed, at, limits_of, fitting, sets_in, Finds};

use crate::CirFile;
use crate::ends::Stop;
use mat_files::Grid;
use outside::Folder;
use std::alloc::Global;
use system_files::{FileEnd, read_grid_file};
use tool_frame::Limits;

// The matrix, and a set of vectors with as many columns.
#[derive(Drop)]
pub(crate) struct Sets {
    pub(crate) mat: Grid,
    pub(crate) set: Grid,
}

// The most bytes, rows and columns of a file.
pub(crate) fn limits(file: CirFile) -> Limits
    ensures { result ≡ limits_of file }
{
    match file {
        CirFile::Mat => Limits {
            bytes: 4_194_304,
            rows: 64,
            cols: 64,
        },
        CirFile::Gra => Limits {
            bytes: 268_435_456,
            rows: 2_097_152,
            cols: 64,
        },
    }
}

// The end of a file, with the file.
fn placed<T>(file: CirFile, found: Result<T, FileEnd>) -> Result<T, Stop>
    ensures { result ≡ placed file found }
{
    match found {
        Ok(value) => Ok(value),
        Err(FileEnd::Bad(fault)) => Err(Stop::File(file, fault)),
        Err(FileEnd::Failed) => Err(Stop::Outside),
        Err(FileEnd::Memory) => Err(Stop::Memory),
    }
}

// The matrix in the project's file.
fn read_matrix<F: Folder>(
    alloc: Global,
    folder: &mut F,
    project: &str,
    file: CirFile,
) -> Result<Grid, Stop>
    ensures same { F.held folder.new ≡ F.held folder.old }
    ensures matrix { IfSome (F.held folder.old) (λ files. Finds result
        (at file (grid_in (limits_of file).bytes (limits_of file).rows (limits_of file).cols
        (get files (project.now ++ ending file))))) }
    ensures columns { IfOk result (λ grid. grid.cols ≤ 64) }
    ensures words { result ≡ Err Stop.Usage → ⊥ }
    ensures cause { HasCause (F.faults folder.old) (F.faults folder.new) result }
{
    let limits = limits(file);
    let found = read_grid_file(
        alloc,
        folder,
        project,
        file.ending(),
        limits.bytes,
        limits.rows,
        limits.cols,
    );
    placed(file, found)
}

// The set and the matrix together, where both have equally many columns.
fn fit(mat: Grid, set: Grid) -> Result<Sets, Stop>
    requires { mat.cols ≤ 64 }
    ensures sets { result ≡ fitting mat set }
    ensures columns { IfOk result (λ s. (s.mat.cols ≡ s.set.cols) × (s.mat.cols ≤ 64)) }
    ensures calm { result ≡ Err Stop.Outside → ⊥ }
    ensures words { result ≡ Err Stop.Usage → ⊥ }
{
    if set.cols == mat.cols {
        Ok(Sets { mat, set })
    } else {
        Err(Stop::Shape {
            rows: set.rows,
            cols: set.cols,
        })
    }
}

// The two files, one after the other.
pub(crate) fn read_sets<F: Folder>(
    alloc: Global,
    folder: &mut F,
    project: &str,
) -> Result<Sets, Stop>
    ensures same { F.held folder.new ≡ F.held folder.old }
    ensures sets { IfSome (F.held folder.old) (λ files. Finds result (sets_in project.now files)) }
    ensures words { result ≡ Err Stop.Usage → ⊥ }
    ensures columns { IfOk result (λ s. (s.mat.cols ≡ s.set.cols) × (s.mat.cols ≤ 64)) }
    ensures cause { HasCause (F.faults folder.old) (F.faults folder.new) result }
{
    let mat = read_matrix(alloc, folder, project, CirFile::Mat)?;
    let set = read_matrix(alloc, folder, project, CirFile::Gra)?;
    fit(mat, set)
}
