//! Reading the files of a problem.
ghost use Rattle.std.specs.Prelude.{◌≡◌, ◌≤◌, ◌++◌, IfOk, IfSome, Err};
ghost use Rattle.std.specs.FinMap.{get};
ghost use Rattle.system_files.specs.Files.{grid_in};
ghost use Rattle.climb_tool.specs.Ends.{HasCause};
ghost use Rattle.climb_tool.specs.Endings.{ending};
ghost use Rattle.climb_tool.specs.Problems.{placed, at, limits_of, files_in, problem_in, Finds, IsProblem};

use crate::ClimbFile;
use crate::ends::Stop;
use crate::problems::{Problem, accept};
use mat_files::Grid;
use outside::Folder;
use std::alloc::Global;
use system_files::{FileEnd, read_grid_file};
use tool_frame::Limits;

// A matrix file, and the files of one row.
const MATRIX_LIMITS: Limits = Limits {
    bytes: 4_194_304,
    rows: 64,
    cols: 64,
};

const SET_LIMITS: Limits = Limits {
    bytes: 268_435_456,
    rows: 2_097_152,
    cols: 64,
};

// The most bytes, rows and columns of a file.
pub(crate) fn limits(file: ClimbFile) -> Limits
    ensures { result ≡ limits_of file }
{
    match file {
        ClimbFile::Gra => SET_LIMITS,
        ClimbFile::Mat | ClimbFile::Cost | ClimbFile::Upper | ClimbFile::Start => MATRIX_LIMITS,
    }
}

// The end of a file, with the file.
fn placed<T>(file: ClimbFile, found: Result<T, FileEnd>) -> Result<T, Stop>
    ensures { result ≡ placed file found }
{
    match found {
        Ok(value) => Ok(value),
        Err(FileEnd::Bad(fault)) => Err(Stop::File(file, fault)),
        Err(FileEnd::Failed) => Err(Stop::Outside),
        Err(FileEnd::Memory) => Err(Stop::Memory),
    }
}

// The matrix in the project's file.
fn read_matrix<F: Folder>(
    alloc: Global,
    folder: &mut F,
    project: &str,
    file: ClimbFile,
) -> Result<Grid, Stop>
    ensures same { F.held folder.new ≡ F.held folder.old }
    ensures matrix { IfSome (F.held folder.old) (λ files. Finds result
        (at file (grid_in (limits_of file).bytes (limits_of file).rows (limits_of file).cols
        (get files (project.now ++ ending file))))) }
    ensures columns { IfOk result (λ grid. grid.cols ≤ 64) }
    ensures words { result ≡ Err Stop.Usage → ⊥ }
    ensures cause { HasCause (F.faults folder.old) (F.faults folder.new) result }
{
    let limits = limits(file);
    let found = read_grid_file(
        alloc,
        folder,
        project,
        file.ending(),
        limits.bytes,
        limits.rows,
        limits.cols,
    );
    placed(file, found)
}

// The five files, one after the other.
fn read_files<F: Folder>(alloc: Global, folder: &mut F, project: &str) -> Result<Problem, Stop>
    ensures same { F.held folder.new ≡ F.held folder.old }
    ensures files { IfSome (F.held folder.old)
        (λ files. Finds result (files_in project.now files)) }
    ensures columns { IfOk result (λ p. p.mat.cols ≤ 64) }
    ensures words { result ≡ Err Stop.Usage → ⊥ }
    ensures cause { HasCause (F.faults folder.old) (F.faults folder.new) result }
{
    let mat = read_matrix(alloc, folder, project, ClimbFile::Mat)?;
    let set = read_matrix(alloc, folder, project, ClimbFile::Gra)?;
    let cost = read_matrix(alloc, folder, project, ClimbFile::Cost)?;
    let upper = read_matrix(alloc, folder, project, ClimbFile::Upper)?;
    let start = read_matrix(alloc, folder, project, ClimbFile::Start)?;
    Ok(Problem {
        mat,
        set,
        cost,
        upper,
        start,
    })
}

// The problem that the files pose.
pub(crate) fn read_problem<F: Folder>(
    alloc: Global,
    folder: &mut F,
    project: &str,
) -> Result<Problem, Stop>
    ensures same { F.held folder.new ≡ F.held folder.old }
    ensures problem { IfSome (F.held folder.old)
        (λ files. Finds result (problem_in project.now files)) }
    ensures stands { IfOk result IsProblem }
    ensures words { result ≡ Err Stop.Usage → ⊥ }
    ensures cause { HasCause (F.faults folder.old) (F.faults folder.new) result }
{
    let problem = read_files(alloc, folder, project)?;
    accept(&problem)?;
    Ok(problem)
}
