//! Reading the system of a project.

ghost use Rattle.std.specs.Prelude.{◌≡◌, ◌≤◌, [], ◌∷◌, IfOk, IfSome, Err};
ghost use Rattle.std.specs.FinMap.{get};
ghost use Rattle.lift_core.specs.Systems.{ToolSystem};
ghost use Rattle.system_shape.specs.Shape.{shape_fault};
ghost use Rattle.system_files.specs.Sources.{file_name};
ghost use Rattle.system_files.specs.Files.{grid_in, optional_grid_in, optional_relations_in, optional_caps_in};
ghost use Rattle.system_files.specs.Inputs.{placed, at, without, unsupported, input_in, accepted_in, system_in, Finds, FindsBy, GivesInput, IsShaped, unless_fault, HasStopCause, HasInputCause};

use crate::files::{
    file_name, read_grid_file, read_optional_caps, read_optional_grid, read_optional_relations,
};
use crate::{FileEnd, InputEnd, InputFault, InputStop, Source};
use lift_core::{System, Tool};
use mat_files::{CapGrid, Grid, RelGrid};
use outside::{Folder, PutEnd};
use std::alloc::Global;
use system_shape::{Input, shape};

// The most bytes of an input file, and the most rows and columns of its matrix.
const LONGEST: u64 = 4_194_304;

const MOST_ROWS: u32 = 64;

const MOST_COLUMNS: u32 = 64;

/// A user's system: the matrices of the files, and the linear system that stands for them.
#[derive(Drop)]
pub struct Shaped {
    pub input: Input,
    pub system: System,
}

// The end of a file, with the file.
fn placed<T>(source: Source, found: Result<T, FileEnd>) -> Result<T, InputStop>
    ensures { result ≡ placed source found }
{
    match found {
        Ok(value) => Ok(value),
        Err(FileEnd::Bad(fault)) => Err(InputStop::Bad(InputFault::File(source, fault))),
        Err(FileEnd::Failed) => Err(InputStop::Failed(source)),
        Err(FileEnd::Memory) => Err(InputStop::Memory),
    }
}

// The matrix, which has to be there.
fn read_matrix<F: Folder>(
    alloc: Global,
    folder: &mut F,
    project: &str,
    source: Source,
) -> Result<Grid, InputStop>
    ensures same { F.held folder.new ≡ F.held folder.old }
    ensures matrix { IfSome (F.held folder.old) (λ files. Finds result
        (at source (grid_in 4194304 64 64 (get files (file_name project.now source))))) }
    ensures limits { IfOk result (λ grid. (grid.rows ≤ 64) × (grid.cols ≤ 64)) }
    ensures cause { HasStopCause (F.faults folder.old) (F.faults folder.new) result }
{
    let found = read_grid_file(
        alloc,
        folder,
        project,
        source.ending(),
        LONGEST,
        MOST_ROWS,
        MOST_COLUMNS,
    );
    placed(source, found)
}

// A matrix that goes with it, none where its file is not there.
fn read_line<F: Folder>(
    alloc: Global,
    folder: &mut F,
    project: &str,
    source: Source,
) -> Result<Option<Grid>, InputStop>
    ensures same { F.held folder.new ≡ F.held folder.old }
    ensures matrix { IfSome (F.held folder.old) (λ files. Finds result
        (at source (optional_grid_in 4194304 64 64 (get files (file_name project.now source))))) }
    ensures cause { HasStopCause (F.faults folder.old) (F.faults folder.new) result }
{
    let found = read_optional_grid(
        alloc,
        folder,
        project,
        source.ending(),
        LONGEST,
        MOST_ROWS,
        MOST_COLUMNS,
    );
    placed(source, found)
}

// The relations, none where their file is not there.
fn read_relations<F: Folder>(
    alloc: Global,
    folder: &mut F,
    project: &str,
) -> Result<Option<RelGrid>, InputStop>
    ensures same { F.held folder.new ≡ F.held folder.old }
    ensures relations { IfSome (F.held folder.old) (λ files. Finds result
        (at Source.Rel
        (optional_relations_in 4194304 64 64 (get files (file_name project.now Source.Rel))))) }
    ensures cause { HasStopCause (F.faults folder.old) (F.faults folder.new) result }
{
    let found = read_optional_relations(
        alloc,
        folder,
        project,
        Source::Rel.ending(),
        LONGEST,
        MOST_ROWS,
        MOST_COLUMNS,
    );
    placed(Source::Rel, found)
}

// The caps, none where their file is not there.
fn read_caps<F: Folder>(
    alloc: Global,
    folder: &mut F,
    project: &str,
) -> Result<Option<CapGrid>, InputStop>
    ensures same { F.held folder.new ≡ F.held folder.old }
    ensures caps { IfSome (F.held folder.old) (λ files. Finds result
        (at Source.Cap
        (optional_caps_in 4194304 64 64 (get files (file_name project.now Source.Cap))))) }
    ensures cause { HasStopCause (F.faults folder.old) (F.faults folder.new) result }
{
    let found = read_optional_caps(
        alloc,
        folder,
        project,
        Source::Cap.ending(),
        LONGEST,
        MOST_ROWS,
        MOST_COLUMNS,
    );
    placed(Source::Cap, found)
}

// The file is not there.
fn refuse<F: Folder>(
    alloc: Global,
    folder: &mut F,
    project: &str,
    source: Source,
) -> Result<(), InputStop>
    ensures same { F.held folder.new ≡ F.held folder.old }
    ensures absent { IfSome (F.held folder.old)
        (λ files. Finds result (without project.now (source ∷ []) files)) }
    ensures cause { HasStopCause (F.faults folder.old) (F.faults folder.new) result }
{
    let name = file_name(alloc, project, source.ending())?;
    match folder.size(name.as_str()) {
        Ok(None) => Ok(()),
        Ok(Some(_)) => Err(InputStop::Bad(InputFault::Refused(source))),
        Err(PutEnd::Failed) => Err(InputStop::Failed(source)),
        Err(PutEnd::Memory) => Err(InputStop::Memory),
    }
}

// None of the files that are not supported is there.
fn refuse_unsupported<F: Folder>(
    alloc: Global,
    folder: &mut F,
    project: &str,
) -> Result<(), InputStop>
    ensures same { F.held folder.new ≡ F.held folder.old }
    ensures absent { IfSome (F.held folder.old)
        (λ files. Finds result (without project.now unsupported files)) }
    ensures cause { HasStopCause (F.faults folder.old) (F.faults folder.new) result }
{
    refuse(alloc, folder, project, Source::Lat)?;
    refuse(alloc, folder, project, Source::Lb)?;
    refuse(alloc, folder, project, Source::Ub)
}

// The matrices of the files, each read before the next is looked at.
fn read_input<F: Folder>(alloc: Global, folder: &mut F, project: &str) -> Result<Input, InputStop>
    ensures same { F.held folder.new ≡ F.held folder.old }
    ensures input { IfSome (F.held folder.old)
        (λ files. Finds result (input_in project.now files)) }
    ensures limits { IfOk result (λ input. (input.mat.rows ≤ 64) × (input.mat.cols ≤ 64)) }
    ensures cause { HasStopCause (F.faults folder.old) (F.faults folder.new) result }
{
    let mat = read_matrix(alloc, folder, project, Source::Mat)?;
    let sign = read_line(alloc, folder, project, Source::Sign)?;
    let rel = read_relations(alloc, folder, project)?;
    let rhs = read_line(alloc, folder, project, Source::Rhs)?;
    let cap = read_caps(alloc, folder, project)?;
    refuse_unsupported(alloc, folder, project)?;
    Ok(Input {
        mat,
        sign,
        rel,
        rhs,
        cap,
    })
}

/// The linear system that stands for the matrices.
///
/// # Errors
/// `Bad` with the first fault of their shape, and `Memory` where memory ran out.
pub fn shape_input(alloc: Global, tool: Tool, input: &Input) -> Result<System, InputStop>
    requires rows { input.now.mat.rows ≤ 64 }
    requires cols { input.now.mat.cols ≤ 64 }
    ensures fault { FindsBy (λ _. input.now) result
        (unless_fault (shape_fault tool input.now) input.now) }
    ensures shaped { IfOk result (IsShaped tool input.now) }
    ensures calm { (source : Source) → result ≡ Err (InputStop.Failed source) → ⊥ }
{
    let system = shape(alloc, tool, input)?;
    Ok(system)
}

/// The system of a project: the matrices of its files, and the linear system that stands for them.
///
/// The files are `.mat`, `.sign`, `.rel`, `.rhs`, `.cap`, each of at most 4,194,304 bytes, 64 rows and 64 columns, and each
/// read before the next is looked at; all but `.mat` may be absent. Then `.lat`, `.lb` and `.ub` have to be absent, and
/// the matrices have to fit each other.
///
/// # Errors
/// The first fault in that order; `Failed` with the file at which the folder failed, and `Memory` where memory ran out.
pub fn read_shaped<F: Folder>(
    alloc: Global,
    tool: Tool,
    folder: &mut F,
    project: &str,
) -> Result<Shaped, InputStop>
    ensures same { F.held folder.new ≡ F.held folder.old }
    ensures input { IfSome (F.held folder.old)
        (λ files. FindsBy (λ s. s.input) result (accepted_in tool project.now files)) }
    ensures shaped { IfOk result (λ s. IsShaped tool s.input s.system) }
    ensures limits { IfOk result (λ s. (s.input.mat.rows ≤ 64) × (s.input.mat.cols ≤ 64)) }
    ensures cause { HasStopCause (F.faults folder.old) (F.faults folder.new) result }
{
    let input = read_input(alloc, folder, project)?;
    let system = shape_input(alloc, tool, &input)?;
    Ok(Shaped { input, system })
}

/// The linear system that a project's files stand for, by [`read_shaped`].
///
/// # Errors
/// `Bad` with the first fault of the files, `Failed` where the folder failed, and `Memory` where memory ran out.
pub fn read_system<F: Folder>(
    alloc: Global,
    tool: Tool,
    folder: &mut F,
    project: &str,
) -> Result<System, InputEnd>
    // The folder is as it was.
    ensures same { F.held folder.new ≡ F.held folder.old }

    // Each fault is the first of the files, and the system is the one that they stand for.
    ensures system { IfSome (F.held folder.old)
        (λ files. GivesInput result (system_in tool project.now files)) }

    // A failure is answered only where the folder's count of faults rose.
    ensures cause { HasInputCause (F.faults folder.old) (F.faults folder.new) result }
{
    let shaped = read_shaped(alloc, tool, folder, project)?;
    Ok(shaped.system)
}
