//! The output files: which rows they have, and their writing.

ghost use Rattle.std.specs.Prelude.{◌≡◌, ◌≤◌, ◌<◌, ◌^◌, ◌∷◌, [], ℕ, List, ℤ, length, vec_len, IfOk, IfErr, OnOk, Err};
ghost use Rattle.std.specs.Option.{option_map};
ghost use Rattle.int_vector.specs.Vectors.{norm};
ghost use Rattle.outside.specs.Causes.{Rose};
ghost use Rattle.lift_core.specs.ToolSystems.{width};
ghost use Rattle.solution_files.specs.Outputs.{IsSelected};
ghost use Rattle.tool_top.specs.Outputs.{file_of, total_rows, norms_in, written_all};
ghost use Rattle.tool_top.specs.Inside.Writing.{output_of, outputs_of, AreSelectedOf, CutsTo};

use crate::ends::refused_at;
use crate::names::ending;
use crate::{End, Part};
use lift_core::Tool;
use mat_files::Grid;
use outside::Folder;
use solution_files::{Kind, select, write_grid};
use stage_store::Finish;
use std::alloc::{AllocError, Global};
use system_files::file_name;

// An output file with its rows.
#[derive(Drop)]
pub(crate) struct Output {
    part: Part,
    grid: Grid,
}

/// The output files of a run, in the order in which they are written.
#[derive(Drop)]
pub struct Outputs {
    list: Vec<Output>,
}

// The output file of the selected rows of one kind.
fn select_output(
    alloc: Global,
    finish: &Finish,
    part: Part,
    kind: Kind,
) -> Result<Output, AllocError>
    requires { finish.now.rows.width ≡ width finish.now.system.equations }
    ensures { IfOk result (λ o. (rows : List (List ℤ))
        × IsSelected finish.now.system finish.now.rows.rows kind rows
        × (output_of o ≡ file_of part finish.now.system.n rows)) }
{
    let grid = select(alloc, finish, kind)?;
    Ok(Output { part, grid })
}

/// The output files of a finished run.
pub fn select_outputs(alloc: Global, finish: &Finish) -> Result<Outputs, AllocError>
    requires { finish.now.rows.width ≡ width finish.now.system.equations }
    ensures files { IfOk result (λ o.
        AreSelectedOf finish.now.system.tool finish.now.system finish.now.rows.rows
        (outputs_of o)) }
    ensures few { IfOk result (λ o. vec_len o.list ≤ 2) }
{
    let mut list = Vec::with_capacity(alloc, 2)?;
    match finish.system.tool() {
        Tool::Graver => list.push(select_output(alloc, finish, Part::Gra, Kind::All)?)?,
        Tool::Hilbert => list.push(select_output(alloc, finish, Part::Hil, Kind::All)?)?,
        Tool::Zsolve => {
            list.push(select_output(alloc, finish, Part::Zhom, Kind::Hom)?)?;
            list.push(select_output(alloc, finish, Part::Zinhom, Kind::Inhom)?)?;
        }
    }
    Ok(Outputs { list })
}

// The number of rows of all outputs.
pub(crate) fn count_rows(outputs: &Outputs) -> u64
    requires { vec_len outputs.now.list ≤ 2 }
    ensures { result ≡ total_rows (outputs_of outputs.now) }
{
    let mut total = 0;
    for output in &outputs.list {
        total += u64::from(output.grid.rows);
    }
    total
}

// The sum of the absolute values of all cells.
fn norm_of_cells(cells: &[i64]) -> u128
    ensures norm { result ≡ norm cells.now }
    ensures most { result < 2 ^ 127 }
{
    let mut total: u128 = 0;
    for cell in cells {
        total += u128::from(cell.unsigned_abs());
    }
    total
}

// The sum of the norms of the rows of all outputs.
pub(crate) fn norm_total(outputs: &Outputs) -> u128
    requires { vec_len outputs.now.list ≤ 2 }
    ensures { result ≡ norms_in (outputs_of outputs.now) }
{
    let mut total: u128 = 0;
    for output in &outputs.list {
        total += norm_of_cells(&output.grid.cells);
    }
    total
}

// Writes one output file anew.
fn write_output<F: Folder>(
    alloc: Global,
    folder: &mut F,
    project: &str,
    output: &Output,
) -> Result<(), End>
    ensures done { OnOk result
        (F.held folder.new
        ≡ option_map (written_all project.now (output_of output.now ∷ []))
        (F.held folder.old)) }
    ensures refused { IfErr result
        (CutsTo project.now (output_of output.now ∷ []) (F.held folder.old) (F.held folder.new)) }
    ensures later { F.faults folder.old ≤ F.faults folder.new }
    ensures cause { (p : Part) → result ≡ Err (End.Outside p)
        → Rose (F.faults folder.old) (F.faults folder.new) }
{
    let name = file_name(alloc, project, ending(output.part))?;
    match write_grid(alloc, folder, name.as_str(), &output.grid) {
        Ok(()) => Ok(()),
        Err(refused) => Err(refused_at(output.part, refused)),
    }
}

// Writes each output file anew, one after another.
pub(crate) fn write_outputs<F: Folder>(
    alloc: Global,
    folder: &mut F,
    project: &str,
    outputs: &Outputs,
) -> Result<(), End>
    ensures done { OnOk result
        (F.held folder.new
        ≡ option_map (written_all project.now (outputs_of outputs.now)) (F.held folder.old)) }
    ensures refused { IfErr result
        (CutsTo project.now (outputs_of outputs.now) (F.held folder.old) (F.held folder.new)) }
    ensures later { F.faults folder.old ≤ F.faults folder.new }
    ensures cause { (p : Part) → result ≡ Err (End.Outside p)
        → Rose (F.faults folder.old) (F.faults folder.new) }
{
    for output in &outputs.list {
        write_output(alloc, folder, project, output)?;
    }
    Ok(())
}
