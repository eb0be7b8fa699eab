//! The run of the tool.
ghost use Rattle.std.specs.Prelude.{◌≡◌, ◌↔◌, ◌≤◌, ◌+◌, ◌⊎◌, List, ℤ, None, Ok, Err, Result, IfOk, IfSome, OnOk, OnErr};
ghost use Rattle.std.specs.Io.KnownBytes.{append_known};
ghost use Rattle.outside.specs.Causes.{Rose};
ghost use Rattle.outside.specs.Causes.{HasCause as HasPutCause};
ghost use Rattle.outside.specs.Pieces.{MayPut};
ghost use Rattle.system_files.specs.Inputs.{accepted_in};
ghost use Rattle.mat_files.specs.Grids.{IsMatrix};
ghost use Rattle.decompose_tool.specs.Requests.{asked_in, project_of};
ghost use Rattle.decompose_tool.specs.Sets.{of_input, planned, FindsBy};
ghost use Rattle.decompose_tool.specs.Rows.{HoldWanted};
ghost use Rattle.decompose_tool.specs.Ends.{code_of, end_of, stop_of, summary_of, Told, Published, Ends, EndsWith, HasCause, HasCauses, NothingLeft};
ghost use Rattle.decompose_tool.specs.Messages.{Says};
ghost use Rattle.decompose_tool.specs.Inside.Steps.{user_of, IsRead, AreInShape, plan_of};
ghost use Rattle.decompose_tool.specs.declared.ends.Ending.{Ending};
ghost use Rattle.decompose_tool.specs.declared.ends.Stop.{Stop};

use crate::checking::check_all;
use crate::ends::{Ending, Stop, code, end};
use crate::messages::say;
use crate::reading::{Sets, read_sets};
use crate::requests::{project_or_nothing, read_request};
use crate::rows::columns;
use crate::walking::{Walk, is_zero, walk_over};
use crate::{DecEnd, DecStatus};
use itoa::Buffer;
use lift_core::{IntRow, Tool};
use mat_files::Grid;
use outside::{Folder, PutEnd, Sink, Words, put_pieces};
use std::alloc::Global;
use system_files::{InputStop, Shaped, read_shaped};
use tool_frame::write_output;

// The end of a refused call of the folder or of standard output.
fn stopped(end: PutEnd) -> Stop
    ensures { result ≡ stop_of end }
{
    match end {
        PutEnd::Failed => Stop::Outside,
        PutEnd::Memory => Stop::Memory,
    }
}

// Puts the summary.
fn put_summary<O: Sink>(out: &mut O, terms: u64) -> Result<(), PutEnd>
    ensures done { OnOk result (O.held out.new ≡ append_known (O.held out.old) (summary_of terms)) }
    ensures refused { OnErr result (MayPut (summary_of terms) (O.held out.old) (O.held out.new)) }
    ensures cause { HasPutCause (O.faults out.old) (O.faults out.new) result }
{
    let mut digits = Buffer::new();
    put_pieces(out, &[digits.format(terms).as_bytes(), b" terms\n"])
}

// Puts the summary of terms that are written.
fn tell<O: Sink>(out: &mut O, terms: u64) -> Result<Ending, Stop>
    ensures words { result ≡ Err Stop.Usage → ⊥ }
    ensures told { Told terms (O.held out.old) (O.held out.new) result }
    ensures cause { HasCause (O.faults out.old) (O.faults out.new) result }
{
    match put_summary(out, terms) {
        Ok(()) => Ok(Ending::Done { terms }),
        Err(end) => Err(stopped(end)),
    }
}

// Writes the terms, and tells how many they are.
fn publish<F: Folder, O: Sink>(
    alloc: Global,
    project: &str,
    grid: &Grid,
    folder: &mut F,
    out: &mut O,
) -> Result<Ending, Stop>
    ensures words { result ≡ Err Stop.Usage → ⊥ }
    ensures published { Published project.now grid.now (F.held folder.old) (F.held folder.new)
        (O.held out.old) (O.held out.new) result }
    ensures cause { HasCauses (F.faults folder.old) (F.faults folder.new) (O.faults out.old)
        (O.faults out.new) result }
{
    match write_output(alloc, folder, project, ".dec", grid) {
        Ok(()) => tell(out, u64::from(grid.rows)),
        Err(end) => Err(stopped(end)),
    }
}

// The matrix of the terms' lines: how often, and the user's n columns.
fn lay_out(n: u32, walk: Walk) -> Grid
    requires { IsMatrix walk.terms (n + 1) walk.cells.items × (n ≤ 64) }
    ensures { result ≡ record { rows = walk.terms; cols = n + 1; cells = walk.cells.items } }
{
    Grid {
        rows: walk.terms,
        cols: n + 1,
        cells: walk.cells,
    }
}

// Writes the terms of a walk that left nothing, and tells how many they are.
fn publish_walk<F: Folder, O: Sink>(
    alloc: Global,
    project: &str,
    n: u32,
    walk: Walk,
    folder: &mut F,
    out: &mut O,
) -> Result<Ending, Stop>
    requires { IsMatrix walk.terms (n + 1) walk.cells.items × (n ≤ 64) }
    ensures words { result ≡ Err Stop.Usage → ⊥ }
    ensures published { Published project.now
        (record { rows = walk.terms; cols = n + 1; cells = walk.cells.items }) (F.held folder.old)
        (F.held folder.new) (O.held out.old) (O.held out.new) result }
    ensures cause { HasCauses (F.faults folder.old) (F.faults folder.new) (O.faults out.old)
        (O.faults out.new) result }
{
    let grid = lay_out(n, walk);
    publish(alloc, project, &grid, folder, out)
}

// What the run of a system, a set and a point comes to.
fn conclude<F: Folder, O: Sink>(
    alloc: Global,
    project: &str,
    shaped: &Shaped,
    sets: &Sets,
    folder: &mut F,
    out: &mut O,
) -> Result<Ending, Stop>
    requires read { IsRead shaped.now }
    requires shape { AreInShape shaped.now.input.mat.cols sets.now }
    requires first { sets.now.first.rows ≤ 2097152 }
    requires second { IfSome sets.now.second (λ grid. grid.rows ≤ 2097152) }
    ensures ends { IfSome (F.held folder.old)
        (λ files. EndsWith (plan_of project.now shaped.now sets.now)
        (record {
          files_before = files;
          files_after = F.held folder.new;
          out_before = O.held out.old;
          out_after = O.held out.new;
        }) result) }
    ensures whole { HoldWanted shaped.now.system.tool (user_of shaped.now) sets.now
        → (rest : List ℤ) → result ≡ Ok (Ending.Left rest) → ⊥ }
    ensures words { result ≡ Err Stop.Usage → ⊥ }
    ensures cause { HasCauses (F.faults folder.old) (F.faults folder.new) (O.faults out.old)
        (O.faults out.new) result }
{
    check_all(alloc, shaped, sets)?;
    let walk = walk_over(alloc, shaped, sets)?;
    if !is_zero(&walk.rest) {
        return Ok(Ending::Left {
            rest: IntRow::new(walk.rest),
        });
    }
    publish_walk(alloc, project, columns(shaped), walk, folder, out)
}

// The system of the project.
fn read_system<F: Folder>(
    alloc: Global,
    tool: Tool,
    folder: &mut F,
    project: &str,
) -> Result<Shaped, Stop>
    ensures same { F.held folder.new ≡ F.held folder.old }
    ensures input { IfSome (F.held folder.old)
        (λ files. FindsBy (λ s. s.input) result (of_input (accepted_in tool project.now files))) }
    ensures read { IfOk result IsRead }
    ensures tool { IfOk result (λ s. s.system.tool ≡ tool) }
    ensures words { result ≡ Err Stop.Usage → ⊥ }
    ensures cause { HasCause (F.faults folder.old) (F.faults folder.new) result }
{
    match read_shaped(alloc, tool, folder, project) {
        Ok(shaped) => Ok(shaped),
        Err(InputStop::Bad(fault)) => Err(Stop::Input(fault)),
        Err(InputStop::Failed(_)) => Err(Stop::Outside),
        Err(InputStop::Memory) => Err(Stop::Memory),
    }
}

// All steps, and what they come to.
fn finish<F: Folder, O: Sink>(
    alloc: Global,
    words: &Words,
    folder: &mut F,
    out: &mut O,
) -> Result<Ending, Stop>
    ensures ends { IfSome (F.held folder.old) (λ files. Ends (planned words.now files)
        (record {
          files_before = files;
          files_after = F.held folder.new;
          out_before = O.held out.old;
          out_after = O.held out.new;
        }) result) }
    ensures whole { IfSome (F.held folder.old)
        (λ files. NothingLeft (planned words.now files) (end_of result)) }
    ensures words { result ≡ Err Stop.Usage ↔ (asked_in words.now ≡ None) }
    ensures cause { HasCauses (F.faults folder.old) (F.faults folder.new) (O.faults out.old)
        (O.faults out.new) result }
{
    let Some(asked) = read_request(words) else {
        return Err(Stop::Usage);
    };
    let shaped = match read_system(alloc, asked.tool, folder, asked.project) {
        Ok(shaped) => shaped,
        Err(stop) => return Err(stop),
    };
    match read_sets(alloc, asked.tool, columns(&shaped), folder, asked.project) {
        Ok(sets) => conclude(alloc, asked.project, &shaped, &sets, folder, out),
        Err(stop) => Err(stop),
    }
}

/// Writes a solution as a conformal sum of the solutions of a set. `words` are the command's words without the program's
/// name: a tool, `graver`, `hilbert` or `zsolve`, and a project. It reads the project's system, the set that the tool
/// writes (`.gra`, `.hil`, or `.zinhom` and `.zhom`) and the solution in `.sol`.
///
/// The candidates are the full vectors of the rows of the set in reading order; for `graver` each is followed by its
/// negative where that is a solution too. Each is taken as often as it fits below what is left (the greedy walk; Graver
/// 1975). Where nothing is left, `.dec` gets a line for each term, how often and the solution, and their number is put on
/// `out`. Where something is left, this is the end. Where the run stops, it puts a line on `err`.
///
/// The end is the first that fits: [`DecEnd::Usage`](crate::DecEnd::Usage) where the words are of another form; `Input`
/// for a fault of the system's files; `File` for a fault of the set (at most 2^28 bytes, 2^21 rows, 64 columns each) and
/// then of `.sol` (4,194,304 bytes, 64 rows, 64 columns); `Shape`; for the first row in reading order that is refused
/// `Range` or `NotSolution`; `Left`; else `Done`. `Outside` and `Memory` may come in place of each but `Usage`.
pub fn run_decompose<F: Folder, O: Sink, E: Sink>(
    alloc: Global,
    words: &Words,
    folder: &mut F,
    out: &mut O,
    err: &mut E,
) -> DecStatus
    // Which end it is, what is said, and what then stands in the folder and on standard output.
    ensures ends { (outcome : Result Ending Stop) × (result.end ≡ end_of outcome)
        × Says (project_of (asked_in words.now)) outcome (E.held err.old) (E.held err.new)
        × IfSome (F.held folder.old) (λ files. Ends (planned words.now files)
        (record {
          files_before = files;
          files_after = F.held folder.new;
          out_before = O.held out.old;
          out_after = O.held out.new;
        }) outcome) }

    // Where the set files hold what the tool writes for the system, nothing is left of any solution.
    ensures whole { IfSome (F.held folder.old)
        (λ files. NothingLeft (planned words.now files) result.end) }

    // Whether the words are a command's is decided by the words alone.
    ensures words { result.end ≡ DecEnd.Usage ↔ (asked_in words.now ≡ None) }

    // A device's fault is answered only where its count rose.
    ensures fault { result.end ≡ DecEnd.Outside
        → Rose (F.faults folder.old) (F.faults folder.new)
        ⊎ Rose (O.faults out.old) (O.faults out.new) }
    ensures code { result.code ≡ code_of result.end }
{
    let outcome = finish(alloc, words, folder, out);
    say(err, project_or_nothing(words), &outcome);
    let end = end(outcome);
    DecStatus {
        code: code(&end),
        end,
    }
}
