//! The run of the tool.
ghost use Rattle.std.specs.Prelude.{◌≡◌, ◌↔◌, ◌≤◌, ◌+◌, ◌⊎◌, [], ◌∷◌, None, Result, Err, IfSome, OnOk, OnErr};
ghost use Rattle.std.specs.Io.KnownBytes.{append_known};
ghost use Rattle.outside.specs.Causes.{Rose};
ghost use Rattle.outside.specs.Causes.{HasCause as HasPutCause};
ghost use Rattle.outside.specs.Pieces.{MayPut};
ghost use Rattle.tool_frame.specs.Outputs.{IsCut};
ghost use Rattle.climb_tool.specs.Problems.{planned, IsProblem};
ghost use Rattle.climb_tool.specs.Commands.{command_in, project_of};
ghost use Rattle.climb_tool.specs.Ends.{code_of, end_of, stop_of, summary_of, grid_files, both_written};
ghost use Rattle.climb_tool.specs.Ends.{AreInKernel, Told, Published, Ends, EndsWith, Says, HasCause, HasCauses};
ghost use Rattle.climb_tool.specs.Inside.Walks.{IsWalked, IsLaidOut};
ghost use Rattle.climb_tool.specs.declared.ends.Stop.{Stop};
ghost use Rattle.climb_tool.specs.declared.ends.Reached.{Reached};

use crate::climbing::{Path, climb};
use crate::commands::{project_or_nothing, read_command};
use crate::ends::{Reached, Stop, code, end};
use crate::messages::say;
use crate::points::cost_of;
use crate::problems::{Problem, cells, columns};
use crate::reading::read_problem;
use crate::{ClimbEnd, ClimbStatus};
use itoa::Buffer;
use mat_files::Grid;
use outside::{Folder, PutEnd, Sink, Words, put_pieces};
use std::alloc::Global;
use system_files::kernel_fault;
use tool_frame::write_output;

// What is written of a path, and what is told of it.
#[derive(Drop)]
struct Results {
    opt: Grid,
    steps: Grid,
    reached: Reached,
}

// The end of a refused call of the folder or of standard output.
fn stopped(end: PutEnd) -> Stop
    ensures { result ≡ stop_of end }
{
    match end {
        PutEnd::Failed => Stop::Outside,
        PutEnd::Memory => Stop::Memory,
    }
}

// Puts the summary.
fn put_summary<O: Sink>(out: &mut O, reached: Reached) -> Result<(), PutEnd>
    ensures done { OnOk result
        (O.held out.new ≡ append_known (O.held out.old) (summary_of reached)) }
    ensures refused { OnErr result (MayPut (summary_of reached) (O.held out.old) (O.held out.new)) }
    ensures cause { HasPutCause (O.faults out.old) (O.faults out.new) result }
{
    let mut cost = Buffer::new();
    let mut steps = Buffer::new();
    put_pieces(
        out,
        &[
            b"cost ",
            cost.format(reached.cost).as_bytes(),
            b", ",
            steps.format(reached.steps).as_bytes(),
            b" steps\n",
        ],
    )
}

// Puts the summary of a path that is written.
fn tell<O: Sink>(out: &mut O, reached: Reached) -> Result<Reached, Stop>
    ensures words { result ≡ Err Stop.Usage → ⊥ }
    ensures told { Told reached (O.held out.old) (O.held out.new) result }
    ensures cause { HasCause (O.faults out.old) (O.faults out.new) result }
{
    match put_summary(out, reached) {
        Ok(()) => Ok(reached),
        Err(end) => Err(stopped(end)),
    }
}

// Writes the last point, and then the steps.
fn write_both<F: Folder>(
    alloc: Global,
    project: &str,
    opt: &Grid,
    steps: &Grid,
    folder: &mut F,
) -> Result<(), PutEnd>
    ensures done { OnOk result
        (F.held folder.new ≡ both_written project.now opt.now steps.now (F.held folder.old)) }
    ensures refused { OnErr result
        (IsCut project.now (grid_files opt.now steps.now) (F.held folder.old) (F.held folder.new)) }
    ensures cause { HasPutCause (F.faults folder.old) (F.faults folder.new) result }
{
    write_output(alloc, folder, project, ".opt", opt)?;
    write_output(alloc, folder, project, ".steps", steps)
}

// Writes the results, and tells the cost and the number of steps.
fn publish<F: Folder, O: Sink>(
    alloc: Global,
    project: &str,
    results: &Results,
    folder: &mut F,
    out: &mut O,
) -> Result<Reached, Stop>
    ensures words { result ≡ Err Stop.Usage → ⊥ }
    ensures published { Published project.now results.now.opt results.now.steps results.now.reached
        (F.held folder.old) (F.held folder.new) (O.held out.old) (O.held out.new) result }
    ensures cause { HasCauses (F.faults folder.old) (F.faults folder.new) (O.faults out.old)
        (O.faults out.new) result }
{
    match write_both(alloc, project, &results.opt, &results.steps, folder) {
        Ok(()) => tell(out, results.reached),
        Err(end) => Err(stopped(end)),
    }
}

// The matrices of a path, and what is told of it.
fn lay_out(problem: &Problem, path: Path) -> Results
    requires problem { IsProblem problem.now }
    requires walked { IsWalked problem.now path }
    requires few { path.count ≤ 65536 }
    ensures { IsLaidOut problem.now path result.opt result.steps result.reached }
{
    let columns = columns(&problem.mat);
    let reached = Reached {
        cost: cost_of(cells(&problem.cost), &path.point),
        steps: u64::from(path.count),
    };
    Results {
        opt: Grid {
            rows: 1,
            cols: columns,
            cells: path.point,
        },
        steps: Grid {
            rows: path.count,
            cols: columns + 1,
            cells: path.cells,
        },
        reached,
    }
}

// Climbs where the set is in the kernel, and writes the path.
fn write_path<F: Folder, O: Sink>(
    alloc: Global,
    project: &str,
    budget: u32,
    problem: &Problem,
    folder: &mut F,
    out: &mut O,
) -> Result<Reached, Stop>
    requires problem { IsProblem problem.now }
    requires kernel { AreInKernel problem.now }
    requires few { budget ≤ 65536 }
    ensures ends { IfSome (F.held folder.old) (λ files. EndsWith project.now problem.now budget
        (record {
          files_before = files;
          files_after = F.held folder.new;
          out_before = O.held out.old;
          out_after = O.held out.new;
        }) result) }
    ensures words { result ≡ Err Stop.Usage → ⊥ }
    ensures cause { HasCauses (F.faults folder.old) (F.faults folder.new) (O.faults out.old)
        (O.faults out.new) result }
{
    match climb(alloc, problem, budget) {
        Ok(path) => publish(alloc, project, &lay_out(problem, path), folder, out),
        Err(stop) => Err(stop),
    }
}

// What the run of a problem comes to.
fn conclude<F: Folder, O: Sink>(
    alloc: Global,
    project: &str,
    budget: u32,
    problem: &Problem,
    folder: &mut F,
    out: &mut O,
) -> Result<Reached, Stop>
    requires problem { IsProblem problem.now }
    requires few { budget ≤ 65536 }
    ensures ends { IfSome (F.held folder.old) (λ files. EndsWith project.now problem.now budget
        (record {
          files_before = files;
          files_after = F.held folder.new;
          out_before = O.held out.old;
          out_after = O.held out.new;
        }) result) }
    ensures words { result ≡ Err Stop.Usage → ⊥ }
    ensures cause { HasCauses (F.faults folder.old) (F.faults folder.new) (O.faults out.old)
        (O.faults out.new) result }
{
    match kernel_fault(&problem.mat, &problem.set) {
        Some(row) => Err(Stop::NotKernel { row }),
        None => write_path(alloc, project, budget, problem, folder, out),
    }
}

// All steps, and what they come to.
fn finish<F: Folder, O: Sink>(
    alloc: Global,
    words: &Words,
    folder: &mut F,
    out: &mut O,
) -> Result<Reached, Stop>
    ensures ends { IfSome (F.held folder.old) (λ files. Ends (planned words.now files)
        (record {
          files_before = files;
          files_after = F.held folder.new;
          out_before = O.held out.old;
          out_after = O.held out.new;
        }) result) }
    ensures words { result ≡ Err Stop.Usage ↔ (command_in words.now ≡ None) }
    ensures cause { HasCauses (F.faults folder.old) (F.faults folder.new) (O.faults out.old)
        (O.faults out.new) result }
{
    let Some(command) = read_command(words) else {
        return Err(Stop::Usage);
    };
    match read_problem(alloc, folder, command.project) {
        Ok(problem) => conclude(
            alloc,
            command.project,
            command.budget,
            &problem,
            folder,
            out,
        ),
        Err(stop) => Err(stop),
    }
}

/// Leads a feasible point to one of least cost: reads the project's matrix (`.mat`), a set of vectors of its kernel
/// (`.gra`), the costs (`.cost`), the upper bounds (`.upper`) and the point to begin with (`.start`). At each point it
/// takes the first row of the set that helps, of each row and its negative in turn, and adds it as often as the bounds
/// allow; a vector helps where adding it once stays within the bounds, and its cost is negative. It ends where none
/// helps, writes the last point to `.opt` and the steps to `.steps`, each how often and the vector, and puts the cost
/// and the number of steps on `out`. `words` are the command's words without the program's name. Where it stops, it puts
/// a line on `err`.
///
/// Where the set is the Graver basis of the matrix A, no whole vector x within the bounds with `A x = A start` has a
/// lower cost than the last point.
///
/// The end is the first that fits: [`ClimbEnd::Usage`] where the words are not `[--steps=N] PROJECT` with N at most
/// 65,536 (which it is where it is not given); [`ClimbEnd::File`] for a fault of `.mat` (at most 4,194,304 bytes, 64
/// rows, 64 columns), `.gra` (at most 2^28 bytes, 2^21 rows, 64 columns), `.cost`, `.upper` and `.start` (as `.mat`);
/// [`ClimbEnd::Shape`]; [`ClimbEnd::CostRange`]; [`ClimbEnd::UpperRange`]; [`ClimbEnd::Infeasible`];
/// [`ClimbEnd::NotKernel`]; [`ClimbEnd::Steps`] where after N steps a candidate still helps; else [`ClimbEnd::Done`].
/// [`ClimbEnd::Outside`] and [`ClimbEnd::Memory`] may come in place of each but `Usage`.
pub fn run_climb<F: Folder, O: Sink, E: Sink>(
    alloc: Global,
    words: &Words,
    folder: &mut F,
    out: &mut O,
    err: &mut E,
) -> ClimbStatus
    // Which end it is, what is said, and what then stands in the folder and on standard output. Over a Graver basis the
    // last point is optimal (`IsClimb`).
    ensures ends { (outcome : Result Reached Stop) × (result.end ≡ end_of outcome)
        × Says (project_of (command_in words.now)) outcome (E.held err.old) (E.held err.new)
        × IfSome (F.held folder.old) (λ files. Ends (planned words.now files)
        (record {
          files_before = files;
          files_after = F.held folder.new;
          out_before = O.held out.old;
          out_after = O.held out.new;
        }) outcome) }

    // Whether the words are a command's is decided by the words alone.
    ensures words { result.end ≡ ClimbEnd.Usage ↔ (command_in words.now ≡ None) }

    // A device's fault is answered only where its count rose.
    ensures fault { result.end ≡ ClimbEnd.Outside
        → Rose (F.faults folder.old) (F.faults folder.new)
        ⊎ Rose (O.faults out.old) (O.faults out.new) }
    ensures code { result.code ≡ code_of result.end }
{
    let outcome = finish(alloc, words, folder, out);
    say(err, project_or_nothing(words), outcome);
    let end = end(outcome);
    ClimbStatus {
        code: code(end),
        end,
    }
}
