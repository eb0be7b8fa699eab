//! The top call.

ghost use Rattle.std.specs.Prelude.{◌≡◌, ◌≢◌, ◌⊎◌, ◌≤◌, Option, None, Some, IfSome, Ok, IsSome, IfOk, IfErr, Err, OnOk, IsOkAnd, vec_len};
ghost use Rattle.outside.specs.Causes.{Rose};
ghost use Rattle.system_files.specs.Inputs.{IsShaped, FindsBy, HasStopCause, unless_fault};
ghost use Rattle.system_files.specs.declared.sources.Source.{Source};
ghost use Rattle.system_shape.specs.Shape.{shape_fault, tool_system};
ghost use Rattle.system_shape.specs.Tables.{tables_input};
ghost use Rattle.system_shape.specs.declared.files.Input.{Input};
ghost use Rattle.std.specs.Option.{option_map};
ghost use Rattle.lift_run.specs.Runs.{IsOfSystem, HasAllSolutions};
ghost use Rattle.backups.specs.Starts.{Stored, HasStartCause, IsDefinedStart, StartComesTo, system_of};
ghost use Rattle.backups.specs.Standing.{LeavesRun, IsSoundFrom, HasStoppedCause, named_end};
ghost use Rattle.tool_words.specs.Jobs.{IsWithinLimits, job_of};
ghost use Rattle.tool_words.specs.declared.jobs.Job.{Job};
ghost use Rattle.lift_core.specs.declared.Tool.{Tool};
ghost use Rattle.tool_top.specs.Plan.{planned, plan_of, plan_for, HasTables, input_for, interval_for, named_project, project_of, resumes, stored_of};
ghost use Rattle.tool_top.specs.Outputs.{to_write, written_all};
ghost use Rattle.tool_top.specs.Expected.{IsExpectedOr, IsExpected, OnDone, StartsAs, limits_of};
ghost use Rattle.tool_top.specs.Messages.{Speaks};
ghost use Rattle.tool_top.specs.Summary.{Tells, code_of};
ghost use Rattle.tool_top.specs.Solved.{IsSolved};
ghost use Rattle.tool_top.specs.Left.{HasWritten, Leaves, turns_for};
ghost use Rattle.tool_top.specs.Inside.Ends.{Ends, Asks, FindsStartOf, came_for, end_of, HasSinkCause};
ghost use Rattle.tool_top.specs.Inside.Names.{AreRestartNames};
ghost use Rattle.tool_top.specs.Inside.Writing.{outputs_of, CutsTo, TellsOf};

use crate::ends::{Totals, code, is_done, refused_at, settle};
use crate::messages::put_message;
use crate::names::ending;
use crate::outputs::{Outputs, count_rows, norm_total, select_outputs, write_outputs};
use crate::summary::put_summary;
use crate::{End, Part, Status};
use backups::{BackupPlan, Start, StartEnd, Stopped, read_start, run_start};
use lift_core::{System, Tool};
use lift_run::Limits;
use outside::{Folder, Sink, Words};
use stage_store::Finish;
use std::alloc::{AllocError, Global};
use std::thread::Threads;
use system_files::{InputStop, Shaped, file_name, read_shaped, shape_input};
use system_shape::tables;
use tool_words::{Job, WordEnd, read_words};
use worker_gate::Gate;

/// The project's name, empty where there is none.
pub fn project_of(job: &Job) -> &str
    ensures { result.now ≡ project_of job.now }
{
    match &job.project {
        Some(name) => name.text(),
        None => "",
    }
}

// After how many closed norms a backup is written. With tables there is none.
fn interval_for(job: &Job) -> Option<u32>
    requires { IsWithinLimits job.now }
    ensures interval { result ≡ interval_for job.now.tables job.now.backup }
    ensures some { IfSome result (λ n. 1 ≤ n) }
{
    match job.tables {
        None => job.backup,
        Some(_) => None,
    }
}

// Whether the run goes on from a restart file. With tables there is none.
fn resumes(job: &Job) -> bool
    ensures { result ≡ resumes job.now }
{
    job.tables.is_none() && job.resume
}

// The names of a project's restart files.
#[derive(Drop)]
struct RestartNames {
    first: String,
    second: String,
}

// Makes the names of the restart files of the job's project.
fn restart_names(alloc: Global, job: &Job) -> Result<RestartNames, AllocError>
    ensures { IfOk result (AreRestartNames (project_of job.now)) }
{
    let project = project_of(job);
    let first = file_name(alloc, project, ending(Part::Ckp0))?;
    let second = file_name(alloc, project, ending(Part::Ckp1))?;
    Ok(RestartNames { first, second })
}

/// Puts the summary of outputs that are written, and gives their numbers.
pub fn tell<O: Sink>(out: &mut O, job: &Job, outputs: &Outputs, pairs: u64) -> Result<Totals, End>
    requires { vec_len outputs.now.list ≤ 2 }
    ensures told { TellsOf job.now (outputs_of outputs.now) pairs (O.held out.old)
        (O.held out.new) result }
    ensures cause { HasSinkCause (O.faults out.old) (O.faults out.new) (end_of result) }
{
    let solutions = count_rows(outputs);
    let norm_total = norm_total(outputs);
    match put_summary(out, job, solutions, pairs, norm_total) {
        Ok(()) => Ok(Totals {
            solutions,
            pairs,
            norm_total,
        }),
        Err(refused) => Err(refused_at(Part::Out, refused)),
    }
}

// Where the run of a job starts.
fn find_start<F: Folder>(
    alloc: Global,
    job: &Job,
    folder: &mut F,
    system: System,
    names: &RestartNames,
) -> Result<Start, StartEnd>
    requires { AreRestartNames (project_of job.now) names.now }
    ensures found { IfSome (F.held folder.old) (λ files.
        FindsStartOf (resumes job.now) system (stored_of (project_of job.now) files) result) }
    ensures same { F.held folder.new ≡ F.held folder.old }
    ensures apart { IsSome job.now.tables → folder.new ≡ folder.old }
    ensures cause { HasStartCause (F.faults folder.old) (F.faults folder.new) result }
{
    if resumes(job) {
        return read_start(
            alloc,
            folder,
            &system,
            names.first.as_str(),
            names.second.as_str(),
        );
    }
    Ok(Start::Fresh(system))
}

// Runs from a start, within the budgets of the job and with its backups.
fn run_job<R: Threads + Sync, F: Folder, G: Gate + Sync>(
    rt: &R,
    alloc: Global,
    job: &Job,
    start: Start,
    names: &RestartNames,
    folder: &mut F,
    gate: &G,
) -> Result<Finish, Stopped>
    requires names { AreRestartNames (project_of job.now) names.now }
    requires within { IsWithinLimits job.now }
    ensures comes { IfSome (named_end result) (StartComesTo (limits_of job.now) start) }
    ensures system { IfOk result (IsOfSystem (system_of start)) }
    ensures rows { IsDefinedStart start → IfOk result HasAllSolutions }
    ensures sound { IfOk result (IsSoundFrom start) }
    ensures leaves { IfSome (F.held folder.old) (λ files.
        LeavesRun (turns_for job.now start) (limits_of job.now) start
        (came_for job.now result) files (F.held folder.new)) }
    ensures apart { IsSome job.now.tables → folder.new ≡ folder.old }
    ensures cause { HasStoppedCause (F.faults folder.old) (F.faults folder.new) result }
{
    let limits = Limits {
        workers: job.workers,
        pairs: job.pairs,
        rows: job.rows,
    };
    let plan = BackupPlan {
        first: names.first.as_str(),
        second: names.second.as_str(),
        interval: interval_for(job),
    };
    run_start(rt, alloc, start, limits, gate, folder, plan)
}

// Solves a system from a start, writes the output files, and tells the summary.
fn carry_out<R: Threads + Sync, F: Folder, O: Sink, G: Gate + Sync>(
    rt: &R,
    alloc: Global,
    job: &Job,
    start: Start,
    names: &RestartNames,
    folder: &mut F,
    out: &mut O,
    gate: &G,
) -> Result<Totals, End>
    requires names { AreRestartNames (project_of job.now) names.now }
    requires within { IsWithinLimits job.now }
    ensures ends { (tool : Tool) (input : Input) (stored : Stored)
        → IsShaped tool input (tool_system tool input)
        → StartsAs (record { job = job.now; tool = tool; input = input; stored = stored }) start
        → IfSome (F.held folder.old)
        (λ files. Ends (Ok (record { job = job.now; tool = tool; input = input; stored = stored }))
        (record {
          files_before = files;
          files_after = F.held folder.new;
          out_before = O.held out.old;
          out_after = O.held out.new;
        })
        (end_of result)) }
    ensures apart { IsSome job.now.tables → folder.new ≡ folder.old }
    ensures tells { Tells (Some job.now) (O.held out.old) (O.held out.new) (end_of result) }
    ensures words { end_of result ≢ End.Usage }
    ensures folder_fault { (p : Part) → end_of result ≡ End.Outside p → p ≢ Part.Out
        → Rose (F.faults folder.old) (F.faults folder.new) }
    ensures out_fault { end_of result ≡ End.Outside Part.Out
        → Rose (O.faults out.old) (O.faults out.new) }
{
    let finish = run_job(rt, alloc, job, start, names, folder, gate)?;
    let outputs = select_outputs(alloc, &finish)?;
    write_job(alloc, job, folder, &outputs)?;
    tell(out, job, &outputs, finish.pairs)
}

// The system of the tables, without a look at any file.
fn shape_tables(alloc: Global, tool: Tool, k: u32) -> Result<Shaped, InputStop>
    requires { (2 ≤ k) × (k ≤ 20) }
    ensures input { FindsBy (λ s. s.input) result
        (unless_fault (shape_fault tool (tables_input k)) (tables_input k)) }
    ensures shaped { IfOk result (λ s. IsShaped tool s.input s.system) }
    ensures calm { (source : Source) → result ≡ Err (InputStop.Failed source) → ⊥ }
{
    let input = tables(alloc, k)?;
    let system = shape_input(alloc, tool, &input)?;
    Ok(Shaped { input, system })
}

/// The system of a job: that of the tables, or that of the project's files.
pub fn read_job<F: Folder>(
    alloc: Global,
    tool: Tool,
    job: &Job,
    folder: &mut F,
) -> Result<Shaped, InputStop>
    requires { IsWithinLimits job.now }
    ensures same { F.held folder.new ≡ F.held folder.old }
    ensures apart { IsSome job.now.tables → folder.new ≡ folder.old }
    ensures input { IfSome (F.held folder.old) (λ files. FindsBy (λ s. s.input) result
        (input_for tool job.now.tables (project_of job.now) files)) }
    ensures shaped { IfOk result (λ s. IsShaped tool s.input s.system) }
    ensures cause { HasStopCause (F.faults folder.old) (F.faults folder.new) result }
{
    match job.tables {
        Some(k) => shape_tables(alloc, tool, k),
        None => read_shaped(alloc, tool, folder, project_of(job)),
    }
}

/// Writes the outputs of a job: none with tables.
pub fn write_job<F: Folder>(
    alloc: Global,
    job: &Job,
    folder: &mut F,
    outputs: &Outputs,
) -> Result<(), End>
    ensures apart { IsSome job.now.tables → folder.new ≡ folder.old }
    ensures done { OnOk result (F.held folder.new
        ≡ option_map
        (written_all (project_of job.now) (to_write job.now.tables (outputs_of outputs.now)))
        (F.held folder.old)) }
    ensures refused { IfErr result
        (CutsTo (project_of job.now) (to_write job.now.tables (outputs_of outputs.now))
        (F.held folder.old) (F.held folder.new)) }
    ensures later { F.faults folder.old ≤ F.faults folder.new }
    ensures cause { (p : Part) → result ≡ Err (End.Outside p)
        → Rose (F.faults folder.old) (F.faults folder.new) }
{
    match job.tables {
        Some(_) => Ok(()),
        None => write_outputs(alloc, folder, project_of(job), outputs),
    }
}

// All steps behind the words, to the numbers of the run or the end that comes before them.
fn attempt<R: Threads + Sync, F: Folder, O: Sink, G: Gate + Sync>(
    rt: &R,
    alloc: Global,
    tool: Tool,
    job: &Job,
    folder: &mut F,
    out: &mut O,
    gate: &G,
) -> Result<Totals, End>
    requires { IsWithinLimits job.now }
    ensures ends { IfSome (F.held folder.old) (λ files. Ends (plan_of tool job.now files)
        (record {
          files_before = files;
          files_after = F.held folder.new;
          out_before = O.held out.old;
          out_after = O.held out.new;
        })
        (end_of result)) }
    ensures apart { IsSome job.now.tables → folder.new ≡ folder.old }
    ensures tells { Tells (Some job.now) (O.held out.old) (O.held out.new) (end_of result) }
    ensures words { end_of result ≢ End.Usage }
    ensures folder_fault { (p : Part) → end_of result ≡ End.Outside p → p ≢ Part.Out
        → Rose (F.faults folder.old) (F.faults folder.new) }
    ensures out_fault { end_of result ≡ End.Outside Part.Out
        → Rose (O.faults out.old) (O.faults out.new) }
{
    let shaped = read_job(alloc, tool, job, folder)?;
    let names = restart_names(alloc, job)?;
    let start = find_start(alloc, job, folder, shaped.system, &names)?;
    carry_out(rt, alloc, job, start, &names, folder, out, gate)
}

// Puts the line of an end that is not Done. Where that is refused, nothing else changes.
fn speak<E: Sink>(tool: Tool, project: &str, end: &End, err: &mut E)
    ensures { Speaks tool project.now end.now (E.held err.old) (E.held err.new) }
{
    if is_done(end) {
        return;
    }
    let _ = put_message(tool, project, end, err);
}

// The end of the job of the words, or of words that are refused, with its line.
fn finish<R: Threads + Sync, F: Folder, O: Sink, E: Sink, G: Gate + Sync>(
    rt: &R,
    alloc: Global,
    tool: Tool,
    job: Result<Job, WordEnd>,
    folder: &mut F,
    out: &mut O,
    err: &mut E,
    gate: &G,
) -> End
    requires { IfOk job IsWithinLimits }
    ensures ends { (asked : Option Job) → Asks asked job
        → IfSome (F.held folder.old) (λ files. Ends (plan_for tool asked files)
        (record {
          files_before = files;
          files_after = F.held folder.new;
          out_before = O.held out.old;
          out_after = O.held out.new;
        })
        result) }
    ensures apart { (asked : Option Job) → Asks asked job → HasTables asked
        → folder.new ≡ folder.old }
    ensures tells { (asked : Option Job) → Asks asked job
        → Tells asked (O.held out.old) (O.held out.new) result }
    ensures message { (asked : Option Job) → Asks asked job
        → Speaks tool (named_project asked) result (E.held err.old) (E.held err.new) }
    ensures words { (asked : Option Job) → Asks asked job → result ≡ End.Usage → asked ≡ None }
    ensures usage { (asked : Option Job) → Asks asked job → asked ≡ None
        → (result ≡ End.Usage) ⊎ (result ≡ End.Memory) }
    ensures folder_fault { (p : Part) → result ≡ End.Outside p → p ≢ Part.Out
        → Rose (F.faults folder.old) (F.faults folder.new) }
    ensures out_fault { result ≡ End.Outside Part.Out → Rose (O.faults out.old) (O.faults out.new) }
{
    match job {
        Ok(job) => {
            let outcome = attempt(rt, alloc, tool, &job, folder, out, gate);
            let end = settle(outcome);
            speak(tool, project_of(&job), &end, err);
            end
        }
        Err(refused) => {
            let end = End::from(refused);
            speak(tool, "", &end, err);
            end
        }
    }
}

/// Does all that a command does: reads the project's files from `folder`, solves the system that they say, writes its
/// minimal solutions, and puts a summary on `out`, unless the words ask for quiet. `words` are the command's words
/// without the program's name; `--pairs` and `--rows` bound the run, and `--workers` says how many workers share a norm:
/// no answer depends on their number, nor on `gate`, which is told the points that they pass.
/// At each end but Done its line is put on `err`, by [`put_message`]; a refusal there changes no status.
///
/// With `--tables=K` (`graver` alone) the system is that of the tables with three rows and K columns whose sums are 0: no
/// call of the folder is made, the rows that `graver` would write are counted, and `out` gains a second line with the
/// sum of their norms.
///
/// For a project P the files are those of the 4ti2 user manual: `P.mat`, and `P.sign`, `P.rel`, `P.rhs` where they are
/// there; `P.cap` bounds the absolute values of the columns. `graver` writes the minimal solutions (Graver 1975) to
/// `P.gra`, of a vector and its negative, where both are minimal, the one whose first nonzero entry is positive: where
/// there are no sign, relation and cap files, that is the Graver basis of the matrix. `hilbert` writes the minimal
/// solutions to `P.hil`: where all signs are 1 or -1 and there are no caps, the Hilbert basis of the cone. `zsolve`
/// writes the minimal homogeneous solutions to `P.zhom` and the minimal inhomogeneous ones to `P.zinhom`. The rows are
/// in lexicographic order.
///
/// With `--backup=N` a restart file is written after every N norms that the run closes, to `P.ckp0` and `P.ckp1` in turn.
/// With `--resume` the run goes on from the one of both that is accepted and has the later place, or from `P.ckp0` where
/// both have the same, and its first backup goes to the other. A run that is resumed from a file that goes back, through
/// runs of the system, to one from nothing ends and writes as the run that never stopped; from any other accepted file it
/// writes nothing but the user's columns of solutions.
///
/// The end is the first that fits: [`End::Usage`] where the words are not of the form; for `.mat`, `.sign`, `.rel`, `.rhs`,
/// `.cap` in turn [`End::Missing`] (`.mat` alone), [`End::TooLong`], [`End::Text`]; [`End::Refused`] where `.lat`, `.lb` or
/// `.ub` is there; [`End::Shape`]; [`End::BadRestart`] where a run is to be resumed and neither restart file is accepted;
/// [`End::Overflow`], [`End::Pairs`] or [`End::Rows`] as the run comes to it; else [`End::Done`].
/// [`End::Outside`] may come in place of each but `Usage`, and [`End::Memory`] in place of each.
pub fn run_tool<R: Threads + Sync, F: Folder, O: Sink, E: Sink, G: Gate + Sync>(
    rt: &R,
    alloc: Global,
    tool: Tool,
    words: &Words,
    folder: &mut F,
    out: &mut O,
    err: &mut E,
    gate: &G,
) -> Status
    // The theorem: a run from nothing that ends well has left exactly the wanted rows of the user's own system in the
    // output files, where the folder tells its files.
    ensures solved { IfSome (F.held folder.old) (λ files.
        OnDone result.end (IsSolved tool (job_of tool words.now) files (F.held folder.new))) }

    // For every run, a resumed one and one with tables too: at Done, each output file holds what `AreOutputs` says (from
    // nothing, the wanted list; from a restart file whose lists are the defined ones, the same; from any other that is
    // accepted, parts of solutions; with tables none is written), the restart files have their backups, and all other
    // files are as before.
    ensures written { IfSome (F.held folder.old) (λ files.
        OnDone result.end
        (IsOkAnd (planned tool words.now files)
        (λ plan. HasWritten plan files (F.held folder.new)))) }

    // Where no device failed, the end is the one that the words and the files decide, or memory ran out.
    ensures headline { IfSome (F.held folder.old) (λ files.
        (Rose (F.faults folder.old) (F.faults folder.new) → ⊥)
        → (Rose (O.faults out.old) (O.faults out.new) → ⊥)
        → IsExpected (planned tool words.now files) result.end ⊎ (result.end ≡ End.Memory)) }

    // Whether or not a device failed, each end but a device's fault and running out of memory is that one.
    ensures expected { IfSome (F.held folder.old)
        (λ files. IsExpectedOr (planned tool words.now files) result.end) }

    // What then stands in the folder and on standard output.
    ensures leaves { IfSome (F.held folder.old) (λ files. Leaves (planned tool words.now files)
        (record {
          files_before = files;
          files_after = F.held folder.new;
          out_before = O.held out.old;
          out_after = O.held out.new;
        })
        result.end) }

    // With tables, the folder is as it was, also where it tells no files.
    ensures apart { HasTables (job_of tool words.now) → folder.new ≡ folder.old }

    // What standard output has gained, whether or not the folder tells its files.
    ensures tells { Tells (job_of tool words.now) (O.held out.old) (O.held out.new) result.end }

    // Whether the words are a command's is decided by the words alone; memory may run out while they are read.
    ensures words { result.end ≡ End.Usage → job_of tool words.now ≡ None }
    ensures usage { job_of tool words.now ≡ None
        → (result.end ≡ End.Usage) ⊎ (result.end ≡ End.Memory) }

    // A device's fault is answered only where its count rose.
    ensures folder_fault { (p : Part) → result.end ≡ End.Outside p → p ≢ Part.Out
        → Rose (F.faults folder.old) (F.faults folder.new) }
    ensures out_fault { result.end ≡ End.Outside Part.Out
        → Rose (O.faults out.old) (O.faults out.new) }

    ensures code { result.code ≡ code_of result.end }

    // At each end but Done, standard error has gained its line, or a prefix of it where that was refused.
    ensures message { Speaks tool (named_project (job_of tool words.now)) result.end
        (E.held err.old) (E.held err.new) }
{
    let job = read_words(alloc, tool, words);
    let end = finish(rt, alloc, tool, job, folder, out, err, gate);
    Status {
        code: code(&end),
        end,
    }
}
