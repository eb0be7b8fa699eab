//! The top call.

ghost use Rattle.std.specs.Prelude.{◌≡◌, ◌≢◌, ◌⊎◌, true, IsSome, IfSome, IfOk, IfErr, IsOkAnd, None, Some, Ok, Option};
ghost use Rattle.outside.specs.Causes.{Rose};
ghost use Rattle.outside.specs.Files.{Files};
ghost use Rattle.lift_core.specs.declared.Tool.{Tool};
ghost use Rattle.lift_run.specs.Runs.{IsOfSystem, HasAllSolutions};
ghost use Rattle.lift_run.specs.declared.ends.RunEnd.TheVariants.{Failed};
ghost use Rattle.system_shape.specs.Shape.{tool_system};
ghost use Rattle.system_shape.specs.declared.files.Input.{Input};
ghost use Rattle.system_files.specs.Inputs.{IsShaped};
ghost use Rattle.backups.specs.Starts.{Stored, StartComesTo};
ghost use Rattle.backups.specs.declared.starts.Start.TheVariants.{Fresh};
ghost use Rattle.backups.specs.Standing.{LeavesRun, IsSoundFrom, named_end};
ghost use Rattle.standing_pool.specs.declared.ends.StandEnd.{StandEnd};
ghost use Rattle.tool_words.specs.Jobs.{IsWithinLimits};
ghost use Rattle.tool_top.specs.Plan.{plan_of};
ghost use Rattle.tool_top.specs.Expected.{IsExpected, IsExpectedOr, StartsAs, limits_of};
ghost use Rattle.tool_top.specs.Left.{HasWritten, Leaves, turns_for};
ghost use Rattle.tool_top.specs.Summary.{Tells};
ghost use Rattle.tool_top.specs.Inside.Ends.{Ends, came_for, end_of};
ghost use Rattle.tool_top.specs.declared.ends.Part.{Part};
ghost use Rattle.tool_top.specs.declared.ends.Part.TheVariants.{Out};
ghost use Rattle.tool_top.specs.declared.ends.End.{End};
ghost use Rattle.stand_tool.specs.Requests.{is_plain, request_of};
ghost use Rattle.stand_tool.specs.Plans.{plan_for, planned, job_in, project_in};
ghost use Rattle.stand_tool.specs.Solved.{IsSolved};
ghost use Rattle.stand_tool.specs.Ends.{OnDone, Stands, code_of};
ghost use Rattle.stand_tool.specs.Messages.{Speaks};
ghost use Rattle.stand_tool.specs.Inside.Ends.{Asks, IsOfRun};

use crate::ends::{code, end_for, is_done};
use crate::messages::put_message;
use crate::{Request, StandStatus, TopEnd, read_request, run_fresh};
use backups::Stopped;
use lift_core::System;
use lift_run::Limits;
use outside::{Folder, Sink, Words};
use stage_store::Finish;
use std::alloc::Global;
use std::sync::Wait;
use std::thread::Threads;
use tool_top::{End, Totals, project_of, read_job, select_outputs, settle, tell, write_job};
use tool_words::{Job, WordEnd};
use worker_gate::Gate;

// Runs from nothing within the budgets of a job without tables, backups and restart.
fn run_job<R: Threads + Wait + Sync, G: Gate + Sync>(
    rt: &R,
    alloc: Global,
    job: &Job,
    system: System,
    gate: &G,
) -> Result<Finish, Stopped>
    requires within { IsWithinLimits job.now }
    requires plain { is_plain job.now ≡ true }
    ensures comes { IfSome (named_end result) (StartComesTo (limits_of job.now) (Fresh system)) }
    ensures system { IfOk result (IsOfSystem system) }
    ensures rows { IfOk result HasAllSolutions }
    ensures sound { IfOk result (IsSoundFrom (Fresh system)) }

    // Whatever the files are, they are left as the job's run leaves them.
    ensures leaves { (held : Option Files) → IfSome held (λ files.
        LeavesRun (turns_for job.now (Fresh system)) (limits_of job.now) (Fresh system)
        (came_for job.now result) files held) }
    ensures sure { IfErr result (λ s. s.end ≡ Failed → ⊥) }
{
    let limits = Limits {
        workers: job.workers,
        pairs: job.pairs,
        rows: job.rows,
    };
    run_fresh(rt, alloc, system, limits, gate)
}

// Solves a system from nothing, writes the output files, and tells the summary.
fn carry_out<R: Threads + Wait + Sync, F: Folder, O: Sink, G: Gate + Sync>(
    rt: &R,
    alloc: Global,
    job: &Job,
    system: System,
    folder: &mut F,
    out: &mut O,
    gate: &G,
) -> Result<Totals, End>
    requires within { IsWithinLimits job.now }
    requires plain { is_plain job.now ≡ true }
    ensures ends { (tool : Tool) (input : Input) (stored : Stored)
        → IsShaped tool input (tool_system tool input)
        → StartsAs (record { job = job.now; tool = tool; input = input; stored = stored })
        (Fresh system)
        → IfSome (F.held folder.old)
        (λ files. Ends (Ok (record { job = job.now; tool = tool; input = input; stored = stored }))
        (record {
          files_before = files;
          files_after = F.held folder.new;
          out_before = O.held out.old;
          out_after = O.held out.new;
        })
        (end_of result)) }
    ensures tells { Tells (Some job.now) (O.held out.old) (O.held out.new) (end_of result) }
    ensures run { IsOfRun (end_of result) }
    ensures folder_fault { (p : Part) → end_of result ≡ End.Outside p → p ≢ Part.Out
        → Rose (F.faults folder.old) (F.faults folder.new) }
    ensures out_fault { end_of result ≡ End.Outside Part.Out
        → Rose (O.faults out.old) (O.faults out.new) }
{
    let finish = run_job(rt, alloc, job, system, gate)?;
    let outputs = select_outputs(alloc, &finish)?;
    write_job(alloc, job, folder, &outputs)?;
    tell(out, job, &outputs, finish.pairs)
}

// All steps behind the words.
fn attempt<R: Threads + Wait + Sync, F: Folder, O: Sink, G: Gate + Sync>(
    rt: &R,
    alloc: Global,
    request: &Request,
    folder: &mut F,
    out: &mut O,
    gate: &G,
) -> TopEnd
    requires within { IsWithinLimits request.now.job }
    requires plain { is_plain request.now.job ≡ true }
    ensures ends { IfSome (F.held folder.old) (λ files. Stands result
        (Ends (plan_of request.now.tool request.now.job files)
        (record {
          files_before = files;
          files_after = F.held folder.new;
          out_before = O.held out.old;
          out_after = O.held out.new;
        }))) }
    ensures tells { Stands result
        (Tells (Some request.now.job) (O.held out.old) (O.held out.new)) }
    ensures words { result ≢ TopEnd.Usage }
    ensures outside { result ≡ TopEnd.Outside → Rose (F.faults folder.old) (F.faults folder.new)
        ⊎ Rose (O.faults out.old) (O.faults out.new) }
{
    let job = &request.job;
    match read_job(alloc, request.tool, job, folder) {
        Ok(shaped) => {
            let outcome = carry_out(rt, alloc, job, shaped.system, folder, out, gate);
            end_for(settle(outcome))
        }
        Err(stopped) => TopEnd::from(stopped),
    }
}

// Puts the line of an end that is not Done. Where that is refused, nothing else changes.
fn speak<E: Sink>(project: &str, end: &TopEnd, err: &mut E)
    ensures { Speaks project.now end.now (E.held err.old) (E.held err.new) }
{
    if is_done(end) {
        return;
    }
    let _ = put_message(project, end, err);
}

// The end of what the words ask for, or of words that are refused, with its line.
fn finish<R: Threads + Wait + Sync, F: Folder, O: Sink, E: Sink, G: Gate + Sync>(
    rt: &R,
    alloc: Global,
    request: Result<Request, WordEnd>,
    folder: &mut F,
    out: &mut O,
    err: &mut E,
    gate: &G,
) -> TopEnd
    requires within { IfOk request (λ r. IsWithinLimits r.job) }
    requires plain { IfOk request (λ r. is_plain r.job ≡ true) }
    ensures ends { (asked : Option Request) → Asks asked request
        → IfSome (F.held folder.old) (λ files. Stands result (Ends (plan_for asked files)
        (record {
          files_before = files;
          files_after = F.held folder.new;
          out_before = O.held out.old;
          out_after = O.held out.new;
        }))) }
    ensures tells { (asked : Option Request) → Asks asked request
        → Stands result (Tells (job_in asked) (O.held out.old) (O.held out.new)) }
    ensures message { (asked : Option Request) → Asks asked request
        → Speaks (project_in asked) result (E.held err.old) (E.held err.new) }
    ensures words { (asked : Option Request) → Asks asked request → result ≡ TopEnd.Usage
        → asked ≡ None }
    ensures usage { (asked : Option Request) → Asks asked request → asked ≡ None
        → (result ≡ TopEnd.Usage) ⊎ (result ≡ TopEnd.Memory) }
    ensures outside { result ≡ TopEnd.Outside → Rose (F.faults folder.old) (F.faults folder.new)
        ⊎ Rose (O.faults out.old) (O.faults out.new) }
{
    match request {
        Ok(request) => {
            let end = attempt(rt, alloc, &request, folder, out, gate);
            speak(project_of(&request.job), &end, err);
            end
        }
        Err(refused) => {
            let end = TopEnd::from(refused);
            speak("", &end, err);
            end
        }
    }
}

/// Does all that the command `stand` does: runs the command that the first word names, `graver`, `hilbert` or `zsolve`, on the
/// other words, by one team of threads that serves the whole run. `gate` is told the points that the workers pass. What is read,
/// written and put, and at which end, is as with [`tool_top::run_tool`] for that command and these words, but for the texts of
/// wrong words and of a device's fault, and the name `stand` before each line of standard error.
///
/// The end is [`TopEnd::Usage`] where the first word names none of the three commands, where the rest are not its words, or where
/// they ask for tables, backups or a restart. The numbers of workers, pairs and rows are bounds as for that command. No answer
/// depends on the number of workers, nor on `gate`. All threads have ended when the call returns; that it returns is not promised.
pub fn run_stand<R: Threads + Wait + Sync, F: Folder, O: Sink, E: Sink, G: Gate + Sync>(
    rt: &R,
    alloc: Global,
    words: &Words,
    folder: &mut F,
    out: &mut O,
    err: &mut E,
    gate: &G,
) -> StandStatus
    // The theorem: a run that ends well has left exactly the wanted rows of the user's own system in the output files of the
    // command, where the folder tells its files.
    ensures solved { IfSome (F.held folder.old) (λ files.
        OnDone result.end (IsSolved (request_of words.now) files (F.held folder.new))) }

    // At Done, all other files are as before.
    ensures written { IfSome (F.held folder.old) (λ files.
        OnDone result.end
        (IsOkAnd (planned words.now files)
        (λ plan. HasWritten plan files (F.held folder.new)))) }

    // Where no device failed, the end stands for the one that the words and the files decide, or memory ran out.
    ensures headline { IfSome (F.held folder.old) (λ files.
        (Rose (F.faults folder.old) (F.faults folder.new) → ⊥)
        → (Rose (O.faults out.old) (O.faults out.new) → ⊥)
        → Stands result.end (IsExpected (planned words.now files))
        ⊎ (result.end ≡ TopEnd.Memory)) }

    // Whether or not a device failed, each end but a device's fault and running out of memory stands for that one.
    ensures expected { IfSome (F.held folder.old)
        (λ files. Stands result.end (IsExpectedOr (planned words.now files))) }

    // What then stands in the folder and on standard output.
    ensures leaves { IfSome (F.held folder.old) (λ files.
        Stands result.end (Leaves (planned words.now files)
        (record {
          files_before = files;
          files_after = F.held folder.new;
          out_before = O.held out.old;
          out_after = O.held out.new;
        }))) }

    // What standard output has gained, whether or not the folder tells its files.
    ensures tells { Stands result.end
        (Tells (job_in (request_of words.now)) (O.held out.old) (O.held out.new)) }

    // Whether the words are the command's is decided by the words alone; memory may run out while they are read.
    ensures words { result.end ≡ TopEnd.Usage → request_of words.now ≡ None }
    ensures usage { request_of words.now ≡ None
        → (result.end ≡ TopEnd.Usage) ⊎ (result.end ≡ TopEnd.Memory) }

    // A device's fault is answered only where a count rose.
    ensures outside { result.end ≡ TopEnd.Outside
        → Rose (F.faults folder.old) (F.faults folder.new)
        ⊎ Rose (O.faults out.old) (O.faults out.new) }

    // Running out of memory is no end of the run.
    ensures memory { result.end ≢ TopEnd.Run StandEnd.Memory }
    ensures code { result.code ≡ code_of result.end }

    // At each end but Done, standard error has gained its line, or a prefix of it where that was refused.
    ensures message { Speaks (project_in (request_of words.now)) result.end
        (E.held err.old) (E.held err.new) }
{
    let request = read_request(alloc, words);
    let end = finish(rt, alloc, request, folder, out, err, gate);
    StandStatus {
        code: code(&end),
        end,
    }
}
