//! The run from a start, with its backups.

ghost use Rattle.std.specs.Prelude.{◌≡◌, ◌≤◌, ℕ, List, [], slice_index_or, Option, None, Some, Err, IfOk, IfErr, IfSome};
ghost use Rattle.std.specs.Option.{ok_or};
ghost use Rattle.outside.specs.Files.{Files};
ghost use Rattle.stage_store.specs.Lifted.{IsLiftedDefined};
ghost use Rattle.lift_run.specs.Runs.{bounds, end_of, AnswersWalk, AnswersEnd, KeepsSystem, IsOfSystem, HasAllSolutions};
ghost use Rattle.backups.specs.Starts.{Begins, KeepsStage, IsDefinedStart, StartComesTo, system_of, first_slot};
ghost use Rattle.backups.specs.Standing.{LeavesFrom, LeavesRun, turns_from, ended, came_to, named_end, HasStoppedCause, IsSoundFrom};

use crate::{Backup, Slot, Start};
use lift_run::{Limits, NoKeep, RunEnd, run};
use outside::Folder;
use stage_store::{Finish, Lifted, Stage};
use std::alloc::{AllocError, Global};
use std::thread::Threads;
use worker_gate::Gate;

/// How a run writes its backups: the names of the two restart files, and after how many closed norms one of them is written.
#[derive(Clone, Copy)]
pub struct BackupPlan<'a> {
    /// The file `.ckp0`.
    pub first: &'a str,
    /// The file `.ckp1`.
    pub second: &'a str,
    /// Without an interval no backup is written.
    pub interval: Option<u32>,
}

/// Why a run did not finish, and which restart file its next backup goes to: where a backup was refused, the file that was
/// refused.
#[derive(Debug, Drop)]
pub struct Stopped {
    pub end: RunEnd,
    pub next: Slot,
}

// What the run begins with.
fn begin(alloc: Global, start: Start) -> Result<Lifted, AllocError>
    ensures begins { IfOk result (Begins start) }
    ensures defined { IsDefinedStart start → IfOk result IsLiftedDefined }
    ensures kept { KeepsStage start }
{
    match start {
        Start::Fresh(system) => Stage::first(alloc, system),
        Start::Resumed(stage, _) => {
            stage.keeps();
            Ok(Lifted::Next(stage))
        }
    }
}

// The answer of a run, with the file of its next backup.
fn stopped_at(answer: Result<Finish, RunEnd>, next: Slot) -> Result<Finish, Stopped>
    ensures ended { ended result ≡ answer }
    ensures next { IfErr result (λ s. s.next ≡ next) }
{
    match answer {
        Ok(finish) => Ok(finish),
        Err(end) => Err(Stopped { end, next }),
    }
}

// The run without backups.
fn run_alone<R: Threads + Sync, G: Gate + Sync>(
    rt: &R,
    alloc: Global,
    from: Lifted,
    limits: Limits,
    gate: &G,
) -> Result<Finish, RunEnd>
    requires workers { 1 ≤ limits.workers }
    requires most { limits.workers ≤ Limits.MAX_WORKERS }
    requires pairs { limits.pairs ≤ Limits.MAX_PAIRS }
    requires some_rows { 1 ≤ limits.rows }
    requires rows { limits.rows ≤ Limits.MAX_ROWS }
    ensures walk { AnswersWalk (bounds limits) from result }
    ensures defined { IsLiftedDefined from → AnswersEnd (bounds limits) from result }
    ensures system { IfOk result (KeepsSystem from) }
    ensures rows { IsLiftedDefined from → IfOk result HasAllSolutions }
    ensures leaves { (names : List (List ℕ)) (files : Files)
        → LeavesFrom (record { interval = None; names = names }) (bounds limits) from
        (ok_or (end_of result) (slice_index_or names 0 [])) files (Some files) }
    ensures sure { result ≡ Err RunEnd.Failed → ⊥ }
{
    run(rt, alloc, from, limits, gate, &mut NoKeep)
}

// The run with a backup after every so many closed norms, the first to the file of the slot.
fn run_backed<R: Threads + Sync, F: Folder, G: Gate + Sync>(
    rt: &R,
    alloc: Global,
    from: Lifted,
    limits: Limits,
    gate: &G,
    folder: &mut F,
    plan: BackupPlan<'_>,
    interval: u32,
    slot: Slot,
) -> Result<Finish, Stopped>
    requires workers { 1 ≤ limits.workers }
    requires most { limits.workers ≤ Limits.MAX_WORKERS }
    requires pairs { limits.pairs ≤ Limits.MAX_PAIRS }
    requires some_rows { 1 ≤ limits.rows }
    requires rows { limits.rows ≤ Limits.MAX_ROWS }
    requires interval { 1 ≤ interval }
    ensures walk { AnswersWalk (bounds limits) from (ended result) }
    ensures defined { IsLiftedDefined from → AnswersEnd (bounds limits) from (ended result) }
    ensures system { IfOk result (KeepsSystem from) }
    ensures rows { IsLiftedDefined from → IfOk result HasAllSolutions }
    ensures leaves { IfSome (F.held folder.old) (λ files.
        LeavesFrom (turns_from slot (Some interval) plan.entry.first.now plan.entry.second.now)
        (bounds limits) from
        (came_to plan.entry.first.now plan.entry.second.now result) files (F.held folder.new)) }
    ensures cause { HasStoppedCause (F.faults folder.old) (F.faults folder.new) result }
{
    let mut keep = Backup::new(alloc, folder, plan.first, plan.second, slot, interval);
    let answer = run(rt, alloc, from, limits, gate, &mut keep);
    stopped_at(answer, keep.next_slot())
}

// The run from its first stage on, the first backup to the file of the slot.
fn run_from<R: Threads + Sync, F: Folder, G: Gate + Sync>(
    rt: &R,
    alloc: Global,
    from: Lifted,
    limits: Limits,
    gate: &G,
    folder: &mut F,
    plan: BackupPlan<'_>,
    slot: Slot,
) -> Result<Finish, Stopped>
    requires workers { 1 ≤ limits.workers }
    requires most { limits.workers ≤ Limits.MAX_WORKERS }
    requires pairs { limits.pairs ≤ Limits.MAX_PAIRS }
    requires some_rows { 1 ≤ limits.rows }
    requires rows { limits.rows ≤ Limits.MAX_ROWS }
    requires interval { IfSome plan.interval (λ n. 1 ≤ n) }
    ensures walk { AnswersWalk (bounds limits) from (ended result) }
    ensures defined { IsLiftedDefined from → AnswersEnd (bounds limits) from (ended result) }
    ensures system { IfOk result (KeepsSystem from) }
    ensures rows { IsLiftedDefined from → IfOk result HasAllSolutions }
    ensures leaves { IfSome (F.held folder.old) (λ files.
        LeavesFrom (turns_from slot plan.entry.interval plan.entry.first.now plan.entry.second.now)
        (bounds limits) from
        (came_to plan.entry.first.now plan.entry.second.now result) files (F.held folder.new)) }
    ensures apart { plan.entry.interval ≡ None → folder.new ≡ folder.old }
    ensures cause { HasStoppedCause (F.faults folder.old) (F.faults folder.new) result }
{
    match plan.interval {
        None => stopped_at(run_alone(rt, alloc, from, limits, gate), slot),
        Some(interval) => {
            run_backed(rt, alloc, from, limits, gate, folder, plan, interval, slot)
        }
    }
}

/// Runs the lifting from a start, and writes the backups of the plan: after every so many norms that this run closes, one
/// restart file, under the two names in turn, the first under the name of the file that was not taken.
///
/// # Errors
/// As `lift_run::run`; `Failed` where a restart file could not be written, and the folder's count of faults rose.
pub fn run_start<R: Threads + Sync, F: Folder, G: Gate + Sync>(
    rt: &R,
    alloc: Global,
    start: Start,
    limits: Limits,
    gate: &G,
    folder: &mut F,
    plan: BackupPlan<'_>,
) -> Result<Finish, Stopped>
    requires workers { 1 ≤ limits.workers }
    requires most { limits.workers ≤ Limits.MAX_WORKERS }
    requires pairs { limits.pairs ≤ Limits.MAX_PAIRS }
    requires some_rows { 1 ≤ limits.rows }
    requires rows { limits.rows ≤ Limits.MAX_ROWS }
    requires interval { IfSome plan.interval (λ n. 1 ≤ n) }

    // The end is that of the run from the start.
    ensures comes { IfSome (named_end result) (StartComesTo (bounds limits) start) }

    // What is finished is of the start's system. From defined lists it has the minimal solutions of all rows; and each row of
    // it solves them and is not zero, whatever stood in the restart file.
    ensures system { IfOk result (IsOfSystem (system_of start)) }
    ensures rows { IsDefinedStart start → IfOk result HasAllSolutions }
    ensures sound { IfOk result (IsSoundFrom start) }

    // Which backups then stand. Where the run broke off, the file of `next` is that of the backup that would have come then:
    // it alone may be torn, and all other files are as the backups before it left them.
    ensures leaves { IfSome (F.held folder.old) (λ files.
        LeavesRun (turns_from (first_slot start) plan.entry.interval plan.entry.first.now
        plan.entry.second.now) (bounds limits) start
        (came_to plan.entry.first.now plan.entry.second.now result) files (F.held folder.new)) }

    // Without an interval no call of the folder is made.
    ensures apart { plan.entry.interval ≡ None → folder.new ≡ folder.old }
    ensures cause { HasStoppedCause (F.faults folder.old) (F.faults folder.new) result }
{
    let slot = start.first_slot();
    match begin(alloc, start) {
        Ok(from) => run_from(rt, alloc, from, limits, gate, folder, plan, slot),
        Err(_) => Err(Stopped {
            end: RunEnd::Memory,
            next: slot,
        }),
    }
}
