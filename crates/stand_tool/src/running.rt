//! The run of a system from nothing by a team, as one without backups.

ghost use Rattle.std.specs.Prelude.{◌≡◌, ◌≤◌, ℕ, List, Some, IfOk, IfErr, IfSome};
ghost use Rattle.outside.specs.Files.{Files};
ghost use Rattle.lift_run.specs.declared.ends.RunEnd.TheVariants.{Failed};
ghost use Rattle.lift_run.specs.Runs.{bounds, IsOfSystem, HasAllSolutions};
ghost use Rattle.standing_pool.specs.Ends.{as_run, run_end_of};
ghost use Rattle.backups.specs.declared.starts.Slot.TheVariants.{First};
ghost use Rattle.backups.specs.declared.starts.Start.TheVariants.{Fresh};
ghost use Rattle.backups.specs.Starts.{StartComesTo};
ghost use Rattle.backups.specs.Standing.{ended, named_end, came_to, turns_from, LeavesRun, IsSoundFrom};
ghost use Rattle.std.specs.Prelude.{None};

use backups::{Slot, Stopped};
use lift_core::System;
use lift_run::{Limits, RunEnd};
use stage_store::Finish;
use standing_pool::{StandEnd, run_standing};
use std::alloc::Global;
use std::sync::Wait;
use std::thread::Threads;
use worker_gate::Gate;

// The end of a run with a team, as that of a run.
fn run_end(end: StandEnd) -> RunEnd
    ensures { result ≡ run_end_of end }
{
    match end {
        StandEnd::Overflow { stage, place } => RunEnd::Overflow { stage, place },
        StandEnd::Pairs {
            stage,
            norm,
            needed,
        } => RunEnd::Pairs {
            stage,
            norm,
            needed,
        },
        StandEnd::Rows { stage, norm, count } => RunEnd::Rows { stage, norm, count },
        StandEnd::Memory => RunEnd::Memory,
    }
}

// The answer of a run with a team, as that of a run whose first backup would go to the first file.
fn stopped(answer: Result<Finish, StandEnd>) -> Result<Finish, Stopped>
    ensures ended { ended result ≡ as_run answer }
    ensures next { IfErr result (λ s. s.next ≡ First) }
    ensures sure { IfErr result (λ s. s.end ≡ Failed → ⊥) }
{
    match answer {
        Ok(finish) => Ok(finish),
        Err(end) => Err(Stopped {
            end: run_end(end),
            next: Slot::First,
        }),
    }
}

/// Runs the lifting of a system from its first stage on with a team, as `backups::run_start` does from nothing and without
/// backups.
///
/// # Errors
/// As `standing_pool::run_standing`.
pub fn run_fresh<R: Threads + Wait + Sync, G: Gate + Sync>(
    rt: &R,
    alloc: Global,
    system: System,
    limits: Limits,
    gate: &G,
) -> Result<Finish, Stopped>
    requires workers { 1 ≤ limits.workers }
    requires most { limits.workers ≤ Limits.MAX_WORKERS }
    requires pairs { limits.pairs ≤ Limits.MAX_PAIRS }
    requires some_rows { 1 ≤ limits.rows }
    requires rows { limits.rows ≤ Limits.MAX_ROWS }
    ensures comes { IfSome (named_end result) (StartComesTo (bounds limits) (Fresh system)) }
    ensures system { IfOk result (IsOfSystem system) }
    ensures rows { IfOk result HasAllSolutions }
    ensures sound { IfOk result (IsSoundFrom (Fresh system)) }

    // The files are left as a run without backups leaves them.
    ensures leaves { (first second : List ℕ) (files : Files)
        → LeavesRun (turns_from First None first second) (bounds limits) (Fresh system)
        (came_to first second result) files (Some files) }

    // No backup is written, so none fails.
    ensures sure { IfErr result (λ s. s.end ≡ Failed → ⊥) }
{
    stopped(run_standing(rt, alloc, system, limits, gate))
}
