//! The run with a standing team.

ghost use Rattle.std.specs.Prelude.{◌≡◌, ◌≤◌, length, IfOk, IfSome, Err};
ghost use Rattle.lift_core.specs.ToolSystems.{width};
ghost use Rattle.lift_core.specs.Ends.{RunEnds, IsSolutionList};
ghost use Rattle.stage_store.specs.Lifted.{IsLiftedDefined};
ghost use Rattle.lift_run.specs.Runs.{bounds, end_of, AnswersEnd, KeepsSystem, HasAllSolutions};
ghost use Rattle.standing_pool.specs.Ends.{as_run, IsComeTo, IsComeToFromStart};

use crate::ends::{StandEnd, answer_standing};
use crate::hall::Hall;
use crate::leader::{Tools, lead};
use crate::worker::serve;
use lift_core::System;
use lift_run::{Limits, RunEnd};
use stage_store::{Finish, Lifted, Stage};
use std::alloc::Global;
use std::sync::Wait;
use std::thread;
use std::thread::Threads;
use worker_gate::Gate;

// Starts the workers, and runs with them. All threads have ended when it returns.
fn with_team<R: Threads + Wait + Sync, G: Gate + Sync>(
    rt: &R,
    hall: &Hall,
    gate: &G,
    first: Lifted,
    tools: Tools,
) -> Result<Finish, RunEnd>
    requires { IsLiftedDefined first }
    ensures end { AnswersEnd (bounds hall.now.limits) first result }
    ensures system { IfOk result (KeepsSystem first) }
    ensures rows { IfOk result HasAllSolutions }
    ensures walk { IsComeTo (bounds hall.now.limits) first result }
    ensures sure { result ≡ Err RunEnd.Failed → ⊥ }
{
    thread::scope(
        thread::scope_env(),
        rt,
        |scope| -> Result<Finish, RunEnd>
            requires { IsLiftedDefined first }
            ensures end { AnswersEnd (bounds hall.entry.now.limits) first result }
            ensures system { IfOk result (KeepsSystem first) }
            ensures rows { IfOk result HasAllSolutions }
            ensures walk { IsComeTo (bounds hall.entry.now.limits) first result }
            ensures sure { result ≡ Err RunEnd.Failed → ⊥ }
        {
            for i in 0..hall.limits.workers {
                // Where no thread can be made, the caller's own works out the part.
                if scope.spawn(move || serve(rt, hall, gate, i)).is_err() {
                    hall.leave(rt, i);
                }
            }
            lead(rt, hall, gate, first, tools)
        },
    )
}

/// Runs the lifting of a system from its first stage on, to the minimal solutions of all its equations or to the first limit that
/// it meets, by `limits.workers` workers who each have a thread for the whole run. Each tells the gate `Drawn` with its own number
/// before it works out its part of a norm. All threads have ended when the call returns; that it returns is not promised.
///
/// # Errors
/// At each next norm of a stage, Overflow where that norm is above 2^63-1, else Pairs where closing it would use more pairs
/// than the limit, else Rows where closing it would list more rows than the limit. Where there is no next norm, Overflow where the
/// next equation's product with a solution leaves the range, with the first such solution by norm and then lexicographically.
/// Memory where memory ran out.
pub fn run_standing<R: Threads + Wait + Sync, G: Gate + Sync>(
    rt: &R,
    alloc: Global,
    system: System,
    limits: Limits,
    gate: &G,
) -> Result<Finish, StandEnd>
    requires workers { 1 ≤ limits.workers }
    requires most { limits.workers ≤ Limits.MAX_WORKERS }
    requires pairs { limits.pairs ≤ Limits.MAX_PAIRS }
    requires some_rows { 1 ≤ limits.rows }
    requires rows { limits.rows ≤ Limits.MAX_ROWS }
    ensures end { IfSome (end_of (as_run result)) (RunEnds system.equations (bounds limits)) }
    ensures system { IfOk result (λ f. f.system ≡ system) }
    ensures width { IfOk result (λ f. f.rows.width ≡ width system.equations) }
    ensures rows { IfOk result
        (λ f. IsSolutionList system.equations (length system.equations.rows) f.rows.rows) }
    ensures walk { IsComeToFromStart (bounds limits) system (as_run result) }
{
    let first = Stage::first(alloc, system.copy(alloc)?)?;
    let tools = Tools::new(alloc, limits.workers)?;
    let hall = Hall::new(alloc, system, limits)?;
    answer_standing(with_team(rt, &hall, gate, first, tools))
}
