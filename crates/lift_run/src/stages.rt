//! The run over the norms of a stage, and over the stages.

ghost use Rattle.std.specs.Prelude.{◌≡◌, ◌≤◌, length, is_some, IfOk, IfSome};
ghost use Rattle.lift_core.specs.ToolSystems.{width};
ghost use Rattle.lift_core.specs.Ends.{RunEnds, IsSolutionList};
ghost use Rattle.stage_store.specs.Stage.{StageValue, IsDefined};
ghost use Rattle.stage_store.specs.Lifted.{IsLiftedDefined};
ghost use Rattle.lift_run.specs.Runs.{bounds, end_of, AnswersWalk, AnswersEnd, KeepsSystem, HasAllSolutions};
ghost use Rattle.lift_run.specs.Keeps.{IsAllowed, TellsKeep, HasKeepCause};
ghost use Rattle.lift_run.specs.Places.{TellsFromStart};
ghost use Rattle.lift_run.specs.Inside.Steps.{AllowsNext, ListsNorm, ClosesNorm, ClosesAll, RunsFrom};

use crate::ends::{Limits, Place, RunEnd};
use crate::keeping::Keep;
use crate::norms::{Norms, OnBoard, sums_by};
use lift_core::System;
use stage_store::{Finish, Lifted, Next, PublishEnd, Stage};
use std::alloc::Global;
use std::thread::Threads;
use worker_gate::Gate;

/// Runs the lifting of a system from its first stage on, to the minimal solutions of all its equations or to the first
/// limit that it meets. Each norm is worked out by `limits.workers` workers, and the gate is told the points that they
/// pass. The Keep is told of each norm that is closed, in order, each once.
///
/// # Errors
/// As `run`.
pub fn run_system<R: Threads + Sync, G: Gate + Sync, K: Keep>(
    rt: &R,
    alloc: Global,
    system: System,
    limits: Limits,
    gate: &G,
    keep: &mut K,
) -> Result<Finish, RunEnd>
    requires workers { 1 ≤ limits.workers }
    requires most { limits.workers ≤ Limits.MAX_WORKERS }
    requires pairs { limits.pairs ≤ Limits.MAX_PAIRS }
    requires some_rows { 1 ≤ limits.rows }
    requires rows { limits.rows ≤ Limits.MAX_ROWS }
    ensures end { IfSome (end_of result) (RunEnds system.equations (bounds limits)) }
    ensures system { IfOk result (λ f. f.system ≡ system) }
    ensures width { IfOk result (λ f. f.rows.width ≡ width system.equations) }
    ensures rows { IfOk result
        (λ f. IsSolutionList system.equations (length system.equations.rows) f.rows.rows) }
    ensures kept { TellsFromStart K.after K.torn (bounds limits) system result
        (K.state keep.old) (K.state keep.new) }
    ensures told { is_some (K.state keep.new) ≡ is_some (K.state keep.old) }
    ensures cause { HasKeepCause (K.faults keep.old) (K.faults keep.new) result }
{
    let first = Stage::first(alloc, system)?;
    run(rt, alloc, first, limits, gate, keep)
}

/// Runs the lifting from a stage on: it closes each norm of each stage in turn, until a stage of the last equation is
/// finished or a limit is met. Each norm is worked out by `limits.workers` workers, and the gate is told the points that
/// they pass. The Keep is told of each norm that is closed, in order, each once. What is finished is handed back, and the
/// Keep stays as it was.
///
/// # Errors
/// At each next norm of a stage, Overflow where that norm is above 2^63-1, else Pairs where closing it would use more pairs
/// than the limit, else Rows where closing it would list more rows than the limit, else Failed or Memory where the Keep
/// answered so. Where there is no next norm, Overflow where the next equation's product with a solution leaves the range,
/// with the first such solution by norm and then lexicographically. Memory where memory ran out.
pub fn run<R: Threads + Sync, G: Gate + Sync, K: Keep>(
    rt: &R,
    alloc: Global,
    from: Lifted,
    limits: Limits,
    gate: &G,
    keep: &mut K,
) -> Result<Finish, RunEnd>
    requires workers { 1 ≤ limits.workers }
    requires most { limits.workers ≤ Limits.MAX_WORKERS }
    requires pairs { limits.pairs ≤ Limits.MAX_PAIRS }
    requires some_rows { 1 ≤ limits.rows }
    requires rows { limits.rows ≤ Limits.MAX_ROWS }
    ensures walk { AnswersWalk (bounds limits) from result }
    ensures defined { IsLiftedDefined from → AnswersEnd (bounds limits) from result }
    ensures system { IfOk result (KeepsSystem from) }
    ensures rows { IsLiftedDefined from → IfOk result HasAllSolutions }
    ensures kept { TellsKeep K.after K.torn (bounds limits) from result
        (K.state keep.old) (K.state keep.new) }
    ensures told { is_some (K.state keep.new) ≡ is_some (K.state keep.old) }
    ensures cause { HasKeepCause (K.faults keep.old) (K.faults keep.new) result }
{
    run_with(rt, alloc, from, limits, gate, &mut OnBoard, keep)
}

/// Runs the lifting from a stage on, as `run` does, where a norm may be worked out in another way. What that way asks of a stage
/// has to hold of each stage that is defined where the first one is.
///
/// # Errors
/// As `run`.
pub fn run_with<R: Threads + Sync, G: Gate + Sync, N: Norms, K: Keep>(
    rt: &R,
    alloc: Global,
    from: Lifted,
    limits: Limits,
    gate: &G,
    norms: &mut N,
    keep: &mut K,
) -> Result<Finish, RunEnd>
    requires asks { (s : StageValue) → (IsLiftedDefined from → IsDefined s) → N.asks s }
    requires workers { 1 ≤ limits.workers }
    requires most { limits.workers ≤ Limits.MAX_WORKERS }
    requires pairs { limits.pairs ≤ Limits.MAX_PAIRS }
    requires some_rows { 1 ≤ limits.rows }
    requires rows { limits.rows ≤ Limits.MAX_ROWS }
    ensures walk { AnswersWalk (bounds limits) from result }
    ensures defined { IsLiftedDefined from → AnswersEnd (bounds limits) from result }
    ensures system { IfOk result (KeepsSystem from) }
    ensures rows { IsLiftedDefined from → IfOk result HasAllSolutions }
    ensures kept { TellsKeep K.after K.torn (bounds limits) from result
        (K.state keep.old) (K.state keep.new) }
    ensures told { is_some (K.state keep.new) ≡ is_some (K.state keep.old) }
    ensures cause { HasKeepCause (K.faults keep.old) (K.faults keep.new) result }
{
    match from {
        Lifted::Next(stage) => {
            stage.keeps();
            run_stages(rt, alloc, stage, limits, gate, norms, keep)
        }
        Lifted::Last(finish) => Ok(finish),
    }
}

// Runs over this stage and those after it.
fn run_stages<R: Threads + Sync, G: Gate + Sync, N: Norms, K: Keep>(
    rt: &R,
    alloc: Global,
    first: Stage,
    limits: Limits,
    gate: &G,
    norms: &mut N,
    keep: &mut K,
) -> Result<Finish, RunEnd>
    requires asks { (s : StageValue) → (IsDefined first → IsDefined s) → N.asks s }
    requires workers { 1 ≤ limits.workers }
    requires most { limits.workers ≤ Limits.MAX_WORKERS }
    requires rows { limits.rows ≤ Limits.MAX_ROWS }
    ensures runs { RunsFrom K.after K.torn (bounds limits) first
        (K.state keep.old) (K.state keep.new) result }
    ensures told { is_some (K.state keep.new) ≡ is_some (K.state keep.old) }
    ensures cause { HasKeepCause (K.faults keep.old) (K.faults keep.new) result }
{
    let mut stage = first;
    loop {
        run_stage(rt, alloc, &mut stage, limits, gate, norms, keep)?;
        match stage.lift()? {
            Lifted::Next(next) => stage = next,
            Lifted::Last(finish) => return Ok(finish),
        }
    }
}

// Closes the norms of the stage until there is no next one.
fn run_stage<R: Threads + Sync, G: Gate + Sync, N: Norms, K: Keep>(
    rt: &R,
    alloc: Global,
    stage: &mut Stage,
    limits: Limits,
    gate: &G,
    norms: &mut N,
    keep: &mut K,
) -> Result<(), RunEnd>
    requires asks { (s : StageValue) → (IsDefined stage.old → IsDefined s) → N.asks s }
    requires workers { 1 ≤ limits.workers }
    requires most { limits.workers ≤ Limits.MAX_WORKERS }
    requires rows { limits.rows ≤ Limits.MAX_ROWS }
    ensures closes { ClosesAll K.after K.torn (bounds limits) stage.old stage.new
        (K.state keep.old) (K.state keep.new) result }
    ensures told { is_some (K.state keep.new) ≡ is_some (K.state keep.old) }
    ensures cause { HasKeepCause (K.faults keep.old) (K.faults keep.new) result }
{
    while let Some(norm) = next_within(stage, limits)? {
        close_norm(rt, alloc, stage, norm, limits, gate, norms, keep)?;
    }
    Ok(())
}

// The next norm, where there is one, if it is in range and its pairs are within the limit.
fn next_within(stage: &Stage, limits: Limits) -> Result<Option<u64>, RunEnd>
    ensures next { AllowsNext (bounds limits) stage.now result }
    ensures sure { result ≡ Err RunEnd.Failed → ⊥ }
{
    let number = stage.number();
    let norm = match stage.next_norm() {
        None => return Ok(None),
        Some(Next::Norm(norm)) => norm,
        Some(Next::Overflow(norm)) => {
            return Err(RunEnd::Overflow {
                stage: number,
                place: Place::Norm(norm),
            });
        }
    };
    let needed = stage.used_at(norm);
    if needed > limits.pairs {
        return Err(RunEnd::Pairs {
            stage: number,
            norm,
            needed,
        });
    }
    Ok(Some(norm))
}

// Lists the rows of the next norm, and tells the Keep.
fn close_norm<R: Threads + Sync, G: Gate + Sync, N: Norms, K: Keep>(
    rt: &R,
    alloc: Global,
    stage: &mut Stage,
    norm: u64,
    limits: Limits,
    gate: &G,
    norms: &mut N,
    keep: &mut K,
) -> Result<(), RunEnd>
    requires asked { N.asks stage.old }
    requires allowed { IsAllowed (bounds limits) stage.old norm }
    requires workers { 1 ≤ limits.workers }
    requires most { limits.workers ≤ Limits.MAX_WORKERS }
    requires rows { limits.rows ≤ Limits.MAX_ROWS }
    ensures closes { ClosesNorm K.after K.torn (bounds limits) norm stage.old stage.new
        (K.state keep.old) (K.state keep.new) result }
    ensures told { is_some (K.state keep.new) ≡ is_some (K.state keep.old) }
    ensures cause { HasKeepCause (K.faults keep.old) (K.faults keep.new) result }
{
    list_norm(rt, alloc, stage, norm, limits, gate, norms)?;
    keep.norm_closed(stage)?;
    Ok(())
}

// Lists the rows of the next norm.
fn list_norm<R: Threads + Sync, G: Gate + Sync, N: Norms>(
    rt: &R,
    alloc: Global,
    stage: &mut Stage,
    norm: u64,
    limits: Limits,
    gate: &G,
    norms: &mut N,
) -> Result<(), RunEnd>
    requires asked { N.asks stage.old }
    requires allowed { IsAllowed (bounds limits) stage.old norm }
    requires workers { 1 ≤ limits.workers }
    requires most { limits.workers ≤ Limits.MAX_WORKERS }
    requires rows { limits.rows ≤ Limits.MAX_ROWS }
    ensures lists { ListsNorm (bounds limits) norm stage.old stage.new result }
    ensures sure { result ≡ Err RunEnd.Failed → ⊥ }
{
    let closed = sums_by(rt, alloc, stage, norm, limits.workers, gate, norms)?;
    match stage.publish(&closed, limits.rows) {
        Ok(()) => Ok(()),
        Err(PublishEnd::Rows { count }) => Err(RunEnd::Rows {
            stage: stage.number(),
            norm,
            count,
        }),
        Err(PublishEnd::Memory) => Err(RunEnd::Memory),
    }
}
