//! The norms of the tables with three rows and six columns: at each norm of two blocks or more two workers meet.

ghost use Rattle.std.specs.Prelude.{◌≤◌, IfOk};
ghost use Rattle.lift_core.specs.Stages.{IsNextNorm};
ghost use Rattle.stage_store.specs.Published.{IsClosedNorm};

use crate::meeting::Meeting;
use lift_core::{System, Tool};
use norm_board::Board;
use stage_store::{Closed, Lifted, Next, Stage};
use std::alloc::{AllocError, Global};
use std::test::Fail;
use std::thread::Threads;
use system_shape::{shape, tables};
use worker_gate::{FreeGate, Gate, run_norm};

// More norms than a stage of the tables has.
const NORMS: u32 = 100;
// The equations: three sums of table rows, and six of table columns.
const EQUATIONS: u32 = 9;

// How many norms had two blocks or more, and at how many of them two workers met.
#[derive(Drop)]
struct Seen {
    long: u32,
    met: u32,
}

// The system of the tables.
fn system(alloc: Global) -> Result<System, AllocError> {
    let input = tables(alloc, 6)?;
    match shape(alloc, Tool::Graver, &input) {
        Ok(system) => Ok(system),
        Err(_) => Err(AllocError),
    }
}

// The irreducible sums of a norm, by two workers.
fn close<R: Threads + Sync, G: Gate + Sync>(
    rt: &R,
    alloc: Global,
    stage: &Stage,
    norm: u64,
    gate: &G,
) -> Result<Closed, AllocError>
    requires { norm ≤ 9223372036854775807 }
    ensures { IfOk result (IsClosedNorm stage.now norm) }
{
    let (board, pass) = Board::start(alloc, stage, norm, 2)?;
    let (board, pass, left) = run_norm(rt, alloc, stage, norm, board, pass, gate)?;
    match board.close(alloc, pass, left) {
        Ok(closed) => Ok(closed),
        Err(_) => Err(AllocError),
    }
}

// The same, of a norm of two blocks or more. Counts whether the workers met.
fn close_long<R: Threads + Sync>(
    rt: &R,
    alloc: Global,
    stage: &Stage,
    norm: u64,
    seen: &mut Seen,
) -> Result<Closed, AllocError>
    requires { norm ≤ 9223372036854775807 }
    ensures { IfOk result (IsClosedNorm stage.now norm) }
{
    let gate = Meeting::new();
    let closed = close(rt, alloc, stage, norm, &gate)?;
    seen.long = seen.long.saturating_add(1);
    seen.met = seen.met.saturating_add(u32::from(gate.has_met()));
    Ok(closed)
}

// The same, of any norm.
fn close_any<R: Threads + Sync>(
    rt: &R,
    alloc: Global,
    stage: &Stage,
    norm: u64,
    seen: &mut Seen,
) -> Result<Closed, AllocError>
    requires { norm ≤ 9223372036854775807 }
    ensures { IfOk result (IsClosedNorm stage.now norm) }
{
    if stage.pairs_at(norm) > 256 {
        close_long(rt, alloc, stage, norm, seen)
    } else {
        close(rt, alloc, stage, norm, &FreeGate)
    }
}

// Lists the rows of the next norm.
fn close_next<R: Threads + Sync>(
    rt: &R,
    alloc: Global,
    stage: &mut Stage,
    norm: u64,
    seen: &mut Seen,
) -> Result<(), AllocError>
    requires next { IsNextNorm stage.old.listed stage.old.waiting stage.old.norm norm }
    requires small { norm ≤ 9223372036854775807 }
{
    let closed = close_any(rt, alloc, stage, norm, seen)?;
    match stage.publish(&closed, 10_000) {
        Ok(()) => Ok(()),
        Err(_) => Err(AllocError),
    }
}

// Closes the norms of a stage.
fn close_all<R: Threads + Sync>(
    rt: &R,
    alloc: Global,
    stage: &mut Stage,
    seen: &mut Seen,
) -> Result<(), AllocError> {
    for _ in 0..NORMS {
        let Some(Next::Norm(norm)) = stage.next_norm() else {
            break;
        };
        close_next(rt, alloc, stage, norm, seen)?;
    }
    Ok(())
}

// What begins with the solutions of a stage, where no norm is left.
fn lifted(stage: Stage) -> Option<Lifted> {
    match stage.next_norm() {
        None => stage.lift().ok(),
        Some(_) => None,
    }
}

// What begins with the solutions of a stage, once its norms are closed.
fn next_stage<R: Threads + Sync>(
    rt: &R,
    alloc: Global,
    mut stage: Stage,
    seen: &mut Seen,
) -> Option<Lifted> {
    match close_all(rt, alloc, &mut stage, seen) {
        Ok(()) => lifted(stage),
        Err(_) => None,
    }
}

// The same where there is a stage. A finish stays.
fn next_of<R: Threads + Sync>(
    rt: &R,
    alloc: Global,
    from: Lifted,
    seen: &mut Seen,
) -> Option<Lifted> {
    match from {
        Lifted::Next(stage) => next_stage(rt, alloc, stage, seen),
        Lifted::Last(finish) => Some(Lifted::Last(finish)),
    }
}

// The number of the solutions, where no stage is left.
fn solutions(from: Lifted) -> Option<u32> {
    match from {
        Lifted::Last(finish) => Some(finish.rows.len()),
        Lifted::Next(_) => None,
    }
}

// Runs all stages, and gives the number of the solutions. A stage is always handed on: each way out at which one is alive
// costs a proof of its own.
fn solve<R: Threads + Sync>(
    rt: &R,
    alloc: Global,
    seen: &mut Seen,
) -> Result<Option<u32>, AllocError> {
    let mut from = Stage::first(alloc, system(alloc)?)?;
    for _ in 0..EQUATIONS {
        from = match next_of(rt, alloc, from, seen) {
            Some(next) => next,
            None => return Ok(None),
        };
    }
    Ok(solutions(from))
}

#[test]
fn two_workers_meet_at_each_norm_of_two_blocks(rt: HostRuntime) -> Result<(), Fail> {
    let mut seen = Seen { long: 0, met: 0 };
    let solutions = solve(&rt, rt.alloc(), &mut seen)?;
    assert_eq!(rt;
        (solutions, seen.long > 0, seen.met),
        (Some(330), true, seen.long)
    );
    Ok(())
}
