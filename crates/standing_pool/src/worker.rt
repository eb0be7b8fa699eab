//! One worker: it follows the run on a stage of its own, and works out its part of each norm.

ghost use Rattle.std.specs.Prelude.{◌≡◌, ◌≤◌, ◌<◌, IfSome};
ghost use Rattle.lift_core.specs.Stages.{IsNextNorm};
ghost use Rattle.stage_store.specs.Stage.{IsDefined};
ghost use Rattle.standing_pool.specs.Inside.Gathered.{IsNextClosed};

use crate::hall::Hall;
use crate::part::PartRows;
use stage_store::{Closed, Hints, Lifted, Next, Stage};
use std::sync::Wait;
use worker_gate::{Gate, Point};

// The worker's first stage, from a copy of the system.
fn first_stage(hall: &Hall) -> Option<Stage>
    ensures { IfSome result IsDefined }
{
    let Ok(system) = hall.system.copy(hall.alloc) else {
        return None;
    };
    match Stage::first(hall.alloc, system) {
        Ok(Lifted::Next(stage)) => Some(stage),
        _ => None,
    }
}

// Lists the rows of a norm that is worked out. Nothing where they are too many, or memory ran out.
fn list(hall: &Hall, mut stage: Stage, closed: &Closed) -> Option<Stage>
    requires defined { IsDefined stage }
    requires closed { IsNextClosed stage closed.now }
    ensures { IfSome result IsDefined }
{
    match stage.publish(closed, hall.limits.rows) {
        Ok(()) => Some(stage),
        Err(_) => None,
    }
}

// Puts the worker's part of the next norm, waits until the norm is told, and lists its rows. Where the stage knows that the norm
// has no irreducible sum, so do those of all others, and nobody waits. Nothing where the worker is to end.
fn close_norm<R: Wait, G: Gate>(
    rt: &R,
    hall: &Hall,
    gate: &G,
    worker: u32,
    stage: Stage,
    norm: u64,
    hints: &mut Hints,
) -> Option<Stage>
    requires defined { IsDefined stage }
    requires next { IsNextNorm stage.listed stage.waiting stage.norm norm }
    requires small { norm ≤ 9223372036854775807 }
    ensures { IfSome result IsDefined }
{
    let block = Some(u64::from(worker));
    gate.at(worker, Point::Drawn { block });
    if let Some(closed) = stage.closed_without_sums(hall.alloc, norm) {
        return list(hall, stage, &closed);
    }
    let part = PartRows::work_out(
        hall.alloc,
        &hall.system,
        &stage,
        norm,
        worker,
        hall.limits.workers,
        hints,
    )?;
    hall.put(rt, worker, part);
    let news = hall.listen(rt, worker)?;
    if !news.fits(&stage) {
        return None;
    }
    list(hall, stage, news.closed())
}

// Goes on to the next norm, or to the next stage. Nothing where the worker is to end.
fn go_on<R: Wait, G: Gate>(
    rt: &R,
    hall: &Hall,
    gate: &G,
    worker: u32,
    stage: Stage,
    hints: &mut Hints,
) -> Option<Stage>
    requires { IsDefined stage }
    ensures { IfSome result IsDefined }
{
    match stage.next_norm() {
        None => match stage.lift() {
            Ok(Lifted::Next(next)) => Some(next),
            _ => None,
        },
        Some(Next::Norm(norm)) if stage.used_at(norm) <= hall.limits.pairs => {
            close_norm(rt, hall, gate, worker, stage, norm, hints)
        }
        Some(_) => None,
    }
}

// Follows the run from its first stage on.
fn follow<R: Wait, G: Gate>(rt: &R, hall: &Hall, gate: &G, worker: u32, first: Stage)
    requires { IsDefined first }
{
    let Ok(mut hints) = Hints::new(hall.alloc) else {
        return;
    };
    let mut stage = first;
    for _ in rt.forever() {
        match go_on(rt, hall, gate, worker, stage, &mut hints) {
            Some(next) => stage = next,
            None => break,
        }
    }
}

/// What a worker does from its start to its end. It ends where the run is over, where memory runs out, and where it is told a norm
/// that is not its own.
pub(crate) fn serve<R: Wait, G: Gate>(rt: &R, hall: &Hall, gate: &G, worker: u32) {
    if let Some(stage) = first_stage(hall) {
        follow(rt, hall, gate, worker, stage);
    }
    hall.leave(rt, worker);
}
