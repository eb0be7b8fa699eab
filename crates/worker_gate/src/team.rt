//! All workers of one norm.

ghost use Rattle.std.specs.Prelude.{◌≡◌, ◌≤◌, ◌<◌, ◌+◌, ◌++◌, true, false, [], IfOk, OnOk, All, length, vec_len};
ghost use Rattle.lift_core.specs.Times.{total_of};
ghost use Rattle.norm_board.specs.Seen.{view, Belongs};
ghost use Rattle.worker_gate.specs.Work.{IsWorker, IsFresh};
ghost use Rattle.worker_gate.specs.Inside.Team.{IsReady, IsEmpty, HasEnded, AllEnded, MayMerge, IsFine, worker_weight, missed_of};

use crate::gate::Gate;
use crate::record::Worker;
use crate::worker::work;
use norm_board::{Board, Pass, Share};
use stage_store::Stage;
use std::alloc::{AllocError, Global};
use std::thread;
use std::thread::Threads;

// In how many threads the blocks are worked out, the caller's own among them: never in more than there are blocks.
fn threads_for(blocks: u64) -> usize
    ensures some { 0 < result }
{
    blocks.max(1).min(32) as usize
}

// Runs one worker.
fn run_one<'s, G: Gate>(board: &Board<'s>, worker: &mut Worker<'s>, number: u32, gate: &G)
    requires { IsReady board.now worker.old }
    ensures { HasEnded board.now worker.old worker.new }
{
    worker.failed = work(board, &mut worker.pass, &mut worker.share, number, gate).is_err();
}

// Runs the workers, each in a thread of its own where there are as many blocks.
fn run_all<'s, R: Threads + Sync, G: Gate + Sync>(
    rt: &R,
    board: &Board<'s>,
    team: &mut [Worker<'s>],
    gate: &G,
)
    requires few { length team.old ≤ 32 }
    requires ready { All (IsReady board.now) team.old }
    ensures { AllEnded board.now team.old team.new }
{
    let threads = threads_for(board.blocks());
    thread::for_each_mut(
        rt,
        team,
        threads,
        &|i, worker| { run_one(board, worker, i as u32, gate) },
    );
}

// The same, over the list of workers.
fn run_team<'s, R: Threads + Sync, G: Gate + Sync>(
    rt: &R,
    board: &Board<'s>,
    team: &mut Vec<Worker<'s>>,
    gate: &G,
)
    requires few { vec_len team.old ≤ 32 }
    requires ready { All (IsReady board.now) team.old.items }
    ensures len { length team.new.items ≡ length team.old.items }
    ensures ended { AllEnded board.now team.old.items team.new.items }
{
    run_all(rt, board, team.as_mut_slice(), gate);
}

// A worker that has done nothing.
fn recruit<'s>(
    alloc: Global,
    base: &'s Stage,
    norm: u64,
    board: &Board<'s>,
    pass: Pass,
) -> Worker<'s>
    requires small { norm ≤ 9223372036854775807 }
    requires own { Belongs board.now pass }
    requires stage { (board.now.plan.stage.value ≡ base.now) × (board.now.plan.norm ≡ norm) }
    requires fresh { IsFresh (view pass) }
    ensures ready { IsReady board.entry.now result }
    ensures empty { IsEmpty result }
    ensures pass { result.pass ≡ pass }
{
    let _ = board;
    // so what the pass has kept is known to be nothing
    let _weight = pass.weight();
    Worker::new(pass, Share::new(alloc, base, norm))
}

// A worker for each unit of the pass's weight.
fn recruit_all<'s>(
    alloc: Global,
    base: &'s Stage,
    norm: u64,
    board: &Board<'s>,
    mut pass: Pass,
) -> Result<Vec<Worker<'s>>, AllocError>
    requires small { norm ≤ 9223372036854775807 }
    requires own { Belongs board.now pass }
    requires stage { (board.now.plan.stage.value ≡ base.now) × (board.now.plan.norm ≡ norm) }
    requires weight { (view pass).weight ≤ 32 }
    requires fresh { IsFresh (view pass) }
    ensures ready { IfOk result (λ t. All (IsReady board.entry.now) t.items) }
    ensures empty { IfOk result (λ t. All IsEmpty t.items) }
    ensures count { IfOk result (λ t. (0 < vec_len t) × (vec_len t ≤ 32)) }
    ensures weight { IfOk result (λ t. total_of worker_weight t.items ≡ (view pass).weight) }
    ensures missed { IfOk result (λ t. total_of missed_of t.items ≡ (view pass).missed) }
{
    let count = pass.weight();
    let mut team = Vec::with_capacity(alloc, count as usize)?;
    for i in 1..count {
        let other = board.split(&mut pass);
        team.push_reserved(recruit(alloc, base, norm, board, other));
    }
    team.push_reserved(recruit(alloc, base, norm, board, pass));
    Ok(team)
}

// The passes are joined, and the shares that are left are put together.
fn merge<'s>(board: &Board<'s>, mut team: Vec<Worker<'s>>) -> Result<(Pass, Share<'s>), AllocError>
    requires some { 0 < vec_len team }
    requires done { All (MayMerge board.now) team.items }
    ensures worker { IfOk result
        (λ r. IsWorker board.entry.now r.0 r.1 × ((view r.0).done ≡ true)) }
    ensures weight { IfOk result
        (λ r. (view r.0).weight ≡ total_of worker_weight team.entry.items) }
    ensures missed { IfOk result (λ r. (view r.0).missed ≡ total_of missed_of team.entry.items) }
    ensures fine { IfOk result (λ r. All IsFine team.entry.items) }
    ensures empty { IfOk result (λ r. All IsEmpty team.entry.items → r.1.blocks ≡ []) }
{
    let Some(first) = team.pop() else {
        unreachable!()
    };
    if first.failed {
        return Err(AllocError);
    }
    let mut all = first;
    while let Some(worker) = team.pop() {
        if worker.failed {
            return Err(AllocError);
        }
        take_in(board, &mut all, worker)?;
    }
    let Worker {
        pass,
        share,
        failed: _,
    } = all;
    Ok((pass, share))
}

// Joins a worker's pass and share to those of another one.
fn take_in<'s>(
    board: &Board<'s>,
    all: &mut Worker<'s>,
    worker: Worker<'s>,
) -> Result<(), AllocError>
    requires all { IsReady board.now all.old }
    requires worker { IsReady board.now worker }
    requires done { ((view all.old.pass).done ≡ true) × ((view worker.pass).done ≡ true) }
    ensures ready { OnOk result (IsReady board.now all.new) }
    ensures done { OnOk result ((view all.new.pass).done ≡ true) }
    ensures weight { OnOk result
        (worker_weight all.new ≡ worker_weight all.old + worker_weight worker.entry) }
    ensures missed { OnOk result (missed_of all.new ≡ missed_of all.old + missed_of worker.entry) }
    ensures blocks { OnOk result
        (all.new.share.blocks ≡ all.old.share.blocks ++ worker.entry.share.blocks) }
    ensures same { OnOk result (all.new.failed ≡ all.old.failed) }
{
    let Worker {
        pass,
        mut share,
        failed: _,
    } = worker;
    board.join(&mut all.pass, pass);
    all.share.absorb(&mut share)?;
    Ok(())
}

/// Works the norm out with as many workers as the pass has weight, which is the board's number of passes. Each worker gets a pass
/// and a share; when all are done the passes are joined, and the shares that are left are put together. Board, pass and share
/// then meet the conditions of `Board::close`. Each worker runs in a thread of its own, the last one in the caller's; no thread is
/// started for a single block, and a worker whose thread cannot be started is run by the caller.
///
/// # Errors
/// Memory ran out; board and pass are gone.
pub fn run_norm<'s, R: Threads + Sync, G: Gate + Sync>(
    rt: &R,
    alloc: Global,
    base: &'s Stage,
    norm: u64,
    board: Board<'s>,
    pass: Pass,
    gate: &G,
) -> Result<(Board<'s>, Pass, Share<'s>), AllocError>
    requires small { norm ≤ 9223372036854775807 }
    requires own { Belongs board pass }
    requires stage { (board.plan.stage.value ≡ base.now) × (board.plan.norm ≡ norm) }
    requires weight { ((view pass).weight ≡ board.plan.passes) × (board.plan.passes ≤ 32) }
    requires fresh { IsFresh (view pass) }
    ensures board { IfOk result (λ r. r.0 ≡ board.entry) }
    ensures worker { IfOk result (λ r. IsWorker r.0 r.1 r.2 × ((view r.1).done ≡ true)) }
    ensures weight { IfOk result (λ r. (view r.1).weight ≡ board.entry.plan.passes) }
    ensures empty { IfOk result (λ r. (view r.1).missed ≡ (view pass).missed → r.2.blocks ≡ []) }
{
    let mut team = recruit_all(alloc, base, norm, &board, pass)?;
    run_team(rt, &board, &mut team, gate);
    let (pass, share) = merge(&board, team)?;
    Ok((board, pass, share))
}
