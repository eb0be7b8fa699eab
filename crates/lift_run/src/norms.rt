//! How a norm of a stage is worked out: by several workers on one board, or in another way.

ghost use Rattle.std.specs.Prelude.{◌≤◌, ◌^◌, IfOk, IfSome, ⊤};
ghost use Rattle.lift_core.specs.Stages.{IsNextNorm};
ghost use Rattle.stage_store.specs.Stage.{StageValue};
ghost use Rattle.stage_store.specs.Published.{IsClosedNorm};

use norm_board::{Board, blocks_of};
use stage_store::{Closed, Stage};
use std::alloc::{AllocError, Global};
use std::thread::Threads;
use worker_gate::{Gate, run_norm};

/// A way to work out the norms of a run, one after another, other than by workers on one board.
pub trait Norms {
    /// What is asked of a stage, besides that the norm is its next one.
    ghost asks: { StageValue → Type 0 };

    /// The irreducible sums of the stage's next norm, each once, in order; nothing where the norm is left to the board.
    ///
    /// # Errors
    /// Memory ran out.
    fn sums(&mut self, stage: &Stage, norm: u64) -> Result<Option<Closed>, AllocError>
        requires asked { asks stage.now }
        requires next { IsNextNorm stage.now.listed stage.now.waiting stage.now.norm norm }
        requires small { norm ≤ 9223372036854775807 }
        ensures { IfOk result (λ sums. IfSome sums (IsClosedNorm stage.now norm)) };
}

/// Each norm is left to the board.
#[derive(Drop)]
pub(crate) struct OnBoard;

impl Norms for OnBoard {
    ghost asks = { λ _. ⊤ };

    fn sums(&mut self, _stage: &Stage, _norm: u64) -> Result<Option<Closed>, AllocError> {
        Ok(None)
    }
}

/// A second pass and each further one pays for its thread from so many pairs more that are looked at: to start one costs
/// about as much.
const PAIRS_A_PASS: u64 = 256;

// How many passes work out a norm of so many pairs, of which so many are left to look at: as many as there are workers, but
// no more than blocks, and no more than the pairs pay for.
fn passes_for(pairs: u64, left: u64, workers: u32) -> u32
    requires pairs { pairs ≤ 2 ^ 42 }
    requires some { 1 ≤ workers }
    ensures some { 1 ≤ result }
    ensures most { result ≤ workers }
{
    let blocks = blocks_of(pairs);
    match u32::try_from(blocks.min(1 + left / PAIRS_A_PASS)) {
        Ok(passes) => workers.min(passes.max(1)),
        Err(_) => workers,
    }
}

// The irreducible sums of a norm, each once, in order.
fn norm_sums<R: Threads + Sync, G: Gate + Sync>(
    rt: &R,
    alloc: Global,
    stage: &Stage,
    norm: u64,
    workers: u32,
    gate: &G,
) -> Result<Closed, AllocError>
    requires small { norm ≤ 9223372036854775807 }
    requires some { 1 ≤ workers }
    requires most { workers ≤ 32 }
    ensures { IfOk result (IsClosedNorm stage.now norm) }
{
    if let Some(closed) = stage.closed_without_sums(alloc, norm) {
        return Ok(closed);
    }
    let passes = passes_for(stage.pairs_at(norm), stage.pairs_left(norm), workers);
    let (board, pass) = Board::start(alloc, stage, norm, passes)?;
    let (board, pass, left) = run_norm(rt, alloc, stage, norm, board, pass, gate)?;
    let Ok(closed) = board.close(alloc, pass, left) else {
        return Err(AllocError);
    };
    Ok(closed)
}

/// The same, in another way where that takes the norm.
pub(crate) fn sums_by<R: Threads + Sync, G: Gate + Sync, N: Norms>(
    rt: &R,
    alloc: Global,
    stage: &Stage,
    norm: u64,
    workers: u32,
    gate: &G,
    norms: &mut N,
) -> Result<Closed, AllocError>
    requires asked { N.asks stage.now }
    requires next { IsNextNorm stage.now.listed stage.now.waiting stage.now.norm norm }
    requires small { norm ≤ 9223372036854775807 }
    requires some { 1 ≤ workers }
    requires most { workers ≤ 32 }
    ensures { IfOk result (IsClosedNorm stage.now norm) }
{
    match norms.sums(stage, norm)? {
        Some(closed) => Ok(closed),
        None => norm_sums(rt, alloc, stage, norm, workers, gate),
    }
}
