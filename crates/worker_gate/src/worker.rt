//! One worker's part.

ghost use Rattle.std.specs.Prelude.{◌≡◌, ◌≤◌, true, [], OnOk};
ghost use Rattle.norm_board.specs.Seen.{view};
ghost use Rattle.worker_gate.specs.Inside.Steps.{LeavesPass};
ghost use Rattle.worker_gate.specs.Work.{IsWorker, KeepsBlocks};

use crate::gate::{Gate, Point};
use norm_board::{Board, Pass, Put, Share};
use std::alloc::AllocError;

/// A share with so many sums is full.
const FULL: u32 = 16_384;

// Puts the share, and tells the gate before and after it.
fn put_share<'s, G: Gate>(
    board: &Board<'s>,
    pass: &mut Pass,
    share: &mut Share<'s>,
    worker: u32,
    gate: &G,
) -> Result<(), AllocError>
    requires { IsWorker board.now pass.old share.old }
    ensures still { IsWorker board.now pass.new share.new }
    ensures leaves { LeavesPass (view pass.old) (view pass.new) }
    ensures empty { OnOk result
        ((view pass.new).missed ≡ (view pass.old).missed → share.new.blocks ≡ []) }
{
    gate.at(worker, Point::Putting);
    let end = board.put(pass, share);
    gate.at(worker, Point::PutDone);
    if let Put::Memory = end {
        return Err(AllocError);
    }
    Ok(())
}

// Puts the share where it is full. Till then a sum that the worker comes to again is known to it, and is not looked for again.
fn put_full<'s, G: Gate>(
    board: &Board<'s>,
    pass: &mut Pass,
    share: &mut Share<'s>,
    worker: u32,
    gate: &G,
) -> Result<(), AllocError>
    requires { IsWorker board.now pass.old share.old }
    ensures still { IsWorker board.now pass.new share.new }
    ensures leaves { LeavesPass (view pass.old) (view pass.new) }
{
    if share.rows().len() < FULL {
        return Ok(());
    }
    put_share(board, pass, share, worker, gate)
}

/// Draws and works out block after block until none is left, and puts its share when it has grown full and at the end. Where
/// another pass holds the turn, the worker keeps its share and goes on. The gate is told each draw, and each put before and
/// after it.
///
/// # Errors
/// Memory ran out. The pass still has its weight, and the share what the pass has drawn and not kept.
pub fn work<'s, G: Gate>(
    board: &Board<'s>,
    pass: &mut Pass,
    share: &mut Share<'s>,
    worker: u32,
    gate: &G,
) -> Result<(), AllocError>
    requires { IsWorker board.now pass.old share.old }
    ensures still { IsWorker board.now pass.new share.new }
    ensures weight { (view pass.new).weight ≡ (view pass.old).weight }
    ensures gained { KeepsBlocks (view pass.old) (view pass.new) }
    ensures done { OnOk result ((view pass.new).done ≡ true) }
    ensures missed { (view pass.old).missed ≤ (view pass.new).missed }
    ensures empty { OnOk result
        ((view pass.new).missed ≡ (view pass.old).missed → share.new.blocks ≡ []) }
{
    // so the number of blocks is known to be in range
    let blocks = board.blocks();
    let mut least = 0;
    while !pass.done() {
        share.ready()?;
        let drawn = board.draw(pass);
        let block = match &drawn {
            Some(block) => Some(block.number),
            None => None,
        };
        gate.at(worker, Point::Drawn { block });
        let Some(block) = drawn else {
            break;
        };
        least = block.number + 1;
        share.evaluate(block);
        put_full(board, pass, share, worker, gate)?;
    }
    put_share(board, pass, share, worker, gate)
}
