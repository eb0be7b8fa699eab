//! A share goes into the book, and the end.

ghost use Rattle.std.specs.Prelude.{◌≡◌, ℕ, ◌+◌, true, false, IfOk, IfErr};
ghost use Rattle.lift_core.specs.Times.{times};
ghost use Rattle.stage_store.specs.Published.{IsClosedNorm};
ghost use Rattle.norm_board.specs.Books.{IsSame};
ghost use Rattle.norm_board.specs.Rule.{IsBookOf};
ghost use Rattle.norm_board.specs.Seen.{view, Belongs};
ghost use Rattle.norm_board.specs.Puts.{Open, HasOpen, PutDone};

use super::Board;
use crate::pass::Pass;
use crate::share::{Share, Turn};
use stage_store::{Closed, in_order};
use std::alloc::Global;

/// What became of a share that was to be put.
#[derive(Clone, Copy, Debug, PartialEq, Eq, Drop)]
pub enum Put {
    /// Its blocks are in the book, and it is empty.
    Kept,
    /// Another pass held the turn. The share is as it was.
    Held,
    /// Memory ran out. Share and book are as they were.
    Memory,
}

impl<'s> Board<'s> {
    /// Puts a share into the book, unless another pass holds the turn. Does not wait.
    pub fn put(&self, pass: &mut Pass, share: &mut Share<'s>) -> Put
        requires own { Belongs self.now pass.old }
        requires free { (view pass.old).holding ≡ false }
        requires share { IsBookOf self.now.plan share.old }
        requires blocks { Open (view pass.old) share.old.blocks }
        ensures same { Belongs self.now pass.new × ((view pass.new).holding ≡ false)
            × IsBookOf self.now.plan share.new }
        ensures done { PutDone result (view pass.old) (view pass.new) share.old share.new }
    {
        let Some(mut turn) = self.take(pass) else {
            return Put::Held;
        };
        match turn.fill(share) {
            Ok(()) => {
                self.give(pass, turn);
                Put::Kept
            }
            Err(_) => {
                self.give(pass, turn);
                Put::Memory
            }
        }
    }
}

/// Memory ran out when a norm was to be closed. All three are as they were.
#[derive(Drop)]
pub struct CloseRefused<'s> {
    pub board: Board<'s>,
    pub pass: Pass,
    pub left: Share<'s>,
}

impl<'s> Board<'s> {
    /// Closes the norm: the irreducible sums of all its pairs, each once, in order. The pass stands for all passes and is done,
    /// and `left` has the blocks that it has drawn and not kept.
    ///
    /// # Errors
    /// Memory ran out; all three are given back as they were.
    pub fn close(
        self,
        alloc: Global,
        mut pass: Pass,
        left: Share<'s>,
    ) -> Result<Closed, CloseRefused<'s>>
        requires own { Belongs self pass }
        requires weight { (view pass).weight ≡ self.plan.passes }
        requires done { (view pass).done ≡ true }
        requires free { (view pass).holding ≡ false }
        requires left { IsBookOf self.plan left }
        requires blocks { HasOpen (view pass) left.blocks }
        ensures ok { IfOk result (IsClosedNorm self.entry.plan.stage.value self.entry.plan.norm) }
        ensures err { IfErr result
            (λ r. (r.board ≡ self.entry) × Belongs r.board r.pass × (view r.pass ≡ view pass)
            × (r.left ≡ left.entry)) }
    {
        self.base.keeps();
        let Some(turn) = self.take(&mut pass) else {
            unreachable!()
        };
        match in_order(alloc, turn.rows(), left.rows()) {
            Ok(rows) => Ok(Closed {
                norm: self.plan.norm,
                rows,
            }),
            Err(_) => {
                self.give(&mut pass, turn);
                Err(CloseRefused {
                    board: self,
                    pass,
                    left,
                })
            }
        }
    }
}
