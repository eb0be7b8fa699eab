//! The steps on the counter of blocks.

ghost use Rattle.std.specs.Prelude.{◌≡◌, ℕ, ◌<◌, ◌≤◌, false, IfOk, IfSome, IfNone};
ghost use Rattle.lift_core.specs.Times.{times, once_below, AllUnder};
ghost use Rattle.norm_board.specs.Blocks.{blocks_of, pair_count, IsBlockOf};
ghost use Rattle.norm_board.specs.Rule.{starting, gained, finished, shrunk, single, one_pass};
ghost use Rattle.norm_board.specs.Seen.{view, Belongs};

use super::Board;
use crate::block::{Block, blocks_of};
use crate::book::Book;
use crate::pass::Pass;
use crate::plays::{Cut, Draw, Glue, Look};
use crate::rule::Plan;
use atomic_table::Table;
use stage_store::Stage;
use std::alloc::{AllocError, Global};
use std::snapshot::Snapshot;

impl<'s> Board<'s> {
    /// A board with an empty book, and the one pass that stands for all passes.
    ///
    /// # Errors
    /// Memory ran out.
    pub fn start(
        alloc: Global,
        base: &'s Stage,
        norm: u64,
        passes: u32,
    ) -> Result<(Board<'s>, Pass), AllocError>
        requires passes { (0 < passes) × (passes ≤ 32) }
        requires small { norm ≤ 9223372036854775807 }
        ensures pass { IfOk result (λ r. Belongs r.0 r.1 × (view r.1 ≡ starting r.0.plan)) }
        ensures passes { IfOk result (λ r. r.0.plan.passes ≡ passes) }
        ensures stage { IfOk result
            (λ r. (r.0.plan.stage.value ≡ base.entry.now) × (r.0.plan.norm ≡ norm)) }
        ensures blocks { IfOk result
            (λ r. r.0.plan.blocks ≡ blocks_of (pair_count base.entry.now norm)) }
    {
        let pairs = base.pairs_at(norm);
        let plan = Plan {
            blocks: blocks_of(pairs),
            passes: passes as u64,
            norm,
            stage: Snapshot::of(base),
        };
        let mut slots = Vec::with_capacity(alloc, 1)?;
        slots.push_reserved(Some(Book::new(alloc, base, norm)));
        let (table, seat) = Table::new(alloc, &[0, 0], slots, &plan).map_err(|_| AllocError)?;
        let pass = Pass {
            seat,
            weight: passes,
            done: false,
            holding: false,
        };
        let board = Board {
            table,
            base,
            plan,
            pairs,
        };
        Ok((board, pass))
    }

    /// Draws a block that no pass has drawn: one step on the counter. None where no block is left, or the pass was done; it is
    /// done then. Takes no memory.
    pub fn draw(&self, pass: &mut Pass) -> Option<Block>
        requires { Belongs self.now pass.old }
        ensures same { Belongs self.now pass.new }
        ensures block { IfSome result
            (λ b. IsBlockOf self.now.plan.stage.value self.now.plan.norm b
            × (b.number < self.now.plan.blocks)) }
        ensures some { IfSome result
            (λ b. (view pass.new ≡ gained (view pass.old) b.number)
            × AllUnder (view pass.old).drawn b.number) }
        ensures none { IfNone result (view pass.new ≡ finished (view pass.old)) }
    {
        if pass.done {
            return None;
        }
        let number = self.table.shared.fetch_add::<Draw>(&mut pass.seat, 0, 1);
        if number < self.plan.blocks {
            Some(self.block(number))
        } else {
            pass.done = true;
            None
        }
    }

    /// A new pass, for another worker, that takes one unit of the weight. Takes no memory.
    pub fn split(&self, pass: &mut Pass) -> Pass
        requires own { Belongs self.now pass.old }
        requires more { 2 ≤ (view pass.old).weight }
        ensures same { Belongs self.now pass.new × Belongs self.now result }
        ensures first { view pass.new ≡ shrunk (view pass.old) }
        ensures second { view result ≡ single (view pass.old) }
    {
        let seat = self.table.shared.split_seat::<Cut>(&mut pass.seat);
        pass.weight -= 1;
        Pass {
            seat,
            weight: 1,
            done: pass.done,
            holding: false,
        }
    }

    /// Joins another pass of the board to this one. No block was drawn by both. Takes no memory.
    pub fn join(&self, pass: &mut Pass, other: Pass)
        requires own { Belongs self.now pass.old }
        requires others { Belongs self.now other }
        requires free { (view other).holding ≡ false }
        ensures same { Belongs self.now pass.new }
        ensures view { view pass.new ≡ one_pass (view pass.old) (view other) }
        ensures apart { (x : ℕ)
            → times x (view pass.new).drawn ≤ once_below x self.now.plan.blocks }
    {
        let Pass {
            seat,
            weight,
            done,
            holding: _,
        } = other;
        self.table.shared.join_seat::<Glue>(&mut pass.seat, seat);
        // a look at the counter, which tells what the rule says of the joined pass
        self.table.shared.load::<Look>(&mut pass.seat, 0);
        pass.weight += weight;
        pass.done = pass.done || done;
    }
}
