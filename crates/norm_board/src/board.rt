//! The board: a counter of blocks, a turn, and a slot with the book.

ghost use Rattle.std.specs.Prelude.{◌≡◌, ◌<◌};
ghost use Rattle.norm_board.specs.Blocks.{blocks_of, pair_count, IsBlockOf};

use crate::block::Block;
use crate::book::Book;
use crate::rule::{BoardRule, Plan, View};
use atomic_table::Table;
use stage_store::Stage;
use std::alloc::Global;
use std::marker::Model;

mod puts;
mod steps;
mod turns;

pub use puts::{CloseRefused, Put};

/// The board of one norm of a stage. It is seen as its table and its fixed data: the number of blocks, the number of passes, the
/// stage and the norm. Passes are what steps on it, each by one atomic step at a time; the rule in `specs/Rule.antt` holds
/// between any two steps.
#[derive(Drop)]
pub struct Board<'s> {
    table: Table<Option<Book>, View, Plan, BoardRule, Global>,
    base: &'s Stage,
    plan: Plan,
    pairs: u64,
}

impl<'s> Model for Board<'s> {
    ghost use Rattle.norm_board.specs.Seen.{BoardValue};
    ghost use Rattle.norm_board.specs.Inside.Fields.{BoardOk};

    ghost Value = { BoardValue };

    ghost view = { λ b. record { table = b.table.shared.table_id; plan = b.plan } };

    ghost invariant = { λ b.
        BoardOk b.table.shared.key b.plan b.base.now b.table.shared.table_id b.pairs };
}

impl<'s> Board<'s> {
    /// The number of blocks.
    pub fn blocks(&self) -> u64
        ensures blocks { result ≡ self.now.plan.blocks }
        ensures stage { result
            ≡ blocks_of (pair_count self.now.plan.stage.value self.now.plan.norm) }
    {
        self.plan.blocks
    }

    // The block of a number.
    fn block(&self, number: u64) -> Block
        requires { number < self.now.plan.blocks }
        ensures number { result.number ≡ number }
        ensures block { IsBlockOf self.now.plan.stage.value self.now.plan.norm result }
    {
        let pairs = self.pairs;
        let first = 256 * number;
        Block {
            number,
            first,
            count: (pairs - first).min(256),
        }
    }
}
