//! What a pass knows, and the rule that holds of the board between any two steps.

use crate::book::Book;
use atomic_table::TableRule;
use stage_store::Stage;
use std::collections::LinkedList;
use std::snapshot::Snapshot;

/// The board's fixed data.
#[derive(Drop)]
pub struct Plan {
    pub blocks: u64,
    pub passes: u64,
    pub norm: u64,
    pub stage: Snapshot<Stage>,
}

/// What a pass knows. No value of it is ever made: it stands in contracts alone.
pub struct View {
    /// How many of the board's passes it stands for.
    pub weight: u64,
    /// Whether it has seen that no block is left.
    pub done: bool,
    /// Whether it holds the turn.
    pub holding: bool,
    /// While it holds the turn: the blocks that it found in the book.
    pub found: LinkedList<u64>,
    /// The blocks that it has drawn.
    pub drawn: LinkedList<u64>,
    /// Those of them that it has put into the book.
    pub kept: LinkedList<u64>,
    /// How often it found the turn taken.
    pub missed: u64,
    pub plan: Plan,
}

pub struct BoardRule;

impl TableRule<Option<Book>, View, Plan> for BoardRule {
    ghost use Rattle.norm_board.specs.Rule.{Ruled, starting};

    ghost holds = { Ruled };

    ghost first = { starting };
}
