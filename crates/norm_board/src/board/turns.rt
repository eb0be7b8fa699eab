//! The steps on the turn.

ghost use Rattle.std.specs.Prelude.{◌≡◌, ◌<◌, true, false, [], IfSome, IfNone};
ghost use Rattle.norm_board.specs.Rule.{taking, missing, giving, MayGive, KnowsBook, IsBookOf};
ghost use Rattle.norm_board.specs.Seen.{view, Belongs};

use super::Board;
use crate::pass::Pass;
use crate::plays::{Give, Take};
use crate::share::Turn;

impl<'s> Board<'s> {
    /// Takes the turn, and with it the book. None where another pass holds the turn, which a pass with all the weight never
    /// finds. Takes no memory and does not wait.
    pub fn take(&self, pass: &mut Pass) -> Option<Turn<'s>>
        requires own { Belongs self.now pass.old }
        requires free { (view pass.old).holding ≡ false }
        ensures same { Belongs self.now pass.new }
        ensures clean { (view pass.old).found ≡ [] }
        ensures some { IfSome result
            (λ t. (view pass.new ≡ taking (view pass.old) t.blocks) × KnowsBook (view pass.old) t) }
        ensures none { IfNone result
            ((view pass.new ≡ missing (view pass.old))
            × ((view pass.old).weight < self.now.plan.passes)) }
    {
        if self.table.shared.swap::<Take>(&mut pass.seat, 1, 1) != 0 {
            return None;
        }
        let Some(book) = self.table.shared.exchange(&mut pass.seat, 0, None) else {
            unreachable!()
        };
        pass.holding = true;
        Some(Turn::new(book))
    }

    /// Gives the turn back, with the book: as it was found, or filled with blocks that the pass has drawn and not kept. Those it
    /// has kept afterwards. Takes no memory.
    pub fn give(&self, pass: &mut Pass, turn: Turn<'s>)
        requires own { Belongs self.now pass.old }
        requires held { (view pass.old).holding ≡ true }
        requires book { IsBookOf self.now.plan turn }
        requires blocks { MayGive (view pass.old) turn.blocks }
        ensures same { Belongs self.now pass.new }
        ensures view { view pass.new ≡ giving (view pass.old) turn.entry.blocks }
    {
        let _empty = self
            .table
            .shared
            .exchange(&mut pass.seat, 0, Some(turn.into_book()));
        self.table.shared.swap::<Give>(&mut pass.seat, 1, 0);
        pass.holding = false;
    }
}
