//! One pass of a board, with which one worker steps.

ghost use Rattle.std.specs.Prelude.{◌≡◌, ◌<◌, ◌≤◌, ℕ};
ghost use Rattle.lift_core.specs.Times.{times};

use crate::book::Book;
use crate::rule::View;
use atomic_table::Seat;
use std::marker::Model;

/// A pass belongs to one board. It is seen as what it knows: its weight, whether it is done and holds the turn, the blocks that
/// it has drawn and kept, how often it found the turn taken, and, while it holds the turn, the blocks that it found in the book.
/// Those lists and that number stand in contracts alone.
#[derive(Drop)]
pub struct Pass {
    pub(crate) seat: Seat<Option<Book>, View>,
    pub(crate) weight: u32,
    pub(crate) done: bool,
    pub(crate) holding: bool,
}

impl Model for Pass {
    ghost use Rattle.norm_board.specs.Seen.{PassValue};
    ghost use Rattle.norm_board.specs.Inside.Fields.{PassOk};

    ghost Value = { PassValue };

    ghost view = { λ p. record { table = p.seat.table_id; view = p.seat.me.0 } };

    ghost invariant = { λ p. PassOk p.weight p.done p.holding p.seat.me };
}

impl Pass {
    /// How many of the board's passes it stands for.
    pub fn weight(&self) -> u32
        ensures weight { result ≡ self.now.view.weight }
        ensures live { 0 < result }
        // what it has kept it has drawn
        ensures kept { (x : ℕ) → times x self.now.view.kept ≤ times x self.now.view.drawn }
    {
        self.weight
    }

    /// Whether it has seen that no block is left.
    pub fn done(&self) -> bool
        ensures { result ≡ self.now.view.done }
    {
        self.done
    }

    /// Whether it holds the turn.
    pub fn holding(&self) -> bool
        ensures { result ≡ self.now.view.holding }
    {
        self.holding
    }
}
