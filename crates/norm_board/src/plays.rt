//! What each step on the table tells, and how passes are cut and joined.

ghost use Rattle.norm_board.specs.Inside.Plays.{drew, looked, took, gave, spent_view};
ghost use Rattle.norm_board.specs.Rule.{shrunk, single, one_pass};

use crate::book::Book;
use crate::rule::View;
use atomic_table::{Join, Play, Split};

// The counter rises by one.
pub(crate) struct Draw;

impl Play<Option<Book>, View> for Draw {
    ghost then = { drew };
}

// A look at the counter, which changes nothing.
pub(crate) struct Look;

impl Play<Option<Book>, View> for Look {
    ghost then = { looked };
}

// 1 is swapped into the turn.
pub(crate) struct Take;

impl Play<Option<Book>, View> for Take {
    ghost then = { took };
}

// 0 is swapped into the turn.
pub(crate) struct Give;

impl Play<Option<Book>, View> for Give {
    ghost then = { gave };
}

// One unit of the weight goes to a new pass.
pub(crate) struct Cut;

impl Split<View> for Cut {
    ghost left = { shrunk };

    ghost right = { single };
}

// A pass takes another one in.
pub(crate) struct Glue;

impl Join<View> for Glue {
    ghost both = { one_pass };

    ghost spent = { spent_view };
}
