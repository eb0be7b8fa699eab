//! What the board has to do with the pure machine of `lift_core`: each function does nothing, and what it ensures is the law.

ghost use Rattle.norm_board.specs.Shows.{StartShows, DrawsShow, LateDrawsShow, TakesShow, GivesShow, GivesBackShow, SplitsShow, JoinsShow, ClosesShow};

/// Between any two steps the board shows a state of the pure machine. A draw that gives a block is a draw of the machine; a give
/// by which a pass of weight 1 keeps all its open blocks is a put; closing is a put for each pass with open blocks, and then the
/// machine's close. All other steps show the same state: a draw that finds no block left, taking the turn and missing it, giving
/// the book back as it was, cutting a pass before it has drawn, and joining passes.
pub fn shown_law()
    ensures start { StartShows }
    ensures draw { DrawsShow }
    ensures late { LateDrawsShow }
    ensures take { TakesShow }
    ensures give { GivesShow }
    ensures back { GivesBackShow }
    ensures split { SplitsShow }
    ensures join { JoinsShow }
    ensures close { ClosesShow }
{}
