//! The laws of the walk. Each function does nothing: what it ensures is the law.
ghost use Rattle.decompose_tool.specs.Laws.{WalksAddUp, TermsAreBelow, TermsDiffer, NothingFits, NothingIsLeft, WalksAreOne};

/// The terms of a walk and what is left add up to where it began; the terms are below that, and all different; no
/// candidate fits what is left; and there is no other walk.
pub fn walk_law()
    ensures sum { WalksAddUp }
    ensures below { TermsAreBelow }
    ensures differ { TermsDiffer }
    ensures fits { NothingFits }
    ensures one { WalksAreOne }
{}

/// Where the candidates are solutions, and all minimal ones are among them, nothing is left of a solution.
pub fn solution_law()
    ensures { NothingIsLeft }
{}
