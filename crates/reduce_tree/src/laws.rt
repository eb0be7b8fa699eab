//! The law of signatures, which all searches rest on, and laws on the pools that a tree fits.

ghost use Rattle.reduce_tree.specs.Laws.{SignaturesArePart, FitsGrown, FitsCut};

/// In a row below another no entry reaches a threshold that the other's entry does not reach.
pub fn signature_law()
    ensures { SignaturesArePart }
{}

/// A pool that a tree fits may grow, and may lose rows that the tree does not hold.
pub fn pool_law()
    ensures grown { FitsGrown }
    ensures cut { FitsCut }
{}
