//! The law of the parts of a norm. The function does nothing: what it ensures is the law.

ghost use Rattle.standing_pool.specs.Parts.{PartsAreAll};

/// The irreducible sums of a norm are exactly those of its parts together.
pub fn parts_law()
    ensures { PartsAreAll }
{}
