//! The laws between the user's system and the linear system that stands for it.

ghost use Rattle.system_shape.specs.Laws.{FullSolves, SolutionsAreFull, OneSolution, OneVector, FirstEntriesDecide, WrittenForUser, WantedForUser, GraverForUser};

/// Solutions of the user's system and vectors that solve the linear system belong to each other one by one.
pub fn shape_law()
    ensures full { FullSolves }
    ensures is { SolutionsAreFull }
    ensures one_solution { OneSolution }
    ensures one_vector { OneVector }
    ensures first { FirstEntriesDecide }
{}

/// The rows that are written of the linear system are those that the user's own system asks for.
pub fn user_law()
    ensures written { WrittenForUser }
    ensures wanted { WantedForUser }
    ensures graver { GraverForUser }
{}
