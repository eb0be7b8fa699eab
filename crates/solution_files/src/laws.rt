//! The laws of what is written. The function does nothing: what it ensures are the laws.

ghost use Rattle.solution_files.specs.Laws.{SelectedAreWanted, SelectedAreWantedGraver, GridsAreRows};

/// What is selected from all minimal solutions is what is wanted, and the text of the grid has a line for each row.
pub fn selection_law()
    ensures wanted { SelectedAreWanted }
    ensures graver { SelectedAreWantedGraver }
    ensures text { GridsAreRows }
{}
