//! Laws of restart files.

ghost use Rattle.restart_file.specs.Laws.{OneReading};

/// A file says one thing of a system, or has one first fault.
pub fn reading_law()
    ensures { OneReading }
{}
