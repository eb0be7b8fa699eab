//! Which restart files are accepted.

ghost use Rattle.restart_laws.specs.Accepted.{IsTextOfWhatItSays};

/// A file that is accepted is the text of what it says.
pub fn accepted_law()
    ensures { IsTextOfWhatItSays }
{}
