//! The beginning of a restart file.

ghost use Rattle.restart_laws.specs.Prefixes.{NoProperPrefix};

/// Where a file is accepted, no file that is cut short of it is.
pub fn prefix_law()
    ensures { NoProperPrefix }
{}
