//! The laws on the backups of a run. The functions do nothing: what they ensure are the laws.

ghost use Rattle.backups.specs.Backups.{GoInTurn};
ghost use Rattle.backups.specs.Standing.{OneStands};

/// After any closed norms, the backups are those of the last norm of each interval, and they went to the names in turn.
pub fn turns_law()
    ensures { GoInTurn }
{}

/// Once a backup was written, one of both files always holds a whole one, also while the next is being written.
pub fn whole_law()
    ensures { OneStands }
{}
