//! Restart files of a run: every so many closed norms a backup is written, under two names in turn, and a run that is
//! resumed starts from the later of the two.
#![tactic(auto)]

mod keeper;
pub mod laws;
mod running;
mod starts;

pub use keeper::{Backup, BackupState};
pub use running::{BackupPlan, Stopped, run_start};
pub use starts::{Slot, Start, StartEnd, read_start};
