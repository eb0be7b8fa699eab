//! One team of threads for a whole run. Each worker has a stage of its own, works out its part of each norm, and waits for what the
//! caller's thread puts together of all parts.
//!
//! What passes between the threads is right by its type: a part has the irreducible sums of the pairs that it is of, and a norm has
//! all of them. So the answer of the run does not depend on the workers: whatever one of them does or leaves undone, the caller's
//! thread takes only what belongs to its own norm, and works out the rest itself. That a run returns is not promised.
#![tactic(auto)]

mod ends;
mod hall;
pub mod laws;
mod leader;
mod news;
mod part;
mod running;
mod sums;
mod worker;

pub use ends::StandEnd;
pub use running::run_standing;
