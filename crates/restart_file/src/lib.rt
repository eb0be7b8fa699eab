//! Restart files: the text of a stage, sealed with its digest, and the reading of it.
//!
//! A restart file says where a run stands: the system, the place, the used pairs and both lists of the stage. Its last line
//! has the SHA-256 of all bytes before it, so that a file that was cut or altered is not taken for another stage.
#![tactic(auto)]

mod classes;
mod counts;
mod drafts;
mod dues;
mod ends;
mod laws;
mod lines;
mod numbers;
mod pulling;
mod reading;
mod rows;
mod sealing;
mod windows;
mod writing;

pub use dues::Due;
pub use ends::{RestartEnd, RestartFault};
pub use laws::reading_law;
pub use lines::Version;
pub use reading::read_restart;
pub use writing::write_restart;
