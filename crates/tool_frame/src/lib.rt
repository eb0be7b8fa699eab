//! What the tools on a project's files share: the lines on standard error, the output files, and the words, folder and
//! streams of a program.
#![tactic(auto)]

mod lines;
mod outputs;
mod program;
mod wordings;

pub use lines::put_message;
pub use outputs::write_output;
pub use program::Session;
pub use wordings::{Limits, Wording, fault_wording, plain_wording, shape_wording};
