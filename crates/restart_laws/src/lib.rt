//! Laws of restart files, above the code that writes and reads them: what was written is read as the same stage, an accepted
//! file is the text of what it says, and none of its proper prefixes is accepted.
#![tactic(auto)]

mod accepted;
mod prefixes;
mod written;

pub use accepted::accepted_law;
pub use prefixes::prefix_law;
pub use written::written_law;
