//! The command `stand`: a run of one of the three commands by one team of threads.
//!
//! [`run_stand`] is the top call. It ends and writes as `tool_top::run_tool` does for a run from nothing without backups.
#![tactic(auto)]

mod ends;
mod messages;
mod request;
mod running;
mod top;

pub use ends::{StandStatus, TopEnd};
pub use request::{Request, read_request};
pub use running::run_fresh;
pub use top::run_stand;
