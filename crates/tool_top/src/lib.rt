//! The top call of the programs: from the words of a command and the files of a folder to the files of the minimal
//! solutions, the summary and the exit status.
//!
//! [`run_tool`] carries the theorem of the product: a run that ends well has written exactly the minimal solutions
//! that its command asks for.
#![tactic(auto)]

mod causes;
mod ends;
mod messages;
mod names;
mod outputs;
mod program;
mod summary;
mod top;

pub use ends::{End, Part, Status, Totals, answer_of, settle};
pub use messages::{put_message, put_overflow, put_pairs, put_rows, put_text, put_words};
pub use outputs::{Outputs, select_outputs};
pub use program::run_program;
pub use top::{project_of, read_job, run_tool, tell, write_job};
