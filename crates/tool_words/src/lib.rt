//! The words of a command: the options, the project's name, and the job that they are.
#![tactic(auto)]

mod commands;
mod jobs;
mod reading;

pub use jobs::{Job, Name, WordEnd};
pub use reading::read_words;
