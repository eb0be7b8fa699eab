//! Tests of the top call where a call of the folder or of a stream fails, and where a restart file was altered.
#![tactic(auto)]

#[cfg(test)]
mod alterations;
#[cfg(test)]
mod failures;
#[cfg(test)]
mod runs;
#[cfg(test)]
mod sinks;
#[cfg(test)]
mod texts;
