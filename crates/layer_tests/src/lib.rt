//! Tests of the layers' public calls, a module for each layer.
//!
//! The layers hold no tests themselves: a crate with tests is proved once with and once without them.
#![tactic(auto)]

#[cfg(test)]
mod folders;
#[cfg(test)]
mod outputs;
#[cfg(test)]
mod pools;
#[cfg(test)]
mod shapes;
#[cfg(test)]
mod systems;
#[cfg(test)]
mod texts;
#[cfg(test)]
mod trees;
#[cfg(test)]
mod vectors;
#[cfg(test)]
mod words;
