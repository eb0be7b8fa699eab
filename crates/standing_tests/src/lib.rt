//! Tests of runs with a standing team.
#![tactic(auto)]

#[cfg(test)]
mod commands;
#[cfg(test)]
mod ends;
#[cfg(test)]
mod meeting;
#[cfg(test)]
mod systems;
