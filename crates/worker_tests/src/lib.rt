//! Tests of the workers: commands with several of them give the bytes of one, and two workers of a norm run at once.
#![tactic(auto)]

#[cfg(test)]
mod cases;
#[cfg(test)]
mod commands;
#[cfg(test)]
mod meeting;
#[cfg(test)]
mod norms;
