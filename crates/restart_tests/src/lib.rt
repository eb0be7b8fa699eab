//! Tests of restart files through the top call: runs over one folder, one after another.
#![tactic(auto)]

#[cfg(test)]
mod tests;
