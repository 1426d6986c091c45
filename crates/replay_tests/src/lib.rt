//! Tests of the replay and of its program, and of whole trees: what no clause says.
#![tactic(auto)]

#[cfg(test)]
mod tests;
