//! Tests of what lies between threads: rings, lanes and the board.
#![tactic(auto)]

#[cfg(test)]
mod board;
#[cfg(test)]
mod lanes;
#[cfg(test)]
mod rings;
