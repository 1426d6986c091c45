//! The last deaths of a service, and whether a list names the exits of enough of them. Pages
//! `servicedir`, `max-death-tally`, and `s6-permafailon`.
#![tactic(auto)]

mod exit_list;
mod permanent_failure;
mod tally;

pub use exit_list::{DeathItem, DeathList};
pub use permanent_failure::permafails;
pub use tally::Tally;
