//! The driver, the thread that drives the runs of a tree, one after the other: it hands in what is
//! asked, read, reported and due, makes the steps, hands out what they gave, has the lanes carry,
//! and records and closes each run. What is `known` of a run is for proofs alone.
#![tactic(auto)]

mod delivery;
mod driver_state;
mod driving;
mod ending_services;
mod lanes;
mod recording;
mod runs;
mod serving;

pub use runs::{RunSettings, run_all};
