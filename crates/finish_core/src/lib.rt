//! What follows from how a run ended: the arguments of `finish`, what its own end says, and when
//! the next run is due.
#![tactic(auto)]

mod arguments;
mod exit_verdict;
mod restart;

pub use arguments::finish_args;
pub use exit_verdict::{Verdict125, verdict};
pub use restart::restart_due;
