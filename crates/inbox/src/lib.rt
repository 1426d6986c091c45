//! How actors hand in what happened: through a ring for each, without a lock, so that nobody waits
//! for the tree.
#![tactic(auto)]

mod drain;
mod finished;
mod ring;
mod submission;

pub use drain::Drain;
pub use finished::Finished;
pub use ring::{Full, Ring, Seat, Ticket, open_rings};
pub use submission::Submission;
