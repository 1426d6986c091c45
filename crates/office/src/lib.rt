//! The office: a tree that several threads run, behind one lock, with its lanes beside it: at a
//! lane's desk its backend is asked orders.
#![tactic(auto)]

mod board_ends;
mod carrying;
mod closing;
mod lane_ends;
mod new_office;
mod office;
mod opening;
mod spare;

pub use locked_services::{CloseFault, Closed};
pub use new_office::{ACTOR_LIMIT, LANE_LIMIT, NewOffice, OpenFault};
pub use office::{NotStarted, Office};
pub use opening::Opened;
pub use spare::Spare;
