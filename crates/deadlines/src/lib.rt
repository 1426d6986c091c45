//! The moments at which the timers of services go off: which are due, in rising serial.
#![tactic(auto)]

mod deadlines;
mod embedding;
mod queue;
mod timer;

pub use deadlines::{Deadlines, DeadlinesPlan};
pub use timer::{Timer, TimerChange};
