//! What the words of the program ask for: a tool or a check that is done here, a replay, or a tree
//! that is to run.
#![tactic(auto)]

mod asked;
mod check_dir;
mod connection;
mod descriptors;
mod front;
mod help;
mod help_text;
mod ignored_signals;
mod limited_errors;
mod no_memory;
mod place;
mod program;
mod socket_trouble;
mod usage;

pub use limited_errors::LimitedErrors;
pub use place::TreePlace;
pub use program::{Begun, BegunTree, Standard, begin_program, end_program};
