//! The programs of a service: whether a file can be executed, and which interpreter its first line
//! names.
#![tactic(auto)]

mod first_line;
mod program_fault;
mod programs;

pub use program_fault::ProgramFault;
pub use programs::{FileState, lacks_interpreter, program_faults};
