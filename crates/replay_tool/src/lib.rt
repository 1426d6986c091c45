//! The tool `replay`: its words, what it prints, and the line and the status of each fault.
#![tactic(auto)]

mod buffered;
mod dated;
mod fault_lines;
mod help_texts;
mod line_counter;
mod tool;

pub use buffered::replay;
pub use fault_lines::replay_fault;
pub use help_texts::{HELP, REPLAY_HELP};
pub use tool::run_tool;
