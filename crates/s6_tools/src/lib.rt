//! The clients of a running tree. Each turns its words into requests, sends them over the tree's
//! socket, and ends with the status that the answer calls for. What they print is in `tool_lines`.
#![tactic(auto)]

mod answer;
mod cause;
mod client;
mod connection;
mod ending;
mod event_tools;
mod follow_tool;
mod letter_tools;
mod list_command;
mod list_tool;
mod patience;
mod request;
mod scan_fault;
mod status_tools;
mod tool_fault;
mod wait_tools;

pub use answer::{Outcome, ServerAnswer, read_answer};
pub use client::run_client;
pub use tool_fault::ToolFault;
