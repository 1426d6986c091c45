//! A backend whose services are real processes.
#![tactic(auto)]

mod backend;
mod bell;
mod end_mark;
mod keeper;
mod lane_link;
mod lane_thread;
mod launch;
mod line_limit;
mod link_queue;
mod linked_backend;
mod order_commands;
mod progress;
mod roll;
mod roster;
mod shared_child;
mod shell;
mod signals;
mod start_fault;
mod started_program;
mod trials;
mod watching;

pub use backend::ProcessBackend;
pub use bell::Bell;
pub use keeper::{Keeper, KeeperFault};
pub use lane_link::{LINK_ORDER_LIMIT, LINK_REPORT_LIMIT, LaneLink};
pub use lane_thread::{LaneWorker, serve_lane};
pub use linked_backend::LinkedBackend;
pub use shell::ShellProbe;
pub use trials::Unwanted;
