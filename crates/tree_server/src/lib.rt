//! A tree that runs. Its threads live from its first run to its last: the driver, which makes the
//! tree's steps, one for each lane, one that reads the scan directory, one that accepts
//! connections, and two for each connection; `threads.rt` lists the others. A lane is a queue of
//! orders to a thread that starts and signals processes; notes are lines for standard error, which
//! another thread writes.
#![tactic(auto)]

mod options;
mod serve;
mod service_lanes;
mod threads;

pub use options::{HANDOVER, ServeOptions};
pub use serve::run_tree;
pub use server_rules::{ServeFault, tell_serve_fault};
pub use service_lanes::{ServiceLanes, TreeLanes, open_service_lanes};
