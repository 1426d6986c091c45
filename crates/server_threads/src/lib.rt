//! The threads that serve the connections of a running tree, and the thread that reads its scan
//! directory; what they share with the driver, the thread that drives all runs; and the socket. A
//! slot is the number of a connection, and its mailbox is where texts wait to be written to it;
//! news is a match, a release or a letter.
#![tactic(auto)]

mod caller;
mod clock;
mod connecting;
mod context;
mod noted_end;
mod row_cache;
mod scan_tasks;
mod scanning;
mod shared;
mod socket;

pub use caller::{Caller, new_callers};
pub use clock::{ServerClock, moment_of};
pub use connecting::{end_connections, start_listener};
pub use context::Context;
pub use noted_end::NotedEnd;
pub use row_cache::RowCache;
pub use scan_tasks::{ReadScan, ScanTasks};
pub use scanning::attend;
pub use shared::Shared;
pub use socket::{SocketFile, listen};
