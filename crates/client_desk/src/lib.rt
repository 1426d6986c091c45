//! The connections of a tree, as the driver, the thread that drives all runs, serves them. It takes
//! what they ask, posts what is told to them, and notes each answer. A slot is the number of a
//! connection; the roster lists the services that scans added. `server_rules` decides what is to be
//! done for a connection.
#![tactic(auto)]

mod clients;
mod posting;
mod refused_requests;
mod run_board;

pub use clients::Clients;
pub use run_board::RunBoard;
