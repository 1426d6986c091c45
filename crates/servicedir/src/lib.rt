//! Service directories: the configuration of a service is what the files of its directory say.
#![tactic(auto)]

mod config;
mod dir_fault;
mod files;
mod meaning;
mod number;
mod reading;
mod service_name;
mod signal;

pub use config::Config;
pub use dir_fault::DirFault;
pub use files::{Files, ReadFault, ServiceFile};
pub use number::{parse_digits, parse_number};
pub use reading::{Found, read};
pub use service_name::{Seen, name_of};
pub use signal::{parse_signal, signal_name, signal_named};
