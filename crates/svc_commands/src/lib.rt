//! The command lines of the control tools, as `s6-svc` and `s6-svstat`, read into values.
#![tactic(auto)]

mod letter_law;
mod letter_words;
mod matches;
mod names;
mod permafailon;
mod svc;
mod svlisten;
mod svscanctl;
mod svstat;
mod svwait;
mod usage_fault;

pub use control_letters::{ControlLetter, Letters};
pub use letter_law::{law_of_svc, law_of_svscanctl};
pub use names::WaitNames;
pub use permafailon::{PermafailCommand, compile_permafailon};
pub use svc::{SvcCommand, compile_svc};
pub use svlisten::{ListenCommand, compile_svlisten};
pub use svscanctl::{ScanCommand, ScanLetter, ScanLetters, compile_svscanctl};
pub use svstat::{StatCommand, compile_svstat};
pub use svwait::{WaitCommand, compile_svwait};
pub use usage_fault::UsageFault;
