//! What is in a scan directory: which of its entries are services, what their directories hold, and
//! what is wrong in them.
#![tactic(auto)]

mod dir_note;
mod found;
mod listing;
mod noting;
mod service_files;
mod text_notes;

pub use dir_note::{DirNote, note_word};
pub use found::{FoundServices, Noted, Remark, fault_word, push_all_unread};
pub use listing::read_listing;
