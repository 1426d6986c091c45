//! What svscan would do with each entry of a scan directory, in words.
#![tactic(auto)]

mod lines;
mod note_sentences;
mod sentences;

pub use lines::{CheckedEntries, checked_entries, push_bad_names};
