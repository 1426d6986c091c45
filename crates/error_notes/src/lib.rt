//! Lines for standard error. A thread of their own writes them, so a slow reader of standard error
//! keeps nobody else waiting.
#![tactic(auto)]

mod note_list;
mod note_writer;
mod notes;
mod writing;

pub use note_list::{LostNote, NOTES_LIMIT, NoteList};
pub use note_writer::NoteWriter;
pub use notes::Notes;
pub use writing::{start_notes, write_notes};
