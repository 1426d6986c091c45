//! What the clients of a running tree print: a service's status, tables, lines of JSON, letters,
//! help texts, and words about a fault; and how they read a line of the server about a service.
#![tactic(auto)]

mod age;
mod culprit;
mod followed_letter;
mod help_texts;
mod help_waits;
mod json_line;
mod list_entry;
mod misuse;
mod sentences;
mod service_row;
mod status_line;
mod table;
mod told;
mod told_word;
mod tool;
mod words;
mod wrong_word;

pub use culprit::{culprit_of, program_of, subject_of};
pub use followed_letter::{FollowedLetter, letter_line, letter_of};
pub use help_texts::help_of;
pub use json_line::json_lines;
pub use list_entry::{ListEntry, ListedService, entry_of, moment_of};
pub use misuse::Misuse;
pub use sentences::{
    complaint_of, help_words, refusal_of_subject, refusal_of_tree, right_of, see_words, unnamed_of,
    unread_words,
};
pub use service_row::row_of;
pub use status_line::svstat_line;
pub use table::table_of;
pub use told::{FaultText, add_escaped, add_named};
pub use told_word::ToldWord;
pub use tool::{Tool, tool_named};
pub use words::{is_word, word_or_none};
