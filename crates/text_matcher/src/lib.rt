//! A regular expression, and a text that a matcher takes in (hears) letter by letter, to tell
//! whether there is a match in it.
#![tactic(auto)]

mod build_fault;
mod state_list;
mod text_matcher;
mod walk;

pub use build_fault::BuildFault;
pub use text_matcher::{Limits, TextMatcher};
