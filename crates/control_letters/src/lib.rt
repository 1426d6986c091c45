//! The control letters of a service: the byte of each, and the signal that it stands for.
#![tactic(auto)]

mod control_letter;

pub use control_letter::{ControlLetter, Letters};
