//! Names of what several threads share: they exist in proofs alone, and take no bytes.
#![tactic(auto)]

mod channels;

pub use channels::Channels;
