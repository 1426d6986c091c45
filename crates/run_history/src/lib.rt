//! The one history of a run: all inputs that were done, in order. It exists in proofs alone. By it
//! calls under a lock can promise that what they tell is of the same run.
#![tactic(auto)]

mod history;

pub use history::{KnownHistory, NewHistory, Whole, WholeHistory};
