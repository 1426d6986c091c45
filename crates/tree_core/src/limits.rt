//! The limits of a tree; clauses name them as `specs/Limits.antt` and `specs/Step.antt` do. A
//! timeout, and the seconds and the count of permafailon, are at most what a `u32` holds
//! (`input.rt`).
ghost use Rattle.std.specs.Prelude.{◌≡◌, ◌==◌};
ghost use Rattle.tree_core.specs.Step.{step_limit};

pub use svscan_core::{ORDER_LIMIT, SERVICE_LIMIT};

/// The most names of one wait.
pub const WAIT_NAME_LIMIT: usize = 16;

/// The most steps of a tree: 2^48.
const STEP_LIMIT: u64 = 281_474_976_710_656;

/// Whether a tree that took this many steps is spent: each further input is refused, and changes
/// nothing.
pub fn is_spent(steps: u64) -> bool
    ensures { result ≡ (steps == step_limit) }
{
    steps == STEP_LIMIT
}
