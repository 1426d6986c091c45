//! An input, as a ring holds it.
use s6_events::At;
use std::alloc::Global;
use tree_core::Act;

/// What a ring holds: an input but for its actor, who is the same for all of a ring.
#[derive(Drop)]
pub struct Submission {
    pub at: At,
    pub act: Act<Global>,
}
