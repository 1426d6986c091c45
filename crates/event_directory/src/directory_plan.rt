//! What a prepared step of all event directories gives.
use crate::directory_change::DirectoryAnswer;
use crate::hit::Hit;
use s6_events::SubId;
use std::alloc::Allocator;

/// A step that is prepared: what it gives once it is made. `Directories::commit` takes it, and
/// makes it.
#[derive(Drop)]
pub struct DirectoriesPlan<A: Allocator> {
    /// The hits of its letters: first of its moments in order, then of its message; those of one
    /// letter in rising serial.
    pub matches: Vec<(SubId, Hit), A>,
    /// What is answered to its change.
    pub answer: DirectoryAnswer,
    // Its number among the plans of its directories.
    pub(crate) number: u64,
}
