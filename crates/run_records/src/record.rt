//! A step of a run, as it is stored.
use std::alloc::Global;
use tree_core::{Event, Match, PlainInput, Release, Reply};

/// A step of a run: its input and what it gave. Its orders stand in the run's one list of orders,
/// `count` of them from `first` on.
#[derive(Drop)]
pub struct Record {
    pub input: PlainInput<Global>,
    pub reply: Reply<Global>,
    pub events: Vec<Event>,
    pub matched: Vec<Match>,
    pub released: Vec<Release>,
    pub first: usize,
    pub count: usize,
}
