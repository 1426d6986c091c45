//! What the tests share: values that are there, and the counts of what was refused and of what was
//! done.
use linked_list_allocator::LocalHeap;
use s6_events::{At, Letter, NoMemory};
use std::alloc::Global;
use std::process::Abort;

/// The moment of so many milliseconds.
pub fn at<R: Abort>(rt: &R, millis: u64) -> At {
    At::new(millis).expect(rt, "a moment")
}

/// The letter of this byte.
pub fn letter<R: Abort>(rt: &R, byte: u8) -> Letter {
    Letter::new(byte).expect(rt, "a letter")
}

/// A heap of so many bytes.
pub fn new_heap<R: Abort>(rt: &R, alloc: Global, bytes: usize) -> LocalHeap {
    LocalHeap::new(alloc, bytes).expect(rt, "memory")
}

/// Of trials on heaps of a growing size, how many were refused a growth, and how many were done.
#[derive(Clone, Copy)]
pub struct TrialCounts {
    refused: u32,
    done: u32,
}

impl TrialCounts {
    /// No trial yet.
    pub fn new() -> TrialCounts {
        TrialCounts {
            refused: 0,
            done: 0,
        }
    }

    /// Counts a trial, which was refused, or done as it should be.
    pub fn add<R: Abort>(&mut self, rt: &R, trial: Result<bool, NoMemory>) {
        match trial {
            Ok(is_right) => {
                assert!(rt; is_right, "another answer");
                self.done = self.done.saturating_add(1);
            }
            Err(NoMemory) => self.refused = self.refused.saturating_add(1),
        }
    }

    /// More than so many were refused, and more than so many were done.
    pub fn wants_more_than<R: Abort>(self, rt: &R, least: u32) {
        let TrialCounts { refused, done } = self;
        assert!(rt; refused > least && done > least, "{refused} {done}");
    }
}
