//! How a tree came to its end.
use server_rules::ServeFault;
use std::sync::{Mutex, Wait};

/// How a tree came to its end, as the driver notes it.
#[derive(Drop)]
pub struct NotedEnd {
    end: Mutex<Result<(), ServeFault>>,
}

impl NotedEnd {
    /// Nothing is noted yet. Where that stays so, a thread could not be started:
    /// `ServeFault::Thread`.
    pub fn new() -> NotedEnd {
        NotedEnd {
            end: Mutex::new(Err(ServeFault::Thread)),
        }
    }

    /// Notes why the tree is driven no more.
    pub fn note<R: Wait>(&self, rt: &R, end: Result<(), ServeFault>) {
        *self.end.lock(rt) = end;
    }

    /// Why the tree is driven no more.
    pub fn get<R: Wait>(&self, rt: &R) -> Result<(), ServeFault> {
        *self.end.lock(rt)
    }
}
