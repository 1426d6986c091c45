//! Where a thread gets one thing after another to work on. Other threads give them.
use std::sync::{Condvar, Mutex, Wait};

// How far the work in a box is.
#[derive(Drop)]
struct Work<T> {
    // What was given and not taken yet.
    given: Option<T>,
    // Whether the thread works on what it took.
    is_under_way: bool,
    // Whether the box was ended.
    is_over: bool,
}

/// Gives a thread one thing at a time to work on.
#[derive(Drop)]
pub struct WorkBox<T> {
    work: Mutex<Work<T>>,
    changed: Condvar,
}

impl<T: Drop> WorkBox<T> {
    /// A box into which nothing was given.
    pub fn new() -> WorkBox<T> {
        WorkBox {
            work: Mutex::new(Work {
                given: None,
                is_under_way: false,
                is_over: false,
            }),
            // Notified when one of these changes.
            changed: Condvar::new(),
        }
    }

    /// Gives the thread a thing to work on. The thing comes back where the one before is not done,
    /// or the box was ended.
    pub fn give<R: Wait>(&self, rt: &R, thing: T) -> Result<(), T> {
        let mut work = self.work.lock(rt);
        if work.is_over || work.is_under_way || work.given.is_some() {
            return Err(thing);
        }
        work.given = Some(thing);
        self.changed.notify_all();
        Ok(())
    }

    /// Waits for the next thing, and takes it to work on it; None once the box was ended and
    /// nothing is left.
    pub fn await_next<R: Wait>(&self, rt: &R) -> Option<T> {
        let mut work = self.changed.wait_while(rt, self.work.lock(rt), |work| {
            !work.is_over && work.given.is_none()
        });
        // The wait is over: where nothing was given, the box was ended.
        let thing = work.given.take()?;
        work.is_under_way = true;
        Some(thing)
    }

    /// The thing that was taken is done.
    pub fn finish<R: Wait>(&self, rt: &R) {
        self.work.lock(rt).is_under_way = false;
        // `await_done` goes on, and the next thing may be given.
        self.changed.notify_all();
    }

    /// Waits until all that was given is done; after the end of the box, only until what the
    /// thread has taken is done.
    pub fn await_done<R: Wait>(&self, rt: &R) {
        let _work = self.changed.wait_while(rt, self.work.lock(rt), |work| {
            work.is_under_way || (work.given.is_some() && !work.is_over)
        });
    }

    /// Ends the box: nothing more can be given.
    pub fn end<R: Wait>(&self, rt: &R) {
        let mut work = self.work.lock(rt);
        work.is_over = true;
        // The thread that waits for a thing goes on, and ends.
        self.changed.notify_all();
    }
}
