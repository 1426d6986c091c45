//! The notes, whole lines for standard error, that anybody posts, and for which the thread that
//! writes them waits.
use crate::note_list::NoteList;
use std::alloc::Global;
use std::sync::{Condvar, Mutex, Wait};
use std::time::{Clock, Duration};

/// The lines for standard error that are still to be written. Anybody may post, and nobody who
/// posts waits for the reader of standard error: one thread writes, in `write_notes`, and holds no
/// lock meanwhile.
#[derive(Drop)]
pub struct Notes {
    pub(crate) alloc: Global,
    list: Mutex<NoteList<Global>>,
    // Notified when a note is posted or lost, and at the close.
    changed: Condvar,
    // Whether the thread that writes has written all that was posted before the close.
    all_written: Mutex<bool>,
    // Notified once that is so.
    written: Condvar,
}

impl Notes {
    /// Nothing was posted yet. It takes no memory before the first note.
    pub fn new(alloc: Global) -> Notes {
        Notes {
            alloc,
            list: Mutex::new(NoteList::new(alloc)),
            changed: Condvar::new(),
            all_written: Mutex::new(false),
            written: Condvar::new(),
        }
    }

    /// Posts a note: one or more whole lines, each with its newline. It is written behind all that
    /// were posted before, whole or not at all. Where it doesn't fit, where memory is refused, or
    /// once the list was closed, it is lost, and counted.
    pub fn post<R: Wait>(&self, rt: &R, note: &[u8]) {
        // A note that is lost is counted by the list.
        let _ = self.list.lock(rt).post(note);
        // Wakes the thread that writes.
        self.changed.notify_all();
    }

    /// Counts a note that could not even be made.
    pub fn lose<R: Wait>(&self, rt: &R) {
        self.list.lock(rt).lose();
        self.changed.notify_all();
    }

    /// Closes the notes: from now on nothing more is posted. What waits is still written.
    pub fn close<R: Wait>(&self, rt: &R) {
        self.list.lock(rt).close();
        self.changed.notify_all();
    }

    /// Waits until all that was posted before `close` was written, but at most for `time`. Returns
    /// whether it was.
    pub fn await_written<R: Wait + Clock>(&self, rt: &R, time: Duration) -> bool {
        let all_written = self.all_written.lock(rt);
        let (all_written, _late) = self
            .written
            .wait_timeout_while(rt, all_written, time, |all_written| !*all_written);
        *all_written
    }

    /// Waits until there is something to tell, moves the notes into `text`, and returns how many
    /// were lost. None once the list was closed and nothing is left to tell.
    pub(crate) fn wait_for_notes<R: Wait>(&self, rt: &R, text: &mut Vec<u8>) -> Option<u64> {
        let list = self.list.lock(rt);
        let mut list = self
            .changed
            .wait_while(rt, list, |list| list.is_open() && list.is_empty());
        if list.is_empty() {
            // The wait is over, and nothing came: the list was closed.
            return None;
        }
        Some(list.take_all(text))
    }

    /// Tells those that wait for it (`await_written`) that all was written.
    pub(crate) fn finish<R: Wait>(&self, rt: &R) {
        *self.all_written.lock(rt) = true;
        self.written.notify_all();
    }
}
