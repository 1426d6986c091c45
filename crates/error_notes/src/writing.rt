//! The thread that writes notes: whole lines for standard error, which other threads post.
use crate::notes::Notes;
use arrayvec::ArrayString;
use std::alloc::Global;
use std::fmt::Write as _;
use std::io::Write;
use std::sync::{Arc, Wait};
use std::thread::{Builder, Threads};
use std::time::Clock;

/// How much stack the thread gets, in bytes.
const STACK: usize = 256 * 1024;

/// Writes notes as they come, each line by one call of `write_all`, and after them a line that says
/// how many were lost, if any were. A line that can't be written is left out. It returns once the
/// notes were closed and all were written.
pub fn write_notes<R: Wait, E: Write>(rt: &R, notes: &Notes, errors: &mut E) {
    let mut text = Vec::new(notes.alloc);
    for _ in rt.forever() {
        // Waits for notes, moves them into `text`, and says how many were lost since the last time.
        let Some(lost) = notes.wait_for_notes(rt, &mut text) else {
            break;
        };
        write_lines(errors, text.as_slice());
        if lost > 0 {
            write_loss(errors, lost);
        }
    }
    // Whoever waits in `await_written` goes on.
    notes.finish(rt);
}

// Writes each line by one call of `write_all`.
fn write_lines<E: Write>(errors: &mut E, text: &[u8]) {
    for line in text.split_inclusive(|byte| *byte == b'\n') {
        let _ = errors.write_all(line);
    }
}

// Writes the line that says how many notes were lost.
fn write_loss<E: Write>(errors: &mut E, lost: u64) {
    let mut line = ArrayString::<64>::new();
    // It always fits: the line has at most 45 bytes.
    let _ = writeln!(line, "svscan: {lost} notes were lost");
    let _ = errors.write_all(line.as_bytes());
}

// The body of the thread that writes notes to `errors`: it ends once the notes were closed and all
// were written.
fn write_to<R: Wait + Drop, E: Write + Drop>(rt: R, notes: Arc<Notes, Global>, mut errors: E) {
    write_notes(&rt, &notes, &mut errors);
}

/// Makes notes, and starts a thread that writes them to `errors`. Nobody joins the thread, since it
/// may sit in a write for ever: wait for it by `await_written`. None where memory is refused or the
/// thread can't be started.
pub fn start_notes<
    R: Threads + Wait + Clock + Copy + Send + Sync + Drop + 'static,
    E: Write + Send + Drop + 'static,
>(rt: R, alloc: Global, errors: E) -> Option<Arc<Notes, Global>> {
    let notes = Arc::new(alloc, Notes::new(alloc)).ok()?;
    let theirs = Arc::try_clone(&notes).ok()?;
    let thread = Builder::new()
        .stack_size(STACK)
        .spawn(&rt, move || write_to(rt, theirs, errors));
    match thread {
        // The handle of the thread is dropped, and the thread runs on.
        Ok(_unjoined) => Some(notes),
        Err(_) => None,
    }
}
