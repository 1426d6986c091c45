//! A writer that posts lines, and the records of a log, as notes: whole lines for standard error,
//! which another thread writes.
ghost use Rattle.std.specs.Prelude.{◌≡◌, Some, [], true};

use crate::note_list::NOTES_LIMIT;
use crate::notes::Notes;
use log::kv::Source;
use log::span::Spans;
use log::{Log, Metadata, Record};
use std::fmt::Display;
use std::io::{self, Write};
use std::sync::Wait;

/// Posts what is written to it. A line is posted once its newline was written; the lines that one
/// write ends are one note, so that nothing comes between them. A record that is logged is a note
/// of one line. It never fails and doesn't wait for a reader. Lines for which memory is refused, or
/// of more than 65,536 bytes together, are lost and counted as one note. What was written behind
/// the last newline is dropped with the writer.
#[derive(Drop)]
pub struct NoteWriter<'a, R> {
    rt: &'a R,
    notes: &'a Notes,
    // What was written and isn't posted yet, and whether some of it was lost.
    line: Vec<u8>,
    has_lost_some: bool,
}

impl<'a, R: Wait> NoteWriter<'a, R> {
    /// A writer of these notes.
    pub fn new(rt: &'a R, notes: &'a Notes) -> NoteWriter<'a, R> {
        NoteWriter {
            rt,
            notes,
            line: Vec::new(notes.alloc),
            has_lost_some: false,
        }
    }

    // Adds to the bytes that are to be posted.
    fn add(&mut self, part: &[u8]) {
        let fits = part.len() <= NOTES_LIMIT.saturating_sub(self.line.len());
        if !fits || self.line.extend_from_slice(part).is_err() {
            self.has_lost_some = true;
        }
    }

    // Posts the lines, or counts them as one note that was lost.
    fn post_lines(&mut self) {
        // A part is missing, so none of it is posted.
        if self.has_lost_some {
            self.notes.lose(self.rt);
        } else {
            self.notes.post(self.rt, self.line.as_slice());
        }
        self.line.clear();
        self.has_lost_some = false;
    }
}

impl<'a, R: Wait> Write for NoteWriter<'a, R> {
    // Posts the whole lines as one note, and keeps what is behind the last newline until its line
    // ends.
    fn write(&mut self, bytes: &[u8]) -> io::Result<usize> {
        match bytes.iter().rposition(|byte| *byte == b'\n') {
            // All up to the last newline is whole lines, which are posted. The rest waits for its
            // newline.
            Some(last) => {
                self.add(&bytes[..=last]);
                self.post_lines();
                self.add(&bytes[last + 1..]);
            }
            None => self.add(bytes),
        }
        Ok(bytes.len())
    }

    // What is kept is no whole line yet, so there is nothing to post.
    fn flush(&mut self) -> io::Result<()> {
        Ok(())
    }
}

impl<'a, R: Wait> Log for NoteWriter<'a, R> {
    ghost enables = { λ _ _ _. Some true };

    ghost target_of = { λ _. Some [] };

    // Every record of the log is told.
    fn enabled(&self, _metadata: &Metadata<'_>) -> bool {
        true
    }

    // Posts a record of the log as a note of one line. Where memory for the line is refused, the
    // note counts as lost.
    fn log<D: Display, K: Source, S: Spans>(&self, record: &Record<'_, D, K, S>) {
        let alloc = self.notes.alloc;
        // What it says, without the module that says it: the line is for whoever operates the tree.
        match format!(in alloc; "{}\n", record.args()) {
            Ok(line) => self.notes.post(self.rt, line.as_bytes()),
            Err(_) => self.notes.lose(self.rt),
        }
    }

    fn flush(&self) {}

    // It has no target of its own for records that name none.
    fn target(&self) -> &str {
        ""
    }
}
