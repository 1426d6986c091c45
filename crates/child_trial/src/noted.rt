//! The commands on notes for standard error.
use crate::commands::{cut, number_of};
use crate::stage::TestStage;
use error_notes::{NoteWriter, Notes, start_notes, write_notes};
use std::alloc::Global;
use std::fs::File;
use std::io::{self, PipeReader, Read, Write};
use std::process::Processes;
use std::rt::Files;
use std::sync::{Arc, Wait};
use std::thread::Threads;
use std::time::{Clock, Duration};

/// How many seconds the thread that writes may take.
const PATIENCE: u64 = 30;

// Posts two lines so often, the second of them in two parts.
fn post_lines<R: Wait>(rt: &R, notes: &Notes, lines: &str, times: u64) -> io::Result<()> {
    let mut writer = NoteWriter::new(rt, notes);
    for _ in 0..times {
        writer.write_all(lines.as_bytes())?;
        writer.write_all(b"\n")?;
    }
    Ok(())
}

// What a thread of notes wrote.
fn say_written<R: Print>(
    rt: &R,
    alloc: Global,
    reader: &mut PipeReader,
    is_written: bool,
) -> io::Result<()> {
    let mut text = Vec::new(alloc);
    reader.read_to_end(&mut text)?;
    let are_whole = text.as_slice() == b"one\ntwo\n".as_slice();
    println!(rt; "a thread of notes: written {is_written}, both lines {are_whole}")
}

impl<R: Print + Processes + Wait> TestStage<R> {
    /// Posts the lines that two words are, so often.
    pub fn post(&self, words: &str) -> io::Result<()> {
        let (times, lines) = cut(words);
        let times = number_of(times)?;
        let (first, second) = cut(lines);
        let lines = format!(in self.alloc; "{first}\n{second}")?;
        post_lines(&self.rt, &self.notes, lines.as_str(), times)
    }

    /// Runs a script with the notes as `$0`. They must be closed; those that follow are new.
    pub fn gather_notes(&mut self, script: &str) -> io::Result<()> {
        let mut text = Vec::new(self.alloc);
        write_notes(&self.rt, &self.notes, &mut text);
        self.notes = Arc::new(self.alloc, Notes::new(self.alloc))?;
        let text = std::str::from_utf8(text.as_slice()).unwrap_or("");
        self.run_shell(script, text)
    }
}

impl<
    R: Print + Files<File = File> + Threads + Wait + Clock + Copy + Send + Sync + Drop + 'static,
> TestStage<R> {
    /// A thread writes notes to a pipe; a line that came in parts is whole.
    pub fn try_thread(&self) -> io::Result<()> {
        let (mut reader, writer) = io::pipe(&self.rt)?;
        let Some(notes) = start_notes(self.rt, self.alloc, writer) else {
            return println!(self.rt; "a thread of notes: none");
        };
        post_lines(&self.rt, &notes, "one\ntwo", 1)?;
        notes.close(&self.rt);
        let is_written = notes.await_written(&self.rt, Duration::from_secs(PATIENCE));
        say_written(&self.rt, self.alloc, &mut reader, is_written)
    }
}
