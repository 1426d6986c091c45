//! The file in which the runs of a tree are recorded, as one script with replies. A run is the
//! tree's steps between two handovers. `recording.rt` of tree_driver says when a run is recorded.
use crate::record_file::{RecordFile, RecordWriter, create_record};
use channel_names::Channels;
use office::Office;
use order_lanes::{Backend, Lanes};
use run_history::KnownHistory;
use run_records::RunFault;
use s6_events::NoMemory;
use status_board::Board;
use std::alloc::Global;
use std::fs::File;
use std::io::{self, BufWriter, Write};
use std::rt::Files;
use std::sync::Wait;

/// How much memory is set aside for writing a run, in bytes. It is meant for the text of its
/// longest step, while that grows.
const RESERVE: usize = 1_048_576;

/// Why a run was not recorded.
#[derive(Clone, Copy, PartialEq, Eq, Debug)]
pub enum RecordFault {
    /// The file did not take all of the run, or an input has no spelling. No run may be appended
    /// after that.
    Write,
    /// Memory was refused. The run may be appended again: what was written of it already is skipped
    /// then.
    NoMemory,
}

/// Where the runs of a tree are recorded, if anywhere. All of them are one script, with the reply
/// to each input; `is_begun` is whether a run is in it, and so its head line.
#[derive(Drop)]
pub struct Recorder<W> {
    alloc: Global,
    writer: Option<W>,
    is_begun: bool,
    // How many steps the recorded runs have.
    steps: u64,
    // How many bytes of the present run were written by calls that were refused memory.
    already_written: u64,
    // Memory that is set aside, and given back just before a run is written, so that there is some
    // for its text.
    reserve: Vec<u8>,
}

impl<W: RecordWriter + Drop> Recorder<W> {
    /// A recorder with this writer, to which nothing was written yet; without a writer it records
    /// nothing.
    pub fn new(alloc: Global, writer: Option<W>) -> Recorder<W> {
        Recorder {
            alloc,
            writer,
            is_begun: false,
            steps: 0,
            already_written: 0,
            reserve: Vec::new(alloc),
        }
    }

    /// Whether runs are recorded: only where there is a writer.
    pub fn is_there(&self) -> bool {
        self.writer.is_some()
    }

    /// Whether the file was removed in which runs are recorded, so that nobody could read it.
    pub fn is_removed(&self) -> bool {
        match &self.writer {
            Some(writer) => writer.is_removed(),
            None => false,
        }
    }

    /// How many steps the record has.
    pub fn steps(&self) -> u64 {
        self.steps
    }

    /// Sets memory aside for the text of a run (`RESERVE` bytes), if runs are recorded, which is
    /// where there is a writer. Call it when the run begins. After `NoMemory` it may be called
    /// again.
    pub fn prepare(&mut self) -> Result<(), NoMemory> {
        if self.writer.is_some() {
            self.reserve.reserve(RESERVE)?;
        }
        Ok(())
    }

    /// Appends the run of an office to the record, if there is one. Nobody else may use the office
    /// meanwhile. After `NoMemory` a further call for the same run goes on behind the bytes that
    /// are written already.
    pub fn append<C: Channels + Lanes, D: Board<C>, B: Backend, R: Wait>(
        &mut self,
        rt: &R,
        office: &Office<C, D, B>,
        known: &mut KnownHistory<C>,
    ) -> Result<(), RecordFault> {
        // Without a writer no run is recorded.
        let Some(writer) = self.writer.as_mut() else {
            return Ok(());
        };
        // This gives back the memory that was set aside, so that there is some for the text of the
        // run.
        self.reserve = Vec::new(self.alloc);
        // Earlier calls wrote the first `already_written` bytes of this run: these are skipped.
        let mut rest = RestWriter {
            writer,
            to_skip: self.already_written,
            written: 0,
        };
        // The head line of the script is written with the first run only.
        let recorded = office.write_run(rt, known, !self.is_begun, &mut rest);
        // How many bytes this call has written itself.
        let written = rest.written;
        match recorded {
            Ok(count) if writer.flush().is_ok() => {
                self.is_begun = true;
                self.steps = self.steps.saturating_add(count);
                self.already_written = 0;
                Ok(())
            }
            // The next call skips what this one has written.
            Err(RunFault::NoMemory) => {
                self.already_written = self.already_written.saturating_add(written);
                Err(RecordFault::NoMemory)
            }
            // A write or the flush has failed, or an input has no spelling.
            _ => Err(RecordFault::Write),
        }
    }
}

/// A writer of the rest of a run: it skips the first bytes, which were written before, and writes
/// those after them.
#[derive(Drop)]
struct RestWriter<'a, W: Write> {
    writer: &'a mut W,
    // How many of the bytes to come were written before.
    to_skip: u64,
    // How many bytes it wrote, without those that it skipped.
    written: u64,
}

impl<'a, W: Write> Write for RestWriter<'a, W> {
    // Skips bytes as long as there are such that were written before, and answers them as if it had
    // written them. Then it writes, and counts what it has written.
    fn write(&mut self, buf: &[u8]) -> io::Result<usize> {
        if self.to_skip > 0 {
            let skipped = self.to_skip.min(buf.len() as u64);
            self.to_skip -= skipped;
            return Ok(skipped as usize);
        }
        let count = self.writer.write(buf)?;
        self.written = self.written.saturating_add(count as u64);
        Ok(count)
    }

    // Has the writer behind it write out what it still holds.
    fn flush(&mut self) -> io::Result<()> {
        self.writer.flush()
    }
}

/// A recorder of the file at this path, as `create_record` makes it; without a path it records
/// nothing.
pub fn create_recorder<R: Files<File = File>>(
    rt: &R,
    alloc: Global,
    path: Option<&str>,
) -> io::Result<Recorder<BufWriter<RecordFile>>> {
    match path {
        Some(path) => Ok(Recorder::new(alloc, Some(create_record(rt, alloc, path)?))),
        None => Ok(Recorder::new(alloc, None)),
    }
}
