//! A child, the process of a service's program, as its backend and its two threads share it: one
//! waits for it, and one reads its output.
use crate::bell::Bell;
use crate::end_mark::END_MARK;
use crate::progress::Progress;
use crate::started_program::Start;
use order_lanes::Report;
use s6_events::{Exit, Name};
use std::alloc::Global;
use std::io::{PipeReader, PipeWriter, Write};
use std::process::{Child, SystemProcess};
use std::sync::{Arc, Condvar, Mutex, Wait};
use std::time::{Clock, Duration};

/// How long the report of an end waits at most for all that the child wrote to be read, in
/// milliseconds.
const LAST_WORDS: u64 = 1000;

/// The pipe by which a child's output is read: the end that is read, and a second writing end
/// beside the child's.
#[derive(Drop)]
pub(crate) struct Pipe {
    pub reader: PipeReader,
    pub writer: PipeWriter,
}

/// A child: what is known of it, and what its threads are to take over. `number` is its number on
/// the keeper's list, not that of its process; `bell` rings when it has something to report;
/// `changed` wakes those that wait for a change of `progress`.
#[derive(Drop)]
pub(crate) struct ServiceProcess {
    pub number: u64,
    pub start: Start,
    pub name: Name,
    bell: Arc<Bell, Global>,
    progress: Mutex<Progress>,
    changed: Condvar,
    // What the thread that waits for the child takes over.
    child: Mutex<Option<Child<SystemProcess>>>,
    // What the thread that reads its output takes over.
    reader: Mutex<Option<PipeReader>>,
    // Where the end mark is written, once.
    writer: Mutex<Option<PipeWriter>>,
}

impl ServiceProcess {
    /// A child that is about to start. `number` is its number on the keeper's list; the bell rings
    /// when there is something to report of it.
    pub fn new(number: u64, start: &Start, name: &Name, bell: Arc<Bell, Global>) -> ServiceProcess {
        ServiceProcess {
            number,
            start: start.copied(),
            name: *name,
            bell,
            progress: Mutex::new(Progress::new()),
            changed: Condvar::new(),
            // Set once it runs: the child and the reading end of its output's pipe, which its
            // threads take over, and a second writing end, for the end mark.
            child: Mutex::new(None),
            reader: Mutex::new(None),
            writer: Mutex::new(None),
        }
    }

    /// Notes that the child could not be started, and rings for the report of that.
    pub fn fail<R: Wait>(&self, rt: &R) {
        self.progress.lock(rt).fail();
        self.bell.ring(rt);
    }

    /// Notes that the child runs, keeps what its threads are to take over, and rings for the report
    /// of its start.
    pub fn begin<R: Wait>(&self, rt: &R, child: Child<SystemProcess>, pipe: Option<Pipe>) {
        self.progress
            .lock(rt)
            .begin(&self.start.program, child.id(), pipe.is_some());
        if let Some(Pipe { reader, writer }) = pipe {
            *self.reader.lock(rt) = Some(reader);
            *self.writer.lock(rt) = Some(writer);
        }
        *self.child.lock(rt) = Some(child);
        self.bell.ring(rt);
    }

    /// The child, for the thread that waits for it; None the second time.
    pub fn take_child<R: Wait>(&self, rt: &R) -> Option<Child<SystemProcess>> {
        self.child.lock(rt).take()
    }

    /// The reading end of the pipe, for the thread that reads it; None the second time.
    pub fn take_reader<R: Wait>(&self, rt: &R) -> Option<PipeReader> {
        self.reader.lock(rt).take()
    }

    /// The child's process number, if a signal may be sent to it now; then `end_signal` has to
    /// follow. It waits first until no other shell is under way.
    pub fn begin_signal<R: Wait>(&self, rt: &R) -> Option<u32> {
        let progress = self.progress.lock(rt);
        let mut progress = self
            .changed
            .wait_while(rt, progress, |known| known.is_shell_out());
        progress.begin_signal()
    }

    /// Notes that the shell that sent the signal has ended, and wakes those that wait for that.
    pub fn end_signal<R: Wait>(&self, rt: &R) {
        self.progress.lock(rt).end_signal();
        self.changed.notify_all();
        // The child's end, which is not reported while a shell is under way, may be reported now.
        self.bell.ring(rt);
    }

    /// Keeps these bytes that the child wrote, at most 64, until they are told. It waits until
    /// there is room for them, or they are wanted no more.
    pub fn write<R: Wait>(&self, rt: &R, bytes: &[u8]) {
        let count = bytes.len();
        let progress = self.progress.lock(rt);
        let mut progress = self.changed.wait_while(
            rt,
            progress,
            |known| !known.has_room(count) && !known.is_over(),
        );
        progress.write(bytes);
        drop(progress);
        self.bell.ring(rt);
    }

    /// Notes that nothing more of what the child writes is read. Closes the ends of the pipe that
    /// are still here.
    pub fn stop_reading<R: Wait>(&self, rt: &R) {
        let writer = self.writer.lock(rt).take();
        drop(writer);
        let reader = self.reader.lock(rt).take();
        drop(reader);
        self.progress.lock(rt).stop_reading();
        self.changed.notify_all();
    }

    /// Notes that the child wrote its first newline, and that what it wrote up to there was taken
    /// in: the report of its end waits for no more output.
    pub fn stop_hearing<R: Wait>(&self, rt: &R) {
        self.progress.lock(rt).stop_hearing();
        self.changed.notify_all();
    }

    /// Notes that the child ended with `exit`, and was waited for: no signal begins from now on.
    /// Its end can be reported once all that it wrote, up to its first newline, was read, or after
    /// a second, and not while a shell is under way.
    pub fn end<R: Wait + Clock>(&self, rt: &R, exit: Exit) {
        self.progress.lock(rt).begin_to_end();
        // The thread that reads stops there.
        self.write_end_mark(rt);
        let time = Duration::from_millis(LAST_WORDS);
        let progress = self.progress.lock(rt);
        // Waits until all that it wrote was read, for a second at most.
        let (mut progress, _late) = self
            .changed
            .wait_timeout_while(rt, progress, time, |known| !known.may_end());
        progress.end(exit);
        drop(progress);
        // Wakes those that wait for a change of `progress`; the bell tells the backend that it has
        // a report.
        self.changed.notify_all();
        self.bell.ring(rt);
    }

    /// Whether the end mark counts by now: the child was waited for, or nobody listens to it.
    pub fn is_mark_due<R: Wait>(&self, rt: &R) -> bool {
        self.progress.lock(rt).is_mark_due()
    }

    /// Whether its output is still read.
    pub fn is_output_read<R: Wait>(&self, rt: &R) -> bool {
        self.progress.lock(rt).is_output_read()
    }

    /// Writes the end mark, if it wasn't written yet, so that the thread that reads stops behind
    /// what the child wrote before.
    pub fn write_end_mark<R: Wait>(&self, rt: &R) {
        let writer = self.writer.lock(rt).take();
        if let Some(mut writer) = writer {
            let _ = writer.write_all(&END_MARK);
        }
    }

    /// Notes that nobody listens to the child any more. Returns whether that is new.
    pub fn give_up<R: Wait>(&self, rt: &R) -> bool {
        let is_new = self.progress.lock(rt).give_up();
        self.changed.notify_all();
        is_new
    }

    /// The next report of the child; None where there is nothing to report.
    pub fn next_report<R: Wait>(&self, rt: &R) -> Option<Report> {
        let report = self.progress.lock(rt).next_report(&self.start)?;
        // There may be room for more bytes of the child, for which `write` waits.
        self.changed.notify_all();
        Some(report)
    }
}
