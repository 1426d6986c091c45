//! What is known of a child, the process of a service's program, and what of it is still to be
//! reported to the tree.
ghost use Rattle.std.specs.Prelude.{◌≡◌, IsTrue, IfSome, false};
ghost use Rattle.child_runner.specs.Ending.{is_end};

use crate::signals::Signals;
use crate::started_program::{Program, Start};
use arrayvec::ArrayVec;
use order_lanes::Report;
use s6_events::Exit;

/// How far the start of a child has come, and whether it was reported to the tree.
#[derive(Clone, Copy, PartialEq, Eq, Debug)]
enum Stage {
    /// Its start was ordered, and has neither failed nor succeeded yet.
    Starting,
    /// It could not be started, which is still to be reported.
    Failed,
    /// It lives under this process number, which is still to be reported.
    Fresh(u32),
    /// Nothing of its start is still to be reported.
    Living,
}

/// What is known of a child: how far its start was told, what it wrote, and how it ended. Once it
/// is given up nobody listens to it any more, since its keeper ends.
#[derive(Drop)]
pub(crate) struct Progress {
    stage: Stage,
    // Whether it may be sent signals, and whether it was waited for.
    signals: Signals,
    // What it wrote and nobody was told yet.
    written: ArrayVec<u8, 64>,
    // Whether what it writes is still read.
    is_output_read: bool,
    // Whether it wrote its first newline, after which nothing is told of what it writes.
    is_heard: bool,
    // How it ended, once that may be told.
    exit: Option<Exit>,
    // Whether nobody listens to it any more.
    is_given_up: bool,
}

impl Progress {
    /// The progress of a child that is about to start.
    pub fn new() -> Progress {
        Progress {
            // How far its start has come.
            stage: Stage::Starting,
            signals: Signals::new(),
            written: ArrayVec::new(),
            is_output_read: false,
            is_heard: false,
            exit: None,
            is_given_up: false,
        }
    }

    /// Notes that it could not be started.
    pub fn fail(&mut self) {
        self.stage = Stage::Failed;
    }

    /// Notes that it lives. `is_output_read` is whether what it writes is read.
    pub fn begin(&mut self, program: &Program, pid: u32, is_output_read: bool) {
        self.is_output_read = is_output_read;
        self.stage = match program {
            Program::Run => Stage::Fresh(pid),
            // The start of a `finish` is not reported.
            Program::Finish => Stage::Living,
        };
        self.signals.begin(pid);
    }

    /// Its process number, if it may be sent a signal now. From then on a shell counts as under
    /// way, until `end_signal`.
    pub fn begin_signal(&mut self) -> Option<u32> {
        self.signals.begin_signal()
    }

    /// Notes that the shell that sent it a signal has ended.
    pub fn end_signal(&mut self) {
        self.signals.end_signal();
    }

    /// Whether a shell is under way that sends it a signal.
    pub fn is_shell_out(&self) -> bool {
        self.signals.is_shell_out
    }

    /// Notes that it was waited for, so that its number may be another's from now on.
    pub fn begin_to_end(&mut self) {
        self.signals.reap();
    }

    /// Whether the end mark, which is written behind the last byte of the child, counts: the child
    /// was waited for, or nobody listens.
    pub fn is_mark_due(&self) -> bool {
        self.signals.is_reaped || self.is_given_up
    }

    /// Whether what it writes is still read.
    pub fn is_output_read(&self) -> bool {
        self.is_output_read
    }

    /// Notes that nothing more of what it writes is read.
    pub fn stop_reading(&mut self) {
        self.is_output_read = false;
    }

    /// Notes that it wrote its first newline: what it writes from now on is told to nobody.
    pub fn stop_hearing(&mut self) {
        self.is_heard = true;
    }

    /// Whether its end can be told: its output is read no more, or its first newline was, or nobody
    /// listens.
    pub fn may_end(&self) -> bool {
        !self.is_output_read || self.is_heard || self.is_given_up
    }

    /// Notes that it ended in this way: from now on `next_report` may tell its end, and what it
    /// writes is wanted no more.
    pub fn end(&mut self, exit: Exit) {
        self.exit = Some(exit);
    }

    /// Notes that nobody listens any more. Returns whether that is new.
    pub fn give_up(&mut self) -> bool {
        let is_new = !self.is_given_up;
        self.is_given_up = true;
        is_new
    }

    /// Whether what it writes is wanted no more.
    pub fn is_over(&self) -> bool {
        self.is_given_up || self.exit.is_some()
    }

    /// Whether there is room for `count` more bytes that wait to be told.
    pub fn has_room(&self, count: usize) -> bool {
        count <= 64usize.saturating_sub(self.written.len())
    }

    /// Keeps these bytes that it wrote, for which there is room, until they are told.
    pub fn write(&mut self, bytes: &[u8]) {
        if !self.is_over() {
            let _ = self.written.try_extend_from_slice(bytes);
        }
    }

    /// The next report, in order: its start, what it wrote, and its end once no shell is under way;
    /// None where there is nothing to report.
    pub fn next_report(&mut self, start: &Start) -> Option<Report>
        ensures { IfSome result (λ r. IsTrue (is_end r) → self.old.signals.is_shell_out ≡ false) }
    {
        match self.stage {
            // Nothing has become of its start yet.
            Stage::Starting => None,
            // It is the child's last report: the backend drops the child then.
            Stage::Failed => Some(Report::StartFailed(start.sid, start.generation)),
            // It lives under this process number: its start is reported now.
            Stage::Fresh(pid) => {
                self.stage = Stage::Living;
                Some(Report::Started(start.sid, start.generation, pid))
            }
            Stage::Living => self.later_report(start),
        }
    }

    // The next report of a child whose start was told: what it wrote and nobody was told yet, else
    // its end; None where neither can be told now. `start` is the start that the report names.
    fn later_report(&mut self, start: &Start) -> Option<Report>
        ensures { IfSome result (λ r. IsTrue (is_end r) → self.old.signals.is_shell_out ≡ false) }
    {
        if self.written.is_empty() {
            return self.end_report(start);
        }
        let mut bytes = ArrayVec::new();
        // Both have room for 64 bytes.
        let _ = bytes.try_extend_from_slice(self.written.as_slice());
        // They are told now.
        self.written.clear();
        Some(Report::Notify(start.sid, start.generation, bytes))
    }

    // The report of its end; None while a shell is under way, since that may still send a signal to
    // a number that the tree takes for free.
    fn end_report(&self, start: &Start) -> Option<Report>
        ensures { IfSome result (λ _. self.now.signals.is_shell_out ≡ false) }
    {
        if self.signals.is_shell_out {
            return None;
        }
        let exit = self.exit?;
        Some(start.end(exit))
    }
}
