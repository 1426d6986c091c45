//! A server of lines: who is connected, and who answers.
use crate::mailbox::Mailbox;
use crate::making_way::{KnockStage, SlotUse};
use crate::slots::{ClientSlots, LAST_SLOT, SLOT_COUNT};
use crate::work_box::WorkBox;
use std::alloc::{AllocError, Global};
use std::io::{self, ErrorKind};
use std::net::Shutdown;
use std::os::fd::OwnedFd;
use std::os::unix::net::{UnixListener, UnixStream};
use std::sync::{Arc, Condvar, Mutex, Wait};
use std::time::{Clock, Duration};

/// How long no connection is accepted after the system lacked something for it, such as a
/// descriptor, in milliseconds; less where another connection ends before.
const ACCEPT_WAIT: u64 = 100;

/// How long a new connection waits at most for a slot, in milliseconds. Within this time the first
/// time of each connection that is there is over.
const KNOCK_WAIT: u64 = 250;

/// A connection that has knocked, since no slot was free for it.
#[derive(Clone, Copy)]
pub(crate) struct Knock {
    // Until when it waits for a slot, in milliseconds of the system's clock.
    until: u64,
    // Whether it may have the last slot alone.
    is_for_last: bool,
    stage: KnockStage,
}

/// What happens to a connection after a line was answered.
#[derive(Clone, Copy, Debug, PartialEq, Eq)]
pub enum AfterLine {
    /// Its next line is read.
    GoOn,
    /// What was posted is written, and the connection ends.
    Close,
}

/// Whoever answers the lines of connections. Its calls for one slot come one after the other; calls
/// for two slots may come at the same time.
pub trait Answers {
    /// A line has come on this slot; `line` is without its newline. It may be answered later. Texts
    /// are written in the order in which they are posted to the mailbox.
    fn answer<R: Wait + Clock>(
        &self,
        rt: &R,
        slot: usize,
        line: &[u8],
        mailbox: &Mailbox,
    ) -> AfterLine;

    /// Returns once each line of this slot that was given to `answer` is answered. No further line
    /// of the slot is read before that.
    fn settle<R: Wait>(&self, rt: &R, slot: usize);

    /// A line of more than 8,192 bytes is coming on this slot, after those that were given to
    /// `answer`. What is posted is still written, and then the connection ends.
    fn refuse_long_line<R: Wait>(&self, rt: &R, slot: usize, mailbox: &Mailbox);

    /// Whether the connection of this slot is kept though it says nothing, because something may
    /// still be told to it. It must not call the server.
    fn keeps<R: Wait>(&self, rt: &R, slot: usize) -> bool;

    /// The connection of this slot has ended, and no line of it is being answered. The slot is free
    /// afterwards.
    fn leave<R: Wait>(&self, rt: &R, slot: usize);
}

/// The present moment of the system's monotonic clock, in milliseconds; 0 where the system has
/// none.
pub fn millis_of<R: Clock>(rt: &R) -> u64 {
    match rt.monotonic() {
        Ok(passed) => u64::try_from(passed.as_millis()).unwrap_or(u64::MAX),
        Err(_) => 0,
    }
}

/// A server of lines, for at most 11 connections at one time. For a further one the connection
/// makes way that asks nothing and waits for nothing, and has done so for the longest time; but
/// none in its first 100 milliseconds. It is closed once its answers are written. Where none makes
/// way within 250 milliseconds, the new one is sent `busy` and a newline, and closed.
///
/// The threads of the last slot run from the start, and one descriptor is kept in reserve. So where
/// the system has no thread or no descriptor for a connection, one can still come, on the last
/// slot.
#[derive(Drop)]
pub struct Server<W: Answers> {
    pub(crate) alloc: Global,
    pub(crate) listener: UnixListener,
    // A second descriptor of the listener, by which `end` ends it: at that time there may be no
    // descriptor left to make one.
    waker: UnixStream,
    // A descriptor in reserve, which is given up where a connection can't be accepted for want of
    // one.
    spare: Mutex<Option<UnixListener>>,
    pub(crate) slots: Mutex<ClientSlots>,
    // Notified when a slot becomes free, and when the server is ending.
    changed: Condvar,
    // Where the two threads of the last slot get their work: one reads the connection, and one
    // writes to it.
    pub(crate) last_slot_reader: WorkBox<Arc<Mailbox>>,
    pub(crate) last_slot_writer: WorkBox<Arc<Mailbox>>,
    pub(crate) answers: W,
}

impl<W: Answers> Server<W> {
    /// A server on a listener from which nothing was accepted, with free slots. It takes two more
    /// descriptors; where the system has none, that is the error, and the listener is closed.
    pub fn new(
        alloc: Global,
        listener: UnixListener,
        slots: ClientSlots,
        answers: W,
    ) -> io::Result<Server<W>>
    where
        W: Drop,
    {
        // As a stream, so that `end` can shut it down: then `accept` returns.
        let waker = UnixStream::from(OwnedFd::from(listener.try_clone()?));
        // In reserve, for a connection for which the system has no descriptor left.
        let spare = listener.try_clone()?;
        Ok(Server {
            alloc,
            listener,
            waker,
            spare: Mutex::new(Some(spare)),
            slots: Mutex::new(slots),
            changed: Condvar::new(),
            last_slot_reader: WorkBox::new(),
            last_slot_writer: WorkBox::new(),
            answers,
        })
    }

    /// Whoever answers the lines.
    pub fn answers(&self) -> &W {
        &self.answers
    }

    /// The mailbox of the connection on this slot, if one is there.
    pub fn mailbox<R: Wait>(&self, rt: &R, slot: usize) -> Option<Arc<Mailbox>> {
        self.slots.lock(rt).mailbox(slot)
    }

    // Gives a connection a slot, but not the last one; None where none of these is free, or memory
    // for a handle is refused.
    pub(crate) fn give_free_slot<R: Wait + Clock>(
        &self,
        rt: &R,
        mailbox: &Arc<Mailbox>,
    ) -> Option<usize> {
        let own = mailbox.clone().ok()?;
        self.slots.lock(rt).give_first(own, millis_of(rt))
    }

    // Gives a connection the last slot, whose threads begin to serve it. False where that slot is
    // not free.
    pub(crate) fn give_last_slot<R: Wait + Clock>(&self, rt: &R, mailbox: &Arc<Mailbox>) -> bool {
        matches!(self.try_last_slot(rt, mailbox), Ok(true))
    }

    // Gives a connection the last slot, and hands it to the thread that reads there. False where
    // the slot is not free, or the thread takes no connection; an error where memory is refused.
    fn try_last_slot<R: Wait + Clock>(
        &self,
        rt: &R,
        mailbox: &Arc<Mailbox>,
    ) -> Result<bool, AllocError> {
        // `own` is the handle of the slot, and `read` that of the thread that reads.
        let (own, read) = (mailbox.clone()?, mailbox.clone()?);
        if !self.slots.lock(rt).give_last(own, millis_of(rt)) {
            return Ok(false);
        }
        if self.last_slot_reader.give(rt, read).is_err() {
            self.free_slot(rt, LAST_SLOT);
            return Ok(false);
        }
        Ok(true)
    }

    // A connection for which no slot is free: it waits for one, for 250 milliseconds.
    // `is_for_last`: for the last one alone.
    pub(crate) fn knock<R: Clock>(&self, rt: &R, is_for_last: bool) -> Knock {
        Knock {
            until: millis_of(rt).saturating_add(KNOCK_WAIT),
            is_for_last,
            stage: KnockStage::First,
        }
    }

    // By slot, whether its connection is needed, and so can't be told to make way: something may
    // still be told to it, or another slot than the last one is of no use.
    fn needed_slots<R: Wait>(&self, rt: &R, is_for_last: bool) -> [bool; SLOT_COUNT] {
        let mut needed = [true; SLOT_COUNT];
        for (slot, is_needed) in needed.iter_mut().enumerate() {
            *is_needed = (is_for_last && slot != LAST_SLOT) || self.answers.keeps(rt, slot);
        }
        needed
    }

    // Has a connection make way for one that has knocked, and waits until it is worth to look again
    // for a slot. False where the knock's time is over, or the server is ending.
    pub(crate) fn make_way<R: Wait + Clock>(&self, rt: &R, knock: &mut Knock) -> bool {
        let mut slots = self.slots.lock(rt);
        let now = millis_of(rt);
        let left = knock.until.saturating_sub(now);
        if slots.is_ending() || left == 0 {
            return false;
        }
        // Under the lock: what is needed or idle now stays so until one is dismissed.
        let needed = self.needed_slots(rt, knock.is_for_last);
        let wait = slots.make_way(rt, &needed, now, &mut knock.stage);
        let changes = slots.changes();
        slots.note_knock(true);
        let time = Duration::from_millis(wait.min(left));
        let (mut slots, _late) = self.changed.wait_timeout_while(rt, slots, time, |slots| {
            !slots.is_ending() && slots.changes() == changes
        });
        slots.note_knock(false);
        true
    }

    // Notes that lines of the connection on this slot were read. Returns whether they are to be
    // carried out: not where it made way before.
    pub(crate) fn note_lines<R: Wait>(&self, rt: &R, slot: usize) -> bool {
        self.slots.lock(rt).note_lines(slot)
    }

    // Notes what the connection on this slot does now.
    pub(crate) fn note<R: Wait>(&self, rt: &R, slot: usize, doing: SlotUse) {
        if self.slots.lock(rt).note(slot, doing) {
            self.changed.notify_all();
        }
    }

    // Notes that something was written to the connection on this slot.
    pub(crate) fn note_written<R: Wait + Clock>(&self, rt: &R, slot: usize) {
        self.slots.lock(rt).note_written(slot, millis_of(rt));
    }

    // The slot is free again: those that wait for one look.
    pub(crate) fn free_slot<R: Wait>(&self, rt: &R, slot: usize) {
        self.slots.lock(rt).free(slot);
        self.changed.notify_all();
    }

    // Gives up the spare descriptor, so that a connection can be accepted for which the system has
    // none left. Returns whether there was one.
    fn give_up_spare<R: Wait>(&self, rt: &R) -> bool {
        self.spare.lock(rt).take().is_some()
    }

    // Takes a spare descriptor again, if it was given up and the system has one. Returns whether
    // there is one: else the connection that was accepted last has the descriptor that was the
    // spare one.
    pub(crate) fn keep_spare<R: Wait>(&self, rt: &R) -> bool {
        let mut spare = self.spare.lock(rt);
        if spare.is_none() {
            *spare = self.listener.try_clone().ok();
        }
        spare.is_some()
    }

    // Called after a connection could not be accepted. Where the system lacks something for it, it
    // gives up the spare descriptor. Where there is none, a connection makes way, and it waits at
    // most 100 milliseconds for a slot that has become free since the count of changes was
    // `changes`. Returns the count then, or None where the server is ending.
    pub(crate) fn wait_to_accept<R: Wait + Clock>(
        &self,
        rt: &R,
        error: &io::Error,
        changes: u64,
    ) -> Option<u64> {
        let mut slots = self.slots.lock(rt);
        let millis = match error.kind() {
            // The system lacks nothing: the next connection is accepted at once.
            ErrorKind::ConnectionAborted | ErrorKind::Interrupted => 0,
            // A descriptor is free now, so it is tried again at once.
            _ if self.give_up_spare(rt) => 0,
            _ => {
                let needed = self.needed_slots(rt, false);
                // As at the first look: where one is leaving anyway, its descriptor will do.
                let _ = slots.make_way(rt, &needed, millis_of(rt), &mut KnockStage::First);
                ACCEPT_WAIT
            }
        };
        let time = Duration::from_millis(millis);
        let (slots, _late) = self.changed.wait_timeout_while(rt, slots, time, |slots| {
            !slots.is_ending() && slots.changes() == changes
        });
        if slots.is_ending() {
            return None;
        }
        Some(slots.changes())
    }

    /// Ends the server, from any thread: no connection is accepted any more, each one that is there
    /// ends, and `serve` returns.
    pub fn end<R: Wait>(&self, rt: &R) {
        self.slots.lock(rt).end_all(rt);
        self.changed.notify_all();
        // The threads of the last slot end.
        self.last_slot_reader.end(rt);
        // This shuts the listener down, so that the call which waits for connections returns.
        let _ = self.waker.shutdown(Shutdown::Both);
    }
}
