//! What a connection asks of the driver. The connection's own thread asks and waits for the
//! answers.
use line_server::SLOT_COUNT;
use s6_events::NoMemory;
use server_rules::{Connection, Request};
use std::alloc::Global;
use std::sync::{Condvar, Mutex, Wait};
use std::time::{Clock, Duration};

/// How many requests of a connection may wait at most until the driver takes them.
const ASKED_LIMIT: usize = 64;

// What the thread of a connection and the driver share of its requests: those not taken yet, how
// many are not answered, and whether the connection is there or leaving. It is over once the tree
// has ended.
#[derive(Drop)]
struct CallerRequests {
    // The requests that the driver has not taken yet, in the order asked.
    asked: Vec<Request>,
    // How many requests are not answered yet.
    unanswered: u64,
    // Whether a connection is there: from its first request until all that it made is ended.
    is_here: bool,
    // Whether news may still come for it, though it asks nothing.
    is_kept: bool,
    // Whether it has left, and what it made is still to be ended.
    is_leaving: bool,
    // Whether the tree has ended: nothing more is answered.
    is_over: bool,
}

/// The requests of the connection on one slot. The connection's thread asks and waits; the driver
/// takes the requests, and notes when they are answered. `turn` is where they stand, behind a lock,
/// and `changed` wakes whoever waits for a change of it.
#[derive(Drop)]
pub struct Caller {
    turn: Mutex<CallerRequests>,
    changed: Condvar,
}

impl Caller {
    /// The caller of a slot on which no connection is. A caller is what a connection's thread and
    /// the driver share of its requests: a `CallerRequests` says where these stand.
    pub fn new(alloc: Global) -> Caller {
        Caller {
            turn: Mutex::new(CallerRequests {
                asked: Vec::new(alloc),
                unanswered: 0,
                is_here: false,
                is_kept: false,
                is_leaving: false,
                is_over: false,
            }),
            changed: Condvar::new(),
        }
    }

    /// Adds a request for the driver, and doesn't wait for its answer. Returns whether fewer than
    /// 64 requests wait for the driver then; else all are to be answered before the next call. Once
    /// the tree has ended it adds nothing, and answers true. At `NoMemory` the request was not
    /// added.
    pub fn add_request<R: Wait>(&self, rt: &R, request: Request) -> Result<bool, NoMemory> {
        let mut turn = self.turn.lock(rt);
        if turn.is_over {
            return Ok(true);
        }
        turn.asked.push(request)?;
        turn.unanswered = turn.unanswered.saturating_add(1);
        // `await_nobody`, at the end of the tree, waits for a connection that is there.
        turn.is_here = true;
        Ok(turn.asked.len() < ASKED_LIMIT)
    }

    /// Whether all that was asked is answered.
    pub fn is_answered<R: Wait>(&self, rt: &R) -> bool {
        self.turn.lock(rt).unanswered == 0
    }

    /// Waits until all that was asked is answered, or the tree has ended.
    pub fn await_answers<R: Wait>(&self, rt: &R) {
        let turn = self.turn.lock(rt);
        let _turn = self
            .changed
            .wait_while(rt, turn, |turn| turn.unanswered > 0 && !turn.is_over);
    }

    /// Notes that a connection is there, which was answered without asking the driver. So
    /// `await_nobody`, at the end of the tree, waits for it too.
    pub fn note_here<R: Wait>(&self, rt: &R) {
        self.turn.lock(rt).is_here = true;
    }

    /// Whether news may still come for the connection, though it asks nothing.
    pub fn is_kept<R: Wait>(&self, rt: &R) -> bool {
        self.turn.lock(rt).is_kept
    }

    /// Notes that the connection has ended: what it made is to be ended too.
    pub fn leave<R: Wait>(&self, rt: &R) {
        self.turn.lock(rt).is_leaving = true;
    }

    /// Waits until what the connection made is ended, or the tree has ended; then notes that no
    /// connection is there. Call it once nothing more will be written to the connection.
    pub fn await_end<R: Wait>(&self, rt: &R) {
        let turn = self.turn.lock(rt);
        let mut turn = self
            .changed
            .wait_while(rt, turn, |turn| turn.is_leaving && !turn.is_over);
        // Nobody is connected on this slot now. `notify_all` wakes `await_nobody`.
        turn.is_here = false;
        turn.is_kept = false;
        self.changed.notify_all();
    }

    /// Hands the waiting requests to `connection`, which takes them if it has begun all that it
    /// took before; else they stay. Once the client has left, tells it that instead.
    pub fn hand_over<R: Wait>(&self, rt: &R, connection: &mut Connection) {
        let mut turn = self.turn.lock(rt);
        if turn.is_leaving {
            connection.leave();
        } else if !turn.asked.is_empty() {
            connection.receive(&mut turn.asked);
        }
    }

    /// Notes that a request was answered, and whether something is still to be told to the
    /// connection after that (`is_kept`).
    pub fn note_answer<R: Wait>(&self, rt: &R, is_kept: bool) {
        let mut turn = self.turn.lock(rt);
        turn.is_kept = is_kept;
        turn.unanswered = turn.unanswered.saturating_sub(1);
        if turn.unanswered == 0 {
            // `await_answers` comes back.
            self.changed.notify_all();
        }
    }

    /// Notes whether something is still to be told to the connection, after it was told news: a
    /// connection to which nothing is may be ended once it is silent.
    pub fn keep<R: Wait>(&self, rt: &R, is_kept: bool) {
        self.turn.lock(rt).is_kept = is_kept;
    }

    /// Notes that all that the connection made is ended: `await_end` comes back.
    pub fn free<R: Wait>(&self, rt: &R) {
        self.turn.lock(rt).is_leaving = false;
        self.changed.notify_all();
    }

    /// Notes that the tree has ended: nothing more is answered, and `await_answers` and `await_end`
    /// come back.
    pub fn end<R: Wait>(&self, rt: &R) {
        self.turn.lock(rt).is_over = true;
        self.changed.notify_all();
    }

    /// Waits until no connection is there, but at most for this time.
    pub fn await_nobody<R: Wait + Clock>(&self, rt: &R, time: Duration) {
        let turn = self.turn.lock(rt);
        let _turn = self
            .changed
            .wait_timeout_while(rt, turn, time, |turn| turn.is_here);
    }
}

/// A caller for each slot of connections. `NoMemory` where memory is refused.
pub fn new_callers(alloc: Global) -> Result<Vec<Caller>, NoMemory> {
    let mut callers = Vec::with_capacity(alloc, SLOT_COUNT)?;
    for _ in 0..SLOT_COUNT {
        callers.push(Caller::new(alloc))?;
    }
    Ok(callers)
}
