//! The mailbox of one connection: texts are posted there, and the thread that writes them waits
//! there. Where too much waits, it ends the connection.
use crate::outbox::{Outbox, PostFault};
use std::alloc::Global;
use std::net::Shutdown;
use std::os::unix::net::UnixStream;
use std::sync::{Condvar, Mutex, Wait};

/// The texts for one connection. Anybody may post; one thread writes. Nothing is written while the
/// lock is held, so a connection that stops reading keeps nobody else waiting: once more would wait
/// than an `Outbox` holds, the connection is closed.
#[derive(Drop)]
pub struct Mailbox {
    stream: UnixStream,
    outbox: Mutex<Outbox<Global>>,
    // Notified when a text is posted, and when nothing more will be.
    changed: Condvar,
}

impl Mailbox {
    /// The mailbox of a connection to which nothing was written yet.
    pub fn new(alloc: Global, stream: UnixStream) -> Mailbox {
        Mailbox {
            stream,
            outbox: Mutex::new(Outbox::new(alloc)),
            changed: Condvar::new(),
        }
    }

    /// The connection.
    pub fn stream(&self) -> &UnixStream {
        &self.stream
    }

    /// Posts a text, which is written after all that was posted before. It doesn't wait for the
    /// client to read. `Full` and `NoMemory` end the connection at once, since a text would be
    /// missing. At `Closed` the connection goes on: what was posted before is still written.
    pub fn post<R: Wait>(&self, rt: &R, text: &[u8]) -> Result<(), PostFault> {
        let posted = self.add(rt, text);
        self.wake();
        posted
    }

    /// Posts a text like `post`, but doesn't wake the thread that writes: call `wake` once several
    /// texts are posted. Where a text would be missing then, the connection is ended.
    pub fn add<R: Wait>(&self, rt: &R, text: &[u8]) -> Result<(), PostFault> {
        let posted = self.outbox.lock(rt).post(text);
        match posted {
            Err(fault) if fault.ends_connection() => self.end(rt),
            _ => {}
        }
        posted
    }

    /// Wakes the thread that writes.
    pub fn wake(&self) {
        self.changed.notify_all();
    }

    /// Closes the mailbox: from now on nothing more is posted. What was posted is still written.
    pub fn close<R: Wait>(&self, rt: &R) {
        self.outbox.lock(rt).close();
        self.changed.notify_all();
    }

    /// Dismisses the connection: what it has sent is still read, and then no more; what it is sent
    /// is still written.
    pub fn dismiss(&self) {
        let _ = self.stream.shutdown(Shutdown::Read);
    }

    /// Ends the connection at once, in both directions: calls that read or write it return.
    pub fn end<R: Wait>(&self, rt: &R) {
        self.close(rt);
        let _ = self.stream.shutdown(Shutdown::Both);
    }

    /// Waits until something is posted, and moves all that was posted into `text`. False once
    /// nothing waits and nothing more will be posted.
    pub fn wait_for_text<R: Wait>(&self, rt: &R, text: &mut Vec<u8>) -> bool {
        let mut outbox = self.changed.wait_while(rt, self.outbox.lock(rt), |outbox| {
            outbox.is_open() && outbox.is_empty()
        });
        // What was in `text` is gone.
        outbox.take_all(text);
        !text.is_empty()
    }
}
