//! What every part of a running tree works with.
use crate::caller::Caller;
use crate::shared::Shared;
use line_server::Server;
use std::alloc::{AllocError, Global};
use std::sync::Wait;

/// What every part of a running tree works with: the runtime (`rt`), by which threads wait, take
/// locks and read clocks, and the server whose connections are answered. The server has what all
/// threads share, and the mailboxes of the connections.
#[derive(Drop)]
pub struct Context<'a, R> {
    pub rt: &'a R,
    pub server: &'a Server<Shared>,
}

impl<'a, R: Wait> Context<'a, R> {
    /// What all threads share.
    pub fn shared(&self) -> &'a Shared {
        self.server.answers()
    }

    /// The allocator that the threads of a running tree share.
    pub fn alloc(&self) -> Global {
        self.server.answers().alloc
    }

    /// The requests of the connection on this slot, as its thread and the driver share them; None
    /// where there is no such slot.
    pub fn caller(&self, slot: usize) -> Option<&'a Caller> {
        self.server.answers().callers.get(slot)
    }

    /// Posts a text to the connection on this slot, if there is one: it is added to the
    /// connection's mailbox, where it waits; call `wake` afterwards, so that it is written. `Err`
    /// says that memory for the text was refused: then the connection is ended, since a text would
    /// be missing in what it reads.
    pub fn post(&self, slot: usize, text: Result<&[u8], AllocError>) {
        let Some(mailbox) = self.server.mailbox(self.rt, slot) else {
            return;
        };
        match text {
            Ok(text) => {
                // Where too much waits or memory is refused, `add` itself ends the connection.
                let _ = mailbox.add(self.rt, text);
            }
            Err(_) => mailbox.end(self.rt),
        }
    }

    /// Wakes the thread that writes to the connection on this slot, if there is one.
    pub fn wake(&self, slot: usize) {
        if let Some(mailbox) = self.server.mailbox(self.rt, slot) {
            mailbox.wake();
        }
    }
}
