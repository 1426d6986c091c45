//! What waits to be written to a connection, in order and up to a limit, at which `mailbox.rt` ends
//! the connection.
ghost use Rattle.std.specs.Prelude.{◌≡◌, ◌++◌, ◌+◌, ◌<◌, ◌≤◌, [], Err, length, OnOk, OnErr, true, false};
ghost use Rattle.line_server.specs.Outbox.{outbox_limit};
ghost use Rattle.line_server.specs.Endings.{ends_connection};
ghost use Rattle.line_server.specs.declared.outbox.PostFault.TheVariants.{Full, Closed};

use std::alloc::{AllocError, Allocator};
use std::marker::Model;

/// The most bytes that wait for a connection. One that reads so slowly that more would wait is
/// closed.
pub const OUTBOX_LIMIT: usize = 1_048_576;

/// Why a text was not posted.
#[derive(Clone, Copy, Debug, PartialEq, Eq)]
pub enum PostFault {
    /// More than 1,048,576 bytes would wait.
    Full = 1,
    /// The outbox was closed before: nothing more may be posted.
    Closed = 2,
    /// Memory was refused.
    NoMemory = 3,
}

impl PostFault {
    /// Whether the connection has to end, because a text is missing that its reader waits for.
    /// Where the outbox was closed before, nothing that waits in it is missing, and it is still
    /// written.
    pub fn ends_connection(self) -> bool
        ensures { result ≡ ends_connection self }
    {
        match self {
            PostFault::Full | PostFault::NoMemory => true,
            PostFault::Closed => false,
        }
    }
}

// Written by hand: of a `From` that a derive makes, no contract says which fault `?` gives.
impl From<AllocError> for PostFault {
    ghost use Rattle.std.specs.Prelude.{◌≡◌};
    ghost use Rattle.line_server.specs.declared.outbox.PostFault.TheVariants.{NoMemory};

    ghost from_gives = { λ _ fault. fault ≡ NoMemory };

    // Where memory for a text is refused, the text is not posted for that reason.
    fn from(_: AllocError) -> PostFault {
        PostFault::NoMemory
    }
}

/// The bytes that wait to be written to a connection, at most 1,048,576.
#[derive(Drop)]
pub struct Outbox<A: Allocator> {
    bytes: Vec<u8, A>,
    is_open: bool,
}

impl<A: Allocator> Model for Outbox<A> {
    ghost use Rattle.std.specs.Prelude.{◌≤◌, length};
    ghost use Rattle.line_server.specs.Outbox.{OutboxView, outbox_limit};

    ghost Value = { OutboxView };

    ghost view = { λ o. record { unsent = o.bytes.items; is_open = o.is_open } };

    ghost invariant = { λ o. length o.bytes.items ≤ outbox_limit };
}

impl<A: Allocator + Copy> Outbox<A> {
    /// Nothing waits, and texts may be posted.
    pub fn new(alloc: A) -> Outbox<A>
        ensures { result ≡ record { unsent = []; is_open = true } }
    {
        Outbox {
            bytes: Vec::new(alloc),
            is_open: true,
        }
    }

    /// Adds a text behind all that waits already. At a fault nothing has changed.
    pub fn post(&mut self, text: &[u8]) -> Result<(), PostFault>
        ensures ok { OnOk result (self.new
            ≡ record self.old { unsent = self.old.unsent ++ text.now }) }
        ensures err { OnErr result (self.new ≡ self.old) }
        ensures closed { self.old.is_open ≡ false → result ≡ Err Closed }
        ensures full { result ≡ Err Full → outbox_limit < length self.old.unsent + length text.now }
        ensures limit { OnOk result (length self.old.unsent + length text.now ≤ outbox_limit) }
    {
        if !self.is_open {
            return Err(PostFault::Closed);
        }
        // What waits is never longer than the limit.
        if text.len() > OUTBOX_LIMIT - self.bytes.len() {
            return Err(PostFault::Full);
        }
        self.bytes.extend_from_slice(text)?;
        Ok(())
    }

    /// Moves all that waits into `text`. What was in `text` is gone; its memory serves for what is
    /// posted next.
    pub fn take_all(&mut self, text: &mut Vec<u8, A>)
        ensures text { text.new.items ≡ self.old.unsent }
        ensures outbox { self.new ≡ record self.old { unsent = [] } }
    {
        text.clear();
        // What waited is in `text` now, and the outbox goes on with the memory of `text`.
        std::mem::swap(&mut self.bytes, text);
    }

    /// Closes the outbox: from now on nothing more is posted. What waits may still be taken.
    pub fn close(&mut self)
        ensures { self.new ≡ record self.old { is_open = false } }
    {
        self.is_open = false;
    }

    /// Whether texts may be posted.
    pub fn is_open(&self) -> bool
        ensures { result ≡ self.now.is_open }
    {
        self.is_open
    }

    /// Whether nothing waits.
    pub fn is_empty(&self) -> bool
        ensures yes { result ≡ true → self.now.unsent ≡ [] }
        ensures no { self.now.unsent ≡ [] → result ≡ true }
    {
        self.bytes.is_empty()
    }
}
