//! The thread that accepts connections, and how all are ended. A connection's caller is where its
//! requests wait for the driver.
use crate::shared::Shared;
use error_notes::{NoteWriter, Notes};
use line_server::{SLOT_COUNT, Server, serve as serve_lines};
use std::net::Shutdown;
use std::sync::Wait;
use std::thread::{Builder, Scope, Threads};
use std::time::{Clock, Duration};

/// The stack of the thread that accepts connections, in bytes.
const LISTENER_STACK: usize = 1024 * 1024;

/// How long the end waits at most for each connection to read what was posted to it, in
/// milliseconds.
const LAST_POSTS_WAIT: u64 = 1000;

/// What is told once where a connection can't be accepted for want of a descriptor.
const WANT_LINE: &[u8] =
    b"svscan: no descriptor is left for clients: they come one at a time; see ulimit -n\n";

/// Starts the thread that accepts connections. Whether it runs. Want of descriptors is noted, once.
pub fn start_listener<'s, S, R: Threads + Wait + Clock + Sync>(
    scope: &Scope<'s, S>,
    rt: &'s R,
    server: &'s Server<Shared>,
    notes: &'s Notes,
) -> bool {
    Builder::new()
        .stack_size(LISTENER_STACK)
        .spawn_scoped(scope, move || serve_all(rt, server, notes))
        .is_ok()
}

// The body of that thread: gives each connection that comes threads of its own, until the server
// ends.
fn serve_all<R: Threads + Wait + Clock + Sync>(rt: &R, server: &Server<Shared>, notes: &Notes) {
    let mut errors = NoteWriter::new(rt, notes);
    serve_lines(rt, server, &mut errors, WANT_LINE);
}

/// Ends the connections, and then the server. No connection is read or answered any more. What was
/// posted before is still written, but no connection is waited for longer than 1,000 ms.
pub fn end_connections<R: Wait + Clock>(rt: &R, server: &Server<Shared>) {
    let callers = &server.answers().callers;
    for caller in callers {
        // Nobody waits for an answer of the driver any more.
        caller.end(rt);
    }
    for slot in 0..SLOT_COUNT {
        if let Some(mailbox) = server.mailbox(rt, slot) {
            // A mailbox has what waits to be written to the connection: nothing more is added.
            mailbox.close(rt);
            // So the thread that reads the connection sees its end.
            let _ = mailbox.stream().shutdown(Shutdown::Read);
        }
    }
    for caller in callers {
        // Meanwhile what was posted is written.
        caller.await_nobody(rt, Duration::from_millis(LAST_POSTS_WAIT));
    }
    // The thread that accepts connections ends.
    server.end(rt);
}
