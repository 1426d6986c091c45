//! The thread that accepts connections, and gives each one of eleven slots, and a mailbox.
use crate::conversing::{converse_at, read_last, write_last};
use crate::mailbox::Mailbox;
use crate::server::{Answers, Server};
use std::io::{self, Write};
use std::os::unix::net::UnixStream;
use std::sync::{Arc, Wait};
use std::thread::{self, Builder, Scope, Threads};
use std::time::Clock;

/// The stack of a thread that reads or writes one connection, in bytes.
pub const STACK_SIZE: usize = 256 * 1024;

/// What the system answers where it has no descriptor left, for this process or for any.
const EMFILE: i32 = 24;

const ENFILE: i32 = 23;

/// Accepts and serves connections until `Server::end` is called. When it returns, all of its
/// threads have ended. Where a connection can't be accepted for want of a descriptor, `want_line`
/// is written on `errors`, once.
pub fn serve<W: Answers + Sync, R: Threads + Wait + Clock + Sync, E: Write>(
    rt: &R,
    server: &Server<W>,
    errors: &mut E,
    want_line: &[u8],
) {
    thread::scope(thread::scope_env(), rt, |scope| {
        if !start_last(scope, rt, server) {
            // Without both threads, nobody gets the last slot.
            server.last_slot_reader.end(rt);
        }
        // This takes as long as the server lives.
        accept_all(scope, rt, server, errors, want_line);
    });
}

// Starts the two threads of the last slot, one that reads its connection and one that writes to it.
// They run from the start, so that a connection can come even where the system has no thread for
// it. Returns whether both run.
fn start_last<'s, E, W: Answers + Sync, R: Threads + Wait + Clock + Sync>(
    scope: &Scope<'s, E>,
    rt: &'s R,
    server: &'s Server<W>,
) -> bool {
    let writes = Builder::new()
        .stack_size(STACK_SIZE)
        .spawn_scoped(scope, move || write_last(rt, server))
        .is_ok();
    let reads = Builder::new()
        .stack_size(STACK_SIZE)
        .spawn_scoped(scope, move || read_last(rt, server))
        .is_ok();
    if !reads {
        // The thread that writes is ended by the one that reads, which isn't there.
        server.last_slot_writer.end(rt);
    }
    writes && reads
}

// Accepts connections until the server ends. The first time that the system has no descriptor for
// one, `want_line` is written on `errors`.
fn accept_all<'s, E, W: Answers + Sync, R: Threads + Wait + Clock + Sync, O: Write>(
    scope: &Scope<'s, E>,
    rt: &'s R,
    server: &'s Server<W>,
    errors: &mut O,
    want_line: &[u8],
) {
    // The last answer of `wait_to_accept`.
    let mut changes = 0;
    let mut is_told = false;
    for stream in server.listener.incoming() {
        match stream {
            Ok(stream) => {
                // The spare descriptor may have been given up for this connection, and may be had
                // again or not.
                let has_spare = server.keep_spare(rt);
                give_slot(scope, rt, server, stream, has_spare);
            }
            Err(error) => {
                if !is_told && is_want_of_descriptors(&error) {
                    is_told = true;
                    let _ = errors.write_all(want_line);
                }
                let Some(now) = server.wait_to_accept(rt, &error, changes) else {
                    break;
                };
                changes = now;
            }
        }
    }
}

// Whether the system has no descriptor left.
fn is_want_of_descriptors(error: &io::Error) -> bool {
    matches!(error.raw_os_error(), Some(EMFILE | ENFILE))
}

// Gives a connection a slot, if one is free or a connection makes way for it; else sends it `busy`
// and closes it. Where no spare descriptor is left it gets the last slot or none: so the next one
// can come once it has its answers.
fn give_slot<'s, E, W: Answers + Sync, R: Threads + Wait + Clock + Sync>(
    scope: &Scope<'s, E>,
    rt: &'s R,
    server: &'s Server<W>,
    stream: UnixStream,
    has_spare: bool,
) {
    let Ok(mailbox) = Arc::new(server.alloc, Mailbox::new(server.alloc, stream)) else {
        // Without memory for its mailbox, the connection is closed without a word.
        return;
    };
    let mut knock = server.knock(rt, !has_spare);
    for _ in rt.forever() {
        if has_slot(scope, rt, server, &mailbox, has_spare) {
            return;
        }
        if !server.make_way(rt, &mut knock) {
            break;
        }
    }
    let _ = mailbox.stream().write_all(b"busy\n");
}

// Gives a connection a slot and a thread that reads it; where one of them or a spare descriptor
// can't be had, the last slot, whose threads run already. Returns whether it has a slot.
fn has_slot<'s, E, W: Answers + Sync, R: Threads + Wait + Clock + Sync>(
    scope: &Scope<'s, E>,
    rt: &'s R,
    server: &'s Server<W>,
    mailbox: &Arc<Mailbox>,
    has_spare: bool,
) -> bool {
    if !has_spare {
        return server.give_last_slot(rt, mailbox);
    }
    if let Some(slot) = server.give_free_slot(rt, mailbox) {
        if start_reader(scope, rt, server, slot) {
            return true;
        }
        // There is no thread for it, so the slot is given back.
        server.free_slot(rt, slot);
    }
    server.give_last_slot(rt, mailbox)
}

// Starts the thread that reads a connection. Returns whether it runs.
fn start_reader<'s, E, W: Answers + Sync, R: Threads + Wait + Clock + Sync>(
    scope: &Scope<'s, E>,
    rt: &'s R,
    server: &'s Server<W>,
    slot: usize,
) -> bool {
    Builder::new()
        .stack_size(STACK_SIZE)
        .spawn_scoped(scope, move || converse_at(rt, server, slot))
        .is_ok()
}
