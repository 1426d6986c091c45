//! A connection from its first line to its end: one thread reads it and answers, and one writes
//! what is posted to its mailbox, where texts wait.
use crate::accepting::STACK_SIZE;
use crate::line_buffer::{LineBuffer, LineStatus};
use crate::mailbox::Mailbox;
use crate::making_way::SlotUse;
use crate::server::{AfterLine, Answers, Server, millis_of};
use crate::slots::LAST_SLOT;
use std::alloc::Global;
use std::io::{ErrorKind, Read, Write};
use std::os::unix::net::UnixStream;
use std::sync::{Arc, Wait};
use std::thread::{self, Builder, Scope, Threads};
use std::time::Clock;

/// The most bytes of a connection that are read at once. The lines in them are answered before more
/// is read.
const READ_SIZE: usize = 4_096;

/// Serves the connection of a slot to its end. Where the system has no thread to write it, the
/// connection goes on at the last slot; if that is not free, it is sent `busy` and closed.
pub fn converse_at<W: Answers + Sync, R: Threads + Wait + Clock + Sync>(
    rt: &R,
    server: &Server<W>,
    slot: usize,
) {
    let Some(mailbox) = server.mailbox(rt, slot) else {
        // There is none, or it can't be shared with this thread for want of memory.
        server.free_slot(rt, slot);
        return;
    };
    if is_conversed(rt, server, slot, &mailbox) {
        leave_slot(rt, server, slot);
        return;
    }
    server.free_slot(rt, slot);
    // The threads of the last slot run already.
    if !server.give_last_slot(rt, &mailbox) {
        let _ = mailbox.stream().write_all(b"busy\n");
    }
}

// Tells whoever answers that the connection has ended, and frees its slot.
fn leave_slot<W: Answers, R: Wait>(rt: &R, server: &Server<W>, slot: usize) {
    server.answers.leave(rt, slot);
    server.free_slot(rt, slot);
}

// Serves one connection to its end: this thread reads and answers its lines, and a second one
// writes what is posted. False where the second one can't be started; then nothing was read.
fn is_conversed<W: Answers + Sync, R: Threads + Wait + Clock + Sync>(
    rt: &R,
    server: &Server<W>,
    slot: usize,
    mailbox: &Mailbox,
) -> bool {
    let is_written = thread::scope(thread::scope_env(), rt, |scope| {
        let is_written = start_writer(scope, rt, server, slot, mailbox);
        if is_written {
            read_all(rt, server, slot, mailbox);
            // Nothing more is posted, so the other thread ends once all is written. The scope waits
            // for it.
            mailbox.close(rt);
        }
        is_written
    });
    if is_written {
        // All is written: the connection is shut.
        mailbox.end(rt);
    }
    is_written
}

// Starts the thread that writes a connection. Returns whether it runs.
fn start_writer<'s, E, W: Answers + Sync, R: Threads + Wait + Clock + Sync>(
    scope: &Scope<'s, E>,
    rt: &'s R,
    server: &'s Server<W>,
    slot: usize,
    mailbox: &'s Mailbox,
) -> bool {
    Builder::new()
        .stack_size(STACK_SIZE)
        .spawn_scoped(scope, move || write_all(rt, server, slot, mailbox))
        .is_ok()
}

/// Reads the connections of the last slot, one after the other, until the server ends.
/// `last_slot_reader` is where this thread gets them, and `last_slot_writer` where the slot's other
/// thread gets them.
pub fn read_last<W: Answers, R: Wait + Clock>(rt: &R, server: &Server<W>) {
    for _ in rt.forever() {
        let Some(mailbox) = server.last_slot_reader.await_next(rt) else {
            break;
        };
        converse_last(rt, server, &mailbox);
        // This handle is gone before the slot is free, so that the connection is closed with its
        // slot.
        drop(mailbox);
        server.last_slot_reader.finish(rt);
        leave_slot(rt, server, LAST_SLOT);
    }
    // So the thread that writes ends too.
    server.last_slot_writer.end(rt);
}

// Serves the connection on the last slot to its end: reads and answers its lines, while the slot's
// other thread writes what is posted.
fn converse_last<W: Answers, R: Wait + Clock>(rt: &R, server: &Server<W>, mailbox: &Arc<Mailbox>) {
    // This handle is for the thread that writes.
    let Ok(own) = mailbox.clone() else {
        return;
    };
    if server.last_slot_writer.give(rt, own).is_ok() {
        read_all(rt, server, LAST_SLOT, mailbox);
        mailbox.close(rt);
        // All that was posted is written.
        server.last_slot_writer.await_done(rt);
    }
    mailbox.end(rt);
}

/// Writes what is posted to the connections of the last slot, until the server ends.
pub fn write_last<W: Answers, R: Wait + Clock>(rt: &R, server: &Server<W>) {
    for _ in rt.forever() {
        let Some(mailbox) = server.last_slot_writer.await_next(rt) else {
            break;
        };
        write_all(rt, server, LAST_SLOT, &mailbox);
        // This handle is gone before the reading thread goes on, so that the connection is closed
        // with its slot.
        drop(mailbox);
        server.last_slot_writer.finish(rt);
    }
}

// Writes what is posted to the connection of this slot, until nothing more will be posted or the
// connection takes no more.
fn write_all<W: Answers, R: Wait + Clock>(
    rt: &R,
    server: &Server<W>,
    slot: usize,
    mailbox: &Mailbox,
) {
    let mut text = Vec::new(server.alloc);
    for _ in rt.forever() {
        // Moves all that was posted into `text`.
        if !mailbox.wait_for_text(rt, &mut text) {
            break;
        }
        if mailbox.stream().write_all(text.as_slice()).is_err() {
            // So that the thread that reads ends too.
            mailbox.end(rt);
            break;
        }
        server.note_written(rt, slot);
    }
}

// Reads the connection to its end, and answers each whole line. `buffer` has what was read and is
// no whole line yet.
fn read_all<W: Answers, R: Wait + Clock>(
    rt: &R,
    server: &Server<W>,
    slot: usize,
    mailbox: &Mailbox,
) {
    let mut buffer = LineBuffer::new(server.alloc);
    let mut line = Vec::new(server.alloc);
    for _ in rt.forever() {
        if !read_some(mailbox.stream(), &mut buffer) {
            break;
        }
        if answer_lines(rt, server, slot, &mut buffer, &mut line, mailbox) == AfterLine::Close {
            break;
        }
    }
    // Its slot will be free soon, for which a new connection may wait.
    server.note(rt, slot, SlotUse::Leaving(millis_of(rt)));
}

// Reads what has come, at most 4,096 bytes. False where no more will come, where reading fails, or
// where memory is refused.
fn read_some(mut stream: &UnixStream, buffer: &mut LineBuffer<Global>) -> bool {
    let mut bytes = [0u8; READ_SIZE];
    match stream.read(&mut bytes) {
        Ok(0) => false,
        Ok(count) => buffer.add(&bytes[..count]).is_ok(),
        // After an interrupt nothing was read, and it is tried again.
        Err(error) => error.kind() == ErrorKind::Interrupted,
    }
}

// Answers each whole line that has come. The connection counts as needed until all are answered,
// and as idle from then on: an idle one may have to make way for a new one.
fn answer_lines<W: Answers, R: Wait + Clock>(
    rt: &R,
    server: &Server<W>,
    slot: usize,
    buffer: &mut LineBuffer<Global>,
    line: &mut Vec<u8>,
    mailbox: &Mailbox,
) -> AfterLine {
    // Whether a whole line was found.
    let mut has_asked = false;
    let mut next = AfterLine::GoOn;
    for _ in rt.forever() {
        match buffer.next_line(line) {
            Ok(LineStatus::Part) => break,
            Ok(LineStatus::Whole) => {
                if !has_asked && !server.note_lines(rt, slot) {
                    return turn_away(rt, mailbox);
                }
                has_asked = true;
                next = server.answers.answer(rt, slot, line.as_slice(), mailbox);
            }
            Ok(LineStatus::TooLong) => {
                server.answers.refuse_long_line(rt, slot, mailbox);
                next = AfterLine::Close;
            }
            // Memory for the line was refused.
            Err(_) => next = AfterLine::Close,
        }
        if next == AfterLine::Close {
            break;
        }
    }
    if has_asked {
        // Waits until all of them are answered.
        server.answers.settle(rt, slot);
        server.note(rt, slot, SlotUse::IdleSince(millis_of(rt)));
    }
    next
}

// Tells a connection that made way before its first line was read that nothing of it is carried
// out.
fn turn_away<R: Wait>(rt: &R, mailbox: &Mailbox) -> AfterLine {
    let _ = mailbox.post(rt, b"busy\n");
    AfterLine::Close
}
