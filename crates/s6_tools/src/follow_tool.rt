//! `follow`, which prints letters (what happened to a service, as `u` for up) as they come, and
//! `record`, which has the server write its record.
use crate::connection::{ToolConnection, ask_server, await_room};
use crate::list_command::{ListCommand, compile_list, is_among};
use crate::patience::Patience;
use crate::request::follow_request;
use crate::tool_fault::ToolFault;
use day_times::day_millisecond;
use std::alloc::Global;
use std::io::Write;
use std::net::Net;
use std::time::{Clock, Instant};
use tool_lines::{FollowedLetter, Misuse, letter_line, letter_of};

/// Prints each letter of each service, or of the services named, as it comes, until the connection
/// ends: then the fault is `TreeEnded`, or `Ended` where a server is there still. The tool is this
/// program's own, not one of s6; for the letters see page `s6-supervise`, "Events".
pub fn run_follow<R: Net + Clock, W: Write>(
    rt: &R,
    alloc: Global,
    socket: &str,
    words: &[&str],
    output: &mut W,
) -> Result<u8, ToolFault> {
    // `follow` takes the same words as `list`: names, and `--json`.
    let command = compile_list(alloc, words)?;
    // `start` is the time of day at which the tree's clock was 0.
    let (mut connection, start) = follow(rt, alloc, socket, &command)?;
    for _ in 0..u64::MAX {
        if let Err(fault) = connection.next_line() {
            return Err(fault_at_end(rt, alloc, socket, fault));
        }
        // Other lines, as empty ones, are passed over.
        if let Some(letter) = letter_of(connection.line()) {
            print_letter(alloc, &letter, start, &command, output)?;
        }
    }
    // So many lines never come.
    Ok(0)
}

// A connection that is told the letters, and the time of day at which the tree's clock was 0, in
// milliseconds since 1970. Where the server is busy, it asks again without end.
fn follow<R: Net + Clock>(
    rt: &R,
    alloc: Global,
    socket: &str,
    command: &ListCommand,
) -> Result<(ToolConnection, u64), ToolFault> {
    // It goes on trying without end.
    let mut patience = Patience::of(None);
    for _ in 0..u64::MAX {
        let begun = Instant::now(rt)?;
        match follow_once(rt, alloc, socket, command) {
            Err(fault) => await_room(rt, fault, begun, &mut patience)?,
            asked => return asked,
        }
    }
    // So many tries never come.
    Err(ToolFault::Busy)
}

// Asks once, with no further try, to be told the letters, on a new connection. Returns that
// connection, and the time of day at which the tree's clock was 0, in milliseconds since 1970.
fn follow_once<R: Net>(
    rt: &R,
    alloc: Global,
    socket: &str,
    command: &ListCommand,
) -> Result<(ToolConnection, u64), ToolFault> {
    let mut connection = ToolConnection::open(rt, alloc, socket, None)?;
    let start = connection.ask_clock()?;
    let request = follow_request(alloc, command.names.as_slice())?;
    // A refusal is a fault.
    let _done = connection.ask(request.as_slice())?;
    Ok((connection, start))
}

// The fault at the end of what is followed: where the connection has ended and no server is there
// any more, the tree has ended too.
fn fault_at_end<R: Net>(rt: &R, alloc: Global, socket: &str, fault: ToolFault) -> ToolFault {
    match fault {
        ToolFault::Ended => match ToolConnection::open(rt, alloc, socket, None) {
            Err(ToolFault::NoServer) => ToolFault::TreeEnded,
            _ => ToolFault::Ended,
        },
        fault => fault,
    }
}

// Prints a letter in one write, if its service is asked for. `start` is the time of day at which
// the tree's clock was 0.
fn print_letter<W: Write>(
    alloc: Global,
    letter: &FollowedLetter,
    start: u64,
    command: &ListCommand,
    output: &mut W,
) -> Result<(), ToolFault> {
    let names = command.names.as_slice();
    // Without names all services are asked for.
    if !names.is_empty() && !is_among(names, &letter.name) {
        return Ok(());
    }
    // No server tells a moment past the year 9999.
    let day = day_millisecond(start.saturating_add(letter.at)).ok_or(ToolFault::Socket)?;
    let text = letter_line(alloc, command.is_json, day.as_bytes(), letter)?;
    if output.write_all(text.as_slice()).is_err() || output.flush().is_err() {
        return Err(ToolFault::Write);
    }
    Ok(())
}

/// Has the run so far recorded, and prints how many steps the record has then. The tool is this
/// program's own, not one of s6.
pub fn run_record<R: Net + Clock, W: Write>(
    rt: &R,
    alloc: Global,
    socket: &str,
    words: &[&str],
    output: &mut W,
) -> Result<u8, ToolFault> {
    if !words.is_empty() {
        return Err(ToolFault::Usage(Misuse::TooMany));
    }
    // The last line that was read is the server's `recorded N`, which is printed as it came.
    let (connection, _recorded) = ask_server(rt, alloc, socket, b"record")?;
    let mut line = Vec::new(alloc);
    line.extend_from_slice(connection.line())?;
    line.extend_from_slice(b"\n")?;
    if output.write_all(line.as_slice()).is_err() || output.flush().is_err() {
        return Err(ToolFault::Write);
    }
    Ok(0)
}
