//! `list`, which prints entries: the states of services, and the directories that the last scan
//! could not read.
ghost use Rattle.std.specs.Prelude.{◌≡◌, IfOk};
ghost use Rattle.s6_tools.specs.Listing.{listed_text};

use crate::connection::{ToolConnection, await_room};
use crate::list_command::{ListCommand, are_there, compile_list, keep_asked};
use crate::patience::{Patience, TRY_TIME};
use crate::tool_fault::ToolFault;
use day_times::day_second;
use std::alloc::{AllocError, Global};
use std::io::Write;
use std::net::Net;
use std::time::{Clock, Instant};
use tool_lines::{ListEntry, ToldWord, json_lines, table_of};

/// Prints the services of the tree and the directories that the last scan could not read: all, or
/// those of these names. Where one of the names has neither, the others are printed, and then the
/// fault is `Refused`, for NoService. The tool is this program's own, not one of s6.
pub fn run_list<R: Net + Clock, W: Write>(
    rt: &R,
    alloc: Global,
    socket: &str,
    words: &[&str],
    output: &mut W,
) -> Result<u8, ToolFault> {
    let command = compile_list(alloc, words)?;
    let entries = ask_states(rt, alloc, socket)?;
    print_entries(alloc, entries, &command, output)
}

// The states of all services. Where the server is busy, or ends the connection, it asks again, for
// ten seconds at most.
fn ask_states<R: Net + Clock>(
    rt: &R,
    alloc: Global,
    socket: &str,
) -> Result<Vec<ListEntry>, ToolFault> {
    let mut patience = Patience::of(Some(TRY_TIME));
    for _ in 0..u64::MAX {
        let begun = Instant::now(rt)?;
        match ask_states_once(rt, alloc, socket, patience.time_of_try()) {
            Err(fault) => await_room(rt, fault, begun, &mut patience)?,
            asked => return asked,
        }
    }
    // So many tries never come.
    Err(ToolFault::Busy)
}

/// The states of all services, asked for once. `at_most` bounds each reading, in milliseconds.
pub fn ask_states_once<R: Net>(
    rt: &R,
    alloc: Global,
    socket: &str,
    at_most: Option<u64>,
) -> Result<Vec<ListEntry>, ToolFault> {
    let mut connection = ToolConnection::open(rt, alloc, socket, at_most)?;
    // The time of day at which the tree's clock was 0.
    let start = connection.ask_clock()?;
    // The answer to `clock` ends with an empty line.
    connection.next_line()?;
    let mut entries = connection.ask_states(alloc)?;
    for entry in entries.iter_mut() {
        note_since(entry, start);
    }
    Ok(entries)
}

// Notes the time of day since which a service is up or down. `start` is that at which the tree's
// clock was 0, in milliseconds since 1970.
fn note_since(entry: &mut ListEntry, start: u64) {
    if let ListEntry::Service(service) = entry {
        service.since = day_text_at(start, service.at);
    }
}

// The time of day when the tree's clock was `at`, as text; None without `at`, or past the year
// 9999. `start` is the time of day at which that clock was 0, in milliseconds since 1970.
fn day_text_at(start: u64, at: Option<u64>) -> Option<ToldWord> {
    let text = day_second(start.saturating_add(at?))?;
    Some(ToldWord::new(text.as_bytes()))
}

// Prints the entries that are asked for, in one write.
fn print_entries<W: Write>(
    alloc: Global,
    mut entries: Vec<ListEntry>,
    command: &ListCommand,
    output: &mut W,
) -> Result<u8, ToolFault> {
    let names = command.names.as_slice();
    // Entries of other names are dropped; without names all are kept.
    keep_asked(&mut entries, names);
    let text = text_of(alloc, entries.as_slice(), command.is_json)?;
    if output.write_all(text.as_slice()).is_err() || output.flush().is_err() {
        return Err(ToolFault::Write);
    }
    // A name of which there is no entry is refused, after the others are printed.
    if are_there(entries.as_slice(), names) {
        Ok(0)
    } else {
        Err(ToolFault::Refused(ToldWord::new(b"NoService")))
    }
}

// What is printed for these entries.
fn text_of(alloc: Global, entries: &[ListEntry], is_json: bool) -> Result<Vec<u8>, AllocError>
    ensures { IfOk result (λ text. text.items ≡ listed_text is_json entries.now) }
{
    if is_json {
        json_lines(alloc, entries)
    } else {
        table_of(alloc, entries)
    }
}
