//! `svc`, which sends letters to a service, as `u` to start it, and `svscanctl`, which sends them
//! to the supervisor of the scan directory.
use crate::answer::expect_done;
use crate::connection::ask_server;
use crate::request::{scan_request, svc_request};
use crate::tool_fault::ToolFault;
use std::alloc::Global;
use std::net::Net;
use std::time::Clock;
use svc_commands::{compile_svc, compile_svscanctl};

/// Sends letters to a service. Page `s6-svc`.
pub fn run_svc<R: Net + Clock>(
    rt: &R,
    alloc: Global,
    socket: &str,
    words: &[&str],
) -> Result<u8, ToolFault> {
    let command = compile_svc(words)?;
    let request = svc_request(alloc, &command)?;
    // A refusal is a fault.
    let (_connection, answer) = ask_server(rt, alloc, socket, request.as_slice())?;
    expect_done(&answer)?;
    Ok(0)
}

/// Tells the supervisor of the scan directory what to do, letter by letter; the first refusal ends
/// it. Page `s6-svscanctl`.
pub fn run_svscanctl<R: Net + Clock>(
    rt: &R,
    alloc: Global,
    socket: &str,
    words: &[&str],
) -> Result<u8, ToolFault> {
    let command = compile_svscanctl(words)?;
    let Some((first, further)) = command.letters.as_slice().split_first() else {
        // This never comes: `compile_svscanctl` gives at least one letter.
        return Ok(0);
    };
    let (mut connection, answer) = ask_server(rt, alloc, socket, scan_request(*first))?;
    expect_done(&answer)?;
    for letter in further {
        expect_done(&connection.ask(scan_request(*letter))?)?;
    }
    Ok(0)
}
