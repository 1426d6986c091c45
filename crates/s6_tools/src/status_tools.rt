//! `svstat`, which prints fields of a service's status, and `permafailon`, which tells whether a
//! service fails for good.
use crate::answer::ServerAnswer;
use crate::connection::ask_server;
use crate::request::{permafailon_request, status_request};
use crate::tool_fault::ToolFault;
use std::alloc::Global;
use std::io::Write;
use std::net::Net;
use std::time::Clock;
use svc_commands::{compile_permafailon, compile_svstat};
use tool_lines::svstat_line;

/// The status of `permafailon` where the service fails for good.
const PERMANENT_FAILURE: u8 = 125;

/// Prints fields of the status of a service. Page `s6-svstat`.
pub fn run_svstat<R: Net + Clock, W: Write>(
    rt: &R,
    alloc: Global,
    socket: &str,
    words: &[&str],
    output: &mut W,
) -> Result<u8, ToolFault> {
    let command = compile_svstat(alloc, words)?;
    let request = status_request(alloc, &command.name)?;
    let (connection, answer) = ask_server(rt, alloc, socket, request.as_slice())?;
    // Any other answer is none that a server gives to this request.
    if !matches!(answer, ServerAnswer::Row) {
        return Err(ToolFault::Socket);
    }
    // The connection's last line is the answer, the row of the service.
    let mut line = svstat_line(alloc, connection.line(), command.fields.as_slice())?;
    line.extend_from_slice(b"\n")?;
    if output.write_all(line.as_slice()).is_err() || output.flush().is_err() {
        return Err(ToolFault::Write);
    }
    Ok(0)
}

/// Tells by its status whether a service fails for good. Page `s6-permafailon`.
pub fn run_permafailon<R: Net + Clock>(
    rt: &R,
    alloc: Global,
    socket: &str,
    words: &[&str],
) -> Result<u8, ToolFault> {
    let command = compile_permafailon(alloc, words)?;
    let request = permafailon_request(alloc, &command)?;
    let (_connection, answer) = ask_server(rt, alloc, socket, request.as_slice())?;
    match answer {
        ServerAnswer::PermanentFailure(true) => Ok(PERMANENT_FAILURE),
        ServerAnswer::PermanentFailure(false) => Ok(0),
        // No server gives another answer to this request.
        _ => Err(ToolFault::Socket),
    }
}
