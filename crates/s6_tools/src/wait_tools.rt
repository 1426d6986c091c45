//! `svwait` and `svlisten`, which wait for services: the server makes a waiter, and tells when it
//! is released, with the outcome.
ghost use Rattle.std.specs.Prelude.{◌≡◌};
ghost use Rattle.s6_tools.specs.Endings.{status_of_outcome};

use crate::answer::{Outcome, ServerAnswer};
use crate::connection::{ToolConnection, ask_once, await_room, millis_since};
use crate::patience::Patience;
use crate::request::wait_request;
use crate::tool_fault::ToolFault;
use std::alloc::Global;
use std::net::Net;
use std::process::{Command, Processes};
use std::time::{Clock, Instant};
use svc_commands::{WaitCommand, compile_svlisten, compile_svwait};
use tool_lines::Misuse;

// The exit status for a waiter that was released with this outcome.
fn status_of(outcome: Outcome) -> u8
    ensures { result ≡ status_of_outcome outcome }
{
    match outcome {
        Outcome::Held => 0,
        Outcome::Failed => 1,
        Outcome::Gone => 2,
        Outcome::TimedOut => 99,
    }
}

/// How long after its timeout the verdict of a wait may still come, in milliseconds; then the
/// server counts as one that doesn't answer.
const VERDICT_TIME: u64 = 250;

// Within how many milliseconds the verdict of a wait comes; None where the wait has no end.
fn time_of_verdict(patience: &Patience) -> Option<u64> {
    patience.left.map(|left| left.saturating_add(VERDICT_TIME))
}

// Has the server make a waiter, and returns once its reply has come. While the server has no room
// for it, it is asked again, with what is left of the timeout. None where the time was up before.
fn subscribe<R: Net + Clock>(
    rt: &R,
    alloc: Global,
    socket: &str,
    command: &mut WaitCommand,
    patience: &mut Patience,
) -> Result<Option<ToolConnection>, ToolFault> {
    for _ in 0..u64::MAX {
        let begun = Instant::now(rt)?;
        command.timeout = patience.timeout_left();
        let request = wait_request(alloc, command)?;
        let at_most = time_of_verdict(patience);
        match ask_once(rt, alloc, socket, request.as_slice(), at_most) {
            Ok((connection, ServerAnswer::Waiter)) => {
                patience.pass(millis_since(rt, begun));
                return Ok(Some(connection));
            }
            // No server gives another answer to this request.
            Ok(_) => return Err(ToolFault::Socket),
            Err(ToolFault::NoAnswer) => return Ok(None),
            Err(fault) if fault.may_be_retried() => {
                if await_room(rt, fault, begun, patience).is_err() {
                    // No time is left.
                    return Ok(None);
                }
            }
            Err(fault) => return Err(fault),
        }
    }
    // So many tries never come.
    Ok(None)
}

// Waits until the waiter of this connection is released, for as long as the patience lasts. Returns
// the outcome; `Ended` where the connection ends before, `Socket` where another line comes. A
// server that doesn't tell the verdict in time counts as one whose wait timed out.
fn await_release<R: Clock>(
    rt: &R,
    connection: &mut ToolConnection,
    patience: &mut Patience,
) -> Result<Outcome, ToolFault> {
    let begun = Instant::now(rt)?;
    connection.bound(time_of_verdict(patience))?;
    let answer = connection.answer();
    patience.pass(millis_since(rt, begun));
    match answer {
        Ok(ServerAnswer::Released(outcome)) => Ok(outcome),
        Ok(_) => Err(ToolFault::Socket),
        Err(ToolFault::NoAnswer) => Ok(Outcome::TimedOut),
        Err(fault) => Err(fault),
    }
}

// Waits for services once: the outcome, or `Ended` where the connection ends before.
fn wait_once<R: Net + Clock>(
    rt: &R,
    alloc: Global,
    socket: &str,
    command: &mut WaitCommand,
    patience: &mut Patience,
) -> Result<Outcome, ToolFault> {
    match subscribe(rt, alloc, socket, command, patience)? {
        Some(mut connection) => await_release(rt, &mut connection, patience),
        None => Ok(Outcome::TimedOut),
    }
}

/// Waits for services. While the server has no room for the wait, or where the connection ends, it
/// asks again until the timeout is over. Page `s6-svwait`.
pub fn run_svwait<R: Net + Clock>(
    rt: &R,
    alloc: Global,
    socket: &str,
    words: &[&str],
) -> Result<u8, ToolFault> {
    let mut command = compile_svwait(alloc, words)?;
    let mut patience = Patience::of_wait(command.timeout);
    for _ in 0..u64::MAX {
        match wait_once(rt, alloc, socket, &mut command, &mut patience) {
            Err(ToolFault::Ended) => {
                // The patience has counted what this took.
                let now = Instant::now(rt)?;
                if await_room(rt, ToolFault::Ended, now, &mut patience).is_err() {
                    // No pause is left: the time is up.
                    return Ok(status_of(Outcome::TimedOut));
                }
            }
            Err(fault) => return Err(fault),
            Ok(outcome) => return Ok(status_of(outcome)),
        }
    }
    // So many tries never come.
    Ok(status_of(Outcome::TimedOut))
}

/// Makes a waiter, starts a program, and waits for services. Where the time was up before the
/// server had room for the waiter, no program is started. Page `s6-svlisten`.
pub fn run_svlisten<R: Net + Processes + Clock>(
    rt: &R,
    alloc: Global,
    socket: &str,
    words: &[&str],
) -> Result<u8, ToolFault> {
    let mut command = compile_svlisten(alloc, words)?;
    let mut patience = Patience::of_wait(command.wait.timeout);
    // The waiter is there before the program starts, so nothing that the program does is missed.
    let subscribed = subscribe(rt, alloc, socket, &mut command.wait, &mut patience)?;
    let Some(mut connection) = subscribed else {
        return Ok(status_of(Outcome::TimedOut));
    };
    start_program(rt, alloc, command.program)?;
    Ok(status_of(await_release(rt, &mut connection, &mut patience)?))
}

// Starts a program: its name first, then its arguments.
fn start_program<R: Processes>(rt: &R, alloc: Global, words: &[&str]) -> Result<(), ToolFault> {
    let [name, arguments @ ..] = words else {
        return Err(ToolFault::Usage(Misuse::Missing));
    };
    let mut command = Command::new(alloc, *name)?;
    for argument in arguments {
        command.arg(*argument)?;
    }
    match command.spawn(rt) {
        // Nobody waits for the program.
        Ok(_child) => Ok(()),
        Err(_) => Err(ToolFault::Program),
    }
}
