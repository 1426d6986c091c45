//! How a client of a running tree is run.
use crate::ending::tell_fault;
use crate::event_tools::{run_ftrig_notify, run_ftrig_wait, run_mkfifodir};
use crate::follow_tool::{run_follow, run_record};
use crate::letter_tools::{run_svc, run_svscanctl};
use crate::list_tool::run_list;
use crate::scan_fault::with_scan_fault;
use crate::status_tools::{run_permafailon, run_svstat};
use crate::tool_fault::ToolFault;
use crate::wait_tools::{run_svlisten, run_svwait};
use std::alloc::Global;
use std::io::Write;
use std::net::Net;
use std::process::Processes;
use std::time::Clock;
use tool_lines::{Misuse, Tool, help_of, subject_of};

/// Runs a client, and returns its exit status. `words` are those behind its name: the path of the
/// socket first, or a word that asks for help. Where the client could not do what it was asked for,
/// it writes two lines on `errors` in one write: why, and what would be right.
pub fn run_client<R: Net + Processes + Clock, W: Write, E: Write>(
    rt: &R,
    alloc: Global,
    tool: Tool,
    words: &[&str],
    output: &mut W,
    errors: &mut E,
) -> u8 {
    match run(rt, alloc, tool, words, output) {
        Ok(status) => status,
        Err(fault) => {
            let (socket, further) = match words {
                [socket, further @ ..] => (*socket, further),
                // Not even a socket was named: the fault is `Missing`.
                [] => ("", words),
            };
            // A refusal for want of a service is told more exactly where the last scan could not
            // read the service's directory.
            let fault = with_scan_fault(rt, alloc, socket, subject_of(tool, further), fault);
            tell_fault(tool, socket, further, &fault, errors)
        }
    }
}

// Whether the words ask for the help text. Behind a socket `-h` is a letter.
fn asks_help(words: &[&str]) -> bool {
    match words {
        [word] => matches!(*word, "--help" | "-h"),
        [_socket, word] => *word == "--help",
        _ => false,
    }
}

// Prints the help text of a tool. Returns the exit status 0; the fault is Write where the text
// can't be written.
fn print_help<W: Write>(tool: Tool, output: &mut W) -> Result<u8, ToolFault> {
    let text = help_of(tool).as_bytes();
    if output.write_all(text).is_err() || output.flush().is_err() {
        return Err(ToolFault::Write);
    }
    Ok(0)
}

// Does what the words ask of a tool, or prints its help text, and returns its exit status. `words`
// are those behind the tool's name: the path of the socket first, or a word that asks for help;
// Missing where there is none.
fn run<R: Net + Processes + Clock, W: Write>(
    rt: &R,
    alloc: Global,
    tool: Tool,
    words: &[&str],
    output: &mut W,
) -> Result<u8, ToolFault> {
    if asks_help(words) {
        return print_help(tool, output);
    }
    let [socket, words @ ..] = words else {
        return Err(ToolFault::Usage(Misuse::Missing));
    };
    if socket.is_empty() {
        return Err(ToolFault::Usage(Misuse::Empty));
    }
    match tool {
        Tool::Svc => run_svc(rt, alloc, socket, words),
        Tool::Svstat => run_svstat(rt, alloc, socket, words, output),
        Tool::List => run_list(rt, alloc, socket, words, output),
        Tool::Follow => run_follow(rt, alloc, socket, words, output),
        Tool::Record => run_record(rt, alloc, socket, words, output),
        Tool::Svwait => run_svwait(rt, alloc, socket, words),
        Tool::Svlisten => run_svlisten(rt, alloc, socket, words),
        Tool::Svscanctl => run_svscanctl(rt, alloc, socket, words),
        Tool::Mkfifodir => run_mkfifodir(rt, alloc, socket, words),
        Tool::FtrigNotify => run_ftrig_notify(rt, alloc, socket, words),
        Tool::FtrigWait => run_ftrig_wait(rt, alloc, socket, words, output),
        Tool::Permafailon => run_permafailon(rt, alloc, socket, words),
    }
}
