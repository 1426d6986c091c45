//! What a report says, in words.
use order_lanes::Report;
use s6_events::Exit;
use std::alloc::{AllocError, Global};

/// A report in words: the number of its service, and what it says. A service that writes this
/// process number is ready under its own.
pub fn line_of(alloc: Global, report: &Report, number: u32) -> Result<String, AllocError> {
    match report {
        Report::Started(sid, _, _) => format!(in alloc; "{} started", sid.0),
        Report::StartFailed(sid, _) => format!(in alloc; "{} start failed", sid.0),
        Report::Notify(sid, _, bytes) => notice_words(alloc, sid.0, bytes.as_slice(), number),
        Report::Death(sid, _, exit) => end_words(alloc, sid.0, "death", *exit),
        Report::FinishEnded(sid, _, exit) => end_words(alloc, sid.0, "finish ended", *exit),
    }
}

// It is ready where a newline came.
fn notice_words(alloc: Global, sid: u64, bytes: &[u8], number: u32) -> Result<String, AllocError> {
    let text = std::str::from_utf8(bytes).unwrap_or("");
    if text.trim().parse::<u32>() == Ok(number) {
        return format!(in alloc; "{sid} ready under its own number");
    }
    let what = if text.ends_with('\n') {
        "ready after"
    } else {
        "notify of"
    };
    format!(in alloc; "{sid} {what} {} bytes", bytes.len())
}

fn end_words(alloc: Global, sid: u64, what: &str, exit: Exit) -> Result<String, AllocError> {
    match exit {
        Exit::Code(code) => format!(in alloc; "{sid} {what} code {code}"),
        Exit::Killed(signal) => format!(in alloc; "{sid} {what} signal {signal}"),
    }
}
