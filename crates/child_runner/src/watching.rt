//! The threads of one child: one waits for it, and another reads its output, up to the mark that is
//! written behind the child's last byte.
ghost use Rattle.std.specs.Prelude.{◌≤◌, length};

use crate::end_mark::{Telling, telling_of};
use crate::line_limit::LineLimit;
use crate::roster::ChildList;
use crate::shared_child::ServiceProcess;
use arrayvec::ArrayVec;
use s6_events::Exit;
use std::alloc::Global;
use std::io;
use std::io::{PipeReader, Read};
use std::os::unix::process::ExitStatusExt;
use std::process::{Child, ExitStatus, SystemProcess};
use std::sync::{Arc, Wait};
use std::thread::{Builder, JoinHandle, Threads};
use std::time::Clock;

/// How much stack a thread gets, in bytes.
pub(crate) const STACK: usize = 256 * 1024;

/// Waits for the child and tells how it ended, while another thread reads its output. Then takes
/// the child off the roster.
pub(crate) fn watch<R: Threads + Wait + Clock + Copy + Send + Drop + 'static>(
    rt: R,
    roster: &ChildList,
    process: Arc<ServiceProcess, Global>,
) {
    // None only if the child was taken over before.
    if let Some(child) = process.take_child(&rt) {
        let listener = await_end(rt, &process, child);
        if let Some(listener) = listener {
            listener.join(&rt);
        }
    }
    roster.remove_child(&rt, process.number);
}

// Waits for the child and tells how it ended. Returns the thread that reads its output, if there is
// one. A child whose output is to be read is killed where there can be no such thread.
fn await_end<R: Threads + Wait + Clock + Copy + Send + Drop + 'static>(
    rt: R,
    process: &Arc<ServiceProcess, Global>,
    mut child: Child<SystemProcess>,
) -> Option<JoinHandle<()>> {
    let mut listener = None;
    if process.is_output_read(&rt) {
        listener = start_listening(rt, process);
        if listener.is_none() {
            // Nobody could read its output.
            process.stop_reading(&rt);
            let _ = child.kill();
        }
    }
    let status = child.wait();
    // Its end may be reported now.
    process.end(&rt, exit_of(status));
    listener
}

// Starts the thread that reads a child's output; None where it can't be started.
fn start_listening<R: Threads + Wait + Clock + Copy + Send + Drop + 'static>(
    rt: R,
    process: &Arc<ServiceProcess, Global>,
) -> Option<JoinHandle<()>> {
    let theirs = Arc::try_clone(process).ok()?;
    // `listen` reads the output to its end.
    Builder::new()
        .stack_size(STACK)
        .spawn(&rt, move || listen(rt, theirs))
        .ok()
}

/// Kills a child for which no thread can be started, and tells how it ended.
pub(crate) fn give_back<R: Wait + Clock>(rt: &R, process: &ServiceProcess) {
    if let Some(mut child) = process.take_child(rt) {
        process.stop_reading(rt);
        let _ = child.kill();
        let status = child.wait();
        process.end(rt, exit_of(status));
    }
}

// How a program ended. Where the system can't tell, it counts as killed by signal 0.
fn exit_of(status: io::Result<ExitStatus>) -> Exit {
    let Ok(status) = status else {
        return Exit::Killed(0);
    };
    if let Some(code) = status.code() {
        return Exit::Code(u8::try_from(code).unwrap_or(255));
    }
    let signal = status.signal().unwrap_or(0);
    Exit::Killed(u8::try_from(signal).unwrap_or(0))
}

/// The most bytes that were read and not told to the tree yet: as many as a report holds.
const PART: usize = 64;

/// What the thread that reads a child's output keeps: what was read and not told yet, how many
/// bytes more may be told, and whether the first newline was told.
#[derive(Drop)]
struct Hearing {
    // What was read and not told yet.
    heard: ArrayVec<u8, PART>,
    limit: LineLimit,
    // Whether the first newline was told; after it nothing more is told.
    is_told: bool,
}

// Tells what the child writes up to its first newline, and reads on until the end mark, since a
// daemon that still writes would die of a closed pipe.
fn listen<R: Wait + Drop>(rt: R, process: Arc<ServiceProcess, Global>) {
    if let Some(mut reader) = process.take_reader(&rt) {
        listen_to(&rt, &process, &mut reader);
        process.stop_reading(&rt);
    }
}

// Reads the child's output until the end mark or the end of the pipe, and tells what the child
// writes up to its first newline.
fn listen_to<R: Wait>(rt: &R, process: &ServiceProcess, reader: &mut PipeReader) {
    // What was read and not told yet, how many bytes more may be told, and whether the first
    // newline was told.
    let mut hearing = Hearing {
        heard: ArrayVec::new(),
        limit: LineLimit::new(),
        is_told: false,
    };
    for _ in 0..u64::MAX {
        let is_at_end = !read_more(reader, &mut hearing.heard);
        // Tells what may be told now. True at the end.
        if hear(rt, process, &mut hearing, is_at_end) {
            break;
        }
    }
}

// Reads what there is room for. False at the end, and where reading fails.
fn read_more(reader: &mut PipeReader, heard: &mut ArrayVec<u8, PART>) -> bool {
    let mut bytes = [0u8; PART];
    let room = PART.saturating_sub(heard.len()).min(PART);
    match reader.read(&mut bytes[..room]) {
        Ok(0) => false,
        Ok(count) => {
            let _ = heard.try_extend_from_slice(&bytes[..count]);
            true
        }
        Err(e) => e.kind() == io::ErrorKind::Interrupted,
    }
}

// Tells those of the bytes read so far that may be told now, which at the end of the output are
// all. Returns whether nothing more will be read.
fn hear<R: Wait>(rt: &R, process: &ServiceProcess, hearing: &mut Hearing, is_at_end: bool) -> bool {
    // How many bytes may be told, and whether the mark follows them. It counts only once the child
    // was waited for, or nobody listens.
    let mut telling = telling_of(hearing.heard.as_slice(), process.is_mark_due(rt));
    if is_at_end && !telling.is_last {
        telling = Telling {
            count: hearing.heard.len(),
            is_last: true,
        };
    }
    tell(rt, process, hearing, telling.count);
    telling.is_last
}

// Tells the first `count` bytes, and keeps the others.
fn tell<R: Wait>(rt: &R, process: &ServiceProcess, hearing: &mut Hearing, count: usize)
    requires { count ≤ length hearing.old.heard.items }
{
    let (told, kept) = hearing.heard.as_slice().split_at(count);
    let mut rest = ArrayVec::new();
    let _ = rest.try_extend_from_slice(kept);
    // After the first newline nothing more is told.
    if !hearing.is_told {
        hearing.is_told = tell_line(rt, process, &mut hearing.limit, told);
    }
    hearing.heard = rest;
}

// Tells these bytes up to the first newline, as far as the limit allows. Returns whether there was
// a newline.
fn tell_line<R: Wait>(
    rt: &R,
    process: &ServiceProcess,
    limit: &mut LineLimit,
    bytes: &[u8],
) -> bool {
    let Some(place) = bytes.iter().position(|byte| *byte == b'\n') else {
        if !bytes.is_empty() && limit.admit(bytes.len()) {
            process.write(rt, bytes);
        }
        return false;
    };
    // Where the line is too long, only its newline is told.
    if limit.admit(place) {
        process.write(rt, &bytes[..=place]);
    } else {
        process.write(rt, b"\n");
    }
    process.stop_hearing(rt);
    true
}
