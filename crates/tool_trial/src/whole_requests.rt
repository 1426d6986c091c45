//! Whether requests come whole: a server that reads as soon as there is a byte finds each with its
//! newline.
use s6_tools::run_client;
use std::alloc::Global;
use std::io::{self, ErrorKind, Read, Write};
use std::net::Net;
use std::os::unix::net::{UnixListener, UnixStream};
use std::process::Processes;
use std::rt::Files;
use std::sync::Wait;
use std::sync::atomic::{AtomicBool, Ordering};
use std::thread::{self, Scope, Threads};
use std::time::{Clock, Duration, Instant};
use tool_lines::Tool;

/// The letters of one `svscanctl`: a request for each.
const LETTERS: &str = "-nnnnnnnnnnnnnnnnnnnnnnnnnnnnnnnnnnnnnnnn";

/// How many they are.
const REQUEST_COUNT: u32 = 40;

/// How long a request is awaited, in seconds.
const PATIENCE: u64 = 20;

/// Whether each request of a tool that sends many comes by one read, to a server on this path.
pub fn come_whole<R: Net + Files + Processes + Threads + Wait + Clock + Sync>(
    rt: &R,
    alloc: Global,
    path: &str,
) -> io::Result<bool> {
    let listener = UnixListener::bind(rt, path)?;
    listener.set_nonblocking(true)?;
    Ok(serve_and_send(rt, alloc, path, &listener))
}

fn serve_and_send<R: Net + Processes + Threads + Wait + Clock + Sync>(
    rt: &R,
    alloc: Global,
    path: &str,
    listener: &UnixListener,
) -> bool {
    let are_whole = AtomicBool::new(false);
    thread::scope(thread::scope_env(), rt, |scope| {
        if start_server(scope, rt, listener, &are_whole) {
            send_letters(rt, alloc, path);
        }
    });
    are_whole.load(Ordering::SeqCst)
}

fn send_letters<R: Net + Processes + Clock>(rt: &R, alloc: Global, path: &str) {
    let words = [path, LETTERS];
    let mut output = Vec::new(alloc);
    let mut errors = Vec::new(alloc);
    let _ = run_client(rt, alloc, Tool::Svscanctl, &words, &mut output, &mut errors);
}

fn start_server<'s, E, R: Threads + Wait + Clock + Sync>(
    scope: &Scope<'s, E>,
    rt: &'s R,
    listener: &'s UnixListener,
    are_whole: &'s AtomicBool,
) -> bool {
    thread::Builder::new()
        .spawn_scoped(scope, move || serve_tool(rt, listener, are_whole))
        .is_ok()
}

fn serve_tool<R: Wait + Clock>(rt: &R, listener: &UnixListener, are_whole: &AtomicBool) {
    if let Some(stream) = accept_soon(rt, listener) {
        let is_whole = matches!(read_requests(rt, &stream), Ok(true));
        are_whole.store(is_whole, Ordering::SeqCst);
    }
}

// The connection of the tool, or None where none comes.
fn accept_soon<R: Clock>(rt: &R, listener: &UnixListener) -> Option<UnixStream> {
    for _ in 0..20_000u32 {
        match listener.accept() {
            Ok((stream, _)) => return Some(stream),
            Err(error) if error.kind() == ErrorKind::WouldBlock => {
                thread::sleep(rt, Duration::from_millis(1));
            }
            Err(_) => return None,
        }
    }
    None
}

// Answers the requests, up to one that comes in pieces. Whether none does.
fn read_requests<R: Clock>(rt: &R, stream: &UnixStream) -> io::Result<bool> {
    stream.set_nonblocking(true)?;
    let mut writer = stream;
    for _ in 0..REQUEST_COUNT {
        if !reads_whole(rt, stream)? {
            return Ok(false);
        }
        writer.write_all(b"done\n\n")?;
    }
    Ok(true)
}

// Reads once, as soon as there is a byte: tries again at once while there is none. Whether a
// newline ends what was read.
fn reads_whole<R: Clock>(rt: &R, stream: &UnixStream) -> io::Result<bool> {
    let start = Instant::now(rt)?;
    for _ in 0..u64::MAX {
        if let Some(is_whole) = read_once(stream)? {
            return Ok(is_whole);
        }
        if start.elapsed(rt)?.as_secs() >= PATIENCE {
            break;
        }
    }
    Ok(false)
}

// Whether a newline ends what is there to be read; None where nothing is.
fn read_once(stream: &UnixStream) -> io::Result<Option<bool>> {
    let mut reader = stream;
    let mut bytes = [0u8; 1024];
    match reader.read(&mut bytes) {
        Ok(count) => Ok(Some(bytes[..count].ends_with(b"\n"))),
        Err(error) if error.kind() == ErrorKind::WouldBlock => Ok(None),
        Err(error) => Err(error),
    }
}
