//! The cases of the trial. What each is to print stands in the file `stdout` of this crate.
use crate::counted::CountedText;
use crate::table::TableServer;
use crate::whole_requests::come_whole;
use line_server::{ClientSlots, SLOT_COUNT, Server, serve};
use s6_tools::run_client;
use std::alloc::Global;
use std::io::{Read, Write};
use std::net::Net;
use std::os::unix::net::{UnixListener, UnixStream};
use std::process::Processes;
use std::rt::Files;
use std::sync::Wait;
use std::thread::{self, Scope, Threads};
use std::time::{Clock, Duration};
use std::{fs, io, str};
use tool_lines::tool_named;

/// The words of each case, a line for each; the socket's path stands behind the first.
const CASES: &str = "svc -o web
svc -u nobody
svc -u
svstat -o up,pid web
svstat -o exitcode,readyfor,up web
svstat -o up nobody
svstat -o what web
list
list --json
list web nobody
list --json -- nobody log
list --what
list .web
svwait web
svwait -U web log
svwait -d -o web
svwait -D -t 5 web
svwait nobody
svwait -u -U web
svlisten web -- true
svlisten -D -t 5 web -- true
svlisten web -- ./no-such-program
svlisten web
svscanctl -an
svscanctl -nt
svscanctl -x
mkfifodir queue
mkfifodir .queue
ftrig-notify queue ab
ftrig-notify web/event a
ftrig-wait web/event u.*u
ftrig-wait queue b$
permafailon web 60 3 1-2,KILL
permafailon web 60 3 none
permafailon log 60 3 1
svstat -o up late
svc -u late
svc -d odd";

/// Runs a server on this path and each client beside it. The outcomes are written line by line.
pub fn try_all<R: Net + Files + Processes + Threads + Wait + Clock + Sync>(
    rt: &R,
    alloc: Global,
    path: &str,
    told: &mut ToldCases,
) -> io::Result<()> {
    serve_and_try(rt, alloc, path, told)?;
    told.text.extend_from_slice(b"without a server: ")?;
    try_one(rt, alloc, path, "svc -u web", told)?;
    let pieces = told.pieces;
    writeln!(
        &mut told.text,
        "lines that were written in pieces: {pieces}"
    )?;
    fs::remove_file(rt, path)?;
    let whole = come_whole(rt, alloc, path)?;
    writeln!(&mut told.text, "each request comes whole: {whole}")
}

/// What came of the cases.
#[derive(Drop)]
pub struct ToldCases {
    /// Each case, its status, and what it wrote to standard output and standard error.
    pub text: Vec<u8>,
    // How often what it wrote to one of them took more than one write.
    pieces: u64,
}

impl ToldCases {
    /// Nothing was tried.
    pub fn new(alloc: Global) -> ToldCases {
        ToldCases {
            text: Vec::new(alloc),
            pieces: 0,
        }
    }

    // The path of the socket is another in each run.
    fn add(&mut self, alloc: Global, path: &str, written: &CountedText) -> io::Result<()> {
        if !written.is_one_write() {
            self.pieces = self.pieces.saturating_add(1);
        }
        let text = str::from_utf8(written.as_slice()).unwrap_or("?");
        let same = text.replace(alloc, path, "SOCKET")?;
        self.text.extend_from_slice(same.as_bytes())?;
        Ok(())
    }
}

fn new_server<R: Net + Files>(
    rt: &R,
    alloc: Global,
    path: &str,
) -> io::Result<Server<TableServer>> {
    let slots = ClientSlots::new(alloc)?;
    let listener = UnixListener::bind(rt, path)?;
    Ok(Server::new(alloc, listener, slots, TableServer::new())?)
}

// The cases beside a server, which is gone afterwards.
fn serve_and_try<R: Net + Files + Processes + Threads + Wait + Clock + Sync>(
    rt: &R,
    alloc: Global,
    path: &str,
    told: &mut ToldCases,
) -> io::Result<()> {
    let server = new_server(rt, alloc, path)?;
    serve_while(rt, alloc, path, &server, told)
}

// The cases, while the server runs.
fn serve_while<R: Net + Processes + Threads + Wait + Clock + Sync>(
    rt: &R,
    alloc: Global,
    path: &str,
    server: &Server<TableServer>,
    told: &mut ToldCases,
) -> io::Result<()> {
    thread::scope(thread::scope_env(), rt, |scope| {
        if !start_server(scope, rt, server) {
            return Err(io::Error::from(io::ErrorKind::OutOfMemory));
        }
        let done = try_beside(rt, alloc, path, told);
        server.end(rt);
        done
    })
}

fn start_server<'s, E, R: Threads + Wait + Clock + Sync>(
    scope: &Scope<'s, E>,
    rt: &'s R,
    server: &'s Server<TableServer>,
) -> bool {
    thread::Builder::new()
        .spawn_scoped(scope, move || serve(rt, server, &mut io::sink(), b""))
        .is_ok()
}

// The cases, and then two while all slots are taken.
fn try_beside<R: Net + Processes + Threads + Wait + Clock + Sync>(
    rt: &R,
    alloc: Global,
    path: &str,
    told: &mut ToldCases,
) -> io::Result<()> {
    try_cases(rt, alloc, path, told)?;
    let streams = take_all_slots(rt, alloc, path)?;
    told.text.extend_from_slice(b"with no free slot: ")?;
    try_one(rt, alloc, path, "svwait -t 100 web", told)?;
    told.text.extend_from_slice(b"until a slot is free: ")?;
    thread::scope(thread::scope_env(), rt, |scope| {
        if !start_leaving(scope, rt, streams) {
            return Err(io::Error::from(io::ErrorKind::OutOfMemory));
        }
        try_one(rt, alloc, path, "svc -o web", told)
    })
}

// Connections that have all slots, since each was answered.
fn take_all_slots<R: Net>(rt: &R, alloc: Global, path: &str) -> io::Result<Vec<UnixStream>> {
    let mut streams = Vec::new(alloc);
    for _ in 0..SLOT_COUNT {
        let mut stream = UnixStream::connect(rt, path)?;
        stream.write_all(b"mkdir queue\n")?;
        let mut answer = [0; 6];
        stream.read_exact(&mut answer)?;
        streams.push(stream)?;
    }
    Ok(streams)
}

// These connections leave a little later. Whether they will.
fn start_leaving<'s, E, R: Threads + Wait + Clock + Sync>(
    scope: &Scope<'s, E>,
    rt: &'s R,
    streams: Vec<UnixStream>,
) -> bool {
    thread::Builder::new()
        .spawn_scoped(scope, move || {
            thread::sleep(rt, Duration::from_millis(100));
            drop(streams);
        })
        .is_ok()
}

fn try_cases<R: Net + Processes + Clock>(
    rt: &R,
    alloc: Global,
    path: &str,
    told: &mut ToldCases,
) -> io::Result<()> {
    for case in CASES.lines() {
        try_one(rt, alloc, path, case, told)?;
    }
    Ok(())
}

fn try_one<R: Net + Processes + Clock>(
    rt: &R,
    alloc: Global,
    path: &str,
    case: &str,
    told: &mut ToldCases,
) -> io::Result<()> {
    let mut output = CountedText::new(alloc);
    let mut errors = CountedText::new(alloc);
    let status = run_case(rt, alloc, path, case, &mut output, &mut errors)?;
    writeln!(&mut told.text, "{case}: {status}")?;
    told.add(alloc, path, &output)?;
    told.add(alloc, path, &errors)
}

// Runs the client of a case. Its status.
fn run_case<R: Net + Processes + Clock>(
    rt: &R,
    alloc: Global,
    path: &str,
    case: &str,
    output: &mut CountedText,
    errors: &mut CountedText,
) -> io::Result<u8> {
    let (name, others) = case.split_once(' ').unwrap_or((case, ""));
    let Some(tool) = tool_named(name) else {
        return Err(io::Error::from(io::ErrorKind::InvalidData));
    };
    let mut words = Vec::new(alloc);
    words.push(path)?;
    for word in others.split(' ') {
        if !word.is_empty() {
            words.push(word)?;
        }
    }
    Ok(run_client(rt, alloc, tool, words.as_slice(), output, errors))
}
