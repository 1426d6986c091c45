//! A tool's connection to the server of a tree. A busy server has no slot for one more, and is
//! asked again as long as the tool's patience lasts.
use crate::answer::{ServerAnswer, read_answer};
use crate::patience::{Patience, TRY_TIME};
use crate::request::{is_harmless, set_request_line};
use crate::tool_fault::ToolFault;
use mio::net;
use std::alloc::Global;
use std::io::{self, BufRead, BufReader, ErrorKind, Write};
use std::net::Net;
use std::os::unix::net::UnixStream;
use std::thread;
use std::time::{Clock, Duration, Instant};
use tool_lines::{ListEntry, entry_of, moment_of, word_or_none};

/// Asks the server at this path, on a new connection, and reads its reply. Where the server is
/// busy, or ends the connection before the answer to a request that may come twice, it asks again,
/// for ten seconds at most. `NoAnswer` where it doesn't answer in this time.
pub fn ask_server<R: Net + Clock>(
    rt: &R,
    alloc: Global,
    path: &str,
    request: &[u8],
) -> Result<(ToolConnection, ServerAnswer), ToolFault> {
    ask_within(rt, alloc, path, request, &mut Patience::of(Some(TRY_TIME)))
}

/// Asks as `ask_server` does, for as long as the patience lasts.
pub fn ask_within<R: Net + Clock>(
    rt: &R,
    alloc: Global,
    path: &str,
    request: &[u8],
    patience: &mut Patience,
) -> Result<(ToolConnection, ServerAnswer), ToolFault> {
    for _ in 0..u64::MAX {
        let begun = Instant::now(rt)?;
        match ask_once(rt, alloc, path, request, patience.time_of_try()) {
            Err(fault) => await_room(rt, fault, begun, patience)?,
            asked => return asked,
        }
    }
    // So many tries never come.
    Err(ToolFault::Busy)
}

/// Waits before a request is tried again that was begun at the moment `begun`, where the fault says
/// that it may be. Returns any other fault at once, and this one too once no time is left.
pub fn await_room<R: Clock>(
    rt: &R,
    fault: ToolFault,
    begun: Instant,
    patience: &mut Patience,
) -> Result<(), ToolFault> {
    if !fault.may_be_retried() {
        return Err(fault);
    }
    patience.pass(millis_since(rt, begun));
    let Some(pause) = patience.next_pause() else {
        return Err(fault);
    };
    thread::sleep(rt, Duration::from_millis(pause));
    Ok(())
}

/// How many milliseconds have passed since a moment; as many as can be where the system has no
/// clock any more.
pub fn millis_since<R: Clock>(rt: &R, begun: Instant) -> u64 {
    match begun.elapsed(rt) {
        Ok(passed) => u64::try_from(passed.as_millis()).unwrap_or(u64::MAX),
        Err(_) => u64::MAX,
    }
}

/// Asks the server at this path once, on a new connection, and reads its reply. `at_most` bounds
/// each reading and writing, in milliseconds.
pub fn ask_once<R: Net>(
    rt: &R,
    alloc: Global,
    path: &str,
    request: &[u8],
    at_most: Option<u64>,
) -> Result<(ToolConnection, ServerAnswer), ToolFault> {
    let mut connection = ToolConnection::open(rt, alloc, path, at_most)?;
    // A refusal by the server is a fault.
    let answer = connection.ask(request)?;
    Ok((connection, answer))
}

// Connects to the socket at this path. It never waits: where a stopped server lets too many wait to
// be accepted, the fault is `Busy`.
fn connect<R: Net>(rt: &R, path: &str) -> Result<UnixStream, ToolFault> {
    match net::UnixStream::connect(rt, path) {
        Ok(stream) => {
            let stream = UnixStream::from(stream);
            stream.set_nonblocking(false)?;
            Ok(stream)
        }
        Err(error) if error.kind() == ErrorKind::WouldBlock => Err(ToolFault::Busy),
        Err(error) => Err(error.into()),
    }
}

/// A connection, and the bytes that came on it and aren't read yet.
#[derive(Drop)]
pub struct ToolConnection {
    reader: BufReader<UnixStream>,
    // The line that was read last; while a request is sent, the line of the request.
    line: Vec<u8>,
}

impl ToolConnection {
    /// Connects to the socket at this path. `at_most` bounds each reading and writing from now on,
    /// in milliseconds: then the fault is `NoAnswer`. `NoServer` where there is no socket or nobody
    /// listens, `Busy` where too many wait to be accepted, `Forbidden` without permission,
    /// `LongPath` where the path is too long for a socket, `NoMemory` where memory is refused; else
    /// `Socket`.
    pub fn open<R: Net>(
        rt: &R,
        alloc: Global,
        path: &str,
        at_most: Option<u64>,
    ) -> Result<ToolConnection, ToolFault> {
        let stream = connect(rt, path)?;
        let connection = ToolConnection {
            reader: BufReader::new(alloc, stream)?,
            line: Vec::new(alloc),
        };
        connection.bound(at_most)?;
        Ok(connection)
    }

    /// Bounds each reading and writing from now on, in milliseconds; None: without end.
    pub fn bound(&self, at_most: Option<u64>) -> Result<(), ToolFault> {
        // A time of 0 would be none.
        let time = at_most.map(|millis| Duration::from_millis(millis.max(1)));
        let stream = self.reader.get_ref();
        stream.set_read_timeout(time)?;
        stream.set_write_timeout(time)?;
        Ok(())
    }

    /// Sends a request in one write, and reads its reply. A refusal is a fault, and so is a server
    /// without a slot. Where the connection ends before the reply, the fault is `Ended`, or
    /// `Unanswered` of a request that may not come twice. At `NoMemory` the request may have been
    /// sent or not.
    pub fn ask(&mut self, request: &[u8]) -> Result<ServerAnswer, ToolFault> {
        let sent = self.send(request)?;
        // Whatever came of the write, the server may have answered.
        match self.answer() {
            // The server may have written this and ended the connection before it read the whole
            // request.
            Ok(ServerAnswer::Refused(reason)) => Err(ToolFault::Refused(reason)),
            Ok(ServerAnswer::Busy) => Err(ToolFault::Busy),
            Ok(answer) => {
                sent?;
                Ok(answer)
            }
            Err(fault) => Err(fault_of(&sent, fault).of_request(is_harmless(request))),
        }
    }

    // Sends a request in one write. The result of the write is inside the other one: even where the
    // write fails, a server that has no slot may have answered before.
    fn send(&mut self, request: &[u8]) -> Result<io::Result<()>, ToolFault> {
        set_request_line(&mut self.line, request)?;
        let mut writer = self.reader.get_ref();
        Ok(writer.write_all(self.line.as_slice()))
    }

    /// Asks for the states of all services, and reads them up to the empty line. A refusal is a
    /// fault, and so is a server without a slot.
    pub fn ask_states(&mut self, alloc: Global) -> Result<Vec<ListEntry>, ToolFault> {
        let sent = self.send(b"states")?;
        // What reading gives counts first: the server may have refused and ended before it read the
        // request.
        match self.read_entries(alloc) {
            Ok(entries) => {
                sent?;
                Ok(entries)
            }
            Err(fault) => Err(fault_of(&sent, fault)),
        }
    }

    // Reads the server's reply to `states` up to its empty line. Each line gives an entry: a
    // service, or a directory that the last scan could not read.
    fn read_entries(&mut self, alloc: Global) -> Result<Vec<ListEntry>, ToolFault> {
        let mut entries = Vec::new(alloc);
        for _ in 0..u64::MAX {
            match self.read_entry()? {
                Some(entry) => push_entry(&mut entries, entry)?,
                None => return Ok(entries),
            }
        }
        // So many lines never come.
        Err(ToolFault::Socket)
    }

    // The entry of the next line; None where that is empty.
    fn read_entry(&mut self) -> Result<Option<ListEntry>, ToolFault> {
        self.read_line()?;
        let line = self.line.as_slice();
        if line.is_empty() {
            return Ok(None);
        }
        if let Some(entry) = entry_of(line) {
            return Ok(Some(entry));
        }
        match read_answer(line) {
            ServerAnswer::Refused(reason) => Err(ToolFault::Refused(reason)),
            ServerAnswer::Busy => Err(ToolFault::Busy),
            _ => Err(ToolFault::Socket),
        }
    }

    /// Asks for the clock, and returns the time of day at which the tree's clock was 0, in
    /// milliseconds since 1970.
    pub fn ask_clock(&mut self) -> Result<u64, ToolFault> {
        // The answer is a line `clock SINCE NOW`, whose words are counted from 0.
        let _clock = self.ask(b"clock")?;
        moment_of(word_or_none(self.line.as_slice(), 1)).ok_or(ToolFault::Socket)
    }

    /// Reads the next line, which may be empty; `line` gives it afterwards. `Ended` where the
    /// connection ends before it.
    pub fn next_line(&mut self) -> Result<(), ToolFault> {
        self.read_line()
    }

    /// Reads up to the next line that isn't empty, and returns what it says. `Ended` where the
    /// connection ends before it.
    pub fn answer(&mut self) -> Result<ServerAnswer, ToolFault> {
        for _ in 0..u64::MAX {
            self.read_line()?;
            if !self.line.is_empty() {
                return Ok(read_answer(self.line.as_slice()));
            }
        }
        // So many lines never come.
        Err(ToolFault::Socket)
    }

    // Reads the next line, without its newline. Where the last byte is no newline, the connection
    // has ended.
    fn read_line(&mut self) -> Result<(), ToolFault> {
        self.line.clear();
        self.reader.read_until(b'\n', &mut self.line)?;
        match self.line.pop() {
            Some(b'\n') => Ok(()),
            _ => Err(ToolFault::Ended),
        }
    }

    /// The line that was read last.
    pub fn line(&self) -> &[u8] {
        self.line.as_slice()
    }
}

// The fault where no answer was read: `Busy` where the server took nothing of the request any more,
// so that it did nothing. A request is written by one call, of which the system takes all or
// nothing.
fn fault_of(sent: &io::Result<()>, fault: ToolFault) -> ToolFault {
    match sent {
        Err(error) if error.kind() == ErrorKind::BrokenPipe => ToolFault::Busy,
        _ => fault,
    }
}

// Adds one more entry, a service or a directory, to those that were read of the reply to `states`;
// NoMemory where memory is refused.
fn push_entry(entries: &mut Vec<ListEntry>, entry: ListEntry) -> Result<(), ToolFault> {
    entries.push(entry).map_err(|_| ToolFault::NoMemory)
}
