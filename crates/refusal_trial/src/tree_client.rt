//! A client of the running tree. What it keeps takes no memory: it loses nothing but what the
//! server loses.
use crate::plain_lines::write_all_plain;
use arrayvec::ArrayVec;
use std::io::{ErrorKind, Read, Write};
use std::net::Net;
use std::os::unix::net::UnixStream;
use std::time::Duration;
use std::{mem, str};

/// How long an answer is awaited, in seconds. One that takes longer was lost.
const PATIENCE: u64 = 10;

/// The most news that stand before an answer.
const NEWS_LIMIT: usize = 100;

/// A message of the server, or plain lines of some.
pub type TalkText = ArrayVec<u8, 4_096>;

/// The connection has ended, or none could be made.
#[derive(Debug, Drop)]
pub struct TalkOver;

/// An answer, and whether the same was asked before on a connection that ended, so that it may have
/// been done already.
#[derive(Drop)]
pub struct Answered {
    pub message: TalkText,
    pub may_be_second: bool,
}

/// A client, and its connection, if there is one.
#[derive(Drop)]
pub struct Client<'a, R> {
    rt: &'a R,
    socket: &'a str,
    stream: Option<UnixStream>,
    // What was read of no whole message.
    bytes: TalkText,
    // Whether it follows the letters of all services.
    is_following: bool,
    /// The letters that came, in plain lines.
    pub letters: TalkText,
    /// The matches and releases that came, in plain lines.
    pub others: TalkText,
    /// Whether a connection ended on which news may have been lost.
    pub has_lost_news: bool,
    /// How often something was refused, or a connection ended.
    pub refusals: u32,
    /// How many answers came.
    pub answers: u32,
    /// Whether an answer or news that were awaited did not come.
    pub has_missed_some: bool,
}

/// The text of a message.
pub fn text_of(message: &TalkText) -> &str {
    str::from_utf8(message.as_slice()).unwrap_or("?")
}

/// Whether the request is to be asked again on this connection, since memory was refused: also a
/// scan that lacked it to read a new service.
pub fn is_refused(message: &TalkText) -> bool {
    let text = text_of(message);
    text == "refused NoMemory\n" || text.contains("unread:late")
}

// Whether the connection has the last slot, where nobody may wait, or none: the system lacked
// memory for a thread.
fn is_busy(message: &TalkText) -> bool {
    matches!(message.as_slice(), b"refused Busy\n" | b"busy\n")
}

// The place behind the first message in these bytes: behind its empty line.
fn end_of_message(bytes: &[u8]) -> Option<usize> {
    if bytes.starts_with(b"\n") {
        return Some(1);
    }
    let before = bytes
        .windows(2)
        .position(|pair| pair == b"\n\n".as_slice())?;
    before.checked_add(2)
}

impl<'a, R: Net> Client<'a, R> {
    /// A client of the server on this socket, which has not connected yet.
    pub fn new(rt: &'a R, socket: &'a str) -> Client<'a, R> {
        Client {
            rt,
            socket,
            stream: None,
            bytes: TalkText::new(),
            is_following: false,
            letters: TalkText::new(),
            others: TalkText::new(),
            has_lost_news: false,
            refusals: 0,
            answers: 0,
            has_missed_some: false,
        }
    }

    /// Counts a refusal.
    pub fn note_refusal(&mut self) {
        self.refusals = self.refusals.saturating_add(1);
    }

    /// Takes over what the other has counted.
    pub fn add_up(&mut self, other: &Client<'_, R>) {
        self.refusals = self.refusals.saturating_add(other.refusals);
        self.has_missed_some |= other.has_missed_some;
    }

    /// Leaves the connection, which has ended, or where too little can be asked.
    pub fn leave(&mut self) {
        self.note_refusal();
        self.has_lost_news = true;
        self.stream = None;
        self.bytes.clear();
    }

    // Connects, if it is not connected; then it follows again, if it did before.
    fn connect(&mut self) -> Result<(), TalkOver> {
        if self.stream.is_some() {
            return Ok(());
        }
        let stream = UnixStream::connect(self.rt, self.socket).map_err(|_| TalkOver)?;
        let _ = stream.set_read_timeout(Some(Duration::from_secs(PATIENCE)));
        self.stream = Some(stream);
        if self.is_following {
            self.write(b"follow\n")?;
            let reply = self.reply()?;
            if text_of(&reply) != "done\n" {
                return Err(TalkOver);
            }
        }
        Ok(())
    }

    fn write(&mut self, bytes: &[u8]) -> Result<(), TalkOver> {
        match &mut self.stream {
            Some(stream) => stream.write_all(bytes).map_err(|_| TalkOver),
            None => Err(TalkOver),
        }
    }

    // Reads what has come; an error where nothing more will.
    fn read(&mut self) -> Result<(), TalkOver> {
        let mut part = [0u8; 1_024];
        let Some(stream) = &mut self.stream else {
            return Err(TalkOver);
        };
        match stream.read(&mut part) {
            Ok(0) => Err(TalkOver),
            Ok(count) => {
                let come = part.get(..count).unwrap_or(&[]);
                self.bytes.try_extend_from_slice(come).map_err(|_| TalkOver)
            }
            Err(error) => {
                self.has_missed_some |= error.kind() == ErrorKind::WouldBlock;
                Err(TalkOver)
            }
        }
    }

    /// Reads the next message, up to its empty line.
    pub fn message(&mut self) -> Result<TalkText, TalkOver> {
        for _ in 0..1_000 {
            if let Some(end) = end_of_message(self.bytes.as_slice()) {
                return Ok(self.take(end));
            }
            self.read()?;
        }
        Err(TalkOver)
    }

    // Takes the message out that ends before this place, without its empty line.
    fn take(&mut self, end: usize) -> TalkText {
        let mut message = TalkText::new();
        let mut rest = TalkText::new();
        let bytes = self.bytes.as_slice();
        let _ = message.try_extend_from_slice(bytes.get(..end.saturating_sub(1)).unwrap_or(&[]));
        let _ = rest.try_extend_from_slice(bytes.get(end..).unwrap_or(&[]));
        self.bytes = rest;
        message
    }

    // Keeps the message, if it is news. Whether it is.
    fn keep_news(&mut self, message: &TalkText) -> bool {
        let text = text_of(message);
        if text.starts_with("e ") {
            write_all_plain(text, &mut self.letters);
        } else if text.starts_with("r ") || text.starts_with("m ") {
            write_all_plain(text, &mut self.others);
        } else {
            return false;
        }
        true
    }

    /// Reads the next reply. News before it are kept.
    pub fn reply(&mut self) -> Result<TalkText, TalkOver> {
        for _ in 0..NEWS_LIMIT {
            let message = self.message()?;
            if !self.keep_news(&message) {
                self.answers = self.answers.saturating_add(1);
                return Ok(message);
            }
        }
        Err(TalkOver)
    }

    /// Reads news until this many bytes of letters, and this many of the others, have come.
    pub fn await_news(&mut self, letters: usize, others: usize) -> Result<(), TalkOver> {
        for _ in 0..NEWS_LIMIT {
            if self.letters.len() >= letters && self.others.len() >= others {
                return Ok(());
            }
            let message = self.message()?;
            if !self.keep_news(&message) {
                return Err(TalkOver);
            }
        }
        Err(TalkOver)
    }

    /// Sends lines, each with its newline.
    pub fn send(&mut self, lines: &[&str]) -> Result<(), TalkOver> {
        self.connect()?;
        let mut bytes = TalkText::new();
        for line in lines {
            let _ = bytes.try_extend_from_slice(line.as_bytes());
            let _ = bytes.try_push(b'\n');
        }
        self.write(bytes.as_slice())
    }

    // Sends a request, and reads its reply.
    fn ask(&mut self, request: &str) -> Result<TalkText, TalkOver> {
        self.send(&[request])?;
        self.reply()
    }

    /// Asks, and asks once more where memory was refused; None where that didn't help.
    pub fn request(&mut self, request: &str) -> Option<Answered> {
        let mut may_be_second = false;
        for _ in 0..2 {
            match self.ask(request) {
                Ok(message) if is_refused(&message) => {
                    self.note_refusal();
                }
                Ok(message) if is_busy(&message) => self.leave(),
                Ok(message) => return Some(Answered {
                    message,
                    may_be_second,
                }),
                Err(TalkOver) => {
                    may_be_second = true;
                    self.leave();
                }
            }
        }
        None
    }

    /// Follows the letters of all services, also on later connections. Whether it does.
    pub fn follow(&mut self) -> bool {
        let is_done = match self.request("follow") {
            Some(answered) => text_of(&answered.message) == "done\n",
            None => false,
        };
        self.is_following = is_done;
        is_done
    }

    /// Waits, and waits once more where the connection ended before the release came. Returns the
    /// line of the release; the reply where it was refused.
    pub fn wait(&mut self, request: &str) -> Option<TalkText> {
        for _ in 0..2 {
            self.others.clear();
            let answered = self.request(request)?;
            if !text_of(&answered.message).starts_with("wait ") {
                return Some(answered.message);
            }
            if self.await_news(0, 1).is_ok() {
                return Some(mem::replace(&mut self.others, TalkText::new()));
            }
            self.leave();
        }
        None
    }

    /// Reads the news that have come already, and forgets all: those behind are of what is asked
    /// from now on. News that were lost before do no harm to these.
    pub fn begin_anew(&mut self) {
        let _ = self.request("clock");
        self.letters.clear();
        self.others.clear();
        self.has_lost_news = false;
    }

    /// Reads to the end of the connection.
    pub fn read_to_end(&mut self) {
        for _ in 0..NEWS_LIMIT {
            if self.message().is_err() {
                break;
            }
        }
    }
}
