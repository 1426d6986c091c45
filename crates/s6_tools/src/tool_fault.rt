//! Why a tool didn't do what it was asked for.
ghost use Rattle.std.specs.Prelude.{◌≡◌};
ghost use Rattle.s6_tools.specs.Endings.{is_busy, may_be_retried, of_request};

use std::alloc::AllocError;
use std::io;
use svc_commands::UsageFault;
use tool_lines::{Misuse, ToldWord, is_word};

/// Why a tool didn't do what it was asked for.
#[derive(Debug, Drop)]
pub enum ToolFault {
    /// Its words are not those of the tool. Status 100.
    Usage(Misuse),
    /// The server refused the request, for this reason. Status 1; for `svwait` and `svlisten` 111.
    Refused(ToldWord),
    /// The server refused the request as NoService, since the last scan could not read the
    /// service's directory: this is the word for why. The status is that of a refusal.
    Unread(ToldWord),
    /// The server had no slot for one more connection, however often it was tried. Status 111.
    Busy,
    /// There is no server at the path. Status 111.
    NoServer,
    /// The socket is another user's. Status 111.
    Forbidden,
    /// The path is longer than that of a socket may be. Status 111.
    LongPath,
    /// The connection failed, or the server wrote a line that no server writes. Status 111.
    Socket,
    /// The connection ended before the answer to a request that may come twice. Status 111.
    Ended,
    /// The connection ended before the answer to a request that changes something: nobody can know
    /// whether it was carried out. Status 111.
    Unanswered,
    /// No answer came in time. Status 111.
    NoAnswer,
    /// The tree that was followed has ended. Status 111.
    TreeEnded,
    /// The program behind `svlisten` could not be started. Status 111.
    Program,
    /// Standard output took nothing. Status 111.
    Write,
    /// Memory was refused. Status 111.
    NoMemory,
}

impl ToolFault {
    /// Whether the same may be asked again: the server had no room and did nothing, or the
    /// connection ended before the answer to a request that may come twice.
    pub fn may_be_retried(&self) -> bool
        ensures { result ≡ may_be_retried self.now }
    {
        match self {
            ToolFault::Ended => true,
            _ => self.is_busy(),
        }
    }

    /// The fault of a request: where the connection ended before the answer, and the request may
    /// not come twice, that is told.
    pub fn of_request(self, is_harmless: bool) -> ToolFault
        ensures { result ≡ of_request is_harmless self }
    {
        match self {
            ToolFault::Ended if !is_harmless => ToolFault::Unanswered,
            fault => fault,
        }
    }

    /// Whether the server had no room and did nothing.
    pub fn is_busy(&self) -> bool
        ensures { result ≡ is_busy self.now }
    {
        match self {
            ToolFault::Busy => true,
            ToolFault::Refused(reason) => is_word(reason.as_bytes(), b"Busy"),
            _ => false,
        }
    }
}

impl From<UsageFault> for ToolFault {
    ghost use Rattle.s6_tools.specs.Endings.{fault_of_usage};

    ghost from_gives = { λ usage fault. fault ≡ fault_of_usage usage };

    // The fault for wrong words, as the reader of the words (`svc_commands`) names it.
    fn from(usage: UsageFault) -> ToolFault {
        match usage {
            UsageFault::Unknown => ToolFault::Usage(Misuse::Unknown),
            UsageFault::Missing => ToolFault::Usage(Misuse::Missing),
            UsageFault::TooMany => ToolFault::Usage(Misuse::TooMany),
            UsageFault::BadNumber => ToolFault::Usage(Misuse::BadNumber),
            UsageFault::BadList => ToolFault::Usage(Misuse::BadList),
            UsageFault::BadName => ToolFault::Usage(Misuse::BadName),
            UsageFault::NoMemory => ToolFault::NoMemory,
        }
    }
}

impl From<AllocError> for ToolFault {
    // Where memory is refused, the tool fails for that reason.
    fn from(_refused: AllocError) -> ToolFault {
        ToolFault::NoMemory
    }
}

impl From<io::Error> for ToolFault {
    // The fault for an error of the system on the connection to the server.
    fn from(error: io::Error) -> ToolFault {
        match error.kind() {
            io::ErrorKind::OutOfMemory => ToolFault::NoMemory,
            io::ErrorKind::NotFound | io::ErrorKind::ConnectionRefused => ToolFault::NoServer,
            io::ErrorKind::PermissionDenied => ToolFault::Forbidden,
            io::ErrorKind::InvalidInput => ToolFault::LongPath,
            io::ErrorKind::ConnectionReset | io::ErrorKind::BrokenPipe => ToolFault::Ended,
            // The time is up that the connection gives to each reading and writing.
            io::ErrorKind::WouldBlock | io::ErrorKind::TimedOut => ToolFault::NoAnswer,
            _ => ToolFault::Socket,
        }
    }
}
