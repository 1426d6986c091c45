//! `connect`: sends standard input to a server, and writes what the server sends to standard
//! output.
use arrayvec::CapacityError;
use std::io::{self, ErrorKind, Read, Write};
use std::net::{Net, Shutdown};
use std::os::unix::net::UnixStream;
use std::thread::{Builder, Threads};
use tool_lines::{FaultText, add_escaped};

/// How many bytes of a path are told.
const PATH_BYTES: usize = 107;

/// The status of a program to which the system refused something.
const SYSTEM_STATUS: u8 = 111;

// Sends all of the input, and then ends the sending half of the connection.
fn send_all<I: Read + Drop>(stream: UnixStream, mut input: I) -> io::Result<()> {
    let mut writer = &stream;
    io::copy(&mut input, &mut writer)?;
    stream.shutdown(Shutdown::Write)
}

// Why a connection did not go to its end.
#[derive(Clone, Copy, Debug, PartialEq, Eq)]
enum ConnectFault {
    // No server is there, or the connection broke.
    Socket,
    // The system refused the thread that sends, or a descriptor for it.
    Thread,
    // Standard output took no more.
    Write,
}

// The fault where copying from the connection to standard output failed by an error of this kind.
// The error doesn't say which of the two failed: an error of these three kinds is taken for one of
// the connection, any other for one of standard output.
fn fault_of(kind: ErrorKind) -> ConnectFault {
    match kind {
        ErrorKind::ConnectionReset | ErrorKind::ConnectionAborted | ErrorKind::TimedOut => {
            ConnectFault::Socket
        }
        _ => ConnectFault::Write,
    }
}

// Sends `input` to the socket at this path, and writes what the server sends to `output`, until the
// server ends the connection. Nobody joins the thread that sends, since it may wait for input for
// ever.
fn converse<R: Net + Threads, I: Read + Send + Drop + 'static, W: Write>(
    rt: &R,
    path: &str,
    input: I,
    output: &mut W,
) -> Result<(), ConnectFault> {
    let Ok(mut stream) = UnixStream::connect(rt, path) else {
        return Err(ConnectFault::Socket);
    };
    // A second descriptor of the connection, for the thread that sends.
    let Ok(theirs) = stream.try_clone() else {
        return Err(ConnectFault::Thread);
    };
    let sender = Builder::new().spawn(rt, move || send_all(theirs, input));
    if sender.is_err() {
        return Err(ConnectFault::Thread);
    }
    match io::copy(&mut stream, output) {
        Err(error) => Err(fault_of(error.kind())),
        Ok(_) if output.flush().is_err() => Err(ConnectFault::Write),
        Ok(_) => Ok(()),
    }
}

// Adds the two lines that tell why `connect` failed, one for programs and one for people. `path` is
// that of the server's socket.
fn add_lines(told: &mut FaultText, path: &str, fault: ConnectFault) -> Result<(), CapacityError> {
    match fault {
        ConnectFault::Socket => {
            told.try_extend_from_slice(b"connect: socket\nconnect: ")?;
            add_escaped(told, PATH_BYTES, path.as_bytes())?;
            told.try_extend_from_slice(b": no server is there, or the connection broke\n")
        }
        ConnectFault::Thread => told.try_extend_from_slice(
            b"connect: thread\nconnect: the system refused a thread or a descriptor; try again later\n",
        ),
        ConnectFault::Write => told.try_extend_from_slice(
            b"connect: write\nconnect: standard output took nothing: is it closed, or its disk full?\n",
        ),
    }
}

/// Sends `input` to the socket at this path, and writes what the server sends to `output`, until
/// the server ends the connection. The exit status: 0, or 111 after a failure, which is told on
/// `errors` by two lines in one write.
pub fn run_connection<R: Net + Threads, I: Read + Send + Drop + 'static, W: Write, E: Write>(
    rt: &R,
    path: &str,
    input: I,
    output: &mut W,
    errors: &mut E,
) -> u8 {
    let Err(fault) = converse(rt, path, input, output) else {
        return 0;
    };
    let mut told = FaultText::new();
    let _ = add_lines(&mut told, path, fault);
    let _ = errors.write_all(told.as_slice());
    SYSTEM_STATUS
}
