//! Why a program can't be started: for good, or for a fault of the moment, so that it is tried
//! again.
ghost use Rattle.std.specs.Prelude.{◌≡◌};
ghost use Rattle.child_runner.specs.Trials.{is_passing};

use std::io::{self, ErrorKind};

/// Why a program could not be started.
#[derive(Clone, Copy, PartialEq, Eq, Debug)]
pub(crate) enum StartFault {
    /// The system lacked something, or the file was being written: that passes.
    Passing,
    /// It isn't there, or can't be executed.
    Lasting,
}

/// What the system answers: a disk failed; too much is asked at once; no memory; no descriptor for
/// any process, or for this one; the file is open for writing.
const EIO: u32 = 5;

const EAGAIN: u32 = 11;

const ENOMEM: u32 = 12;

const ENFILE: u32 = 23;

const EMFILE: u32 = 24;

const ETXTBSY: u32 = 26;

// Whether a fault of this number passes.
fn is_passing(number: u32) -> bool
    ensures { result ≡ is_passing number }
{
    number == EIO
        || number == EAGAIN
        || number == ENOMEM
        || number == ENFILE
        || number == EMFILE
        || number == ETXTBSY
}

impl StartFault {
    /// The fault that an error of the system is.
    pub fn of(error: &io::Error) -> StartFault {
        let number = u32::try_from(error.raw_os_error().unwrap_or(0)).unwrap_or(0);
        if is_passing(number) || error.kind() == ErrorKind::OutOfMemory {
            StartFault::Passing
        } else {
            StartFault::Lasting
        }
    }
}
