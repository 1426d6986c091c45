//! Why a tree did not run to its end, and what is told of it.
ghost use Rattle.std.specs.Prelude.{◌≡◌, ◌⊎◌};
ghost use Rattle.std.specs.Io.KnownBytes.{Appends};
ghost use Rattle.s6_script.specs.Writing.{AppendsFront};
ghost use Rattle.server_rules.specs.Faults.{fault_text};

use s6_script::write_whole;
use std::io::Write;

/// The status of a program to which the system refused something.
const SYSTEM_STATUS: u8 = 111;

/// Why a tree did not run to its end.
#[derive(Clone, Copy, Debug, PartialEq, Eq)]
pub enum ServeFault {
    /// SIGCHLD is ignored, so that no end of a service could be seen.
    Signals,
    /// The shell that sends signals can't be run.
    Shell,
    /// The socket could not be made, or a server answers there.
    Socket,
    /// The scan directory could not be read, or a line of a script can't say what is in it.
    Directory,
    /// Memory was refused.
    NoMemory,
    /// A thread could not be started.
    Thread,
    /// The system has no clock.
    Clock,
    /// The run has taken as many steps as a run may have.
    Full,
    /// There are not 1 to 4 lanes.
    Lanes,
    /// The run could not be closed.
    Close,
    /// The record could not be made, or is used by another server, or a run was not written into
    /// it.
    Record,
}

// The line on standard error for a fault, which programs read. `Lanes`: there are not 1 to 4 lanes;
// `Full` and `Close`: a run could not go over into the next.
fn text_of(fault: ServeFault) -> &'static [u8]
    ensures { result.now ≡ fault_text fault }
{
    match fault {
        ServeFault::Signals => b"svscan: signals\n",
        ServeFault::Shell => b"svscan: no shell\n",
        ServeFault::Socket => b"svscan: socket\n",
        ServeFault::Directory => b"svscan: directory\n",
        ServeFault::NoMemory => b"svscan: no memory\n",
        ServeFault::Thread => b"svscan: thread\n",
        ServeFault::Clock => b"svscan: clock\n",
        ServeFault::Full => b"svscan: full\n",
        ServeFault::Lanes => b"svscan: lanes\n",
        ServeFault::Close => b"svscan: close\n",
        ServeFault::Record => b"svscan: record\n",
    }
}

/// Writes the line of a fault, and returns the exit status, 111. Where the line can't be written
/// whole, a front of it is written, and the status is the same.
pub fn tell_serve_fault<E: Write>(fault: ServeFault, errors: &mut E) -> u8
    ensures status { result ≡ 111 }
    ensures line { Appends (E.contents errors.old) (E.contents errors.new) (fault_text fault)
        ⊎ AppendsFront (E.contents errors.old) (E.contents errors.new) (fault_text fault) }
{
    let _ = write_whole(errors, text_of(fault));
    SYSTEM_STATUS
}
