//! Why a script was not replayed to its end.
ghost use Rattle.std.specs.Prelude.{◌≡◌};
ghost use Rattle.s6_replay.specs.FaultNumber.{number_of};

use thiserror::Error;

/// Why a script was not replayed to its end. Lines are counted from 1, the head line included, so
/// the first input is in line 2. Faults, their numbers and their order are this program's own.
#[derive(Clone, Copy, Debug, PartialEq, Eq, Error)]
pub enum ReplayFault {
    /// The input does not begin with a head line, which is `s6-script 1` or `s6-script 2` and a
    /// newline; or it has the one of the two versions that `check` or `migrate` doesn't take.
    /// Nothing was written.
    #[error("no head line")]
    Head,
    /// This line is not the one that belongs there, an input line or in version 2 the reply line of
    /// an input; or it is past a limit: an input line has at most 65,536 bytes with its newline, a
    /// reply line 262,144, and a script at most 1,000,000 input lines. The transcript of the inputs
    /// before was written.
    #[error("line {0} is no input")]
    Line(u64),
    /// This line is an input but for its pattern, which `regex` refuses, and not for want of
    /// memory. The transcript of the inputs before was written.
    #[error("the pattern in line {0} does not build")]
    Pattern(u64),
    /// The last line has no newline, or in version 2 the last input has no reply line. The
    /// transcript of the inputs before was written.
    #[error("the last line is not whole")]
    Truncated,
    /// The reader answered an error. The transcript of the inputs before was written.
    #[error("the script was not read")]
    Read,
    /// The writer answered an error, or took no byte. A beginning of the transcript was written,
    /// which may end anywhere.
    #[error("the transcript was not written")]
    Write,
    /// Memory was refused. The transcript of the inputs before was written.
    #[error("out of memory")]
    NoMemory,
}

impl ReplayFault {
    /// The number that stands for the fault, from 1 to 7, in the order of the list of faults.
    pub fn number(&self) -> u8
        ensures { result ≡ number_of self.now }
    {
        match self {
            ReplayFault::Head => 1,
            ReplayFault::Line(_) => 2,
            ReplayFault::Pattern(_) => 3,
            ReplayFault::Truncated => 4,
            ReplayFault::Read => 5,
            ReplayFault::Write => 6,
            ReplayFault::NoMemory => 7,
        }
    }
}
