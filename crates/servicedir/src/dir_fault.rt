//! Why a service directory was not read.
ghost use Rattle.std.specs.Prelude.{◌≡◌};

use crate::files::ReadFault;
use thiserror::Error;

/// Why a service directory was not read. `NotifyFd` never keeps one from being read: it is only the
/// `note` of a `Found`. `BadName` is for a program that lists a scan directory and finds an entry
/// whose name is no service name. `NotLongrun`, `NotifyFd` and `BadName` are chosen here.
#[derive(Clone, Copy, Debug, PartialEq, Eq, Error)]
pub enum DirFault {
    /// There is no `run`. Page `servicedir`.
    #[error("there is no run file")]
    NoRun = 1,
    /// `type` has another text than `longrun`.
    #[error("the type is not longrun")]
    NotLongrun = 2,
    /// `notification-fd` names no descriptor that is served.
    #[error("the notification descriptor is not served")]
    NotifyFd = 3,
    /// A file could not be read; the `Files` that was asked has counted that.
    #[error("a file could not be read")]
    Io = 4,
    /// The directory's name is no name of a service.
    #[error("the name is no name of a service")]
    BadName = 5,
    /// Memory was refused.
    #[error("out of memory")]
    NoMemory = 6,
}

impl From<ReadFault> for DirFault {
    ghost use Rattle.servicedir.specs.FirstFault.{fault_of_reading};

    ghost from_gives = { λ fault result. result ≡ fault_of_reading fault };

    fn from(fault: ReadFault) -> DirFault {
        match fault {
            ReadFault::Io => DirFault::Io,
            ReadFault::NoMemory => DirFault::NoMemory,
        }
    }
}
