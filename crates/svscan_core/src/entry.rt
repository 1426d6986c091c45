//! An entry of the scan directory, what becomes of it, and the commands to all services.
use s6_events::{Name, Sid};
use servicedir::Config;

/// A name that a look at the scan directory found, and what the files of its directory said; None
/// where the directory is there and couldn't be read. Page `s6-svscan`; that a directory may be
/// there and not be read is chosen here.
#[derive(Clone, Copy, PartialEq, Eq, Debug)]
pub struct Entry {
    pub name: Name,
    pub config: Option<Config>,
}

/// What became of a listed name for which there was no service.
#[derive(Clone, Copy, Debug, PartialEq, Eq)]
pub enum Listed {
    /// The service of this name was added, with this serial.
    Added(Sid, Name),
    /// No service was added, since there were `SERVICE_LIMIT` already.
    Full(Name),
    /// No service was added, since the directory couldn't be read.
    Unread(Name),
}

/// A command of a user to all services at once. Page `s6-svscanctl`.
#[derive(Clone, Copy, Debug, PartialEq, Eq)]
pub enum ScanOrder {
    /// `-n`: each inactive service is told to end and to go down.
    Nuke,
    /// `-t`: every service becomes inactive, and is told to end and to go down.
    Terminate,
}
