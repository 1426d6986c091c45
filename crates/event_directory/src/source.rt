//! Whose letters a subscription hears.
ghost use Rattle.std.specs.Prelude.{◌≡◌};
ghost use Rattle.event_directory.specs.Directories.{is_same_source};
ghost use Rattle.event_directory.specs.declared.source.Source.TheVariants.{Service, Directory};

use s6_events::{Name, Sid};

/// Whose letters a subscription hears. Pages `s6-supervise`, "Events", and `fifodir`; a service and
/// a free directory may have the same name.
#[derive(Clone, Copy, PartialEq, Eq, Debug)]
pub enum Source {
    /// The marks of the service of this serial, as letters.
    Service(Sid),
    /// The letters that are sent to the free directory of this name.
    Directory(Name),
}

/// Whether both are the same service, or the same free directory.
pub fn same_source(one: Source, other: Source) -> bool
    ensures { result ≡ is_same_source one other }
{
    match one {
        Source::Service(sid) => is_service(sid, other),
        Source::Directory(name) => is_directory(name, other),
    }
}

// Whether the source is the service of this serial.
fn is_service(sid: Sid, source: Source) -> bool
    ensures { result ≡ is_same_source (Service sid) source }
{
    match source {
        Source::Service(other) => sid == other,
        Source::Directory(_) => false,
    }
}

// Whether the source is the free directory of this name.
fn is_directory(name: Name, source: Source) -> bool
    ensures { result ≡ is_same_source (Directory name) source }
{
    match source {
        Source::Service(_) => false,
        Source::Directory(other) => name == other,
    }
}
