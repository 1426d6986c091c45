//! Which entries of a scan directory are services.
ghost use Rattle.std.specs.Prelude.{◌≡◌};
ghost use Rattle.servicedir.specs.ServiceName.{seen_of};

use s6_events::Name;

/// What an entry of a scan directory is, by its name.
#[derive(Clone, Copy, PartialEq, Eq, Debug)]
pub enum Seen {
    /// The service of this name.
    Service(Name),
    /// It begins with a dot, and is no service. Page `s6-svscan`.
    Hidden,
    /// Any other text that is no name.
    Bad,
}

/// What an entry of this name is. Page `s6-svscan` skips what begins with a dot; which other texts
/// are names is chosen here.
pub fn name_of(text: &str) -> Seen
    ensures { result ≡ seen_of text.now }
{
    let bytes = text.as_bytes();
    if bytes.first() == Some(&b'.') {
        return Seen::Hidden;
    }
    match Name::new(bytes) {
        Some(name) => Seen::Service(name),
        None => Seen::Bad,
    }
}
