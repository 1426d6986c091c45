//! The server's own answers, for which no step is made.
ghost use Rattle.std.specs.Prelude.{◌≡◌};
ghost use Rattle.server_rules.specs.Answers.{own_text};

/// Why the server answers a line itself, and hands nothing in. Each is told as `refused` and its
/// name.
#[derive(Clone, Copy, Debug, PartialEq, Eq)]
pub enum OwnAnswer {
    /// The line is no request.
    Line,
    /// The pattern of a subscription is not valid.
    Pattern,
    /// The ring of the scanner, by which scans are handed in, is full.
    Full,
    /// The connection has the last slot, where nobody may wait, subscribe or follow; or it has as
    /// many waiters or subscriptions as it may have.
    Busy,
    /// Memory was refused.
    NoMemory,
    /// The scan directory could not be read, or a line of a script can't say what is in it.
    Directory,
    /// The tree is run without a record, or the file was removed.
    Record,
}

impl OwnAnswer {
    /// The text that is posted: its line, and an empty line.
    pub fn text(self) -> &'static [u8]
        ensures { result.now ≡ own_text self }
    {
        match self {
            OwnAnswer::Line => b"refused Line\n\n",
            OwnAnswer::Pattern => b"refused Pattern\n\n",
            OwnAnswer::Full => b"refused Full\n\n",
            OwnAnswer::Busy => b"refused Busy\n\n",
            OwnAnswer::NoMemory => b"refused NoMemory\n\n",
            OwnAnswer::Directory => b"refused Directory\n\n",
            OwnAnswer::Record => b"refused Record\n\n",
        }
    }
}
