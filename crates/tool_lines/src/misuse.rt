//! What is wrong with the words of a tool.
ghost use Rattle.std.specs.Prelude.{◌≡◌};
ghost use Rattle.tool_lines.specs.Sentences.{misuse_word};

/// What is wrong with the words of a tool.
#[derive(Clone, Copy, Debug, PartialEq, Eq)]
pub enum Misuse {
    /// An option, a letter or a word that the tool doesn't take.
    Unknown,
    /// A word that the tool needs is missing.
    Missing,
    /// There are more letters, names or options than the tool takes.
    TooMany,
    /// The word where a number belongs is no number.
    BadNumber,
    /// The word where a list belongs is no list.
    BadList,
    /// The word where a name belongs is no name.
    BadName,
    /// The word where a message belongs is no message.
    BadMessage,
    /// The word where a pattern belongs is no pattern.
    BadPattern,
    /// The word where a path belongs is empty.
    Empty,
}

impl Misuse {
    /// The word for it.
    pub fn word(self) -> &'static str
        ensures { result.now ≡ misuse_word self }
    {
        match self {
            Misuse::Unknown => "Unknown",
            Misuse::Missing => "Missing",
            Misuse::TooMany => "TooMany",
            Misuse::BadNumber => "BadNumber",
            Misuse::BadList => "BadList",
            Misuse::BadName => "BadName",
            Misuse::BadMessage => "BadMessage",
            Misuse::BadPattern => "BadPattern",
            Misuse::Empty => "Empty",
        }
    }
}
