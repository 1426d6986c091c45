//! Why words make no command.
use thiserror::Error;

/// Why the words of a command were not taken: the first cause that is met. Nothing of what they ask
/// is done then. The seven and their order are chosen here.
#[derive(Clone, Copy, Debug, PartialEq, Eq, Error)]
pub enum UsageFault {
    /// An option or a letter that the command does not have, an option without its value or given
    /// twice, a dash with no letter, or a word more than svstat or permafailon takes.
    #[error("an option or a word is not known here: leave it out, or spell it as the command's page does")]
    Unknown = 1,
    /// Something that the command needs is not there: a letter, a name, a number, the fields, the
    /// exits, or the program.
    #[error("a letter, a name, a number, a list or the program is missing: add it")]
    Missing = 2,
    /// More than 63 letters, a second name for svc, any name for svscanctl, more than 16 names, two
    /// conditions or two modes.
    #[error("there are too many letters, names, conditions or modes: leave some out")]
    TooMany = 3,
    /// The timeout, the seconds or the count is no number from 0 to 4294967295, in digits.
    #[error("a number is none: write milliseconds, seconds or a count in digits, at most 4294967295")]
    BadNumber = 4,
    /// A field of the list is none of the ten, or is empty; or a list of exits is no `DeathList`,
    /// as one of 33 items.
    #[error("the list is none: write known fields, or at most 32 known exits, with one comma between two")]
    BadList = 5,
    /// A word in the place of a name is no `Name`.
    #[error("a name is no name of a service: write 1 to 64 of A-Z a-z 0-9 . _ - @, with no dot in front")]
    BadName = 6,
    /// Memory was refused.
    #[error("out of memory: try again when there is more")]
    NoMemory = 7,
}
