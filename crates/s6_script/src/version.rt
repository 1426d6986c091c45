//! The two versions of a script.

/// The two versions of a script.
#[derive(Clone, Copy, Debug, PartialEq, Eq)]
pub enum Version {
    /// Version 1: inputs alone, a line for each.
    One,
    /// Version 2: behind the line of each input is the line of its reply.
    Two,
}
