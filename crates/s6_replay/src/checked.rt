//! What checking a recorded script found.

/// What `check` found.
#[derive(Clone, Copy, Debug, PartialEq, Eq)]
pub enum Checked {
    /// Every reply is the machine's. There were this many inputs.
    Legal(u64),
    /// The reply in this line is not the machine's, and each before it is. The head line is line 1.
    Differs(u64),
}
