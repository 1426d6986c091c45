//! The limits of a script: how many input lines it has, and how long its reply lines are.

/// The most input lines of a script.
pub const INPUT_LIMIT: u64 = 1_000_000;

/// The most bytes of a reply line, with its newline.
pub const REPLY_LINE_LIMIT: usize = 262_144;
