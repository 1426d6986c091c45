//! How long an input line of a script is.

/// The most bytes of an input line, with its newline.
pub const INPUT_LINE_LIMIT: usize = 65_536;
