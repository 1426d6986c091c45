//! Why a text makes no pattern.
use thiserror::Error;

/// Why a pattern was not built.
#[derive(Clone, Copy, Debug, PartialEq, Eq, Error)]
pub enum PatternFault {
    /// The text does not have 1 to 256 bytes, or has one below 0x20 or above 0x7e.
    #[error("a pattern has 1 to 256 bytes from a space to a tilde")]
    Length = 1,
    /// `regex` refused the text, and not for want of memory.
    #[error("the pattern was refused")]
    Refused = 2,
    /// Memory was refused.
    #[error("out of memory")]
    NoMemory = 3,
}
