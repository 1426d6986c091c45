//! How a program ended.
/// How a program ended: with an exit code, or killed by a signal. Page `s6-supervise`.
#[derive(Clone, Copy, PartialEq, Eq, Debug)]
pub enum Exit {
    /// It ended by itself, with this code.
    Code(u8),
    /// A signal of this number killed it; 0 where the system did not tell the number (this
    /// project's own rule).
    Killed(u8),
}
