//! What a waiter waits for, and for how many of its services.
/// What a waiter, as an `s6-svwait` makes one, waits for in each of its services. Pages `s6-svwait`
/// and `s6-svlisten`.
#[derive(Clone, Copy, Debug, Default, PartialEq, Eq)]
pub enum Condition {
    /// `u`: it is up.
    #[default]
    Up,
    /// `U`: it is up and ready.
    Ready,
    /// `d`: it is down.
    Down,
    /// `D`: it is down, and `finish` is done, so that it may be started again.
    Finished,
    /// `r`: it is up after a start since the waiter was made.
    Restarted,
    /// `R`: it is up and ready after a start since the waiter was made.
    RestartedReady,
}

/// Of how many of its services a waiter's condition has to hold. Page `s6-svwait`.
#[derive(Clone, Copy, Debug, Default, PartialEq, Eq)]
pub enum Mode {
    /// `a`: all of them, at one moment.
    #[default]
    All,
    /// `o`: one of them.
    One,
}
