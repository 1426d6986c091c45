//! A service's timer, and one change of it.
use s6_events::{At, Sid};

/// The timer of a service, set to a moment.
#[derive(Clone, Copy, PartialEq, Eq, Debug)]
pub struct Timer {
    pub sid: Sid,
    pub at: At,
}

/// What a step does to the timer of a service.
#[derive(Clone, Copy, PartialEq, Eq, Debug)]
pub enum TimerChange {
    /// It is set to this moment, in place of the one that it had.
    Set(Sid, At),
    /// It is cleared, where it was set.
    Clear(Sid),
}
