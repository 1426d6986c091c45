//! The seven marks of supervisors, and their letters.
ghost use Rattle.std.specs.Prelude.{◌≡◌};
ghost use Rattle.s6_events.specs.Mark.{letter_of};

use super::letter::Letter;

/// A mark: an event of a service, which its supervisor sends to the event directory of that
/// service. Page `s6-supervise`, "Events".
#[derive(Clone, Copy, Debug, Default, PartialEq, Eq)]
pub enum Mark {
    /// `s`: the supervisor started.
    #[default]
    SupervisorStarted,
    /// `u`: `run` was spawned.
    Spawned,
    /// `U`: the daemon is ready.
    Ready,
    /// `d`: `run` died.
    Died,
    /// `D`: `finish` ended, or there was none; the service may be started again.
    FinishDone,
    /// `O`: `finish` reported a permanent failure.
    PermanentFailure,
    /// `x`: the supervisor ended.
    SupervisorEnded,
}

impl Mark {
    /// The letter that stands for it.
    pub fn letter(self) -> Letter
        ensures { result ≡ letter_of self }
    {
        let byte = match self {
            Mark::SupervisorStarted => b's',
            Mark::Spawned => b'u',
            Mark::Ready => b'U',
            Mark::Died => b'd',
            Mark::FinishDone => b'D',
            Mark::PermanentFailure => b'O',
            Mark::SupervisorEnded => b'x',
        };
        Letter::of(byte)
    }
}
