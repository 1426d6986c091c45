//! The state of a service in one word, by its status row, and by what its letters and its last
//! start say.
ghost use Rattle.std.specs.Prelude.{◌≡◌};
ghost use Rattle.server_rules.specs.States.{started_state, state_after_failed_start, state_of, state_word, stays_down, supervised_state, up_state};

use crate::roster::Ending;
use supervise_core::Row;

/// The state of a service. The words are this program's own, not those of s6.
#[derive(Clone, Copy, Debug, PartialEq, Eq)]
pub enum StateWord {
    /// `paused`: it is up, and was stopped by SIGSTOP.
    Paused,
    /// `ready`: it is up, and has said that it is ready.
    Ready,
    /// `up`: it is up.
    Up,
    /// `finishing`: it has died, and its `finish` isn't done.
    Finishing,
    /// `starting`: it is to be started, and hasn't run yet.
    Starting,
    /// `startfailed`: it is to be started, and the system refused its last start.
    StartFailed,
    /// `restarting`: it has died, its `finish` is done, and it is to be started again.
    Restarting,
    /// `down`: it is down and not wanted up, so it stays down.
    Down,
    /// `failed`: it failed for good, and stays down.
    Failed,
    /// `gone`: its supervisor has ended: it was told `x`, its directory was gone at a `-h`, or the
    /// tree ends.
    Gone,
}

// The state of a service that is up.
fn up_state(row: &Row) -> StateWord
    ensures { result ≡ up_state row.now.paused row.now.ready }
{
    if row.paused {
        StateWord::Paused
    } else if row.ready {
        StateWord::Ready
    } else {
        StateWord::Up
    }
}

// The state of a service that stays down. `ending` is how it is over, if it is.
fn stays_down(ending: Option<Ending>) -> StateWord
    ensures { result ≡ stays_down ending }
{
    match ending {
        Some(Ending::Failed) => StateWord::Failed,
        _ => StateWord::Down,
    }
}

// The state of a service whose supervisor is there. The row of a service that is down has an `exit`
// once a run has ended, and is `ready` once the `finish` after that is done.
fn supervised_state(ending: Option<Ending>, row: &Row) -> StateWord
    ensures { result ≡ supervised_state ending row.now }
{
    if row.up {
        up_state(row)
    } else if !row.ready && row.exit.is_some() {
        StateWord::Finishing
    } else if !row.wanted_up {
        stays_down(ending)
    } else if row.exit.is_some() {
        StateWord::Restarting
    } else {
        StateWord::Starting
    }
}

// The state after a failed start: instead of `starting` or `restarting` it is `startfailed`.
fn state_after_failed_start(state: StateWord) -> StateWord
    ensures { result ≡ state_after_failed_start state }
{
    match state {
        StateWord::Starting | StateWord::Restarting => StateWord::StartFailed,
        _ => state,
    }
}

// The state of a service whose supervisor is there: `state`, or `startfailed` where its start
// failed and `state` is `starting` or `restarting`.
fn started_state(start_failed: bool, state: StateWord) -> StateWord
    ensures { result ≡ started_state start_failed state }
{
    if start_failed {
        state_after_failed_start(state)
    } else {
        state
    }
}

/// The state of a service, by what its letters say of its end, by whether its start failed since
/// the last of them, and by its row. Page `s6-svstat` for the row.
pub fn state_of(ending: Option<Ending>, start_failed: bool, row: &Row) -> StateWord
    ensures { result ≡ state_of ending start_failed row.now }
{
    match ending {
        Some(Ending::Gone) => StateWord::Gone,
        _ => started_state(start_failed, supervised_state(ending, row)),
    }
}

impl StateWord {
    /// Its word.
    pub fn word(self) -> &'static [u8]
        ensures { result.now ≡ state_word self }
    {
        match self {
            StateWord::Paused => b"paused",
            StateWord::Ready => b"ready",
            StateWord::Up => b"up",
            StateWord::Finishing => b"finishing",
            StateWord::Starting => b"starting",
            StateWord::StartFailed => b"startfailed",
            StateWord::Restarting => b"restarting",
            StateWord::Down => b"down",
            StateWord::Failed => b"failed",
            StateWord::Gone => b"gone",
        }
    }
}
