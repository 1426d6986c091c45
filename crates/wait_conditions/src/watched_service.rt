//! What a waiter knows of one of its services.
ghost use Rattle.std.specs.Prelude.{◌≡◌};
ghost use Rattle.wait_conditions.specs.Watched.{watched_as, watched_after};

use crate::condition_fails::{Failure, condition_failure};
use crate::condition_holds::condition_holds;
use crate::supervisor_state::{SinceState, SupervisorState};
use s6_events::{Condition, Mark, Sid};

/// A service that a waiter waits for: what all its marks say of it (`state`), and what those say
/// that came since the waiter was made (`since`); and, by these, whether the condition holds of it,
/// or else why it is given up, if it is.
#[derive(Clone, Copy, Debug)]
pub struct WatchedService {
    pub sid: Sid,
    pub state: SupervisorState,
    pub since: SinceState,
    pub holds: bool,
    pub failure: Option<Failure>,
}

impl WatchedService {
    /// The service of this serial, of which all marks say `state`, and those since the waiter was
    /// made say `since`. From these follows whether the condition holds of it, and if not, why it
    /// is given up (`failure`), if it is.
    pub fn new(
        condition: Condition,
        sid: Sid,
        state: SupervisorState,
        since: SinceState,
    ) -> WatchedService
        ensures { result ≡ watched_as condition sid state since }
    {
        let holds = condition_holds(condition, state.letter, since.spawned);
        let failure = if holds {
            None
        } else {
            condition_failure(condition, since.failed, state.ended)
        };
        WatchedService {
            sid,
            state,
            since,
            holds,
            failure,
        }
    }

    /// The service after one more mark of it, if there is one.
    pub fn after(self, condition: Condition, mark: Option<Mark>) -> WatchedService
        ensures { result ≡ watched_after condition mark self }
    {
        match mark {
            None => self,
            Some(_) => WatchedService::new(
                condition,
                self.sid,
                self.state.after(mark),
                self.since.after(mark),
            ),
        }
    }
}

/// What fills the unused places of a list of fixed size.
impl Default for WatchedService {
    // What fills the unused places of a list of fixed size: nobody reads it.
    fn default() -> WatchedService {
        WatchedService {
            sid: Sid(0),
            state: SupervisorState::unseen(),
            since: SinceState::fresh(),
            holds: false,
            failure: None,
        }
    }
}
