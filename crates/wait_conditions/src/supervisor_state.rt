//! What the newest marks of a service say, in all the history and since a waiter was made: its
//! letter, a start, a failure, an end.
ghost use Rattle.std.specs.Prelude.{◌≡◌, []};
ghost use Rattle.s6_events.specs.CurrentLetter.{letter_after};
ghost use Rattle.s6_events.specs.Newest.{mark_of};
ghost use Rattle.wait_conditions.specs.OneMore.{spawned_after};
ghost use Rattle.wait_conditions.specs.SupervisorState.{state_of, since_of, state_after, since_after};

use crate::condition_fails::{next_ended, next_failed};
use s6_events::{Mark, Moment, Sid, letter_after};

/// What is known of a service: its current letter, and whether its supervisor has ended.
#[derive(Clone, Copy, Debug, PartialEq, Eq)]
pub struct SupervisorState {
    pub letter: Mark,
    pub ended: bool,
}

/// What is known of a service since a waiter was made: whether it was started, and whether it
/// failed for good and was not started since.
#[derive(Clone, Copy, Debug)]
pub struct SinceState {
    pub spawned: bool,
    pub failed: bool,
}

// The mark in a moment, if the moment is an event of this service.
pub fn mark_in(sid: Sid, moment: &Moment) -> Option<Mark>
    ensures { result ≡ mark_of sid moment.now }
{
    match moment {
        Moment::Event(other, mark) if other.0 == sid.0 => Some(*mark),
        _ => None,
    }
}

// The current letter of a service (the newest of its marks u, U, d and D) after one more mark, if
// there is one, where it was `letter` before.
fn next_letter(mark: Option<Mark>, letter: Mark) -> Mark
    ensures { result ≡ letter_after mark letter }
{
    match mark {
        Some(mark) => letter_after(letter, mark),
        None => letter,
    }
}

// Whether a service was started since the waiter was made, after one more mark, if there is one;
// `spawned` is whether it was before.
fn next_spawned(mark: Option<Mark>, spawned: bool) -> bool
    ensures { result ≡ spawned_after mark spawned }
{
    match mark {
        Some(Mark::Spawned) => true,
        _ => spawned,
    }
}

impl SupervisorState {
    /// What is known of a service with no mark: its current letter is D, as of one that is down
    /// with `finish` done.
    pub fn unseen() -> SupervisorState
        ensures { result ≡ state_of 0 [] }
    {
        SupervisorState {
            letter: Mark::FinishDone,
            ended: false,
        }
    }

    /// What is known of a service after one more mark, if there is one: its current letter, and
    /// whether its supervisor has ended.
    pub fn after(self, mark: Option<Mark>) -> SupervisorState
        ensures { result ≡ state_after mark self }
    {
        SupervisorState {
            letter: next_letter(mark, self.letter),
            ended: next_ended(mark, self.ended),
        }
    }
}

impl SinceState {
    /// What is known of a service since a waiter was made, where no moment has come yet: it was not
    /// started, and did not fail.
    pub fn fresh() -> SinceState
        ensures { result ≡ since_of 0 [] }
    {
        SinceState {
            spawned: false,
            failed: false,
        }
    }

    /// What is known of a service since a waiter was made, after one more mark, if there is one:
    /// whether it was started, and whether it failed for good.
    pub fn after(self, mark: Option<Mark>) -> SinceState
        ensures { result ≡ since_after mark self }
    {
        SinceState {
            spawned: next_spawned(mark, self.spawned),
            failed: next_failed(mark, self.failed),
        }
    }
}
