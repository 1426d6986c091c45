//! The deadline of a waiter, and when it is reached.
ghost use Rattle.std.specs.Prelude.{◌≡◌};
ghost use Rattle.wait_conditions.specs.Refusal.{deadline_of};
ghost use Rattle.wait_conditions.specs.Verdict.{reaches};

use s6_events::{At, Moment};

/// The moment `timeout` milliseconds after `start`; None where `timeout` is 0.
pub fn deadline_for(timeout: u32, start: At) -> Option<u64>
    ensures { result ≡ deadline_of timeout start }
{
    if timeout == 0 {
        None
    } else {
        Some(start.later(timeout))
    }
}

/// Whether a moment is a clock reading at or past the deadline. A mark of a service moves no clock.
pub fn reaches_deadline(deadline: u64, moment: &Moment) -> bool
    ensures { result ≡ reaches deadline moment.now }
{
    match moment {
        Moment::Clock(at) => deadline <= at.millis(),
        Moment::Event(_, _) => false,
    }
}
