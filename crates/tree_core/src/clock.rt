//! The clock of a step, and the moments that join the history: the clock reading first, then the
//! marks.
ghost use Rattle.std.specs.Prelude.{◌≡◌, ◌+◌, ◌≤◌, ◌++◌, [], map, max, length, IfOk, IsOkAnd};
ghost use Rattle.s6_events.specs.At.{last_moment};
ghost use Rattle.svscan_core.specs.Moves.{moment_of};
ghost use Rattle.tree_core.specs.Step.{clock_moments};

use s6_events::{At, Moment, NoMemory};
use std::alloc::Allocator;
use svscan_core::Event;

/// The later of two moments: the clock after a step is the later of the clock and the moment of its
/// input.
pub fn later(a: At, b: At) -> At
    ensures later { result ≡ max a b }
    ensures bound { result ≤ last_moment }
{
    if a.millis() < b.millis() { b } else { a }
}

/// The moments of a step, for the history, in a list that has none yet: the clock reading, where
/// the clock moves on from `clock` to the later moment `at`, and then the marks of services.
pub fn moments_of<A: Allocator + Copy>(
    mut moments: Vec<Moment, A>,
    clock: At,
    at: At,
    events: &[Event],
) -> Result<Vec<Moment, A>, NoMemory>
    requires { moments.items ≡ [] }
    ensures moments { IfOk result
        (λ moments. moments.items ≡ clock_moments clock at ++ map moment_of events.now) }
    ensures count { IfOk result (λ moments. length moments.items ≤ 1 + length events.now) }
    ensures quiet { at ≤ clock → events.now ≡ [] → IsOkAnd result (λ moments. moments.items ≡ []) }
{
    if clock.millis() < at.millis() {
        moments.push(Moment::Clock(at))?;
    }
    for event in events {
        moments.push(Moment::Event(event.sid, event.mark))?;
    }
    Ok(moments)
}
