//! Verdicts: which one a waiter gets, and what its state is.
ghost use Rattle.std.specs.Prelude.{◌≡◌};
ghost use Rattle.wait_conditions.specs.Counts.{count_is_enough, count_is_hopeless, verdict_by};

use crate::counts::ServiceCounts;
use s6_events::Mode;

/// How a wait ends. Page `s6-svwait`; `Gone` is chosen here.
#[derive(Clone, Copy, Debug, PartialEq, Eq)]
pub enum Verdict {
    /// The condition held, of all the services at one moment or of one of them.
    Held,
    /// The condition was given up, and a service failed for good.
    Failed,
    /// The condition was given up, since supervisors have ended.
    Gone,
    /// The clock came to the deadline first.
    TimedOut,
}

/// The state of a waiter.
#[derive(Clone, Copy, Debug, PartialEq, Eq)]
pub enum WaitState {
    /// It waits still.
    Waiting,
    /// It was released, with this verdict, which never changes.
    Released(Verdict),
}

// Whether the condition holds of as many services as the mode asks for: of all, or of one.
// `services` is how many the waiter has.
fn is_enough(counts: ServiceCounts, mode: Mode, services: usize) -> bool
    ensures { result ≡ count_is_enough mode services counts.holding }
{
    match mode {
        Mode::All => counts.holding == services,
        Mode::One => counts.holding > 0,
    }
}

// Whether the condition fails (is given up) of so many services that it can't hold any more of as
// many as the mode asks for: all, or one.
fn is_hopeless(counts: ServiceCounts, mode: Mode, services: usize) -> bool
    ensures { result ≡ count_is_hopeless mode services counts.failing }
{
    match mode {
        Mode::All => counts.failing > 0,
        Mode::One => counts.failing == services,
    }
}

/// The verdict over `services` services, by their counters. `late`: the deadline has come. It is
/// the first that applies of Held, Failed or Gone, TimedOut, and Waiting.
pub fn verdict_of(counts: ServiceCounts, mode: Mode, services: usize, late: bool) -> WaitState
    ensures { result ≡ verdict_by mode services counts late }
{
    if is_enough(counts, mode, services) {
        WaitState::Released(Verdict::Held)
    } else if is_hopeless(counts, mode, services) {
        // A service failed for good; else it is given up only since supervisors have ended.
        if counts.permanent > 0 {
            WaitState::Released(Verdict::Failed)
        } else {
            WaitState::Released(Verdict::Gone)
        }
    } else if late {
        WaitState::Released(Verdict::TimedOut)
    } else {
        WaitState::Waiting
    }
}
