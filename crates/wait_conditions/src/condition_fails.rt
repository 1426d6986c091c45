//! When a condition that does not hold is given up (fails): for good, where it asks for up and the
//! newest u or O since the waiter was made is an O; else where the newest s or x of the service is
//! an x. Both are brought up to date with each mark, in `supervisor_state.rt`.
ghost use Rattle.std.specs.Prelude.{◌≡◌};
ghost use Rattle.wait_conditions.specs.Fails.{failure_at};
ghost use Rattle.wait_conditions.specs.OneMore.{ended_after, failed_after};

use s6_events::{Condition, Mark};

/// Why a condition that doesn't hold of a service is given up.
#[derive(Clone, Copy, Debug, PartialEq, Eq)]
pub enum Failure {
    /// It asks for up, and the service failed for good since the waiter was made.
    Permanent,
    /// The supervisor of the service has ended.
    Unsupervised,
}

/// Whether the supervisor of a service has ended, after one more mark, if there is one: the newest
/// of its marks s and x is an x. `ended` is whether it had before.
pub fn next_ended(mark: Option<Mark>, ended: bool) -> bool
    ensures { result ≡ ended_after mark ended }
{
    match mark {
        Some(Mark::SupervisorStarted) => false,
        Some(Mark::SupervisorEnded) => true,
        _ => ended,
    }
}

/// Whether a service has failed for good and was not started since, after one more mark, if there
/// is one: the newest of its marks u and O is an O. `failed` is whether it had before.
pub fn next_failed(mark: Option<Mark>, failed: bool) -> bool
    ensures { result ≡ failed_after mark failed }
{
    match mark {
        Some(Mark::Spawned) => false,
        Some(Mark::PermanentFailure) => true,
        _ => failed,
    }
}

/// Why a condition that doesn't hold of a service is given up; None where it may hold yet.
/// `failed`: the service failed for good since the waiter was made, and was not started since;
/// `ended`: its supervisor has ended.
pub fn condition_failure(condition: Condition, failed: bool, ended: bool) -> Option<Failure>
    ensures { result ≡ failure_at condition failed ended }
{
    let asks_up = !matches!(condition, Condition::Down | Condition::Finished);
    if asks_up && failed {
        Some(Failure::Permanent)
    } else if ended {
        Some(Failure::Unsupervised)
    } else {
        None
    }
}
