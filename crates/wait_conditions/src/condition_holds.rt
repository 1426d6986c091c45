//! Whether a condition holds of a service. Its current letter, the newest of its marks u, U, d and
//! D, says whether it is up, ready or down. When a condition fails is in `condition_fails.rt`.
ghost use Rattle.std.specs.Prelude.{◌≡◌};
ghost use Rattle.wait_conditions.specs.Holds.{suits, holds_at};

use s6_events::{Condition, Mark};

// Whether a service with this current letter is as the condition asks, apart from whether it was
// started since the waiter was made.
fn letter_suits(condition: Condition, letter: Mark) -> bool
    ensures { result ≡ suits condition letter }
{
    match condition {
        Condition::Up | Condition::Restarted => matches!(letter, Mark::Spawned | Mark::Ready),
        Condition::Ready | Condition::RestartedReady => matches!(letter, Mark::Ready),
        Condition::Down => matches!(letter, Mark::Died | Mark::FinishDone),
        Condition::Finished => matches!(letter, Mark::FinishDone),
    }
}

/// Whether a condition holds of a service with this current letter. `spawned`: it was started since
/// the waiter was made.
pub fn condition_holds(condition: Condition, letter: Mark, spawned: bool) -> bool
    ensures { result ≡ holds_at condition letter spawned }
{
    match condition {
        Condition::Restarted | Condition::RestartedReady => letter_suits(condition, letter)
            && spawned,
        _ => letter_suits(condition, letter),
    }
}
