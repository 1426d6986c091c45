//! The next deadline of the waiters that wait still.
ghost use Rattle.std.specs.Prelude.{◌≡◌, map};
ghost use Rattle.wait_conditions.specs.Kept.{waiter_view};
ghost use Rattle.wait_conditions.specs.NextDeadline.{earlier_of, earliest, stored_until};
ghost use Rattle.wait_conditions.specs.WaitsFields.{waiters_view};

use crate::waiter::{Waiter, waits_still};

/// The earlier of two moments, or the one that there is; None where there is none.
pub fn earlier_of(one: Option<u64>, other: Option<u64>) -> Option<u64>
    ensures { result ≡ earlier_of one other }
{
    let Some(moment) = one else {
        return other;
    };
    match other {
        None => Some(moment),
        Some(other) => Some(moment.min(other)),
    }
}

// The deadline of a waiter that waits still; None where it has none, or was released.
fn awaited_until(waiter: &Waiter) -> Option<u64>
    ensures { result ≡ stored_until (waiter_view waiter.now) }
{
    if waits_still(waiter) {
        waiter.deadline
    } else {
        None
    }
}

/// The earliest deadline of those waiters that wait still; None where none of them has one.
pub fn earliest_deadline(waiters: &[Waiter]) -> Option<u64>
    ensures { result ≡ earliest (map stored_until (waiters_view waiters.now)) }
{
    let mut next = None;
    for waiter in waiters {
        next = earlier_of(next, awaited_until(waiter));
    }
    next
}
