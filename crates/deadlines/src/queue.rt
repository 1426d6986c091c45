//! Timers in the order of their moments; those of one moment in the order of the serials of their
//! services.
ghost use Rattle.std.specs.Prelude.{◌≡◌, ◌+◌, ◌<◌, ◌≤◌, ℕ, [], length, not, IfSome, IsSomeAnd, take, slice_get, true, false, sum_by, vec_len, vec_capacity};
ghost use Rattle.std.specs.List.{list_all};
ghost use Rattle.deadlines.specs.Queue.{is_before, in_moment_order, is_this};
ghost use Rattle.deadlines.specs.Timers.{due_by};
ghost use Rattle.deadlines.specs.declared.timer.Timer.{Timer};

use crate::timer::Timer;
use s6_events::At;
use std::alloc::Allocator;

// Whether a timer goes off before another one: at an earlier moment, or at the same one with a
// lower serial of its service (`sid`).
fn is_before(timer: &Timer, other: &Timer) -> bool
    ensures { result ≡ is_before timer.now other.now }
{
    if timer.at.millis() == other.at.millis() {
        timer.sid.0 < other.sid.0
    } else {
        timer.at.millis() < other.at.millis()
    }
}

// Whether no timer of the queue goes off before this one.
fn comes_first(queue: &[Timer], timer: &Timer) -> bool
    ensures yes { result ≡ true
        → IfSome (slice_get queue.now 0) (λ t. is_before t timer.now ≡ false) }
    ensures no { result ≡ false
        → IsSomeAnd (slice_get queue.now 0) (λ t. is_before t timer.now ≡ true) }
{
    let Some(first) = queue.first() else {
        return true;
    };
    !is_before(first, timer)
}

// Whether all timers of the queue go off before this one.
fn comes_last(queue: &[Timer], timer: &Timer) -> bool
    requires { in_moment_order queue.now ≡ true }
    ensures { result ≡ list_all (λ t. is_before t timer.now) queue.now }
{
    let Some(end) = queue.len().checked_sub(1) else {
        return true;
    };
    let last = queue[end];
    is_before(&last, timer)
}

// The first place of a timer that doesn't go off before this one, or the end. Most timers are taken
// from the front and put at the end, so that both are looked at first.
fn place_in(queue: &[Timer], timer: &Timer) -> usize
    requires { in_moment_order queue.now ≡ true }
    ensures bound { result ≤ length queue.now }
    ensures before { list_all (λ t. is_before t timer.now) (take result queue.now) ≡ true }
    ensures stop { IfSome (slice_get queue.now result) (λ t. is_before t timer.now ≡ false) }
{
    if comes_first(queue, timer) {
        return 0;
    }
    if comes_last(queue, timer) {
        return queue.len();
    }
    let mut low = 0;
    let mut high = queue.len();
    while low < high {
        let middle = low + (high - low) / 2;
        let other = queue[middle];
        if is_before(&other, timer) {
            low = middle + 1;
        } else {
            high = middle;
        }
    }
    low
}

/// Takes this timer, which is in the queue, out of it.
pub fn take_out<A: Allocator>(queue: &mut Vec<Timer, A>, timer: &Timer)
    requires order { in_moment_order queue.old.items ≡ true }
    requires there { 0 < sum_by (is_this timer.now) queue.old.items }
    ensures order { in_moment_order queue.new.items ≡ true }
    ensures left { (counted : Timer → ℕ) → sum_by counted queue.new.items + counted timer.now
        ≡ sum_by counted queue.old.items }
    ensures len { vec_len queue.new + 1 ≡ vec_len queue.old }
    ensures capacity { vec_capacity queue.new ≡ vec_capacity queue.old }
{
    // The timer is in the queue, so that it is the first one that doesn't go off before itself.
    let place = place_in(queue, timer);
    queue.remove(place);
}

/// Puts this timer into the queue, at its place; there is room for it.
pub fn put_in<A: Allocator>(queue: &mut Vec<Timer, A>, timer: &Timer)
    requires order { in_moment_order queue.old.items ≡ true }
    requires room { vec_len queue.old < vec_capacity queue.old }
    ensures order { in_moment_order queue.new.items ≡ true }
    ensures more { (counted : Timer → ℕ) → sum_by counted queue.new.items
        ≡ sum_by counted queue.old.items + counted timer.now }
    ensures len { vec_len queue.new ≡ vec_len queue.old + 1 }
    ensures capacity { vec_capacity queue.old ≤ vec_capacity queue.new }
{
    let place = place_in(queue, timer);
    queue.insert(place, *timer).unwrap();
}

/// Whether the first timer of the queue is due: where it is not, none is.
pub fn is_any_due(queue: &[Timer], now: At) -> bool
    requires { in_moment_order queue.now ≡ true }
    ensures { result ≡ false → due_by now queue.now ≡ [] }
{
    match queue.first() {
        Some(timer) => timer.at.millis() <= now.millis(),
        None => false,
    }
}
