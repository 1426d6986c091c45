//! Waiters that take in moments (clock readings, and marks of services), and the releases that
//! these bring: a waiter waits no longer.
ghost use Rattle.std.specs.Prelude.{◌≡◌, ◌==◌, ◌≤◌, ◌+◌, ◌-◌, ◌++◌, ◌∷◌, ℕ, All, Bool, List, not, length, map, filter, drop, vec_len, vec_capacity, option_to_list, if◌then◌else◌};
ghost use Rattle.std.specs.List.{filter_map};
ghost use Rattle.s6_events.specs.Rising.{AreRising};
ghost use Rattle.wait_conditions.specs.Kept.{StoredWaiter, waiter_view, still_waits, with_moment, with_moments, release_seen};
ghost use Rattle.wait_conditions.specs.Watchers.{AreIndexed, IsFirst, serials_of, serials_where, touched_by};
ghost use Rattle.wait_conditions.specs.WaitsFields.{IsCounted, waiters_view};
ghost use Rattle.wait_conditions.specs.Watch.{new_release};

use crate::verdict::{Verdict, WaitState};
use crate::waiter::{Waiter, is_touched, take_in, waits_still};
use crate::watchers::Watchers;
use s6_events::{Moment, WaitId};
use std::alloc::Allocator;

// The verdict of a waiter that waited before and is released after; None for any other one.
fn new_verdict(before: WaitState, after: WaitState) -> Option<Verdict>
    ensures { result ≡ new_release before after }
{
    match (before, after) {
        (WaitState::Waiting, WaitState::Released(verdict)) => Some(verdict),
        _ => None,
    }
}

// The waiter takes in the moment. Returns its release, if the moment brings it.
fn take_in_for_release(waiter: &mut Waiter, moment: &Moment) -> Option<(WaitId, Verdict)>
    requires { IsCounted waiter.old }
    ensures waiter { waiter_view waiter.new ≡ with_moment moment.now (waiter_view waiter.old) }
    ensures counted { IsCounted waiter.new }
    ensures release { result ≡ release_seen moment.now (waiter_view waiter.old) }
{
    let before = waiter.standing;
    let id = waiter.id;
    take_in(waiter, moment);
    new_verdict(before, waiter.standing).map(|verdict| (id, verdict))
}

// Adds the release of a waiter to the list, if there is one. The list has room for it.
fn note<A: Allocator>(released: &mut Vec<(WaitId, Verdict), A>, release: Option<(WaitId, Verdict)>)
    requires { vec_len released.old + 1 ≤ vec_capacity released.old }
    ensures items { released.new.items ≡ released.old.items ++ option_to_list release }
    ensures len { vec_len released.new ≤ vec_len released.old + 1 }
    ensures capacity { vec_capacity released.new ≡ vec_capacity released.old }
{
    if let Some(release) = release {
        released.push_reserved(release);
    }
}

/// Every waiter takes in the moment, and the releases are added to the list; there is room for
/// them.
pub fn take_in_all<A: Allocator>(
    waiters: &mut [Waiter],
    moment: &Moment,
    released: &mut Vec<(WaitId, Verdict), A>,
)
    requires counted { All IsCounted waiters.old }
    requires room { vec_len released.old + length waiters.old ≤ vec_capacity released.old }
    ensures waiters { waiters_view waiters.new
        ≡ map (with_moment moment.now) (waiters_view waiters.old) }
    ensures counted { All IsCounted waiters.new }
    ensures released { released.new.items
        ≡ released.old.items ++ filter_map (release_seen moment.now)
        (waiters_view waiters.old) }
{
    for i in 0..waiters.len() {
        let release = take_in_for_release(&mut waiters[i], moment);
        note(released, release);
    }
}

/// Whether one of the moments touches the waiter.
pub fn is_touched_by_any(waiter: &Waiter, moments: &[Moment]) -> bool
    ensures { result ≡ touched_by moments.now (waiter_view waiter.now) }
{
    moments.iter().any(|moment| is_touched(waiter, moment))
}

// The place of the first waiter whose serial is not below `id`: that of `id` itself, where there is
// one. The serials rise. Its clause speaks of a waiter that is the first to pass some test,
// whatever the test is.
fn place_in(waiters: &[Waiter], id: WaitId) -> usize
    requires { AreRising (map (λ k. k.id) (waiters_view waiters.now)) }
    ensures bound { result ≤ length waiters.now }
    ensures first { (p : StoredWaiter → Bool) (rest : List ℕ)
        → serials_where p (waiters_view waiters.now) ≡ id ∷ rest
        → IsFirst p (waiters_view waiters.now) rest result }
{
    waiters.partition_point(|waiter| waiter.id.0 < id.0)
}

/// The place of the waiter with the serial `id`, or of the first one above it, where only the
/// waiters from `start` on are looked at.
pub fn place_from(waiters: &[Waiter], start: usize, id: WaitId) -> usize
    requires start { start ≤ length waiters.now }
    requires rising { AreRising (map (λ k. k.id) (waiters_view waiters.now)) }
    ensures from { start ≤ result }
    ensures bound { result ≤ length waiters.now }
    ensures first { (p : StoredWaiter → Bool) (rest : List ℕ)
        → serials_where p (drop start (waiters_view waiters.now)) ≡ id ∷ rest
        → IsFirst p (drop start (waiters_view waiters.now)) rest (result - start) }
{
    start + place_in(&waiters[start..], id)
}

// A waiter takes in these moments, one after the other.
fn take_in_moments(waiter: &mut Waiter, moments: &[Moment])
    requires { IsCounted waiter.old }
    ensures waiter { waiter_view waiter.new ≡ with_moments moments.now (waiter_view waiter.old) }
    ensures counted { IsCounted waiter.new }
{
    for moment in moments {
        take_in(waiter, moment);
    }
}

// A waiter takes in these moments; where they release it, it watches no service any more, and is
// taken out of `watchers`.
fn change<A: Allocator>(waiter: &mut Waiter, watchers: &mut Watchers<A>, moments: &[Moment])
    requires { IsCounted waiter.old }
    ensures waiter { waiter_view waiter.new ≡ with_moments moments.now (waiter_view waiter.old) }
    ensures counted { IsCounted waiter.new }
    ensures watchers { (sid : ℕ) → serials_of sid watchers.new.watchers
        ≡ (if still_waits (waiter_view waiter.new) then serials_of sid watchers.old.watchers
        else filter (λ id. not (id == waiter.old.id)) (serials_of sid watchers.old.watchers)) }
    ensures room { watchers.old.spare_capacity ≤ watchers.new.spare_capacity }
{
    take_in_moments(waiter, moments);
    if !waits_still(waiter) {
        watchers.leave(waiter.id);
    }
}

/// The waiters of these serials take in the moments, one after the other. They are all those that
/// the moments touch, so that the others stay as they are.
pub fn change_touched<A: Allocator>(
    waiters: &mut [Waiter],
    watchers: &mut Watchers<A>,
    touched: &[WaitId],
    moments: &[Moment],
)
    requires counted { All IsCounted waiters.old }
    requires rising { AreRising (map (λ k. k.id) (waiters_view waiters.old)) }
    requires indexed { AreIndexed watchers.old.watchers (waiters_view waiters.old) }
    requires touched { touched.now
        ≡ serials_where (touched_by moments.now) (waiters_view waiters.old) }
    ensures waiters { waiters_view waiters.new
        ≡ map (with_moments moments.now) (waiters_view waiters.old) }
    ensures counted { All IsCounted waiters.new }
    ensures indexed { AreIndexed watchers.new.watchers (waiters_view waiters.new) }
    ensures room { watchers.old.spare_capacity ≤ watchers.new.spare_capacity }
{
    let mut start = 0;
    for id in touched {
        let place = place_from(waiters, start, *id);
        change(&mut waiters[place], watchers, moments);
        // The serials rise, so that the next waiter is behind this one.
        start = place + 1;
    }
}
