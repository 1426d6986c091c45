//! A step of the waiters, worked out on copies of those that its moments (clock readings, and marks
//! of services) touch: they wait, and a mark is of one of their services or the clock reaches their
//! deadline.
ghost use Rattle.std.specs.Prelude.{◌≡◌, ◌++◌, [], ◌∷◌, All, map, filter, if◌then◌else◌, IfOk, OnOk, IsOk};
ghost use Rattle.s6_events.specs.Rising.{AreRising};
ghost use Rattle.wait_conditions.specs.Kept.{waiter_view, with_moments, releases_seen};
ghost use Rattle.wait_conditions.specs.Watchers.{AreIndexed, AreDueFrom, serials_where, watches, touched_by};
ghost use Rattle.wait_conditions.specs.WaitsFields.{IsCounted, waiters_view};

use crate::reach::{Reach, reach_of};
use crate::releasing::{is_touched_by_any, place_from, take_in_all};
use crate::verdict::Verdict;
use crate::waiter::{Waiter, copy_of};
use crate::watchers::{Watcher, Watchers};
use s6_events::{Moment, NoMemory, Sid, WaitId};
use std::alloc::Allocator;

// Adds a copy of this waiter. It is a function of its own: inlined, a step that copies none would
// fill a place for one in its frame.
#[inline(never)]
fn push_copy<A: Allocator>(copies: &mut Vec<Waiter, A>, waiter: &Waiter) -> Result<(), NoMemory>
    requires waiter { IsCounted waiter.now }
    requires counted { All IsCounted copies.old.items }
    ensures copies { OnOk result (waiters_view copies.new.items
        ≡ waiters_view copies.old.items ++ waiter_view waiter.now ∷ []) }
    ensures counted { All IsCounted copies.new.items }
{
    copies.push(copy_of(waiter))?;
    Ok(())
}

// Adds a copy of this waiter, if one of the moments touches it.
fn copy_if_touched<A: Allocator>(
    copies: &mut Vec<Waiter, A>,
    waiter: &Waiter,
    moments: &[Moment],
) -> Result<(), NoMemory>
    requires waiter { IsCounted waiter.now }
    requires counted { All IsCounted copies.old.items }
    ensures copies { OnOk result (waiters_view copies.new.items ≡ waiters_view copies.old.items
        ++ (if touched_by moments.now (waiter_view waiter.now) then waiter_view waiter.now ∷ []
        else [])) }
    ensures counted { All IsCounted copies.new.items }
{
    if is_touched_by_any(waiter, moments) {
        push_copy(copies, waiter)?;
    }
    Ok(())
}

// Copies of those waiters that these moments touch, found by a look at each.
fn copy_among_all<A: Allocator>(
    alloc: A,
    waiters: &[Waiter],
    moments: &[Moment],
) -> Result<Vec<Waiter, A>, NoMemory>
    requires { All IsCounted waiters.now }
    ensures copies { IfOk result (λ copies. waiters_view copies.items
        ≡ filter (touched_by moments.now) (waiters_view waiters.now)) }
    ensures counted { IfOk result (λ copies. All IsCounted copies.items) }
{
    let mut copies = Vec::new(alloc);
    for waiter in waiters {
        copy_if_touched(&mut copies, waiter, moments)?;
    }
    Ok(copies)
}

// Copies of the waiters that watch this service; `watchers` has their serials, which rise, as those
// of `waiters` do.
fn copy_watching<A: Allocator>(
    alloc: A,
    waiters: &[Waiter],
    sid: Sid,
    watchers: &[Watcher],
) -> Result<Vec<Waiter, A>, NoMemory>
    requires counted { All IsCounted waiters.now }
    requires rising { AreRising (map (λ k. k.id) (waiters_view waiters.now)) }
    requires watchers { map (λ w. w.waiter) watchers.now
        ≡ serials_where (watches sid) (waiters_view waiters.now) }
    ensures copies { IfOk result (λ copies. waiters_view copies.items
        ≡ filter (watches sid) (waiters_view waiters.now)) }
    ensures counted { IfOk result (λ copies. All IsCounted copies.items) }
{
    let mut copies = Vec::new(alloc);
    let mut start = 0;
    for watcher in watchers {
        // The place of that waiter, which is not before `start`.
        let place = place_from(waiters, start, watcher.waiter);
        push_copy(&mut copies, &waiters[place])?;
        // The serials rise, so that the next waiter is behind this one.
        start = place + 1;
    }
    Ok(copies)
}

/// Copies of the waiters that these moments touch: those that wait, where a moment is a mark of one
/// of their services or reaches their deadline. `reach_of` tells which may be touched: none, those
/// that `watchers` lists for one service, or any. No waiter that waits has a deadline before `due`.
pub fn copy_touched<A: Allocator>(
    alloc: A,
    waiters: &[Waiter],
    watchers: &Watchers<A>,
    due: u64,
    moments: &[Moment],
) -> Result<Vec<Waiter, A>, NoMemory>
    requires counted { All IsCounted waiters.now }
    requires rising { AreRising (map (λ k. k.id) (waiters_view waiters.now)) }
    requires indexed { AreIndexed watchers.now.watchers (waiters_view waiters.now) }
    requires due { AreDueFrom due (waiters_view waiters.now) }
    ensures copies { IfOk result (λ copies. waiters_view copies.items
        ≡ filter (touched_by moments.now) (waiters_view waiters.now)) }
    ensures counted { IfOk result (λ copies. All IsCounted copies.items) }
    ensures quiet { moments.now ≡ [] → IsOk result }
{
    match reach_of(moments, due) {
        Reach::Nobody => Ok(Vec::new(alloc)),
        Reach::WatchersOf(sid) => copy_watching(alloc, waiters, sid, watchers.of(sid)),
        Reach::Anybody => copy_among_all(alloc, waiters, moments),
    }
}

/// The serials of these waiters, in the same order.
pub fn list_serials<A: Allocator>(alloc: A, waiters: &[Waiter]) -> Result<Vec<WaitId, A>, NoMemory>
    ensures serials { IfOk result
        (λ serials. serials.items ≡ map (λ k. k.id) (waiters_view waiters.now)) }
    ensures quiet { waiters_view waiters.now ≡ [] → IsOk result }
{
    let mut serials = Vec::new(alloc);
    for waiter in waiters {
        serials.push(waiter.id)?;
    }
    Ok(serials)
}

/// These waiters take in the moments. Returns the releases that these bring, by moment and then in
/// the order of the waiters.
pub fn release_all<A: Allocator + Copy>(
    alloc: A,
    waiters: &mut [Waiter],
    moments: &[Moment],
) -> Result<Vec<(WaitId, Verdict), A>, NoMemory>
    requires { All IsCounted waiters.old }
    ensures released { IfOk result (λ released. released.items
        ≡ releases_seen moments.now (waiters_view waiters.old)) }
    ensures quiet { moments.now ≡ [] → IsOk result }
{
    let mut released = Vec::new(alloc);
    for moment in moments {
        // Each waiter is released at most once, so that the releases of this moment have room.
        released.reserve(waiters.len())?;
        take_in_all(waiters, moment, &mut released);
    }
    Ok(released)
}

/// A copy of the moments, in the memory of `spare`: the list of an earlier step, which is left with
/// none.
pub fn keep_moments<A: Allocator + Copy>(
    spare: &mut Vec<Moment, A>,
    moments: &[Moment],
) -> Result<Vec<Moment, A>, NoMemory>
    ensures moments { IfOk result (λ own. own.items ≡ moments.now) }
    ensures quiet { moments.now ≡ [] → IsOk result }
{
    let none = Vec::new(*spare.allocator());
    let mut own = std::mem::replace(spare, none);
    own.clear();
    own.extend_from_slice(moments)?;
    Ok(own)
}
