//! The waiters that stand, in the order in which they were made; which of them watch which service
//! (`watchers`); and a moment before which no deadline of those that wait lies (`due`).
ghost use Rattle.std.specs.Prelude.{◌≡◌, ◌≤◌, ◌<◌, ◌++◌, [], ◌∷◌, All, IfOk, IsOk, OnOk, OnErr, None, false, true, length, map, filter, vec_len, vec_capacity};
ghost use Rattle.std.specs.List.{list_any};
ghost use Rattle.wait_conditions.specs.Kept.{waiter_view, standing_stored, standing_kept, is_other, oldest_place, still_waits, with_moments};
ghost use Rattle.wait_conditions.specs.NextDeadline.{earliest, stored_until};
ghost use Rattle.wait_conditions.specs.Refusal.{repeats_serial};
ghost use Rattle.wait_conditions.specs.Stands.{place_or_end};
ghost use Rattle.wait_conditions.specs.Verdict.{reaches};
ghost use Rattle.wait_conditions.specs.Watchers.{AreDueFrom, BeganInOrder, earlier, serials_where, touched_by};
ghost use Rattle.wait_conditions.specs.WaitsFields.{IsCounted, waiters_view};

use crate::deadline::reaches_deadline;
use crate::image::{WaiterImage, images_of};
use crate::next_deadline::earliest_deadline;
use crate::planning::copy_touched;
use crate::releasing::change_touched;
use crate::verdict::WaitState;
use crate::waiter::{Waiter, waits_still};
use crate::waiter_limits::MOST_WATCHED;
use crate::watchers::Watchers;
use s6_events::{Moment, NoMemory, WaitId};
use std::alloc::Allocator;
use std::marker::Model;

/// The waiters that stand, in the order in which they were made: a waiter stands until it is
/// cancelled, released or not. Beside them it keeps which waiter watches which service, and a
/// moment (`due`): no waiter that waits has a deadline before it. So the waiters that a moment
/// touches are mostly found without a look at the others.
#[derive(Drop)]
pub struct WaiterList<A: Allocator> {
    waiters: Vec<Waiter, A>,
    watchers: Watchers<A>,
    due: u64,
}

impl<A: Allocator> Model for WaiterList<A> {
    ghost use Rattle.wait_conditions.specs.Stands.{StoredList};

    ghost Value = { StoredList };

    ghost use Rattle.wait_conditions.specs.WaitsFields.{list_view, IsSoundList};

    ghost view = { list_view };

    ghost invariant = { IsSoundList };
}

impl<A: Allocator> WaiterList<A> {
    /// How many waiters stand.
    pub fn len(&self) -> usize
        ensures { result ≡ length self.now.waiters }
    {
        self.waiters.len()
    }

    /// Whether none stands.
    pub fn is_empty(&self) -> bool
        ensures { result ≡ true → self.now.waiters ≡ [] }
    {
        self.waiters.is_empty()
    }

    /// The state of the waiter of this serial; None where there is none.
    pub fn standing(&self, id: WaitId) -> Option<WaitState>
        ensures { result ≡ standing_kept id self.now.waiters }
    {
        find_standing(&self.waiters, id)
    }

    /// How many moments had come when the oldest of those that wait still was made (its place);
    /// None where none waits.
    pub fn oldest(&self) -> Option<u64>
        ensures { result ≡ oldest_place self.now.waiters }
    {
        oldest_of(&self.waiters)
    }

    /// The earliest deadline of those that wait still; None where none of them has one.
    pub fn next_deadline(&self) -> Option<u64>
        ensures { result ≡ earliest (map stored_until self.now.waiters) }
    {
        earliest_deadline(&self.waiters)
    }

    /// Makes room for one more waiter, and for the 16 services that it may watch. `NoMemory` where
    /// memory is refused: the waiters, and how many more fit, are then as before.
    pub fn reserve_one(&mut self) -> Result<(), NoMemory>
        ensures waiters { self.new.waiters ≡ self.old.waiters }
        ensures ok { OnOk result (1 ≤ self.new.spare) }
        ensures err { OnErr result (self.new ≡ self.old) }
    {
        self.watchers.reserve(MOST_WATCHED)?;
        self.waiters.reserve(1)?;
        Ok(())
    }

    /// Adds a waiter, which was made after all others; there is room for it.
    pub fn push(&mut self, waiter: Waiter)
        requires room { 1 ≤ self.old.spare }
        requires counted { IsCounted waiter }
        requires apart { repeats_serial (map (λ w. w.sid) (waiter_view waiter).watched) ≡ false }
        requires serial { All (λ k. k.id < waiter.id) self.old.waiters }
        requires place { All (λ k. k.place ≤ waiter.place) self.old.waiters }
        ensures { self.new.waiters ≡ self.old.waiters ++ waiter_view waiter ∷ [] }
    {
        // Still no waiter that waits has a deadline before `due`.
        self.due = earlier(self.due, waiter.deadline);
        self.watchers.join(&waiter);
        self.waiters.push_reserved(waiter);
    }

    /// `push` of a waiter in a box. It is a function of its own: inlined, a step that adds none
    /// would fill a place for one in its frame.
    #[inline(never)]
    pub fn push_boxed(&mut self, waiter: Box<Waiter, A>)
        requires room { 1 ≤ self.old.spare }
        requires counted { IsCounted waiter.value }
        requires apart { repeats_serial (map (λ w. w.sid) (waiter_view waiter.value).watched)
            ≡ false }
        requires serial { All (λ k. k.id < waiter.value.id) self.old.waiters }
        requires place { All (λ k. k.place ≤ waiter.value.place) self.old.waiters }
        ensures { self.new.waiters ≡ self.old.waiters ++ waiter_view waiter.value ∷ [] }
    {
        self.push(Box::into_inner(waiter));
    }

    /// Takes the waiter of this serial out, if there is one; it watches no service any more.
    pub fn remove(&mut self, id: WaitId)
        ensures { self.new.waiters ≡ filter (is_other id) self.old.waiters }
    {
        self.watchers.leave(id);
        // `due` stays: it need not be a deadline, so long as none of those that wait is before it.
        drop_named(&mut self.waiters, id);
    }

    /// The waiters of these serials take in the moments, one after the other. They are all those
    /// that the moments touch, so that the others stay as they are.
    pub fn change(&mut self, touched: &[WaitId], moments: &[Moment])
        requires { touched.now ≡ serials_where (touched_by moments.now) self.old.waiters }
        ensures waiters { self.new.waiters ≡ map (with_moments moments.now) self.old.waiters }
        ensures room { self.old.spare ≤ self.new.spare }
    {
        if self.waiters.is_empty() {
            return;
        }
        change_touched(&mut self.waiters, &mut self.watchers, touched, moments);
        // Waiters with the least deadline may be released now: the least of the others is looked
        // for.
        if is_reached(self.due, moments) {
            self.due = least_deadline(&self.waiters);
        }
    }
}

impl<A: Allocator + Copy> WaiterList<A> {
    /// A list with no waiter, in which no service is watched. `due`, before which no deadline lies,
    /// is the greatest number, since there is none.
    pub fn new(alloc: A) -> WaiterList<A>
        ensures { result.waiters ≡ [] }
    {
        WaiterList {
            waiters: Vec::new(alloc),
            watchers: Watchers::new(alloc),
            due: u64::MAX,
        }
    }

    /// Its allocator.
    pub fn allocator(&self) -> A {
        *self.waiters.allocator()
    }

    /// All waiters as plain data. `NoMemory` where memory is refused.
    pub fn images(&self, alloc: A) -> Result<Vec<WaiterImage<A>, A>, NoMemory>
        ensures { IfOk result (λ images. images.items ≡ self.now.waiters) }
    {
        images_of(alloc, &self.waiters)
    }

    /// Copies of the waiters that these moments touch: those that wait, where a moment is a mark of
    /// one of their services or reaches their deadline.
    pub fn copy_touched(&self, moments: &[Moment]) -> Result<Vec<Waiter, A>, NoMemory>
        ensures copies { IfOk result (λ copies. waiters_view copies.items
            ≡ filter (touched_by moments.now) self.now.waiters) }
        ensures counted { IfOk result (λ copies. All IsCounted copies.items) }
        ensures quiet { moments.now ≡ [] → IsOk result }
    {
        copy_touched(
            self.allocator(),
            &self.waiters,
            &self.watchers,
            self.due,
            moments,
        )
    }
}

// The earlier of a moment and a deadline, if there is one.
fn earlier(due: u64, deadline: Option<u64>) -> u64
    ensures { result ≡ earlier due deadline }
{
    match deadline {
        None => due,
        Some(deadline) => if deadline < due { deadline } else { due },
    }
}

// Whether one of these moments is a clock reading at or past `due`.
fn is_reached(due: u64, moments: &[Moment]) -> bool
    ensures { result ≡ list_any (reaches due) moments.now }
{
    moments.iter().any(|moment| reaches_deadline(due, moment))
}

// The least deadline of those that wait, or the greatest number where none of them has one.
fn least_deadline(waiters: &[Waiter]) -> u64
    ensures { AreDueFrom result (waiters_view waiters.now) }
{
    let mut due = u64::MAX;
    for waiter in waiters {
        if waits_still(waiter) {
            due = earlier(due, waiter.deadline);
        }
    }
    due
}

// The state of the waiter of this serial; None where there is none.
fn find_standing(waiters: &[Waiter], id: WaitId) -> Option<WaitState>
    ensures { result ≡ standing_kept id (waiters_view waiters.now) }
{
    find_stored(waiters, id)
}

// The state of the waiter of this serial; None where there is none. For the proof: its clause
// speaks of the waiters as stored.
fn find_stored(waiters: &[Waiter], id: WaitId) -> Option<WaitState>
    ensures { result ≡ standing_stored id waiters.now }
{
    for waiter in waiters {
        if waiter.id == id {
            return Some(waiter.standing);
        }
    }
    None
}

// The place in the history of the first waiter that waits still, which is the oldest of those that
// do.
fn oldest_of(waiters: &[Waiter]) -> Option<u64>
    requires { BeganInOrder (waiters_view waiters.now) }
    ensures { result ≡ oldest_place (waiters_view waiters.now) }
{
    for waiter in waiters {
        if waits_still(waiter) {
            return Some(waiter.place);
        }
    }
    None
}

/// The place in the history of the oldest waiter that waits, or the end where there is none:
/// `count` moments have come.
pub fn place_or_end(oldest: Option<u64>, count: u64) -> u64
    ensures { result ≡ place_or_end oldest count }
{
    match oldest {
        None => count,
        Some(place) => place,
    }
}

// Takes the waiter of this serial out, if there is one.
fn drop_named<A: Allocator>(waiters: &mut Vec<Waiter, A>, id: WaitId)
    requires { All IsCounted waiters.old.items }
    ensures waiters { waiters_view waiters.new.items
        ≡ filter (is_other id) (waiters_view waiters.old.items) }
    ensures counted { All IsCounted waiters.new.items }
    ensures len { vec_len waiters.new ≤ vec_len waiters.old }
    ensures capacity { vec_capacity waiters.new ≡ vec_capacity waiters.old }
{
    waiters.retain(|waiter| waiter.id != id);
}
