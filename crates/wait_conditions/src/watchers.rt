//! Which waiters watch which service: a list of pairs of both serials, in the order of the
//! services, and for one service in that of the waiters.
ghost use Rattle.std.specs.Prelude.{◌≡◌, ◌==◌, ◌≤◌, ◌+◌, ◌++◌, [], ◌∷◌, ℕ, false, not, map, filter, length, if◌then◌else◌, IsOk, OnOk, OnErr};
ghost use Rattle.wait_conditions.specs.Kept.{waiter_view};
ghost use Rattle.wait_conditions.specs.Refusal.{repeats_serial};
ghost use Rattle.wait_conditions.specs.Watchers.{serials_of, serials_where, watches};

use crate::waiter::{Waiter, waits_still};
use s6_events::{NoMemory, Sid, WaitId};
use std::alloc::Allocator;
use std::marker::Model;

/// A waiter that waits, and one of its services.
#[derive(Clone, Copy, Debug)]
pub struct Watcher {
    pub sid: Sid,
    pub waiter: WaitId,
}

/// The waiters that wait, by their services: those of one service lie side by side, in rising
/// serial.
#[derive(Drop)]
pub struct Watchers<A: Allocator> {
    list: Vec<Watcher, A>,
}

impl<A: Allocator> Model for Watchers<A> {
    ghost use Rattle.std.specs.Prelude.{◌-◌, vec_len, vec_capacity};
    ghost use Rattle.std.specs.List.Sorted.{IsNonDecreasingBy};
    ghost use Rattle.wait_conditions.specs.declared.watchers.Watcher.{Watcher};
    ghost use Rattle.wait_conditions.specs.Watchers.{WatcherList};

    ghost Value = { WatcherList };

    ghost view = { λ s. record { watchers = s.list.items; spare_capacity = vec_capacity s.list - vec_len s.list } };

    ghost invariant = { λ s. IsNonDecreasingBy (λ (w : Watcher). w.sid) s.list.items };
}

impl<A: Allocator> Watchers<A> {
    /// A list in which no waiter watches a service.
    pub fn new(alloc: A) -> Watchers<A>
        ensures { result.watchers ≡ [] }
    {
        Watchers {
            list: Vec::new(alloc),
        }
    }

    /// Makes room for `more` watchers. `NoMemory` where memory is refused: nothing has changed
    /// then.
    pub fn reserve(&mut self, more: usize) -> Result<(), NoMemory>
        ensures watchers { self.new.watchers ≡ self.old.watchers }
        ensures ok { OnOk result (more ≤ self.new.spare_capacity) }
        ensures err { OnErr result (self.new ≡ self.old) }
        ensures quiet { more ≤ self.old.spare_capacity → IsOk result }
    {
        self.list.reserve(more)?;
        Ok(())
    }

    /// The watchers of this service, in rising serial of the waiters: they lie side by side, and
    /// are found by halves.
    pub fn of(&self, sid: Sid) -> &[Watcher]
        ensures { map (λ w. w.waiter) result.now ≡ serials_of sid self.now.watchers }
    {
        let end = self.list.partition_point(|watcher| watcher.sid.0 <= sid.0);
        let low = &self.list[..end];
        let start = low.partition_point(|watcher| watcher.sid.0 < sid.0);
        &low[start..]
    }

    // Adds a watcher of this service, at the end of those of that service; there is room for it.
    fn put(&mut self, sid: Sid, waiter: WaitId)
        requires { 1 ≤ self.old.spare_capacity }
        ensures serials { (other : ℕ) → serials_of other self.new.watchers
            ≡ serials_of other self.old.watchers ++ (if sid == other then waiter ∷ [] else []) }
        ensures room { self.old.spare_capacity ≤ self.new.spare_capacity + 1 }
    {
        let place = self.list.partition_point(|watcher| watcher.sid.0 <= sid.0);
        self.list.insert(place, Watcher { sid, waiter }).unwrap();
    }

    /// Adds a watcher for each service that this waiter watches; there is room for them. Its serial
    /// is higher than those of all others. A released waiter watches none.
    pub fn join(&mut self, waiter: &Waiter)
        requires room { length waiter.now.watched.items ≤ self.old.spare_capacity }
        requires apart { repeats_serial (map (λ w. w.sid) waiter.now.watched.items) ≡ false }
        ensures { (sid : ℕ) → serials_of sid self.new.watchers
            ≡ serials_of sid self.old.watchers
            ++ serials_where (watches sid) (waiter_view waiter.now ∷ []) }
    {
        if waits_still(waiter) {
            for service in waiter.watched.as_slice() {
                self.put(service.sid, waiter.id);
            }
        }
    }

    /// Takes out all watchers of this waiter.
    pub fn leave(&mut self, waiter: WaitId)
        ensures serials { (sid : ℕ) → serials_of sid self.new.watchers
            ≡ filter (λ id. not (id == waiter)) (serials_of sid self.old.watchers) }
        ensures room { self.old.spare_capacity ≤ self.new.spare_capacity }
    {
        self.list.retain(|watcher| watcher.waiter != waiter);
    }
}
