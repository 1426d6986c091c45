//! The history: all moments (clock readings, and marks of services) in order, of which the first
//! ones may be forgotten.
ghost use Rattle.std.specs.Prelude.{◌≡◌, ◌==◌, ◌+◌, ◌-◌, ◌^◌, ◌<◌, ◌≤◌, ◌++◌, ◌∷◌, [], length, drop, vec_len, vec_capacity, IsOk, IfOk, OnOk, OnErr, option_map};
ghost use Rattle.s6_events.specs.History.{end_of, from_place, forgotten_by};

use crate::moment::Moment;
use crate::no_memory::NoMemory;
use std::alloc::Allocator;
use std::marker::Model;

/// All moments that were pushed, in order; their places count from 0. The first ones may be
/// forgotten; the others keep their places.
#[derive(Drop)]
pub struct History<A: Allocator> {
    // How many of the first moments are no longer in `moments`.
    dropped: u64,
    // How many of the first ones in `moments` are forgotten. They are dropped once they are at
    // least half of `moments`.
    skipped: usize,
    moments: Vec<Moment, A>,
    // The list of the plan that was committed last, kept so that the next step can use its memory.
    spare: Vec<Moment, A>,
}

impl<A: Allocator> Model for History<A> {
    ghost use Rattle.s6_events.specs.History.{Recorded};

    ghost Value = { Recorded };

    ghost use Rattle.s6_events.specs.HistoryFields.{history_view, IsCounted};

    ghost view = { history_view };

    ghost invariant = { IsCounted };
}

/// The moments that one step will push, for which a history has made room.
#[derive(Drop)]
pub struct HistoryPlan<A: Allocator> {
    moments: Vec<Moment, A>,
}

impl<A: Allocator> Model for HistoryPlan<A> {
    ghost use Rattle.std.specs.Prelude.{List};
    ghost use Rattle.s6_events.specs.declared.moment.Moment.{Moment};

    ghost Value = { List Moment };

    ghost view = { λ p. p.moments.items };
}

impl<A: Allocator + Copy> History<A> {
    /// A history with no moment. It keeps the allocator.
    pub fn new(alloc: A) -> History<A>
        ensures forgotten { result.forgotten ≡ 0 }
        ensures kept { result.kept ≡ [] }
    {
        History {
            dropped: 0,
            skipped: 0,
            moments: Vec::new(alloc),
            spare: Vec::new(alloc),
        }
    }

    /// How many moments were pushed: those that are forgotten and were dropped from the list
    /// `moments` are counted too.
    pub fn len(&self) -> u64
        ensures value { result ≡ end_of self.now }
        ensures bound { result < 2 ^ 63 }
    {
        self.dropped + self.moments.len() as u64
    }

    // How many moments are forgotten, which is the place of the first one that is not. Of these,
    // `dropped` have left the list `moments`, and `skipped` still stand at its front.
    fn start(&self) -> u64
        ensures value { result ≡ self.now.forgotten }
        ensures bound { result ≤ end_of self.now }
    {
        self.dropped + self.skipped as u64
    }

    /// Whether no moment was pushed.
    pub fn is_empty(&self) -> bool
        ensures { result ≡ (end_of self.now == 0) }
    {
        self.len() == 0
    }

    /// Adds a moment at the end. It always succeeds where there is still room. `NoMemory` where
    /// memory is refused: nothing has changed then, and a plan still has its room.
    pub fn push(&mut self, moment: Moment) -> Result<(), NoMemory>
        requires { end_of self.old + 1 < 2 ^ 63 }
        ensures ok { OnOk result (self.new.kept ≡ self.old.kept ++ moment ∷ []) }
        ensures err { OnErr result (self.new.kept ≡ self.old.kept) }
        ensures same_room { OnErr result (self.old.spare_capacity ≤ self.new.spare_capacity) }
        ensures forgotten { self.new.forgotten ≡ self.old.forgotten }
        ensures succeeds { 0 < self.old.spare_capacity → IsOk result }
    {
        self.moments.push(moment)?;
        Ok(())
    }

    /// The moments from a place on, the empty slice at the place `len`. None where the place is
    /// past `len`, or where a moment from it on is forgotten.
    pub fn from(&self, place: u64) -> Option<&[Moment]>
        ensures { option_map (λ s. s.now) result ≡ from_place self.now place }
    {
        let start = self.start();
        if place < start {
            return None;
        }
        // The list still begins with moments that are forgotten (`skipped`).
        let kept = &self.moments[self.skipped..];
        let before = (place - start) as usize;
        if before > kept.len() {
            return None;
        }
        Some(&kept[before..])
    }

    /// Forgets the moments before `place`, or all of them where `place` is past the end. What is
    /// forgotten already stays forgotten. Forgotten moments are first only counted (`skipped`), and
    /// dropped from the list once they are half of it.
    pub fn forget(&mut self, place: u64)
        ensures forgotten { self.new.forgotten ≡ forgotten_by self.old place }
        ensures kept { self.new.kept
            ≡ drop (forgotten_by self.old place - self.old.forgotten) self.old.kept }
        ensures end { end_of self.new ≡ end_of self.old }
        ensures room { self.old.spare_capacity ≤ self.new.spare_capacity }
    {
        let end = self.len();
        let start = self.start();
        let place = place.min(end);
        if place > start {
            self.skipped += (place - start) as usize;
            // Only then, so that a drop never moves more moments to the front than it drops.
            if self.skipped * 2 >= self.moments.len() {
                self.drop_skipped();
            }
        }
    }

    // Drops the forgotten moments, the first `skipped` of the list, from it. The others are turned
    // to the front, and the end is cut off.
    fn drop_skipped(&mut self)
        ensures forgotten { self.new.forgotten ≡ self.old.forgotten }
        ensures kept { self.new.kept ≡ self.old.kept }
        ensures room { self.old.spare_capacity ≤ self.new.spare_capacity }
    {
        let kept = self.moments.len() - self.skipped;
        // Where none is kept, as after a step while nobody waits, there is nothing to move.
        if kept > 0 {
            self.moments.rotate_left(self.skipped);
        }
        self.moments.truncate(kept);
        self.dropped += self.skipped as u64;
        self.skipped = 0;
    }

    /// An empty list for the moments of the next step. It has the memory of the list that was
    /// committed last (`spare`).
    pub fn lend(&mut self) -> Vec<Moment, A>
        ensures none { result.items ≡ [] }
        ensures same { self.new ≡ self.old }
    {
        let none = Vec::new(*self.moments.allocator());
        let mut list = std::mem::replace(&mut self.spare, none);
        list.clear();
        list
    }

    /// Makes room to push these moments, which the plan keeps, and changes nothing else: `commit`
    /// pushes them. An earlier plan keeps its room, even where this call is refused. `NoMemory`
    /// where memory is refused; never where there is no moment to push.
    pub fn prepare(&mut self, moments: Vec<Moment, A>) -> Result<HistoryPlan<A>, NoMemory>
        ensures ok { IfOk result (λ plan. plan ≡ moments.items) }
        ensures room { OnOk result (length moments.items ≤ self.new.spare_capacity) }
        ensures forgotten { self.new.forgotten ≡ self.old.forgotten }
        ensures kept { self.new.kept ≡ self.old.kept }
        ensures same_room { self.old.spare_capacity ≤ self.new.spare_capacity }
        ensures quiet { moments.items ≡ [] → IsOk result }
    {
        self.moments.reserve(moments.len())?;
        Ok(HistoryPlan { moments })
    }

    /// Pushes the moments of a plan. It has to be a plan of this history, and no moment may have
    /// been pushed since it was made.
    pub fn commit(&mut self, plan: HistoryPlan<A>)
        requires room { length plan ≤ self.old.spare_capacity }
        requires count { end_of self.old + length plan < 2 ^ 63 }
        ensures forgotten { self.new.forgotten ≡ self.old.forgotten }
        ensures kept { self.new.kept ≡ self.old.kept ++ plan }
    {
        // `prepare` made the room, so that this asks for no memory.
        self.moments.extend_from_slice(&plan.moments).unwrap();
        // The memory of the plan's list is kept for the next step.
        self.spare = plan.moments;
    }
}
