//! What a step gives: its reply, events, orders, matches and releases.
ghost use Rattle.std.specs.Prelude.{◌≡◌, ◌++◌, ◌∷◌, ◌+◌, ◌≤◌, [], length, map, OnOk, IsOk};
ghost use Rattle.tree_core.specs.Limits.{order_limit};
ghost use Rattle.tree_core.specs.Listening.{as_match, as_release};
ghost use Rattle.tree_core.specs.Replies.{released_by_answer};
ghost use Rattle.tree_core.specs.declared.reply.Reply.TheVariants.{Done};

use super::limits::ORDER_LIMIT;
use super::reply::Reply;
use arrayvec::ArrayVec;
use event_directory::{DirectoriesPlan, Hit};
use s6_events::{NoMemory, Order, SubId, WaitId};
use std::alloc::Allocator;
use svscan_core::Event;
use wait_conditions::{Verdict, WaitAnswer, WaitsPlan};

/// A hit of a subscription.
#[derive(Clone, Copy, PartialEq, Eq, Debug)]
pub struct Match {
    pub subscription: SubId,
    pub hit: Hit,
}

/// The release of a waiter.
#[derive(Clone, Copy, PartialEq, Eq, Debug)]
pub struct Release {
    pub waiter: WaitId,
    pub verdict: Verdict,
}

/// All that one step gives: the reply to the input; the marks and orders, in the order made; the
/// matches, by event or sent letter and then in rising serial; and the releases, by moment and then
/// in rising serial.
#[derive(Drop)]
pub struct Effect<A: Allocator> {
    /// The reply to the input.
    pub reply: Reply<A>,
    /// The marks of services.
    pub events: Vec<Event, A>,
    /// What is to be started and signalled.
    pub orders: ArrayVec<Order, ORDER_LIMIT>,
    /// What subscriptions heard.
    pub matched: Vec<Match, A>,
    /// The waiters that wait no longer.
    pub released: Vec<Release, A>,
}

impl<A: Allocator + Copy> Effect<A> {
    /// An effect that gives nothing yet: its reply is Done, and its lists are empty.
    pub fn new(alloc: A) -> Effect<A>
        ensures reply { result.reply ≡ Done }
        ensures events { result.events.items ≡ [] }
        ensures orders { result.orders.items ≡ [] }
        ensures matched { result.matched.items ≡ [] }
        ensures released { result.released.items ≡ [] }
    {
        Effect {
            reply: Reply::Done,
            events: Vec::new(alloc),
            orders: ArrayVec::new(),
            matched: Vec::new(alloc),
            released: Vec::new(alloc),
        }
    }

    // Empties it, and keeps its memory.
    pub(crate) fn clear(&mut self)
        ensures reply { self.new.reply ≡ Done }
        ensures events { self.new.events.items ≡ [] }
        ensures orders { self.new.orders.items ≡ [] }
        ensures matched { self.new.matched.items ≡ [] }
        ensures released { self.new.released.items ≡ [] }
    {
        // Most replies are Done already, and are not written again.
        if !matches!(self.reply, Reply::Done) {
            self.reply = Reply::Done;
        }
        self.events.clear();
        self.orders.clear();
        self.matched.clear();
        self.released.clear();
    }

    // Adds the marks and the orders of a step.
    #[inline(always)]
    pub(crate) fn tell(&mut self, events: &[Event], orders: &[Order]) -> Result<(), NoMemory>
        requires { length self.old.orders.items + length orders.now ≤ order_limit }
        ensures reply { self.new.reply ≡ self.old.reply }
        ensures events { OnOk result (self.new.events.items ≡ self.old.events.items ++ events.now) }
        ensures orders { OnOk result (self.new.orders.items ≡ self.old.orders.items ++ orders.now) }
        ensures matched { self.new.matched.items ≡ self.old.matched.items }
        ensures released { self.new.released.items ≡ self.old.released.items }
        ensures quiet { events.now ≡ [] → IsOk result }
    {
        // Most steps order nothing.
        if !orders.is_empty() && self.orders.try_extend_from_slice(orders).is_err() {
            // The list is empty before, and has room for the orders of any step.
            unreachable!()
        }
        self.events.extend_from_slice(events)?;
        Ok(())
    }

    // Adds the matches of a step, which its event directories found: a subscription, and what it
    // heard (its hit).
    #[inline(always)]
    pub(crate) fn match_all(&mut self, plan: &DirectoriesPlan<A>) -> Result<(), NoMemory>
        ensures reply { self.new.reply ≡ self.old.reply }
        ensures events { self.new.events.items ≡ self.old.events.items }
        ensures orders { self.new.orders.items ≡ self.old.orders.items }
        ensures matched { OnOk result
            (self.new.matched.items ≡ self.old.matched.items
            ++ map as_match plan.now.matches.items) }
        ensures released { self.new.released.items ≡ self.old.released.items }
        ensures quiet { plan.now.matches.items ≡ [] → IsOk result }
    {
        for (subscription, hit) in plan.matches.as_slice() {
            self.matched.push(Match {
                subscription: *subscription,
                hit: *hit,
            })?;
        }
        Ok(())
    }

    // Adds the release of a waiter: it waits no longer, and this verdict says how its wait ended.
    fn release(&mut self, waiter: WaitId, verdict: Verdict) -> Result<(), NoMemory>
        ensures reply { self.new.reply ≡ self.old.reply }
        ensures events { self.new.events.items ≡ self.old.events.items }
        ensures orders { self.new.orders.items ≡ self.old.orders.items }
        ensures matched { self.new.matched.items ≡ self.old.matched.items }
        ensures released { OnOk result
            (self.new.released.items ≡ self.old.released.items ++ as_release (waiter, verdict)
            ∷ []) }
    {
        self.released.push(Release { waiter, verdict })?;
        Ok(())
    }

    // Adds the releases of a step: those by its moments, and then that of the waiter that it makes,
    // if that is released at once.
    #[inline(always)]
    pub(crate) fn release_all(&mut self, plan: &WaitsPlan<A>) -> Result<(), NoMemory>
        ensures reply { self.new.reply ≡ self.old.reply }
        ensures events { self.new.events.items ≡ self.old.events.items }
        ensures orders { self.new.orders.items ≡ self.old.orders.items }
        ensures matched { self.new.matched.items ≡ self.old.matched.items }
        ensures released { OnOk result (self.new.released.items
            ≡ self.old.released.items ++
            (map as_release plan.now.released
            ++ map as_release (released_by_answer plan.now.answer))) }
        ensures quiet { plan.now.released ≡ [] → released_by_answer plan.now.answer ≡ []
            → IsOk result }
    {
        for pair in plan.released() {
            self.release(pair.0, pair.1)?;
        }
        // What is answered to the request for a waiter, if there was one in this step.
        let answer = plan.answer();
        if let WaitAnswer::Added(waiter, Some(verdict)) = &answer {
            self.release(*waiter, *verdict)?;
        }
        Ok(())
    }
}
