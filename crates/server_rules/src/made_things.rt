//! What a connection made: its waiters and its subscriptions; and the services that it follows.
ghost use Rattle.std.specs.Prelude.{◌≡◌, ◌∷◌, [], true, None, OnOk, Some, IfSome, IfNone, option_map, length, filter, not, ◌==◌};
ghost use Rattle.server_rules.specs.Made.{admission_of, after_release, after_reply, change_of, has_place, has_room_for, is_among, is_followed, is_told_more, let_go, next_end, nothing_made, waiter_admission, without};

use crate::following::Following;
use arrayvec::ArrayVec;
use s6_events::{Name, SubId, WaitId};
use std::alloc::Global;
use std::marker::Model;
use tree_core::{Act, Reply};

/// The most waiters of one connection at one time, with those that were released and not yet
/// cancelled.
pub const CLIENT_WAITER_LIMIT: usize = 64;

/// The most subscriptions of one connection at one time.
pub const CLIENT_SUBSCRIPTION_LIMIT: usize = 32;

/// What an act makes or ends for its connection, once it is done. `Other` is an act that makes or
/// ends no waiter and no subscription.
#[derive(Clone, Copy, PartialEq, Eq, Debug)]
pub enum MadeChange {
    Other,
    MakesWaiter,
    MakesSubscription,
    EndsWaiter(WaitId),
    EndsSubscription(SubId),
}

impl MadeChange {
    /// What this act makes or ends, once it is done.
    pub fn of(act: &Act<Global>) -> MadeChange
        ensures { result ≡ change_of act.now }
    {
        match act {
            Act::Wait(..) => MadeChange::MakesWaiter,
            Act::Subscribe(..) => MadeChange::MakesSubscription,
            Act::Cancel(id) => MadeChange::EndsWaiter(*id),
            Act::Unsubscribe(id) => MadeChange::EndsSubscription(*id),
            _ => MadeChange::Other,
        }
    }
}

/// Whether, and when, an act is done for the connection that asks for it.
#[derive(Clone, Copy, PartialEq, Eq, Debug)]
pub enum Admission {
    /// It is done.
    Admitted,
    /// The connection has as many waiters as it may have: one of them that was released is
    /// cancelled first, and then the act is done.
    AfterReleased,
    /// It is refused: the connection has as many as it may have of what the act makes.
    Refused,
}

/// What a connection made: its waiters and its subscriptions, in the order made, with the released
/// waiters apart, in the order in which they were told; and the services that it follows. A waiter
/// or a subscription that is over is listed too: it counts for the limits of the tree until it is
/// cancelled.
#[derive(Drop)]
pub struct MadeThings {
    /// The serials of the waiters that wait still.
    waiters: ArrayVec<u64, CLIENT_WAITER_LIMIT>,
    /// The serials of the waiters whose release was told.
    released: ArrayVec<u64, CLIENT_WAITER_LIMIT>,
    /// The serials of the subscriptions.
    subscriptions: ArrayVec<u64, CLIENT_SUBSCRIPTION_LIMIT>,
    /// Whose letters it is told.
    follows: Following,
    /// The wait that is handed in once a released waiter has ended.
    put_off: Option<Act<Global>>,
}

impl Model for MadeThings {
    ghost use Rattle.std.specs.Prelude.{◌+◌, ◌≤◌, length};
    ghost use Rattle.server_rules.specs.Made.{Made};

    ghost Value = { Made };

    ghost view = { λ s. record {
      waiters = s.waiters.items;
      released = s.released.items;
      subscriptions = s.subscriptions.items;
      follows = s.follows;
      put_off = s.put_off;
    } };

    ghost invariant = { λ s. length s.waiters.items + length s.released.items ≤ 64 };
}

// Takes this serial, the number of a waiter or a subscription, out of the list.
fn drop_serial<const CAP: usize>(serials: &mut ArrayVec<u64, CAP>, ended: u64)
    ensures { serials.new.items ≡ without ended serials.old.items }
{
    serials.retain(|serial| *serial != ended);
}

// Takes the first serial out.
fn take_first<const CAP: usize>(serials: &mut ArrayVec<u64, CAP>) -> Option<u64>
    ensures first { IfSome result (λ serial. serials.old.items ≡ serial ∷ serials.new.items) }
    ensures none { IfNone result (serials.old.items ≡ []) }
    ensures same { IfNone result (serials.new ≡ serials.old) }
{
    serials.pop_at(0)
}

impl MadeThings {
    /// Nothing was made, and nothing is followed.
    pub fn new() -> MadeThings
        ensures { result ≡ nothing_made }
    {
        MadeThings {
            waiters: ArrayVec::new(),
            released: ArrayVec::new(),
            subscriptions: ArrayVec::new(),
            follows: Following::Nobody,
            put_off: None,
        }
    }

    /// Whether an act is done for this connection.
    pub fn admission(&self, act: &Act<Global>) -> Admission
        ensures { result ≡ admission_of act.now self.now }
    {
        match act {
            Act::Wait(..) => self.admission_of_waiter(),
            // It has as many subscriptions as it may have.
            Act::Subscribe(..) if self.subscriptions.is_full() => Admission::Refused,
            _ => Admission::Admitted,
        }
    }

    // Whether, and when, the connection may make one more waiter: those that wait and those that
    // were released may be 64 together.
    fn admission_of_waiter(&self) -> Admission
        ensures { result ≡ waiter_admission self.now }
    {
        if self.waiters.len() + self.released.len() < CLIENT_WAITER_LIMIT {
            Admission::Admitted
        } else if self.released.is_empty() {
            Admission::Refused
        } else {
            Admission::AfterReleased
        }
    }

    /// Whether something may still be told to the connection: it has a waiter that waits, or a
    /// subscription, or follows services.
    pub fn is_told_more(&self) -> bool
        ensures { result ≡ is_told_more self.now }
    {
        !(self.waiters.is_empty() && self.subscriptions.is_empty()) || self.follows.is_any()
    }

    /// Notes what an act made or ended, by the reply to it. Where the reply refuses the act,
    /// nothing changes.
    pub fn note_reply(&mut self, change: MadeChange, reply: &Reply<Global>)
        requires { has_room_for change self.old ≡ true }
        ensures { self.new ≡ after_reply change reply.now self.old }
    {
        match change {
            MadeChange::Other => {}
            MadeChange::MakesWaiter => {
                if let Reply::Waiter(id) = reply {
                    self.waiters.push(id.0);
                }
            }
            MadeChange::MakesSubscription => {
                if let Reply::Subscription(id) = reply {
                    self.subscriptions.push(id.0);
                }
            }
            MadeChange::EndsWaiter(id) => {
                if let Reply::Done = reply {
                    drop_serial(&mut self.waiters, id.0);
                    drop_serial(&mut self.released, id.0);
                }
            }
            MadeChange::EndsSubscription(id) => {
                if let Reply::Done = reply {
                    drop_serial(&mut self.subscriptions, id.0);
                }
            }
        }
    }

    /// The release of this waiter was told: it waits no more, but it stays among the released ones
    /// until it is cancelled.
    pub fn note_release(&mut self, id: WaitId)
        requires { is_among id self.old.waiters ≡ true }
        ensures { self.new ≡ after_release id self.old }
    {
        drop_serial(&mut self.waiters, id.0);
        self.released.push(id.0);
    }

    /// Whether it is a waiter of this connection that waits still.
    pub fn has_waiter(&self, id: WaitId) -> bool
        ensures { result ≡ is_among id self.now.waiters }
    {
        self.waiters.iter().any(|other| *other == id.0)
    }

    /// Whether it is a subscription of this connection.
    pub fn has_subscription(&self, id: SubId) -> bool
        ensures { result ≡ is_among id self.now.subscriptions }
    {
        self.subscriptions.iter().any(|other| *other == id.0)
    }

    /// From now on these services are followed, and no others.
    pub fn follow(&mut self, services: Following)
        ensures { self.new ≡ record self.old { follows = services } }
    {
        self.follows = services;
    }

    /// This wait is put off until a released waiter has ended.
    pub fn put_off(&mut self, act: Act<Global>)
        ensures { self.new ≡ record self.old { put_off = Some act } }
    {
        self.put_off = Some(act);
    }

    /// Takes out the wait that was put off; None where none was.
    pub fn take_put_off(&mut self) -> Option<Act<Global>>
        ensures act { result ≡ self.old.put_off }
        ensures rest { self.new ≡ record self.old { put_off = None } }
    {
        self.put_off.take()
    }

    /// Nothing is followed any more, and nothing put off.
    pub fn let_go(&mut self)
        ensures { self.new ≡ let_go self.old }
    {
        self.follows = Following::Nobody;
        self.put_off = None;
    }

    /// Whether the service of this name is followed.
    pub fn is_followed(&self, name: &Name) -> bool
        ensures { result ≡ is_followed name.now self.now.follows }
    {
        self.follows.covers(name)
    }

    /// Takes out the waiter that was released first, which is cancelled to make place for a new
    /// one; None where none was. `released` lists the serials of the waiters whose release was
    /// told.
    pub fn take_released(&mut self) -> Option<WaitId>
        ensures first { IfSome result
            (λ id. self.old ≡ record self.new { released = id ∷ self.new.released }) }
        ensures none { IfNone result (self.old.released ≡ []) }
        ensures same { IfNone result (self.new ≡ self.old) }
        ensures room { IfSome result (λ id. has_place self.new ≡ true) }
    {
        match take_first(&mut self.released) {
            Some(id) => Some(WaitId(id)),
            None => None,
        }
    }

    /// Takes out what is ended next for a client that has left, and returns the act that ends it:
    /// the released waiters first, whose release was told, then the others, then the subscriptions,
    /// each in the order listed; None where there is none of them. `released`, `waiters` and
    /// `subscriptions` are lists of serials.
    pub fn take_next(&mut self) -> Option<Act<Global>>
        ensures act { result ≡ option_map (λ e. e.act) (next_end self.old) }
        ensures made { IfSome result
            (λ act. option_map (λ e. e.made) (next_end self.old) ≡ Some self.new) }
        ensures none { IfNone result (self.new ≡ self.old) }
    {
        if let Some(id) = take_first(&mut self.released) {
            return Some(Act::Cancel(WaitId(id)));
        }
        if let Some(id) = take_first(&mut self.waiters) {
            return Some(Act::Cancel(WaitId(id)));
        }
        match take_first(&mut self.subscriptions) {
            Some(id) => Some(Act::Unsubscribe(SubId(id))),
            None => None,
        }
    }
}
