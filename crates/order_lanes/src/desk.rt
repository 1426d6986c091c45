//! The desk of a lane, where its backend is asked the orders from the lane's ring.
ghost use Rattle.std.specs.Prelude.{◌≡◌, ◌↔◌, [], ◌∷◌, ◌++◌, Some, None, IfSome, IfNone, IsTrue};
ghost use Rattle.rtrb.specs.Ring.{received, known_items};
ghost use Rattle.channel_names.specs.RingName.{consumer_ring};
ghost use Rattle.s6_events.specs.declared.order.Order.{Order as Next};
ghost use Rattle.order_lanes.specs.Backend.{IsOfAsked};
ghost use Rattle.order_lanes.specs.Desk.{held_list, AsksNext, HoldsNext, HasNothing};
ghost use Rattle.order_lanes.specs.declared.desk.Carried.TheVariants.{Asked, Idle, Refused};

use crate::backend::{AskFault, Backend};
use crate::lane::Lane;
use crate::lanes::Lanes;
use rtrb::Consumer;
use s6_events::{Order, Report};
use std::marker::{Model, PhantomData};

/// What `carry_one` did.
#[derive(Clone, Copy, PartialEq, Eq, Debug)]
pub enum Carried {
    /// The backend took an order.
    Asked,
    /// There was no order.
    Idle,
    /// The backend handed the order back, and the desk holds it.
    Refused(AskFault),
}

/// A lane's other end: it takes orders from the ring and asks them of a backend, in order. An order
/// that the backend hands back is held, and asked again before any other.
#[derive(Drop)]
pub struct Desk<B: Backend, L: Lanes> {
    lane: usize,
    consumer: Consumer<Order>,
    // An order that was taken from the ring, and that the backend has not taken yet.
    held: Option<Order>,
    backend: B,
    lanes: PhantomData<L>,
}

impl<B: Backend, L: Lanes> Model for Desk<B, L> {
    ghost use Rattle.std.specs.Prelude.{◌≡◌, ◌++◌};
    ghost use Rattle.rtrb.specs.Ring.{received, known_items};
    ghost use Rattle.channel_names.specs.RingName.{consumer_ring};
    ghost use Rattle.order_lanes.specs.Desk.{DeskView, held_list};

    ghost Value = { DeskView };

    ghost view = { λ d. record {
      lane = d.lane;
      asked = B.asked d.backend;
      given = B.given d.backend;
      held = d.held;
      taken = received d.consumer;
      seen = known_items d.consumer;
    } };

    ghost invariant = { λ d. (consumer_ring d.consumer ≡ L.lane_ring d.lane)
        × (B.asked d.backend ++ held_list d.held ≡ L.asked_before d.lane ++ received d.consumer) };
}

impl<B: Backend, L: Lanes> Desk<B, L> {
    // The desk at the end of a ring from which nothing was taken.
    pub(crate) fn over(lane: usize, consumer: Consumer<Order>, backend: B) -> Desk<B, L>
        requires ring { consumer_ring consumer ≡ L.lane_ring lane }
        requires unused { received consumer ≡ [] }
        requires before { B.asked backend ≡ L.asked_before lane }
        ensures { result ≡ record {
          lane = lane;
          asked = B.asked backend;
          given = B.given backend;
          held = None;
          taken = [];
          seen = known_items consumer;
        } }
    {
        Desk {
            lane,
            consumer,
            held: None,
            backend,
            // It names the run in proofs, and has no bytes.
            lanes: PhantomData,
        }
    }

    /// The number of its lane.
    pub fn lane(&self) -> usize
        ensures { result ≡ self.now.lane }
    {
        self.lane
    }

    // The next order: the one that is held, or else the oldest of the ring, which is held from now
    // on; None where there is none.
    #[tactic(auto, using(crate::proofs::Turns::takes_next))]
    fn hold_next(&mut self) -> Option<Order>
        ensures rest { (self.new.lane ≡ self.old.lane) × (self.new.given ≡ self.old.given) }
        ensures since { self.new.asked ++ held_list self.new.held
            ≡ L.asked_before self.new.lane ++ self.new.taken }
        ensures next { IfSome result (λ order. HoldsNext order self.old self.new) }
        ensures none { IfNone result (HasNothing self.old self.new) }
    {
        if self.held.is_some() {
            return self.held;
        }
        match self.consumer.pop() {
            // It is held until the backend has taken it.
            Ok(order) => self.held = Some(order),
            Err(_) => return None,
        }
        self.held
    }

    /// Asks the backend one order: the one that is held, or else the next of the ring.
    #[tactic(auto, using(crate::proofs::Turns::asks_held))]
    pub fn carry_one(&mut self) -> Carried
        ensures rest { (self.new.lane ≡ self.old.lane) × (self.new.given ≡ self.old.given) }
        ensures since { self.new.asked ++ held_list self.new.held
            ≡ L.asked_before self.new.lane ++ self.new.taken }
        ensures asked { result ≡ Asked → (order : Next) × AsksNext order self.old self.new }
        ensures idle { result ≡ Idle → HasNothing self.old self.new }
        ensures refused { (fault : _) → result ≡ Refused fault
            → (order : Next) × HoldsNext order self.old self.new }
    {
        let Some(order) = self.hold_next() else {
            return Carried::Idle;
        };
        match self.backend.ask(order) {
            Ok(()) => {
                // The backend took it: the next call goes on with the ring.
                self.held = None;
                Carried::Asked
            }
            // The order that comes back is a copy of the one that is held.
            Err((_, fault)) => Carried::Refused(fault),
        }
    }

    /// The backend's next report, if it has one.
    pub fn report_one(&mut self) -> Option<Report>
        ensures rest { self.new ≡ record self.old { given = self.new.given } }
        ensures given { IfSome result (λ r.
            (self.new.given ≡ self.old.given ++ r ∷ []) × IsOfAsked self.old.asked r) }
        ensures none { IfNone result (self.new.given ≡ self.old.given) }
    {
        self.backend.report()
    }

    /// Whether the backend was asked all that was ever sent into this lane.
    pub fn is_done(&mut self, lane: &mut Lane<L>) -> bool
        requires { lane.old.number ≡ self.old.lane }
        ensures number { lane.new.number ≡ lane.old.number }
        ensures sent { lane.new.sent ≡ lane.old.sent }
        ensures desk { self.new ≡ record self.old { seen = self.new.seen } }
        ensures done { IsTrue result
            ↔ (self.old.asked ≡ L.asked_before self.old.lane ++ lane.old.sent) }
    {
        // How many orders that were sent are still in the ring.
        let waiting = self.consumer.slots_beside(&mut lane.producer);
        // An order was taken out of the ring, and the backend handed it back: it is still to be
        // asked.
        if self.held.is_some() {
            return false;
        }
        waiting == 0
    }

    /// Gives up the desk, and returns its backend.
    pub fn into_backend(self) -> B
        ensures asked { B.asked result ≡ self.asked }
        ensures given { B.given result ≡ self.given }
    {
        let Desk {
            lane: _,
            consumer: _,
            held: _,
            backend,
            lanes: _,
        } = self;
        backend
    }
}
