//! The tree's end of a lane.
ghost use Rattle.std.specs.Prelude.{◌≡◌, ◌+◌, ◌<◌, [], ◌∷◌, ◌++◌};
ghost use Rattle.rtrb.specs.Ring.{sent, known_free, producer_capacity};
ghost use Rattle.channel_names.specs.RingName.{producer_ring};
ghost use Rattle.order_lanes.specs.Lane.{lane_room};

use crate::lanes::Lanes;
use rtrb::Producer;
use s6_events::Order;
use std::marker::{Model, PhantomData};

/// The tree's end of a lane, where its orders are sent, in order. Its calls take no lock and no
/// memory.
#[derive(Drop)]
pub struct Lane<L: Lanes> {
    number: usize,
    pub(crate) producer: Producer<Order>,
    lanes: PhantomData<L>,
}

impl<L: Lanes> Model for Lane<L> {
    ghost use Rattle.std.specs.Prelude.{◌≡◌};
    ghost use Rattle.rtrb.specs.Ring.{sent, known_free, producer_capacity};
    ghost use Rattle.channel_names.specs.RingName.{producer_ring};
    ghost use Rattle.order_lanes.specs.Lane.{LaneView, lane_room};

    ghost Value = { LaneView };

    ghost view = { λ l. record { number = l.number; sent = sent l.producer; free = known_free l.producer } };

    ghost invariant = { λ l. (producer_capacity l.producer ≡ lane_room)
        × (producer_ring l.producer ≡ L.lane_ring l.number) };
}

impl<L: Lanes> Lane<L> {
    // The lane at the end of this ring.
    pub(crate) fn over(number: usize, producer: Producer<Order>) -> Lane<L>
        requires ring { producer_ring producer ≡ L.lane_ring number }
        requires room { producer_capacity producer ≡ lane_room }
        ensures { result ≡ record {
          number = number;
          sent = sent producer;
          free = known_free producer;
        } }
    {
        Lane {
            number,
            producer,
            // It names the run in proofs, and has no bytes.
            lanes: PhantomData,
        }
    }

    /// Its number.
    pub fn number(&self) -> usize
        ensures { result ≡ self.now.number }
    {
        self.number
    }

    /// How many more orders there is room for, at the least: the desk may make more room at any
    /// time.
    pub fn free_places(&mut self) -> usize
        ensures number { self.new.number ≡ self.old.number }
        ensures sent { self.new.sent ≡ self.old.sent }
        ensures free { result ≡ self.new.free }
    {
        self.producer.slots()
    }

    /// Sends an order, for which there is room.
    pub fn send(&mut self, order: Order)
        requires { 0 < self.old.free }
        ensures number { self.new.number ≡ self.old.number }
        ensures sent { self.new.sent ≡ self.old.sent ++ order ∷ [] }
        ensures free { self.old.free ≡ self.new.free + 1 }
    {
        self.producer.push_reserved(order);
    }
}
