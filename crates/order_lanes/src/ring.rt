//! New rings of lanes.
ghost use Rattle.std.specs.Prelude.{◌≡◌, ◌≤◌, [], None, IfOk, length};
ghost use Rattle.order_lanes.specs.Lane.{lane_room, AreNumbered};

use crate::backend::Backend;
use crate::desk::Desk;
use crate::lane::Lane;
use crate::lanes::Lanes;
use rtrb::{Consumer, Producer, RingBuffer};
use s6_events::{NoMemory, Order};
use std::alloc::Global;
use std::marker::Model;

/// How many orders a lane's ring holds.
pub const LANE_ROOM: usize = 4096;

/// A lane's new ring, through which nothing went yet. A run makes its two ends once it has picked
/// the names of its rings.
#[derive(Drop)]
pub struct LaneRing {
    number: usize,
    producer: Producer<Order>,
    consumer: Consumer<Order>,
}

impl Model for LaneRing {
    ghost use Rattle.std.specs.Prelude.{◌≡◌, []};
    ghost use Rattle.rtrb.specs.Ring.{IsPair, sent, known_free, producer_capacity, received, known_items};
    ghost use Rattle.channel_names.specs.RingName.{consumer_ring};
    ghost use Rattle.order_lanes.specs.Lane.{LaneRingView, lane_room};

    ghost Value = { LaneRingView };

    ghost view = { λ r. record { number = r.number; ring = consumer_ring r.consumer } };

    ghost invariant = { λ r. IsPair r.producer r.consumer
        × (sent r.producer ≡ []) × (known_free r.producer ≡ lane_room)
        × (producer_capacity r.producer ≡ lane_room)
        × (received r.consumer ≡ []) × (known_items r.consumer ≡ []) };
}

impl LaneRing {
    // A new ring for the lane of this number.
    fn open(alloc: Global, number: usize) -> Result<LaneRing, NoMemory>
        ensures { IfOk result (λ r. r.number ≡ number) }
    {
        // The tree pushes orders at the one end, and the desk of the lane's backend pops them at
        // the other.
        let (producer, consumer) = RingBuffer::new(alloc, LANE_ROOM)?;
        Ok(LaneRing {
            number,
            producer,
            consumer,
        })
    }

    /// The number of its lane.
    pub fn number(&self) -> usize
        ensures { result ≡ self.now.number }
    {
        self.number
    }

    /// Makes the ring's two ends: the lane, and the desk of this backend. `L` names this ring as
    /// that of the lane.
    pub fn ends<B: Backend, L: Lanes>(self, backend: B) -> (Lane<L>, Desk<B, L>)
        requires ring { self.ring ≡ L.lane_ring self.number }
        requires before { B.asked backend ≡ L.asked_before self.number }
        ensures lane { result.0 ≡ record { number = self.number; sent = []; free = lane_room } }
        ensures desk { result.1 ≡ record {
          lane = self.number;
          asked = B.asked backend;
          given = B.given backend;
          held = None;
          taken = [];
          seen = [];
        } }
    {
        let LaneRing {
            number,
            producer,
            consumer,
        } = self;
        (
            Lane::over(number, producer),
            Desk::over(number, consumer, backend),
        )
    }
}

/// A new ring for each of `lanes` lanes, 1 to 4, in the order of their numbers, which begin at 0.
/// `NoMemory` where memory is refused; nothing is kept then.
#[tactic(auto, using(crate::proofs::Numbers::numbered_more))]
pub fn open_lane_rings(alloc: Global, lanes: usize) -> Result<Vec<LaneRing>, NoMemory>
    requires { (1 ≤ lanes) × (lanes ≤ 4) }
    ensures each { IfOk result (λ rings. length rings.items ≡ lanes) }
    ensures numbers { IfOk result (λ rings. AreNumbered rings.items) }
{
    let mut rings = Vec::new(alloc);
    for number in 0..lanes {
        rings.push(LaneRing::open(alloc, number)?)?;
    }
    Ok(rings)
}
