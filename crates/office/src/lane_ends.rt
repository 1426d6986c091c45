//! The ends of new lanes: the tree's, which sends orders, and the desks of the backends, which
//! start and signal programs.
ghost use Rattle.std.specs.Prelude.{◌≡◌, ◌≤◌, [], ℕ, length, vec_capacity, IfOk, Some, slice_get};
ghost use Rattle.order_lanes.specs.Lane.{sent_in};
ghost use Rattle.office.specs.Opening.{AreLaneRings, AreAsked};

use order_lanes::{Backend, Desk, Lane, LaneRing, Lanes};
use s6_events::NoMemory;
use std::alloc::Global;
use std::sync::Mutex;

/// The tree's end of each lane, and the desk of each backend behind a lock of its own, both in the
/// order of the lanes' numbers.
#[derive(Drop)]
pub struct LaneEnds<B: Backend, L: Lanes> {
    pub lanes: Vec<Lane<L>>,
    pub desks: Vec<Mutex<Desk<B, L>>>,
}

impl<B: Backend, L: Lanes> LaneEnds<B, L> {
    /// Lists with no lane and no desk, and room for `count` of each. `NoMemory` where memory is
    /// refused.
    pub fn with_room(alloc: Global, count: usize) -> Result<LaneEnds<B, L>, NoMemory>
        ensures lanes { IfOk result (λ e. (e.lanes.items ≡ []) × (count ≤ vec_capacity e.lanes)) }
        ensures desks { IfOk result (λ e. (e.desks.items ≡ []) × (count ≤ vec_capacity e.desks)) }
    {
        Ok(LaneEnds {
            lanes: Vec::with_capacity(alloc, count)?,
            desks: Vec::with_capacity(alloc, count)?,
        })
    }

    /// Fills the lists with the ends of these rings, each with the backend at its place. `L` gives
    /// the rings their names. There is room for the ends.
    pub fn fill(self, rings: Vec<LaneRing>, backends: Vec<B>) -> LaneEnds<B, L>
        requires empty { (self.lanes.items ≡ []) × (self.desks.items ≡ []) }
        requires lane_room { length rings.items ≤ vec_capacity self.lanes }
        requires desk_room { length rings.items ≤ vec_capacity self.desks }
        requires rings { AreLaneRings L.lane_ring 0 rings.items }
        requires backends { length backends.items ≡ length rings.items }
        requires before { AreAsked B.asked L.asked_before 0 backends.items }
        ensures lanes { length result.lanes.items ≡ length rings.items }
        ensures desks { length result.desks.items ≡ length rings.items }
        ensures unsent { (k : ℕ) → sent_in k result.lanes.items ≡ [] }
    {
        let mut ends = self;
        let mut backends = backends;
        for ring in rings {
            // The lists are of the same length: the next ring is the next backend's.
            let backend = backends.remove(0);
            let (lane, desk) = ring.ends::<B, L>(backend);
            ends.lanes.push_reserved(lane);
            ends.desks.push_reserved(Mutex::new(desk));
        }
        ends
    }
}
