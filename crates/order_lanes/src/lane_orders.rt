//! Which lane takes an order, and whether it has room.
ghost use Rattle.std.specs.Prelude.{◌≡◌, ◌<◌, ◌+◌, ◌++◌, ◌∷◌, [], ℕ, length, IfSome, IfNone};
ghost use Rattle.order_lanes.specs.LaneOrders.{sid_of, lane_of, orders_of_lane};
ghost use Rattle.order_lanes.specs.Lane.{sent_in, HaveRoom, IsBlocked};

use crate::lane::Lane;
use crate::lanes::Lanes;
use s6_events::Order;

/// The least lane that has fewer than `places` free places, as far as is known; None where each
/// lane has at least as many.
pub fn blocked_lane<L: Lanes>(lanes: &mut Vec<Lane<L>>, places: usize) -> Option<usize>
    ensures sent { (k : ℕ) → sent_in k lanes.new.items ≡ sent_in k lanes.old.items }
    ensures len { length lanes.new.items ≡ length lanes.old.items }
    ensures blocked { IfSome result (λ k. IsBlocked places k lanes.new.items) }
    ensures room { IfNone result (HaveRoom places lanes.new.items) }
{
    for k in 0..lanes.len() {
        let lane = &mut lanes[k];
        if lane.free_places() < places {
            return Some(k);
        }
    }
    None
}

// The serial of the order's service.
fn sid_of_order(order: &Order) -> u64
    ensures { result ≡ sid_of order.now }
{
    match order {
        Order::Run(sid, _, _, _) => sid.0,
        Order::Finish(sid, _, _, _, _) => sid.0,
        Order::Signal(sid, _, _) => sid.0,
        Order::KillFinish(sid, _) => sid.0,
    }
}

/// The lane of an order where there are `lanes` of them: service `sid` has lane `sid` mod `lanes`.
pub fn lane_of(order: &Order, lanes: usize) -> usize
    requires { 0 < lanes }
    ensures { result ≡ lane_of lanes order.now }
{
    (sid_of_order(order) % (lanes as u64)) as usize
}

// Sends an order into its lane: that of its service, which `lane_of` tells by how many lanes there
// are.
fn send_one<L: Lanes>(lanes: &mut Vec<Lane<L>>, order: &Order)
    requires lanes { 0 < length lanes.old.items }
    requires room { HaveRoom 1 lanes.old.items }
    ensures sent { (k : ℕ) → k < length lanes.old.items →
        sent_in k lanes.new.items
        ≡ sent_in k lanes.old.items ++ orders_of_lane (length lanes.old.items) k (order.now ∷ []) }
    ensures room { (n : ℕ) → HaveRoom (n + 1) lanes.old.items → HaveRoom n lanes.new.items }
    ensures len { length lanes.new.items ≡ length lanes.old.items }
{
    let count = lanes.len();
    let k = lane_of(order, count);
    let lane = &mut lanes[k];
    lane.send(*order);
}

/// Sends each order into its lane, in order.
pub fn send_all<L: Lanes>(lanes: &mut Vec<Lane<L>>, orders: &[Order])
    requires lanes { 0 < length lanes.old.items }
    requires room { HaveRoom (length orders.now) lanes.old.items }
    ensures sent { (k : ℕ) → k < length lanes.old.items →
        sent_in k lanes.new.items
        ≡ sent_in k lanes.old.items ++ orders_of_lane (length lanes.old.items) k orders.now }
    ensures len { length lanes.new.items ≡ length lanes.old.items }
{
    // For the proof alone: how many lanes there are, which no order changes.
    let count = lanes.len();
    for order in orders {
        send_one(lanes, order);
    }
}
