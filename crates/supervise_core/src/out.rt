//! What a change of a service gives: marks and orders.
ghost use Rattle.std.specs.Prelude.{◌≡◌, ◌<◌, ◌∷◌, ◌++◌, [], false, length};

use arrayvec::ArrayVec;
use s6_events::{Mark, Order};

/// What one change of a service gives: its marks and its orders, each in the order made, and
/// whether it was a report that was refused as stale. A stale report changes nothing.
#[derive(Drop)]
pub struct Out {
    pub events: ArrayVec<Mark, 4>,
    /// Room for the most that one change gives: two orders for each of 63 letters.
    pub orders: ArrayVec<Order, 126>,
    pub stale: bool,
}

impl Out {
    /// No mark, no order, not stale.
    pub fn new() -> Out
        ensures events { result.events.items ≡ [] }
        ensures orders { result.orders.items ≡ [] }
        ensures stale { result.stale ≡ false }
    {
        Out {
            events: ArrayVec::new(),
            orders: ArrayVec::new(),
            stale: false,
        }
    }

    /// Empties it: no mark, no order, not stale.
    pub fn clear(&mut self)
        ensures events { self.new.events.items ≡ [] }
        ensures orders { self.new.orders.items ≡ [] }
        ensures stale { self.new.stale ≡ false }
    {
        self.events.clear();
        self.orders.clear();
        self.stale = false;
    }
}
