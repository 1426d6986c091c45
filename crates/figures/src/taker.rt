//! A backend that takes each order, and starts nothing.
ghost use Rattle.std.specs.Prelude.{◌≡◌, []};

use order_lanes::{AskFault, Backend};
use s6_events::{Order, Report};
use std::alloc::Global;
use std::marker::Model;
use std::snapshot::Snapshot;

/// Takes each order. What it was asked is for contracts alone, as with a backend that starts
/// programs: the list takes no memory.
#[derive(Drop)]
pub struct Taker {
    asked: Vec<Snapshot<Order>>,
}

impl Model for Taker {
    ghost use Rattle.std.specs.Prelude.{List, map};
    ghost use Rattle.s6_events.specs.declared.order.Order.{Order};

    ghost Value = { List Order };

    ghost view = { λ t. map (λ s. s.value) t.asked.items };
}

impl Taker {
    /// A backend that was asked nothing.
    pub fn new(alloc: Global) -> Taker
        ensures { result ≡ [] }
    {
        Taker {
            asked: Vec::new(alloc),
        }
    }
}

impl Backend for Taker {
    ghost use Rattle.std.specs.Prelude.{[]};

    ghost asked = { λ t. t };

    ghost given = { λ t. [] };

    fn ask(&mut self, order: Order) -> Result<(), (Order, AskFault)> {
        if self.asked.push(Snapshot::of(&order)).is_err() {
            return Err((order, AskFault::NoMemory));
        }
        Ok(())
    }

    fn report(&mut self) -> Option<Report> {
        None
    }
}
