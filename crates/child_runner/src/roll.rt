//! A backend's roll: which of the starts that it was asked have not ended; and, for contracts
//! alone, all that it was asked and gave.
ghost use Rattle.std.specs.Prelude.{◌≡◌, ◌<◌, ◌++◌, ◌∷◌, [], List, length, IsTrue, Some, slice_get};
ghost use Rattle.std.specs.Prelude.{OnOk, OnErr, IfOk, IfSome, IfNone, remove, if◌then◌else◌};
ghost use Rattle.std.specs.List.{All};
ghost use Rattle.child_runner.specs.Roll.{WasAsked, is_last, orders_in, reports_in, with_asked, Passes};
ghost use Rattle.s6_events.specs.declared.order.Order.{Order as Asked};
ghost use Rattle.order_lanes.specs.Backend.{answers, IsOfAsked};

use crate::started_program::is_last;
use order_lanes::{Report, answers};
use s6_events::{NoMemory, Order};
use std::alloc::Global;
use std::marker::Model;
use std::snapshot::Snapshot;

/// For how many orders, and for how many reports, a roll has room from the start: more than ever
/// come. They have no bytes.
const ROLL_ROOM: usize = 0x4000_0000_0000_0000;

/// What was asked and what was given, for contracts alone: these two lists take no memory once they
/// are made. `living` are the starts that were asked and haven't ended; only a report of one of
/// them is let through.
#[derive(Drop)]
pub(crate) struct Roll {
    living: Vec<Order>,
    asked: Vec<Snapshot<Order>>,
    given: Vec<Snapshot<Report>>,
}

impl Model for Roll {
    ghost use Rattle.std.specs.List.{All};
    ghost use Rattle.child_runner.specs.Roll.{RollView, WasAsked, orders_in, reports_in};

    ghost Value = { RollView };

    ghost view = { λ r. record { asked = orders_in r.asked.items; given = reports_in r.given.items; living = r.living.items } };

    ghost invariant = { λ r. All (WasAsked (orders_in r.asked.items)) r.living.items };
}

// The index of the first of these orders that the report answers; None where it answers none.
fn place_of(orders: &[Order], report: &Report) -> Option<usize>
    ensures place { IfSome result (λ k. k < length orders.now) }
    ensures answered { IfSome result (λ k. (order : Asked)
        × (slice_get orders.now k ≡ Some order) × IsTrue (answers order report.now)) }
{
    for (place, order) in orders.iter().enumerate() {
        if answers(order, report) {
            return Some(place);
        }
    }
    None
}

// The index of the first of the starts that haven't ended that the report is of; None where it is
// of none.
#[tactic(auto, using(crate::proofs::Kept::answered))]
fn place_of_start(living: &[Order], report: &Report) -> Option<usize>
    ensures place { IfSome result (λ k. k < length living.now) }
    ensures answered { IfSome result (λ k. (order : Asked)
        × (slice_get living.now k ≡ Some order) × IsTrue (answers order report.now)) }
    ensures asked { IfSome result (λ k. (asked : List Asked)
        → All (WasAsked asked) living.now → IsOfAsked asked report.now) }
{
    place_of(living, report)
}

// Adds an order to the list of what was asked, which is for contracts alone.
fn add(asked: &mut Vec<Snapshot<Order>>, order: &Order) -> Result<(), NoMemory>
    ensures added { OnOk result
        (orders_in asked.new.items ≡ orders_in asked.old.items ++ order.now ∷ []) }
    ensures same { OnErr result (asked.new.items ≡ asked.old.items) }
{
    asked.push(Snapshot::of(order))?;
    Ok(())
}

// Adds a report to the list.
fn add_given(given: &mut Vec<Snapshot<Report>>, report: &Report) -> Result<(), NoMemory>
    ensures added { OnOk result
        (reports_in given.new.items ≡ reports_in given.old.items ++ report.now ∷ []) }
    ensures same { OnErr result (given.new.items ≡ given.old.items) }
{
    given.push(Snapshot::of(report))?;
    Ok(())
}

// Takes the start at this index out of those that haven't ended, if this is its last report.
fn end_last(living: &mut Vec<Order>, place: usize, report: &Report)
    requires { place < length living.old.items }
    ensures left { living.new.items
        ≡ (if is_last report.now then remove living.old.items place else living.old.items) }
    ensures asked { (asked : List Asked) → All (WasAsked asked) living.old.items
        → All (WasAsked asked) living.new.items }
{
    if is_last(report) {
        let _ = living.remove(place);
    }
}

impl Roll {
    /// Nothing was asked or given yet. `NoMemory` where memory is refused.
    pub fn new(alloc: Global) -> Result<Roll, NoMemory>
        ensures { IfOk result (λ r. r ≡ record { asked = []; given = []; living = [] }) }
    {
        Ok(Roll {
            // The starts that were asked and haven't ended.
            living: Vec::new(alloc),
            // For contracts alone. A list that grows takes a block also for what has no bytes, so
            // these have all their room from the start.
            asked: Vec::with_capacity(alloc, ROLL_ROOM)?,
            given: Vec::with_capacity(alloc, ROLL_ROOM)?,
        })
    }

    /// An order was asked that starts nothing.
    #[tactic(auto, using(crate::proofs::Kept::more_asked))]
    pub fn note(&mut self, order: &Order) -> Result<(), NoMemory>
        ensures added { OnOk result
            (self.new ≡ record self.old { asked = self.old.asked ++ order.now ∷ [] }) }
        ensures same { OnErr result (self.new ≡ self.old) }
    {
        add(&mut self.asked, order)?;
        Ok(())
    }

    /// An order was asked that starts a program.
    #[tactic(auto, using(crate::proofs::Kept::one_more_lives))]
    pub fn start(&mut self, order: &Order) -> Result<(), NoMemory>
        ensures added { OnOk result (self.new ≡ record self.old {
          asked = self.old.asked ++ order.now ∷ [];
          living = self.old.living ++ order.now ∷ [];
        }) }
        ensures same { OnErr result (self.new ≡ self.old) }
    {
        // The memory is taken first, so that at `NoMemory` nothing has changed.
        self.living.reserve(1)?;
        add(&mut self.asked, order)?;
        self.living.push_reserved(*order);
        Ok(())
    }

    /// Notes that an order was asked. If it starts a program, the reports of that start are let
    /// through from now on.
    pub fn enter(&mut self, order: &Order) -> Result<(), NoMemory>
        ensures added { OnOk result (self.new ≡ with_asked order.now self.old) }
        ensures same { OnErr result (self.new ≡ self.old) }
    {
        match order {
            Order::Run(..) | Order::Finish(..) => self.start(order),
            Order::Signal(..) | Order::KillFinish(..) => self.note(order),
        }
    }

    /// Lets a report through, and returns it, if it is of a start that hasn't ended; None for any
    /// other report.
    pub fn pass(&mut self, report: Report) -> Option<Report>
        ensures same { IfSome result (λ r. r ≡ report) }
        ensures asked { IfSome result (λ r. IsOfAsked self.old.asked r) }
        ensures given { IfSome result (λ r. Passes r self.old self.new) }
        ensures none { IfNone result (self.new ≡ self.old) }
    {
        // A report of no such start is dropped.
        let place = place_of_start(self.living.as_slice(), &report)?;
        // The list of what was given has room, so this is not refused.
        let Ok(()) = add_given(&mut self.given, &report) else {
            return None;
        };
        end_last(&mut self.living, place, &report);
        Some(report)
    }
}
