//! The link between the backend of a run and the thread of its lane: a queue of orders to the
//! thread, and one of reports back.
ghost use Rattle.std.specs.Prelude.{◌≡◌, ◌++◌, ◌∷◌, [], OnOk, OnErr};
ghost use Rattle.child_runner.specs.Roll.{with_asked};

use crate::bell::Bell;
use crate::link_queue::LinkQueue;
use crate::roll::Roll;
use crate::trials::Unwanted;
use order_lanes::{AskFault, Report};
use s6_events::Order;
use std::alloc::Global;
use std::sync::{Arc, Mutex, Wait};
use std::time::{Clock, Duration};

/// The most orders that may be on their way to a lane's thread.
pub const LINK_ORDER_LIMIT: usize = 1_024;

/// The most reports that may be on their way back.
pub const LINK_REPORT_LIMIT: usize = 64;

/// How many words that starts are wanted no more may be on their way.
const UNWANTED_LIMIT: usize = 64;

/// The orders on their way to the thread of a lane, and the reports on their way back, each in
/// order. `bell` wakes that thread, and `is_over` says that it is to end. The thread outlives the
/// runs of a tree, and so does the link. Memory is taken as orders and reports come.
#[derive(Drop)]
pub struct LaneLink {
    orders: Mutex<LinkQueue<Order>>,
    reports: Mutex<LinkQueue<Report>>,
    // Whether the thread tries starts again, and whose starts are wanted no more.
    is_trying: Mutex<bool>,
    unwanted: Mutex<LinkQueue<Unwanted>>,
    is_over: Mutex<bool>,
    bell: Arc<Bell, Global>,
}

// Adds an order for the lane's thread. From then on the order counts as asked: the roll, a list of
// the starts that were ordered, lets the reports of its start through.
fn add_order(orders: &mut LinkQueue<Order>, roll: &mut Roll, order: &Order) -> Result<(), AskFault>
    ensures queued { OnOk result (orders.new.items.items
        ≡ orders.old.items.items ++ order.now ∷ []) }
    ensures asked { OnOk result
        (roll.new ≡ with_asked order.now roll.old) }
    ensures none { OnErr result (orders.new.items.items ≡ orders.old.items.items) }
    ensures same { OnErr result (roll.new ≡ roll.old) }
{
    orders.make_room()?;
    if roll.enter(order).is_err() {
        return Err(AskFault::NoMemory);
    }
    orders.add(*order);
    Ok(())
}

impl LaneLink {
    /// A link with nothing on its way. `bell` is that of the lane's `ProcessBackend`: it rings
    /// for the lane's thread when there is something to do.
    pub fn new(alloc: Global, bell: Arc<Bell, Global>) -> LaneLink {
        LaneLink {
            orders: Mutex::new(LinkQueue::new(alloc, LINK_ORDER_LIMIT)),
            reports: Mutex::new(LinkQueue::new(alloc, LINK_REPORT_LIMIT)),
            is_trying: Mutex::new(false),
            unwanted: Mutex::new(LinkQueue::new(alloc, UNWANTED_LIMIT)),
            is_over: Mutex::new(false),
            bell,
        }
    }

    /// Ends the lane's thread. Orders that are still on their way are never asked.
    pub fn end<R: Wait>(&self, rt: &R) {
        *self.is_over.lock(rt) = true;
        self.bell.ring(rt);
    }

    /// Says that starts are wanted no more: those that the lane's thread tries again end, and are
    /// reported as failed. Where 64 such words are on their way, or memory is refused, they go on
    /// until they are given up.
    pub fn end_starts<R: Wait>(&self, rt: &R, unwanted: Unwanted) {
        if !*self.is_trying.lock(rt) {
            return;
        }
        let mut words = self.unwanted.lock(rt);
        if words.make_room().is_ok() {
            words.add(unwanted);
        }
        drop(words);
        self.bell.ring(rt);
    }

    /// Notes whether the lane's thread tries starts again.
    pub(crate) fn note_trying<R: Wait>(&self, rt: &R, is_trying: bool) {
        *self.is_trying.lock(rt) = is_trying;
    }

    /// Takes the next word that starts are wanted no more; None where there is none.
    pub(crate) fn take_unwanted<R: Wait>(&self, rt: &R) -> Option<Unwanted> {
        self.unwanted.lock(rt).pop()
    }

    /// Whether the lane's thread is to end.
    pub(crate) fn is_over<R: Wait>(&self, rt: &R) -> bool {
        *self.is_over.lock(rt)
    }

    /// Sends an order to the lane's thread, and rings for it. `Busy` where 1,024 are on their way,
    /// `NoMemory` where memory is refused; then it wasn't sent.
    pub(crate) fn send<R: Wait>(
        &self,
        rt: &R,
        roll: &mut Roll,
        order: &Order,
    ) -> Result<(), AskFault>
        ensures added { OnOk result
            (roll.new ≡ with_asked order.now roll.old) }
        ensures same { OnErr result (roll.new ≡ roll.old) }
    {
        let sent = add_order(&mut self.orders.lock(rt), roll, order);
        if sent.is_ok() {
            self.bell.ring(rt);
        }
        sent
    }

    /// Takes the next order, and says whether the queue was full before; None where there is none.
    pub(crate) fn take_order<R: Wait>(&self, rt: &R) -> Option<(Order, bool)> {
        let mut orders = self.orders.lock(rt);
        // If it was, the driver may wait for a place.
        let was_full = orders.is_full();
        let order = orders.pop()?;
        Some((order, was_full))
    }

    /// Sends a report back. The error is the report, where 64 are on their way or memory is
    /// refused.
    pub(crate) fn give<R: Wait>(&self, rt: &R, report: Report) -> Result<(), Report> {
        let mut reports = self.reports.lock(rt);
        // There is no place, or no memory for it.
        if reports.make_room().is_err() {
            return Err(report);
        }
        reports.add(report);
        Ok(())
    }

    /// Takes the next report that came back; None where there is none. Where the queue was full, it
    /// rings for the lane's thread, since there is a place now.
    pub(crate) fn take_report<R: Wait>(&self, rt: &R) -> Option<Report> {
        let mut reports = self.reports.lock(rt);
        let was_full = reports.is_full();
        let report = reports.pop()?;
        drop(reports);
        if was_full {
            self.bell.ring(rt);
        }
        Some(report)
    }

    /// Waits for something to do, and at most for `at_most`, if that is given.
    pub(crate) fn wait_for_work<R: Wait + Clock>(&self, rt: &R, at_most: Option<Duration>) {
        match at_most {
            Some(time) => {
                let _ = self.bell.wait_at_most(rt, time);
            }
            None => self.bell.wait(rt),
        }
    }
}
