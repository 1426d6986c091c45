//! The thread of a lane: it asks its backend, which starts and signals processes, what a run orders
//! by the link, and sends reports back by it.
ghost use Rattle.std.specs.Prelude.{◌≡◌, ◌++◌, ◌∷◌, [], IfSome, IfNone};

use crate::bell::Bell;
use crate::lane_link::LaneLink;
use crate::trials::Unwanted;
use order_lanes::{Backend, Report};
use s6_events::Order;
use std::sync::Wait;
use std::time::{Clock, Duration};

/// What carries out the orders of a lane in the lane's thread. It tries a start again that fails
/// for a fault of the moment, as where the file is being written, and takes further orders
/// meanwhile.
pub trait LaneWorker: Backend {
    /// Tries again each start whose time has come. Returns after how many milliseconds the next one
    /// comes; None where none is left to be tried.
    fn try_again(&mut self) -> Option<u64>
        ensures asked { Self.asked self.new ≡ Self.asked self.old }
        ensures given { Self.given self.new ≡ Self.given self.old };

    /// Gives up the starts that are tried again and wanted no more: they are reported as failed.
    fn end_starts(&mut self, unwanted: Unwanted)
        ensures asked { Self.asked self.new ≡ Self.asked self.old }
        ensures given { Self.given self.new ≡ Self.given self.old };
}

/// The most orders that are asked before reports are looked for.
const ORDERS_AT_ONCE: usize = 16;

/// How long it waits at most after an order or a report was refused, in milliseconds.
const RETRY: u64 = 20;

/// What the thread of a lane holds back: an order that the backend refused, and a report for which
/// there was no place.
#[derive(Drop)]
struct Held {
    order: Option<Order>,
    report: Option<Report>,
}

/// How the asking of some orders went.
#[derive(Clone, Copy, PartialEq, Eq, Debug)]
enum Asking {
    /// There may be more.
    More,
    /// None is left.
    Idle,
    /// The backend refused one, which is held.
    Refused,
}

/// Serves a lane until the link is ended: asks `backend` the orders that a `LinkedBackend` sends,
/// in order, and sends its reports back. An order that is refused is held, and asked again after at
/// most 20 ms, or when the bell rings; reports go on meanwhile. Starts that failed for a fault of
/// the moment are tried again when their time has come. It rings `driver`, the bell of the driver,
/// which is the thread that drives the tree's runs, when it has sent a report back, and when there
/// is a place for orders where there was none. It waits on the link's bell alone.
pub fn serve_lane<B: LaneWorker, R: Wait + Clock>(
    rt: &R,
    link: &LaneLink,
    driver: &Bell,
    backend: &mut B,
) {
    // An order that the backend refused, and a report for which there was no place.
    let mut held = Held {
        order: None,
        report: None,
    };
    for _ in rt.forever() {
        if link.is_over(rt) {
            break;
        }
        let carrying = carry_some(rt, link, driver, backend, &mut held.order);
        let next_try = try_starts(rt, link, backend);
        // Whether a report is kept, since there was no place for it.
        let are_kept = give_reports(rt, link, driver, backend, &mut held.report);
        match carrying {
            Asking::More => {}
            Asking::Idle if !are_kept => {
                link.wait_for_work(rt, next_try.map(Duration::from_millis));
            }
            // An order was refused or a report is kept: it is tried again after a while.
            _ => link.wait_for_work(rt, Some(Duration::from_millis(RETRY))),
        }
    }
    // So no child is left that never was.
    backend.end_starts(Unwanted::All);
}

// Gives up the starts that are wanted no more, and tries those again whose time has come. Returns
// after how many milliseconds the next one comes; None where none is left.
fn try_starts<B: LaneWorker, R: Wait>(rt: &R, link: &LaneLink, backend: &mut B) -> Option<u64> {
    for _ in 0..ORDERS_AT_ONCE {
        let Some(unwanted) = link.take_unwanted(rt) else {
            break;
        };
        backend.end_starts(unwanted);
    }
    let next_try = backend.try_again();
    link.note_trying(rt, next_try.is_some());
    next_try
}

// Asks the backend at most 16 orders, first the one that is held.
fn carry_some<B: Backend, R: Wait>(
    rt: &R,
    link: &LaneLink,
    driver: &Bell,
    backend: &mut B,
    held: &mut Option<Order>,
) -> Asking {
    for _ in 0..ORDERS_AT_ONCE {
        let Some(order) = next_order(rt, link, driver, held) else {
            return Asking::Idle;
        };
        *held = ask_one(backend, order);
        if held.is_some() {
            return Asking::Refused;
        }
    }
    Asking::More
}

// The order that is held, or else the next one of the link; None where there is neither. Rings
// `driver`, the driver's bell, where the link was full.
fn next_order<R: Wait>(
    rt: &R,
    link: &LaneLink,
    driver: &Bell,
    held: &mut Option<Order>,
) -> Option<Order> {
    if held.is_some() {
        return held.take();
    }
    let (order, was_full) = link.take_order(rt)?;
    if was_full {
        // There is a place for orders again, for which the driver may wait.
        driver.ring(rt);
    }
    Some(order)
}

// Asks the backend an order. Returns the order where it is refused.
fn ask_one<B: Backend>(backend: &mut B, order: Order) -> Option<Order>
    ensures asked { IfNone result (B.asked backend.new ≡ B.asked backend.old ++ order ∷ []) }
    ensures back { IfSome result (λ o. (o ≡ order) × (B.asked backend.new ≡ B.asked backend.old)) }
    ensures given { B.given backend.new ≡ B.given backend.old }
{
    match backend.ask(order) {
        Ok(()) => None,
        Err((order, _)) => Some(order),
    }
}

// Sends the backend's reports back while there is a place for them. Returns whether one is kept
// because there was none.
fn give_reports<B: Backend, R: Wait>(
    rt: &R,
    link: &LaneLink,
    driver: &Bell,
    backend: &mut B,
    kept: &mut Option<Report>,
) -> bool {
    for _ in 0..u64::MAX {
        let Some(report) = next_report(backend, kept) else {
            return false;
        };
        if let Err(report) = link.give(rt, report) {
            *kept = Some(report);
            return true;
        }
        // There is a report for the driver.
        driver.ring(rt);
    }
    // So many reports never come.
    false
}

// The report that is kept, or else the backend's next.
fn next_report<B: Backend>(backend: &mut B, kept: &mut Option<Report>) -> Option<Report> {
    if kept.is_some() {
        return kept.take();
    }
    backend.report()
}
