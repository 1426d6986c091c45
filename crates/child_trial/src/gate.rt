//! The lane that a thread serves, and that takes no order while its gate is shut.
use child_runner::{Bell, LaneLink, LaneWorker, Unwanted, serve_lane};
use order_lanes::{AskFault, Backend, Report};
use s6_events::Order;
use std::alloc::Global;
use std::io;
use std::sync::atomic::{AtomicBool, Ordering};
use std::sync::{Arc, Wait};
use std::thread::{Builder, JoinHandle, Threads};
use std::time::Clock;

/// A backend that takes no order while the gate is shut.
#[derive(Drop)]
struct Gated<B: Backend> {
    backend: B,
    is_shut: Arc<AtomicBool, Global>,
}

impl<B: Backend> Backend for Gated<B> {
    ghost asked = { λ g. B.asked g.backend };

    ghost given = { λ g. B.given g.backend };

    fn ask(&mut self, order: Order) -> Result<(), (Order, AskFault)> {
        if self.is_shut.load(Ordering::SeqCst) {
            return Err((order, AskFault::Busy));
        }
        self.backend.ask(order)
    }

    fn report(&mut self) -> Option<Report> {
        self.backend.report()
    }
}

impl<B: LaneWorker> LaneWorker for Gated<B> {
    fn try_again(&mut self) -> Option<u64> {
        self.backend.try_again()
    }

    fn end_starts(&mut self, unwanted: Unwanted) {
        self.backend.end_starts(unwanted)
    }
}

/// What ties the lane to its thread.
#[derive(Drop)]
pub struct Wires {
    /// The orders and the reports on their way.
    pub link: Arc<LaneLink, Global>,
    /// The bell that rings when a report has come back.
    pub driver: Arc<Bell, Global>,
    /// Whether the gate is shut.
    pub is_shut: Arc<AtomicBool, Global>,
}

fn serve_gated<B: LaneWorker + Drop, R: Wait + Clock + Drop>(rt: R, wires: Wires, backend: B) {
    let Wires {
        link,
        driver,
        is_shut,
    } = wires;
    let mut gated = Gated { backend, is_shut };
    serve_lane(&rt, &link, &driver, &mut gated);
}

/// Starts the thread that serves the lane, until its link ends.
pub fn start_lane<
    B: LaneWorker + Send + Drop + 'static,
    R: Threads + Wait + Clock + Copy + Send + Sync + Drop + 'static,
>(rt: R, wires: Wires, backend: B) -> io::Result<JoinHandle<()>> {
    Builder::new().spawn(&rt, move || serve_gated(rt, wires, backend))
}
