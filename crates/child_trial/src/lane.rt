//! A backend that is asked orders, and the bell that rings when it has a report.
use child_runner::{Bell, LinkedBackend, ProcessBackend};
use order_lanes::{Backend, Report};
use s6_events::Order;
use std::alloc::Global;
use std::fs::File;
use std::process::{Processes, SystemProcess};
use std::rt::Files;
use std::sync::{Arc, Wait};
use std::time::{Clock, Duration};

/// What carries out the orders of a lane.
#[derive(Drop)]
pub enum Carrier<R> {
    /// A backend of processes.
    Own(ProcessBackend<R>),
    /// A link to the thread that serves one.
    Linked(LinkedBackend<R>),
}

/// A backend under trial, and its bell.
#[derive(Drop)]
pub struct TrialLane<R> {
    /// The backend.
    pub carrier: Carrier<R>,
    /// Its bell.
    pub bell: Arc<Bell, Global>,
}

impl<R: Processes<Started = SystemProcess> + Files<File = File> + Wait + Clock + Drop> TrialLane<
    R,
> {
    /// Asks an order. Whether it was taken.
    pub fn ask(&mut self, order: Order) -> bool {
        match &mut self.carrier {
            Carrier::Own(backend) => backend.ask(order).is_ok(),
            Carrier::Linked(backend) => backend.ask(order).is_ok(),
        }
    }

    fn report(&mut self) -> Option<Report> {
        match &mut self.carrier {
            Carrier::Own(backend) => backend.report(),
            Carrier::Linked(backend) => backend.report(),
        }
    }

    /// The next report, for which the bell rings; None where none came within so many milliseconds.
    pub fn next_report(&mut self, rt: &R, millis: u64) -> Option<Report> {
        for _ in 0..1000u32 {
            let report = self.report();
            if report.is_some() {
                return report;
            }
            if !self.bell.wait_at_most(rt, Duration::from_millis(millis)) {
                return self.report();
            }
        }
        None
    }
}
