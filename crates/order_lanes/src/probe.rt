//! A backend for tests, which starts nothing.
ghost use Rattle.std.specs.Prelude.{◌≡◌, [], ◌∷◌, ◌++◌, OnOk, OnErr};

use crate::backend::{AskFault, Backend};
use crate::report::is_of_asked;
use s6_events::{NoMemory, Order, Report};
use std::alloc::Global;
use std::marker::Model;
use std::snapshot::Snapshot;
use std::sync::{Arc, Mutex, Wait};

/// A backend that writes down what it is asked, and gives reports that it got when it was made. It
/// first answers `Busy` a number of times.
#[derive(Drop)]
pub struct Probe<R> {
    rt: R,
    // The reports that are still to be given, the next one last.
    waiting: Vec<Report>,
    // How often it still answers `Busy`.
    busy: u32,
    // What it was asked.
    asked: Vec<Order>,
    // What it gave, for contracts alone: a snapshot has no bytes.
    given: Vec<Snapshot<Report>>,
    // What it was asked, for the test to read.
    log: Arc<Mutex<Vec<Order>>, Global>,
}

impl<R> Model for Probe<R> {
    ghost use Rattle.std.specs.Prelude.{map};
    ghost use Rattle.order_lanes.specs.Probe.{ProbeView};

    ghost Value = { ProbeView };

    ghost view = { λ p. record { asked = p.asked.items; given = map (λ s. s.value) p.given.items; busy = p.busy } };
}

impl<R> Probe<R> {
    /// A backend that answers `Busy` the first `busy` times, and writes each later order into `log`
    /// too. It gives the reports in their order.
    pub fn new(
        rt: R,
        alloc: Global,
        reports: Vec<Report>,
        busy: u32,
        log: Arc<Mutex<Vec<Order>>, Global>,
    ) -> Probe<R>
        ensures { result ≡ record { asked = []; given = []; busy = busy } }
    {
        let mut waiting = reports;
        // The next report is popped off the end of the list.
        waiting.reverse();
        Probe {
            rt,
            waiting,
            busy,
            asked: Vec::new(alloc),
            given: Vec::new(alloc),
            log,
        }
    }
}

impl<R: Wait + Drop> Probe<R> {
    // Adds the order to both lists, or to neither.
    fn write_down(&mut self, order: &Order) -> Result<(), NoMemory>
        ensures added { OnOk result
            (self.new ≡ record self.old { asked = self.old.asked ++ order.now ∷ [] }) }
        ensures same { OnErr result (self.new ≡ self.old) }
    {
        // Room for `asked` comes first: then only the push into `log` can be refused, and neither
        // list has the order.
        self.asked.reserve(1)?;
        self.log.lock(&self.rt).push(*order)?;
        self.asked.push_reserved(*order);
        Ok(())
    }
}

impl<R: Wait + Drop> Backend for Probe<R> {
    ghost asked = { λ p. p.asked };

    ghost given = { λ p. p.given };

    /// `Busy` as often as it was made to; `NoMemory` where memory for one of the two lists is
    /// refused, and then neither has the order.
    fn ask(&mut self, order: Order) -> Result<(), (Order, AskFault)> {
        if self.busy > 0 {
            self.busy -= 1;
            return Err((order, AskFault::Busy));
        }
        match self.write_down(&order) {
            Ok(()) => Ok(()),
            Err(_) => Err((order, AskFault::NoMemory)),
        }
    }

    /// The first report that waits and whose start was asked. Those before it, whose start wasn't
    /// asked, are dropped.
    fn report(&mut self) -> Option<Report> {
        for _ in 0..self.waiting.len() {
            // Where memory is refused, no report is given, and the next one still waits.
            self.given.reserve(1).ok()?;
            let report = self.waiting.pop()?;
            if is_of_asked(self.asked.as_slice(), &report) {
                // For contracts alone: the reports that were given.
                self.given.push_reserved(Snapshot::of(&report));
                return Some(report);
            }
        }
        None
    }
}
