//! A worker of a lane that starts no process: it answers each order by the reports that come of a
//! program that does as it is told.
ghost use Rattle.std.specs.Prelude.{◌≡◌, [], ◌∷◌, ◌++◌, OnOk, OnErr, map};

use arrayvec::ArrayVec;
use child_runner::{LaneWorker, Unwanted};
use order_lanes::{AskFault, Backend, Report, is_of_asked};
use s6_events::{Exit, NoMemory, Order, Sid};
use std::alloc::Global;
use std::collections::VecDeque;
use std::snapshot::Snapshot;

/// The number of SIGTERM.
const SIGTERM: u8 = 15;

/// For how many reports there is room from the start: more than ever come.
const ROLL_ROOM: usize = 0x4000_0000_0000_0000;

/// The most reports that come of one order.
const REPORTS: usize = 2;

/// A worker whose programs start at once, are ready at once where they can say so, and die of
/// SIGTERM. Each report is given once.
#[derive(Drop)]
pub struct FakeWorker {
    // What it was asked.
    asked: Vec<Order>,
    // What it gave, for contracts alone.
    given: Vec<Snapshot<Report>>,
    // What is still to be reported, the oldest first.
    waiting: VecDeque<Report, Global>,
}

// The process number that is told of a start.
fn process_of(sid: Sid, generation: u64) -> u32 {
    let number = sid.0.saturating_mul(100).saturating_add(generation);
    u32::try_from(number).unwrap_or(u32::MAX)
}

// The newline by which a program says that it is ready.
fn newline() -> ArrayVec<u8, 64> {
    let mut bytes = ArrayVec::new();
    let _ = bytes.try_push(b'\n');
    bytes
}

impl FakeWorker {
    /// Nothing was asked.
    pub fn new(alloc: Global) -> Result<FakeWorker, NoMemory> {
        Ok(FakeWorker {
            asked: Vec::new(alloc),
            // A list that grows takes a block also for what has no bytes.
            given: Vec::with_capacity(alloc, ROLL_ROOM)?,
            waiting: VecDeque::new(alloc),
        })
    }

    // Takes the order, or at `NoMemory` nothing of it.
    fn take(&mut self, order: &Order) -> Result<(), NoMemory>
        ensures asked { OnOk result
            (self.new.asked.items ≡ self.old.asked.items ++ order.now ∷ []) }
        ensures same { OnErr result (self.new.asked.items ≡ self.old.asked.items) }
        ensures given { self.new.given.items ≡ self.old.given.items }
    {
        self.waiting.reserve(REPORTS)?;
        self.asked.reserve(1)?;
        self.asked.push_reserved(*order);
        self.answer(order);
        Ok(())
    }

    // Adds what comes of the order to what is to be reported, for which there is room.
    fn answer(&mut self, order: &Order)
        ensures asked { self.new.asked.items ≡ self.old.asked.items }
        ensures given { self.new.given.items ≡ self.old.given.items }
    {
        match order {
            Order::Run(sid, generation, _, descriptor) => {
                let process = process_of(*sid, *generation);
                self.tell(Report::Started(*sid, *generation, process));
                if descriptor.is_some() {
                    self.tell(Report::Notify(*sid, *generation, newline()));
                }
            }
            Order::Signal(sid, generation, SIGTERM) => {
                self.tell(Report::Death(*sid, *generation, Exit::Killed(SIGTERM)));
            }
            Order::Finish(sid, generation, _, _, _) => {
                self.tell(Report::FinishEnded(*sid, *generation, Exit::Code(0)));
            }
            Order::Signal(..) | Order::KillFinish(..) => {}
        }
    }

    fn tell(&mut self, report: Report)
        ensures asked { self.new.asked.items ≡ self.old.asked.items }
        ensures given { self.new.given.items ≡ self.old.given.items }
    {
        let _ = self.waiting.push_back(report);
    }
}

impl Backend for FakeWorker {
    ghost asked = { λ w. w.asked.items };

    ghost given = { λ w. map (λ s. s.value) w.given.items };

    fn ask(&mut self, order: Order) -> Result<(), (Order, AskFault)> {
        match self.take(&order) {
            Ok(()) => Ok(()),
            Err(_) => Err((order, AskFault::NoMemory)),
        }
    }

    fn report(&mut self) -> Option<Report> {
        let report = self.waiting.pop_front()?;
        if !is_of_asked(self.asked.as_slice(), &report) {
            return None;
        }
        // There is room.
        match self.given.push(Snapshot::of(&report)) {
            Ok(()) => Some(report),
            Err(_) => None,
        }
    }
}

impl LaneWorker for FakeWorker {
    // Each start succeeds.
    fn try_again(&mut self) -> Option<u64> {
        None
    }

    fn end_starts(&mut self, _unwanted: Unwanted) {}
}
