//! What the commands work on: backends, their keeper and their services.
use crate::gate::Wires;
use crate::lane::{Carrier, TrialLane};
use child_runner::{Bell, Keeper, LaneLink, LinkedBackend, ProcessBackend};
use error_notes::Notes;
use order_lanes::Report;
use s6_events::Order;
use std::alloc::{AllocError, Global};
use std::fs::File;
use std::io::{self, ErrorKind};
use std::process::{Command, Processes, SystemProcess};
use std::rt::Files;
use std::sync::atomic::AtomicBool;
use std::sync::{Arc, Wait};
use std::thread::Threads;
use std::time::Clock;

/// The stage of a trial.
#[derive(Drop)]
pub struct TestStage<R> {
    /// The runtime.
    pub rt: R,
    /// What allocates.
    pub alloc: Global,
    // The folder of the services.
    root: String,
    /// Where starts that fail are noted.
    pub notes: Arc<Notes, Global>,
    /// Whether the lane that a thread serves takes no order.
    pub is_shut: Arc<AtomicBool, Global>,
    // The keeper of that lane, and those of the others that weren't ended yet.
    keepers: Vec<Keeper<R>>,
    // That lane, and then the backends of the other keepers.
    lanes: Vec<TrialLane<R>>,
    /// Which of them takes orders and is asked for reports.
    pub chosen: usize,
    /// The process number of the service that was started last.
    pub number: u32,
}

/// What an allocation that failed is here.
pub fn no_memory() -> io::Error {
    io::Error::from(ErrorKind::OutOfMemory)
}

// A backend of this keeper, and its bell.
fn backend_of<R: Drop>(
    rt: R,
    alloc: Global,
    keeper: &Keeper<R>,
    root: &str,
    notes: &Arc<Notes, Global>,
) -> io::Result<(ProcessBackend<R>, Arc<Bell, Global>)> {
    let Ok(backend) = ProcessBackend::new(rt, alloc, keeper, root, notes) else {
        return Err(no_memory());
    };
    match backend.bell() {
        Ok(bell) => Ok((backend, bell)),
        Err(_) => Err(no_memory()),
    }
}

// The lane at the other end of a link.
fn linked_lane<R: Wait + Drop>(rt: R, alloc: Global, wires: &Wires) -> io::Result<TrialLane<R>> {
    let bell = Arc::try_clone(&wires.driver)?;
    match LinkedBackend::new(rt, alloc, &wires.link) {
        Ok(backend) => Ok(TrialLane {
            carrier: Carrier::Linked(backend),
            bell,
        }),
        Err(_) => Err(no_memory()),
    }
}

impl<R: Wait + Copy + Drop> TestStage<R> {
    /// A stage in this folder, with an open gate and nothing else.
    pub fn new(rt: R, alloc: Global, root: &str) -> io::Result<TestStage<R>> {
        Ok(TestStage {
            rt,
            alloc,
            root: String::from_str(alloc, root)?,
            notes: Arc::new(alloc, Notes::new(alloc))?,
            is_shut: Arc::new(alloc, AtomicBool::new(false))?,
            keepers: Vec::new(alloc),
            lanes: Vec::new(alloc),
            chosen: 0,
            number: 0,
        })
    }
}

// What a shell is told: the script, and its `$0`.
fn add_script(command: &mut Command, script: &str, words: &str) -> Result<(), AllocError> {
    command.arg("-c")?.arg(script)?.arg(words)?;
    Ok(())
}

impl<R: Processes> TestStage<R> {
    /// Runs a script in the folder of the trial, with these words as `$0`. `$number` is the process
    /// that was started last. It prints by itself, and inherits all, so that no descriptor is
    /// opened here for it.
    pub fn run_shell(&self, script: &str, words: &str) -> io::Result<()> {
        let mut command = Command::new(self.alloc, "/bin/sh")?;
        self.run_script(&mut command, script, words)
    }

    fn run_script(&self, command: &mut Command, script: &str, words: &str) -> io::Result<()> {
        let root = self.root.as_str();
        let script = format!(in self.alloc; "cd {root}; number={}; {script}", self.number)?;
        add_script(command, script.as_str(), words)?;
        command.status(&self.rt)?;
        Ok(())
    }
}

impl<R: Processes<Started = SystemProcess> + Files<File = File> + Wait + Clock + Drop> TestStage<
    R,
> {
    /// Asks the chosen backend an order. Whether it was taken.
    pub fn ask(&mut self, order: Order) -> bool {
        match self.lanes.get_mut(self.chosen) {
            Some(lane) => lane.ask(order),
            None => false,
        }
    }

    /// The next report of the chosen backend; None where none came within so many milliseconds.
    pub fn next_report(&mut self, millis: u64) -> Option<Report> {
        let report = self
            .lanes
            .get_mut(self.chosen)?
            .next_report(&self.rt, millis)?;
        if let Report::Started(_, _, number) = &report {
            self.number = *number;
        }
        Some(report)
    }
}

impl<
    R: Print
        + Processes<Started = SystemProcess>
        + Threads
        + Wait
        + Clock
        + Copy
        + Send
        + Sync
        + Drop
        + 'static,
> TestStage<R> {
    /// Starts a keeper.
    pub fn start_keeper(&mut self) -> io::Result<()> {
        match Keeper::start(self.rt, self.alloc) {
            Ok(keeper) => {
                self.keepers.push(keeper)?;
                Ok(())
            }
            Err(_) => Err(no_memory()),
        }
    }

    // A backend of the keeper that was started last, and its bell.
    fn new_backend(&self) -> io::Result<(ProcessBackend<R>, Arc<Bell, Global>)> {
        let Some(keeper) = self.keepers.last() else {
            return Err(no_memory());
        };
        backend_of(self.rt, self.alloc, keeper, self.root.as_str(), &self.notes)
    }

    // Ties the lane to the thread that will serve a backend with this bell.
    fn tie_lane(&mut self, bell: Arc<Bell, Global>) -> io::Result<Wires> {
        let wires = Wires {
            link: Arc::new(self.alloc, LaneLink::new(self.alloc, bell))?,
            driver: Arc::new(self.alloc, Bell::new())?,
            is_shut: Arc::try_clone(&self.is_shut)?,
        };
        self.lanes.push(linked_lane(self.rt, self.alloc, &wires)?)?;
        Ok(wires)
    }

    /// Starts the lane's keeper. The lane's own backend, and what ties it to its thread.
    pub fn open_lane(&mut self) -> io::Result<(ProcessBackend<R>, Wires)> {
        self.start_keeper()?;
        let (backend, bell) = self.new_backend()?;
        match self.tie_lane(bell) {
            Ok(wires) => Ok((backend, wires)),
            Err(error) => Err(error),
        }
    }

    /// Adds such a backend, and chooses it.
    pub fn add_backend(&mut self) -> io::Result<()> {
        let (backend, bell) = self.new_backend()?;
        self.chosen = self.lanes.len();
        let carrier = Carrier::Own(backend);
        self.lanes.push(TrialLane { carrier, bell })?;
        Ok(())
    }

    /// Ends the keeper that was started last.
    pub fn end_keeper(&mut self) {
        if let Some(keeper) = self.keepers.pop() {
            keeper.end();
        }
    }

    /// Ends all keepers.
    pub fn end_all(&mut self) {
        for _ in 0..self.keepers.len() {
            self.end_keeper();
        }
    }
}
