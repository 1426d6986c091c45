//! The backend of real processes: it carries out orders, as to start a service's program or to
//! signal it, and reports what becomes of the programs. The keeper is the thread that starts the
//! threads of each child; `roster` is its list of children.
ghost use Rattle.std.specs.Prelude.{◌≡◌, ◌++◌, ◌∷◌, [], OnOk, OnErr, IfOk};
ghost use Rattle.child_runner.specs.Roll.{with_asked};

use crate::bell::Bell;
use crate::keeper::Keeper;
use crate::lane_thread::LaneWorker;
use crate::launch::{Launch, failure_note, launch_of};
use crate::order_commands::text_of;
use crate::roll::Roll;
use crate::roster::ChildList;
use crate::shared_child::{Pipe, ServiceProcess};
use crate::shell::{Sending, signal_child};
use crate::start_fault::StartFault;
use crate::started_program::{Start, is_last};
use crate::trials::{Schedule, Trial, Unwanted, millis_of};
use error_notes::Notes;
use order_lanes::{AskFault, Backend, Report};
use s6_events::{Name, NoMemory, Order, SIGKILL, Sid};
use std::alloc::{AllocError, Global};
use std::collections::VecDeque;
use std::fs::File;
use std::marker::Model;
use std::process::{Child, Processes, SystemProcess};
use std::rt::Files;
use std::sync::{Arc, Wait};
use std::time::Clock;

/// A backend whose services are processes. The directory of a service is `root/NAME`, and its
/// programs run there. `roster` lists the children of all backends of a keeper, `processes` those
/// of this one whose end was not reported yet; `turn` is which of them is asked first for a report,
/// and `roll` which starts may still be reported on. Page `s6-supervise`.
#[derive(Drop)]
pub struct ProcessBackend<R> {
    rt: R,
    alloc: Global,
    root: String,
    roster: Arc<ChildList, Global>,
    bell: Arc<Bell, Global>,
    notes: Arc<Notes, Global>,
    processes: Vec<Arc<ServiceProcess, Global>>,
    // Starts that failed for a fault of the moment, and are tried again.
    trials: VecDeque<Trial, Global>,
    // The services for which a note said that no signal can be sent to them.
    deaf: Vec<Sid>,
    turn: usize,
    roll: Roll,
}

impl<R> Model for ProcessBackend<R> {
    ghost use Rattle.child_runner.specs.Roll.{RollView};

    ghost Value = { RollView };

    ghost view = { λ b. b.roll };
}

// The note about a service that can't be sent signals.
fn deaf_text(alloc: Global, root: &str, name: &Name) -> Result<String, AllocError> {
    let name = text_of(name);
    format!(in alloc; "svscan: {root}/{name} can't be signalled: no shell\n")
}

impl<R: Drop> ProcessBackend<R> {
    /// A backend of the services under `root`. `keeper` starts the threads of its children. A start
    /// that fails, and a signal that can't be sent for want of a shell, is told on `notes`.
    /// `NoMemory` where memory is refused.
    pub fn new(
        rt: R,
        alloc: Global,
        keeper: &Keeper<R>,
        root: &str,
        notes: &Arc<Notes, Global>,
    ) -> Result<ProcessBackend<R>, NoMemory>
        ensures { IfOk result (λ b. b ≡ record { asked = []; given = []; living = [] }) }
    {
        // It rings when there is something to report.
        let bell = Arc::new(alloc, Bell::new())?;
        // The children of all backends of the keeper.
        let roster = Arc::try_clone(&keeper.roster)?;
        Ok(ProcessBackend {
            rt,
            alloc,
            root: String::from_str(alloc, root)?,
            roster,
            bell,
            notes: Arc::try_clone(notes)?,
            processes: Vec::new(alloc),
            trials: VecDeque::new(alloc),
            deaf: Vec::new(alloc),
            turn: 0,
            roll: Roll::new(alloc)?,
        })
    }

    /// The bell that rings when there is something to report. Take it before the backend is boxed.
    /// `NoMemory` where memory is refused.
    pub fn bell(&self) -> Result<Arc<Bell, Global>, NoMemory> {
        Ok(Arc::try_clone(&self.bell)?)
    }
}

impl<
    R: Processes<Started = SystemProcess> + Files<File = File> + Wait + Clock + Drop,
> ProcessBackend<R> {
    // Starts the program that this order starts, of the service `name`. One that can't be started
    // is reported.
    fn start(&mut self, order: &Order, name: &Name, start: &Start) -> Result<(), AskFault>
        ensures added { OnOk result (self.new ≡ record self.old {
          asked = self.old.asked ++ order.now ∷ [];
          living = self.old.living ++ order.now ∷ [];
        }) }
        ensures same { OnErr result (self.new ≡ self.old) }
    {
        match self.enter_and_run(order, name, start) {
            Ok(()) => Ok(()),
            Err(_) => Err(AskFault::NoMemory),
        }
    }

    // Enters the child in `roster`, the list of the keeper, which starts the threads of children,
    // and in `roll`, the list of starts that may be reported on; and starts its program. It takes
    // all memory before, so at `NoMemory` nothing was started. A program that can't be started is
    // reported.
    fn enter_and_run(&mut self, order: &Order, name: &Name, start: &Start) -> Result<(), NoMemory>
        ensures added { OnOk result (self.new ≡ record self.old {
          asked = self.old.asked ++ order.now ∷ [];
          living = self.old.living ++ order.now ∷ [];
        }) }
        ensures same { OnErr result (self.new ≡ self.old) }
    {
        let launch = launch_of(self.alloc, self.root.as_str(), order)?;
        let bell = Arc::try_clone(&self.bell)?;
        // The child's number on the roster, not that of its process.
        let number = self.roster.take_number(&self.rt);
        let process = Arc::new(self.alloc, ServiceProcess::new(number, start, name, bell))?;
        let theirs = Arc::try_clone(&process)?;
        self.processes.reserve(1)?;
        self.trials.reserve(1)?;
        self.roster.enter(&self.rt, &process)?;
        if let Err(refused) = self.roll.start(order) {
            self.roster.remove_child(&self.rt, number);
            return Err(refused);
        }
        self.processes.push_reserved(process);
        self.run(theirs, order, launch);
        Ok(())
    }

    // Starts the child. Where that fails for a fault of the moment, it is tried again later.
    fn run(&mut self, process: Arc<ServiceProcess, Global>, order: &Order, launch: Option<Launch>)
        ensures { self.new ≡ self.old }
    {
        match spawn(&self.rt, self.alloc, launch) {
            Ok((child, pipe)) => self.begin(&process, child, pipe),
            Err(StartFault::Passing) => {
                let schedule = Schedule::begin(millis_of(&self.rt));
                self.put_back(Trial {
                    process,
                    order: *order,
                    schedule,
                });
            }
            Err(StartFault::Lasting) => self.fail(&process, order),
        }
    }

    // Puts a start at the end of those that are tried again. Where memory for it is refused, it is
    // given up.
    fn put_back(&mut self, trial: Trial)
        ensures { self.new ≡ self.old }
    {
        if let Err(refused) = self.trials.push_back(trial) {
            let trial = refused.value;
            self.fail(&trial.process, &trial.order);
        }
    }

    // The child runs.
    fn begin(&self, process: &ServiceProcess, child: Child<SystemProcess>, pipe: Option<Pipe>) {
        // The keeper starts the threads that watch the child.
        process.begin(&self.rt, child, pipe);
        self.roster.note_running(&self.rt, process.number);
    }

    // The child can't be started. That is noted too, since it has no program that could say so.
    fn fail(&self, process: &ServiceProcess, order: &Order) {
        self.note(&failure_note(self.alloc, self.root.as_str(), order));
        self.give_up(process);
    }

    // The child is not started: that is reported, and the keeper's list forgets it.
    fn give_up(&self, process: &ServiceProcess) {
        process.fail(&self.rt);
        self.roster.remove_child(&self.rt, process.number);
    }

    // Tries a start again, if its time has come. Returns it where it is to be tried once more.
    fn tried(&self, mut trial: Trial, now: u64) -> Option<Trial> {
        if trial.schedule.time_left(now) > 0 {
            return Some(trial);
        }
        trial.schedule.note_try(now);
        let launch = launch_of(self.alloc, self.root.as_str(), &trial.order);
        // That memory is refused passes.
        let spawned = match launch {
            Ok(launch) => spawn(&self.rt, self.alloc, launch),
            Err(_) => Err(StartFault::Passing),
        };
        match spawned {
            Ok((child, pipe)) => self.begin(&trial.process, child, pipe),
            Err(StartFault::Passing) if !trial.schedule.is_over(now) => return Some(trial),
            Err(_) => self.fail(&trial.process, &trial.order),
        }
        None
    }

    // Goes over the first of the starts that are tried again: it is given up if `unwanted` holds of
    // it, else tried if its time has come. It stands last then, if it is to be tried once more.
    fn go_over_first(&mut self, unwanted: &Option<Unwanted>, now: u64)
        ensures { self.new ≡ self.old }
    {
        let Some(trial) = self.trials.pop_front() else {
            return;
        };
        match unwanted {
            Some(unwanted) if unwanted.holds_of(&trial.order) => {
                self.give_up(&trial.process);
            }
            Some(_) => self.put_back(trial),
            None => {
                if let Some(trial) = self.tried(trial, now) {
                    self.put_back(trial);
                }
            }
        }
    }

    // Goes over all starts that are tried again.
    fn go_over_all(&mut self, unwanted: &Option<Unwanted>, now: u64)
        ensures { self.new ≡ self.old }
    {
        for _step in 0..self.trials.len() {
            self.go_over_first(unwanted, now);
        }
    }

    // Gives up this start, if it is tried again: its `finish` is late before it has begun.
    fn end_trial(&mut self, start: &Start)
        ensures { self.new ≡ self.old }
    {
        let Some(place) = self.place_of(start) else {
            return;
        };
        // There is a child at this index: `place_of` gave it.
        let Some(process) = self.processes.get(place) else {
            return;
        };
        // No other start of the service is tried meanwhile.
        let unwanted = Some(Unwanted::Finish(process.name));
        self.go_over_all(&unwanted, 0);
    }

    // After how many milliseconds the first of the starts is tried again; None where there is none.
    fn next_try(&self, now: u64) -> Option<u64> {
        self.trials
            .iter()
            .map(|trial| trial.schedule.time_left(now))
            .min()
    }

    // Posts a note, if there was memory for it.
    fn note(&self, note: &Result<String, AllocError>) {
        match note {
            Ok(note) => self.notes.post(&self.rt, note.as_bytes()),
            Err(_) => self.notes.lose(&self.rt),
        }
    }

    // The index of this start's child, if its end wasn't reported yet.
    fn place_of(&self, start: &Start) -> Option<usize> {
        self.processes
            .as_slice()
            .iter()
            .position(|process| process.start == *start)
    }

    // Sends a child a signal, if it still lives.
    fn signal(&mut self, order: &Order, start: &Start, signal: u8) -> Result<(), AskFault>
        ensures added { OnOk result
            (self.new ≡ record self.old { asked = self.old.asked ++ order.now ∷ [] }) }
        ensures same { OnErr result (self.new ≡ self.old) }
    {
        if let Some(place) = self.place_of(start) {
            self.send(place, signal)?;
        }
        // The roll notes the order. It takes no memory for one that starts nothing, so this is not
        // refused once the signal was sent.
        match self.roll.note(order) {
            Ok(()) => Ok(()),
            Err(_) => Err(AskFault::NoMemory),
        }
    }

    // Has a shell send a signal to the child at this index. `Busy` where the system has no room for
    // the shell now, `NoMemory` where memory is refused.
    fn send(&mut self, place: usize, signal: u8) -> Result<(), AskFault>
        ensures { self.new ≡ self.old }
    {
        // There is a child at this index: `place_of` gave it.
        let Some(process) = self.processes.get(place) else {
            return Ok(());
        };
        let sending = signal_child(&self.rt, self.alloc, process, signal)?;
        // That is told once for each service.
        if sending == Sending::NoShell {
            self.tell_deaf(place);
        }
        Ok(())
    }

    // Notes that the service of this child can't be sent signals, unless that was noted before.
    fn tell_deaf(&mut self, place: usize)
        ensures { self.new ≡ self.old }
    {
        // There is a child at this index: `place_of` gave it.
        let Some(process) = self.processes.get(place) else {
            return;
        };
        let sid = process.start.sid;
        if self.deaf.contains(&sid) {
            return;
        }
        let text = deaf_text(self.alloc, self.root.as_str(), &process.name);
        self.note(&text);
        // Where memory is refused, the note comes again with the next signal.
        let _ = self.deaf.push(sid);
    }

    // Carries out an order: starts the `run` or the `finish` of a service, or sends a signal to one
    // that still lives. `Busy` where no signal can be sent now, `NoMemory` where memory is refused:
    // then the order is to be asked again. A `Start` names one start of a program: by the service's
    // serial, the generation, and which of the two programs it is.
    fn carry_out(&mut self, order: &Order) -> Result<(), AskFault>
        ensures added { OnOk result (self.new ≡ with_asked order.now self.old) }
        ensures same { OnErr result (self.new ≡ self.old) }
    {
        match order {
            Order::Run(sid, generation, name, _) => {
                self.start(order, name, &Start::of_run(*sid, *generation))
            }
            Order::Finish(sid, generation, name, ..) => {
                self.start(order, name, &Start::of_finish(*sid, *generation))
            }
            Order::Signal(sid, generation, signal) => {
                self.signal(order, &Start::of_run(*sid, *generation), *signal)
            }
            Order::KillFinish(sid, generation) => {
                let start = Start::of_finish(*sid, *generation);
                self.end_trial(&start);
                self.signal(order, &start, SIGKILL)
            }
        }
    }

    // The next report of a child. The children take turns, so one that writes much holds up no
    // other: `turn` is the index of the one that is asked first.
    fn next_report(&mut self) -> Option<Report>
        ensures { self.new ≡ self.old }
    {
        let count = self.processes.len();
        for step in 0..count {
            let place = self.turn.wrapping_add(step) % count;
            if let Some(report) = self.report_of(place) {
                return Some(report);
            }
        }
        None
    }

    // The next report of the child at this index.
    fn report_of(&mut self, place: usize) -> Option<Report>
        ensures { self.new ≡ self.old }
    {
        let report = self.processes.get(place)?.next_report(&self.rt)?;
        // The next child is asked first then.
        self.turn = place.wrapping_add(1);
        // No further report of the child comes.
        if is_last(&report) && place < self.processes.len() {
            let _ = self.processes.remove(place);
        }
        Some(report)
    }
}

impl<R: Processes<Started = SystemProcess> + Files<File = File> + Wait + Clock + Drop> Backend
    for ProcessBackend<R> {
    ghost asked = { λ b. b.asked };

    ghost given = { λ b. b.given };

    /// Starts or signals a process. `Busy` once the keeper is ending, and where a signal can't be
    /// sent now because the system has no room for one more process or descriptor. `NoMemory` where
    /// memory is refused. After either nothing was done, and the order is to be asked again. A
    /// start that fails is accepted, and reported.
    fn ask(&mut self, order: Order) -> Result<(), (Order, AskFault)> {
        if self.roster.is_ending(&self.rt) {
            return Err((order, AskFault::Busy));
        }
        match self.carry_out(&order) {
            Ok(()) => Ok(()),
            Err(fault) => Err((order, fault)),
        }
    }

    /// The next report of a process that this backend was asked to start. Any other report is
    /// dropped: the roll doesn't let it through.
    fn report(&mut self) -> Option<Report> {
        let report = self.next_report()?;
        self.roll.pass(report)
    }
}

impl<R: Processes<Started = SystemProcess> + Files<File = File> + Wait + Clock + Drop> LaneWorker
    for ProcessBackend<R> {
    fn try_again(&mut self) -> Option<u64> {
        if self.trials.is_empty() {
            return None;
        }
        let now = millis_of(&self.rt);
        self.go_over_all(&None, now);
        self.next_try(now)
    }

    fn end_starts(&mut self, unwanted: Unwanted) {
        self.go_over_all(&Some(unwanted), 0);
    }
}

// Starts the program of the launch, if there is one.
fn spawn<R: Processes<Started = SystemProcess> + Files<File = File>>(
    rt: &R,
    alloc: Global,
    launch: Option<Launch>,
) -> Result<(Child<SystemProcess>, Option<Pipe>), StartFault> {
    match launch {
        Some(mut launch) => launch.spawn(rt, alloc),
        // No other order is tried.
        None => Err(StartFault::Lasting),
    }
}
