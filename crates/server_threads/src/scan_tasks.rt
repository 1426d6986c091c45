//! The work that the driver leaves to the one that reads the scan directory: to read it, and to
//! drop closed runs.
use run_records::Run;
use scan_directory::FoundServices;
use server_rules::OwnAnswer;
use std::sync::{Condvar, Mutex, Wait};

/// What was read of the scan directory, or why there is no scan.
pub type ReadScan = Result<FoundServices, OwnAnswer>;

/// What the thread that reads the scan directory is to do.
#[derive(Drop)]
pub enum Task {
    /// It reads the directory.
    Read,
    /// It frees the memory of a closed run. The driver leaves that to it, since it takes long.
    Drop(Run),
    /// It ends.
    End,
}

// The tasks: whether a listing is asked for and the asking not taken yet, what was read and not
// fetched yet, a closed run that is still to be dropped, and whether the tree has ended.
#[derive(Drop)]
struct TaskState {
    is_asked: bool,
    found: Option<ReadScan>,
    closed: Option<Run>,
    is_over: bool,
}

/// Where the driver asks for a listing, and another thread leaves what it read of the directory,
/// while the tree goes on. `changed` wakes that thread when there is something to do.
#[derive(Drop)]
pub struct ScanTasks {
    tasks: Mutex<TaskState>,
    changed: Condvar,
}

impl ScanTasks {
    /// Nothing is asked for: no listing is wanted, none was read, and no closed run waits to be
    /// dropped.
    pub fn new() -> ScanTasks {
        ScanTasks {
            tasks: Mutex::new(TaskState {
                is_asked: false,
                found: None,
                closed: None,
                is_over: false,
            }),
            changed: Condvar::new(),
        }
    }

    /// Asks the thread that reads the scan directory for a listing, and wakes it.
    pub fn ask<R: Wait>(&self, rt: &R) {
        self.tasks.lock(rt).is_asked = true;
        self.changed.notify_all();
    }

    /// Leaves a closed run to be dropped. The run that was left before comes back, if it was not
    /// taken yet.
    pub fn leave_run<R: Wait>(&self, rt: &R, run: Run) -> Option<Run> {
        let before = self.tasks.lock(rt).closed.replace(run);
        self.changed.notify_all();
        before
    }

    /// Waits until there is something to do: first a run that was left, then the end, then a
    /// listing.
    pub fn await_task<R: Wait>(&self, rt: &R) -> Task {
        let tasks = self.tasks.lock(rt);
        let mut tasks = self.changed.wait_while(rt, tasks, |tasks| {
            !tasks.is_asked && !tasks.is_over && tasks.closed.is_none()
        });
        if let Some(run) = tasks.closed.take() {
            return Task::Drop(run);
        }
        if tasks.is_over {
            return Task::End;
        }
        // The asking is taken: a later one is another task.
        tasks.is_asked = false;
        Task::Read
    }

    /// Leaves what was read of the scan directory, for the driver, which takes it by `take_found`.
    pub fn leave_found<R: Wait>(&self, rt: &R, found: ReadScan) {
        self.tasks.lock(rt).found = Some(found);
    }

    /// Takes out what was read; None where nothing was left since it was last taken out.
    pub fn take_found<R: Wait>(&self, rt: &R) -> Option<ReadScan> {
        self.tasks.lock(rt).found.take()
    }

    /// Notes that the tree has ended: once a run that was left is taken, the next task is the end.
    pub fn end<R: Wait>(&self, rt: &R) {
        self.tasks.lock(rt).is_over = true;
        self.changed.notify_all();
    }
}
