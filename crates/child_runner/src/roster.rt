//! The list of the keeper, the thread that starts the threads of children: those whose threads are
//! still to be started or still run.
use crate::shared_child::ServiceProcess;
use s6_events::NoMemory;
use std::alloc::Global;
use std::sync::{Arc, Condvar, Mutex, Wait};

// A child on the list. `for_thread` is the child once more, until its thread takes it; `is_running`
// is whether the child was started.
#[derive(Drop)]
struct ListedChild {
    process: Arc<ServiceProcess, Global>,
    // The same, until its thread has it.
    for_thread: Option<Arc<ServiceProcess, Global>>,
    is_running: bool,
}

impl ListedChild {
    // Whether the child runs and no thread has taken it yet, so that its thread is to be started.
    fn needs_thread(&self) -> bool {
        self.is_running && self.for_thread.is_some()
    }
}

// The children on the list, the number that the next one gets, and whether no more are taken.
#[derive(Drop)]
struct Entries {
    entries: Vec<ListedChild>,
    next_number: u64,
    is_ending: bool,
}

/// The children of all backends that share a keeper. `changed` wakes the keeper's thread when a
/// child needs its thread, or has left.
#[derive(Drop)]
pub(crate) struct ChildList {
    entries: Mutex<Entries>,
    changed: Condvar,
}

impl Entries {
    // The index of the child with this number, which `take_number` gave; None where it isn't on the
    // list.
    fn place(&self, number: u64) -> Option<usize> {
        self.entries
            .as_slice()
            .iter()
            .position(|entry| entry.process.number == number)
    }

    // The index of the first child whose thread is to be started; None where there is none.
    fn place_of_next(&self) -> Option<usize> {
        self.entries
            .as_slice()
            .iter()
            .position(|entry| entry.needs_thread())
    }

    // Whether there is a child that needs a thread, or none will ever come.
    fn has_news(&self) -> bool {
        self.place_of_next().is_some() || (self.is_ending && self.entries.is_empty())
    }

    // The first child whose thread is to be started, for that thread; None where there is none. The
    // child stays on the list, but is never given again.
    fn take_next(&mut self) -> Option<Arc<ServiceProcess, Global>> {
        let place = self.place_of_next()?;
        self.entries.get_mut(place)?.for_thread.take()
    }

    // Takes the child with this number off the list, if it is there.
    fn remove(&mut self, number: u64) {
        if let Some(place) = self.place(number) {
            if place < self.entries.len() {
                let _ = self.entries.remove(place);
            }
        }
    }

    // Notes that the child with this number runs, so that its thread is to be started.
    fn set_running(&mut self, number: u64) {
        let Some(place) = self.place(number) else {
            return;
        };
        if let Some(entry) = self.entries.get_mut(place) {
            entry.is_running = true;
        }
    }
}

impl ChildList {
    /// A roster with no child.
    pub fn new(alloc: Global) -> ChildList {
        ChildList {
            entries: Mutex::new(Entries {
                entries: Vec::new(alloc),
                // The number on the list that the next child gets.
                next_number: 0,
                // Whether no more children are taken.
                is_ending: false,
            }),
            // Wakes the keeper's thread, when a child needs its thread, or has left.
            changed: Condvar::new(),
        }
    }

    /// A number that no child of this roster has. By it a backend names the child that it starts
    /// next.
    pub fn take_number<R: Wait>(&self, rt: &R) -> u64 {
        let mut entries = self.entries.lock(rt);
        let number = entries.next_number;
        entries.next_number = number.wrapping_add(1);
        number
    }

    /// Whether no more children are taken.
    pub fn is_ending<R: Wait>(&self, rt: &R) -> bool {
        self.entries.lock(rt).is_ending
    }

    /// Enters a child that is about to start.
    pub fn enter<R: Wait>(
        &self,
        rt: &R,
        process: &Arc<ServiceProcess, Global>,
    ) -> Result<(), NoMemory> {
        let entry = ListedChild {
            process: Arc::try_clone(process)?,
            for_thread: Some(Arc::try_clone(process)?),
            is_running: false,
        };
        self.entries.lock(rt).entries.push(entry)?;
        Ok(())
    }

    /// The child runs, and is to get its thread.
    pub fn note_running<R: Wait>(&self, rt: &R, number: u64) {
        self.entries.lock(rt).set_running(number);
        self.changed.notify_all();
    }

    /// The child has ended, or never ran.
    pub fn remove_child<R: Wait>(&self, rt: &R, number: u64) {
        self.entries.lock(rt).remove(number);
        self.changed.notify_all();
    }

    /// Waits for a child that needs its thread; None once no more will come.
    pub fn next_child<R: Wait>(&self, rt: &R) -> Option<Arc<ServiceProcess, Global>> {
        let entries = self.entries.lock(rt);
        let mut entries = self
            .changed
            .wait_while(rt, entries, |entries| !entries.has_news());
        entries.take_next()
    }

    /// Takes no more children. Once all have ended, there is nothing left to do.
    pub fn end<R: Wait>(&self, rt: &R) {
        self.entries.lock(rt).is_ending = true;
        self.changed.notify_all();
    }

    /// Gives up a child that wasn't given up before, so that nobody listens to it from now on, and
    /// returns it; None where there is none, or memory is refused.
    pub fn give_one_up<R: Wait>(&self, rt: &R) -> Option<Arc<ServiceProcess, Global>> {
        let entries = self.entries.lock(rt);
        for entry in entries.entries.as_slice() {
            // It was not given up before.
            if entry.process.give_up(rt) {
                return Arc::try_clone(&entry.process).ok();
            }
        }
        None
    }
}
