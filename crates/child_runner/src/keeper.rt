//! The keeper: the thread that starts, and joins, the threads that wait for children and read their
//! output. `roster` is its list of children.
ghost use Rattle.std.specs.Prelude.{◌≡◌};

use crate::roster::ChildList;
use crate::shared_child::ServiceProcess;
use crate::shell::signal_child;
use crate::watching::{STACK, give_back, watch};
use s6_events::SIGKILL;
use std::alloc::{AllocError, AllocFailed, Global};
use std::process::Processes;
use std::sync::{Arc, Wait};
use std::thread;
use std::thread::{Builder, JoinHandle, Scope, Threads};
use std::time::Clock;
use thiserror::Error;

/// Why there is no keeper.
#[derive(Clone, Copy, Debug, PartialEq, Eq, Error)]
pub enum KeeperFault {
    /// Memory was refused.
    #[error("out of memory")]
    NoMemory = 1,
    /// Its thread could not be started.
    #[error("no thread")]
    NoThread = 2,
}

impl From<AllocError> for KeeperFault {
    // Where memory is refused, there is no keeper for that reason.
    fn from(_error: AllocError) -> KeeperFault {
        KeeperFault::NoMemory
    }
}

impl<T: Drop> From<AllocFailed<T>> for KeeperFault {
    // Where memory is refused, there is no keeper for that reason.
    fn from(_failed: AllocFailed<T>) -> KeeperFault {
        KeeperFault::NoMemory
    }
}

/// A thread that starts the threads of each child, and joins them. Several backends may share it.
#[derive(Drop)]
pub struct Keeper<R> {
    rt: R,
    alloc: Global,
    pub(crate) roster: Arc<ChildList, Global>,
    thread: JoinHandle<()>,
}

impl<R: Threads + Wait + Clock + Copy + Send + Sync + Drop + 'static> Keeper<R> {
    /// Starts its thread.
    pub fn start(rt: R, alloc: Global) -> Result<Keeper<R>, KeeperFault> {
        let roster = Arc::new(alloc, ChildList::new(alloc))?;
        // The handle for the thread.
        let theirs = Arc::try_clone(&roster)?;
        match Builder::new()
            .stack_size(STACK)
            .spawn(&rt, move || run_keeper(rt, theirs))
        {
            Ok(thread) => Ok(Keeper {
                rt,
                alloc,
                roster,
                thread,
            }),
            Err(_) => Err(KeeperFault::NoThread),
        }
    }
}

impl<R: Processes + Threads + Wait + Drop> Keeper<R> {
    /// Ends the keeper: kills the children that still live, waits for them, and joins all threads.
    /// Call it once its backends are needed no more: from then on they answer `Busy`. Where a child
    /// can't be sent the signal, it waits until that child ends by itself.
    pub fn end(self) {
        let Keeper {
            rt,
            alloc,
            roster,
            thread,
        } = self;
        // No more children are taken.
        roster.end(&rt);
        for _ in 0..u64::MAX {
            // A child that was given up has nobody who listens to it: it is killed next.
            let Some(process) = roster.give_one_up(&rt) else {
                break;
            };
            stop(&rt, alloc, &process);
        }
        // The thread ends once no child is left.
        thread.join(&rt);
    }
}

// Kills a child, and wakes the thread that reads its descriptor, which another program may keep
// open.
fn stop<R: Processes + Wait>(rt: &R, alloc: Global, process: &ServiceProcess) {
    let _ = signal_child(rt, alloc, process, SIGKILL);
    process.write_end_mark(rt);
}

// The body of the keeper's thread: starts and joins the threads of the children on `roster`, until
// the keeper is ended and no child is left.
fn run_keeper<R: Threads + Wait + Clock + Copy + Send + Sync + Drop + 'static>(
    rt: R,
    roster: Arc<ChildList, Global>,
) {
    watch_all(&rt, &roster);
}

// Starts the thread of each child that comes. The end of the scope waits for the threads that still
// run.
fn watch_all<R: Threads + Wait + Clock + Copy + Send + Sync + Drop + 'static>(
    rt: &R,
    roster: &ChildList,
) {
    thread::scope(
        thread::scope_env(),
        rt,
        |scope| start_watches(scope, rt, roster),
    );
}

// Starts the thread of each child that comes to `roster`, within this scope, until no more will
// come. A child without a thread is killed, and leaves the roster.
fn start_watches<'s, E, R: Threads + Wait + Clock + Copy + Send + Sync + Drop + 'static>(
    scope: &Scope<'s, E>,
    rt: &'s R,
    roster: &'s ChildList,
) {
    for _ in rt.forever() {
        let Some(process) = roster.next_child(rt) else {
            break;
        };
        // A child for which no thread can be started is killed.
        if !spawn_watch(scope, rt, roster, &process) {
            give_back(rt, &process);
            roster.remove_child(rt, process.number);
        }
    }
}

// Starts the thread of a child. Returns whether it could be started.
fn spawn_watch<'s, E, R: Threads + Wait + Clock + Copy + Send + Sync + Drop + 'static>(
    scope: &Scope<'s, E>,
    rt: &'s R,
    roster: &'s ChildList,
    process: &Arc<ServiceProcess, Global>,
) -> bool {
    let Ok(theirs) = Arc::try_clone(process) else {
        return false;
    };
    Builder::new()
        .stack_size(STACK)
        .spawn_scoped(scope, move || watch(*rt, roster, theirs))
        .is_ok()
}
