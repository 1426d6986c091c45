//! The program. What its words ask for is done here, except that the caller runs a tree: it is
//! begun and ended here.
use crate::connection::run_connection;
use crate::descriptors::open_standard;
use crate::front::{Asked, run_words};
use crate::ignored_signals::{ignored_signals, is_child_ignored, tell_ignored};
use crate::place::TreePlace;
use crate::socket_trouble::tell_fault;
use child_runner::{Keeper, ShellProbe};
use error_notes::{NoteWriter, Notes, start_notes};
use replay_tool::run_tool;
use std::alloc::Global;
use std::env::Env;
use std::fs::File;
use std::io::{Read, Write};
use std::net::Net;
use std::process::{Processes, SystemProcess};
use std::rt::Files;
use std::sync::{Arc, Wait};
use std::thread::Threads;
use std::time::{Clock, Duration};
use tree_server::{ServeFault, ServiceLanes, open_service_lanes};

/// How long the end waits at most until all notes are written to standard error, in milliseconds.
const LAST_NOTES_WAIT: u64 = 1000;

/// What a program reads and writes.
#[derive(Drop)]
pub struct Standard<I: Read + Drop, W: Write + Drop, E: Write + Drop> {
    pub input: I,
    pub output: W,
    pub errors: E,
    /// Standard error once more, for the thread that writes the notes of a tree.
    pub notes_output: E,
}

/// A tree that is to run: its place, its lanes, the keeper of its children, the notes for standard
/// error, and the probe of the shell by which signals are sent.
#[derive(Drop)]
pub struct BegunTree<R: Drop> {
    pub place: TreePlace,
    pub lanes: ServiceLanes<R>,
    pub keeper: Keeper<R>,
    pub notes: Arc<Notes, Global>,
    pub probe: ShellProbe,
}

// A tree that is to run, without its place.
#[derive(Drop)]
struct TreeParts<R: Drop> {
    lanes: ServiceLanes<R>,
    keeper: Keeper<R>,
    notes: Arc<Notes, Global>,
    probe: ShellProbe,
}

impl<R: Drop> TreeParts<R> {
    // The tree that is to run: these parts, and `place`, which names its scan directory, its socket
    // and its record.
    fn at(self, place: TreePlace) -> BegunTree<R> {
        let TreeParts {
            lanes,
            keeper,
            notes,
            probe,
        } = self;
        BegunTree {
            place,
            lanes,
            keeper,
            notes,
            probe,
        }
    }
}

/// What the words of a command line came to.
#[derive(Drop)]
pub enum Begun<R: Drop> {
    /// It was done, and ends with this status.
    Done(u8),
    /// A tree is to run.
    Tree(BegunTree<R>),
}

/// Does what the words of the command line ask for; a tree is only begun. `run_words` does all but
/// a replay, a connection and a tree, and says which of these is left to do: `run_tool` does a
/// replay, and tells the version. Before anything else is opened, each of the descriptors 0, 1 and
/// 2 that is closed is opened as `/dev/null`.
pub fn begin_program<
    R: Env
        + Net
        + Files<File = File>
        + Processes<Started = SystemProcess>
        + Threads
        + Wait
        + Clock
        + Copy
        + Sync
        + Send
        + Drop
        + 'static,
    I: Read + Send + Drop + 'static,
    W: Write + Drop,
    E: Write + Send + Drop + 'static,
>(rt: R, alloc: Global, standard: Standard<I, W, E>) -> Begun<R> {
    open_standard(&rt);
    let Standard {
        input,
        mut output,
        mut errors,
        notes_output,
    } = standard;
    match run_words(&rt, alloc, &mut output, &mut errors) {
        Asked::Done(status) => Begun::Done(status),
        Asked::Replay => Begun::Done(run_tool(&rt, alloc, alloc, input, output, &mut errors)),
        Asked::Connect(path) => {
            let path = path.as_str();
            Begun::Done(run_connection(&rt, path, input, &mut output, &mut errors))
        }
        Asked::Tree(place) => {
            let ignored = ignored_signals(&rt, alloc);
            if is_child_ignored(ignored) {
                let fault = ServeFault::Signals;
                return Begun::Done(tell_fault(&rt, fault, &place, &mut errors));
            }
            tell_ignored(ignored, &mut errors);
            match begin_tree(rt, alloc, place.directory.as_str(), notes_output) {
                Ok(parts) => Begun::Tree(parts.at(place)),
                Err(fault) => Begun::Done(tell_fault(&rt, fault, &place, &mut errors)),
            }
        }
    }
}

// All that a tree needs before it runs. `Thread` where a thread can't be started, `NoMemory` where
// memory for the lanes is refused.
fn begin_tree<
    R: Processes<Started = SystemProcess>
        + Threads
        + Wait
        + Clock
        + Copy
        + Sync
        + Send
        + Drop
        + 'static,
    N: Write + Send + Drop + 'static,
>(rt: R, alloc: Global, root: &str, notes_output: N) -> Result<TreeParts<R>, ServeFault> {
    // The shell that is tried runs beside what follows; `run_tree` asks how it ended.
    let probe = ShellProbe::start(&rt, alloc);
    // The thread that writes the notes.
    let Some(notes) = start_notes(rt, alloc, notes_output) else {
        return Err(ServeFault::Thread);
    };
    let Ok(keeper) = Keeper::start(rt, alloc) else {
        return Err(ServeFault::Thread);
    };
    match open_service_lanes(rt, alloc, &keeper, root, &notes) {
        Ok(lanes) => Ok(TreeParts {
            lanes,
            keeper,
            notes,
            probe,
        }),
        Err(_) => {
            keeper.end();
            Err(ServeFault::NoMemory)
        }
    }
}

/// Ends a tree that was run at this place. Its services had 10,000 ms to end (`ending_services.rt`
/// of tree_driver), and its threads have ended (`serve.rt` of tree_server). Here the services that
/// still live are killed, it is told why the tree did not run to its end, and the notes have at
/// most 1,000 ms to be written. The exit status: 0, or 111 where it did not run to its end.
pub fn end_program<R: Processes + Files + Threads + Wait + Clock + Drop>(
    rt: &R,
    place: &TreePlace,
    keeper: Keeper<R>,
    notes: &Notes,
    done: Result<(), ServeFault>,
) -> u8 {
    // The services that still live are killed.
    keeper.end();
    let status = match done {
        Ok(()) => 0,
        Err(fault) => tell_fault(rt, fault, place, &mut NoteWriter::new(rt, notes)),
    };
    // No further note comes.
    notes.close(rt);
    let _ = notes.await_written(rt, Duration::from_millis(LAST_NOTES_WAIT));
    status
}
