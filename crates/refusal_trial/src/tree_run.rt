//! A tree that runs in its threads, with clients on a socket and a record. No service is a process:
//! its reports come of its orders.
use crate::attempts::Text;
use crate::fake_worker::FakeWorker;
use crate::tree_places::Places;
use crate::tree_record::tell_record;
use crate::tree_talk::{Talked, talk};
use child_runner::{Bell, LaneLink, LinkedBackend, serve_lane};
use error_notes::{NoteWriter, Notes};
use line_server::{ClientSlots, Server};
use run_recorder::{RecordFile, Recorder, create_recorder};
use s6_events::NoMemory;
use scan_directory::{FoundServices, read_listing};
use server_rules::ServeFault;
use server_threads::{
    Context, RowCache, ScanTasks, ServerClock, Shared, SocketFile, attend, end_connections, listen,
    new_callers, start_listener,
};
use servicedir::DirFault;
use std::alloc::Global;
use std::fs::{self, File};
use std::io::{BufWriter, Write};
use std::net::Net;
use std::os::unix::net::UnixListener;
use std::rt::Files;
use std::sync::{Arc, Mutex, Wait};
use std::thread::{self, Builder, Scope, Threads};
use std::time::Clock;
use tree_driver::{RunSettings, run_all};

/// How many lanes there are.
const LANES: usize = 2;

/// After how many steps the next run goes on.
const HANDOVER: u64 = 30;

/// The stack of the driver, in bytes.
const DRIVER_STACK: usize = 8 * 1024 * 1024;

/// The stack of each other thread, in bytes.
const STACK: usize = 1024 * 1024;

/// What reads the scan directory in a thread of its own. What reads files goes there by its own
/// type, and by no bound.
pub trait ScanReader {
    /// Reads the directory whenever the driver asks for it, until the tree has ended.
    fn read_all(&self, shared: &Shared, places: &Places, notes: &Notes);
}

/// Reads it by the system's files.
#[derive(Clone, Copy)]
pub struct FileReader<R> {
    pub rt: R,
}

impl<R: Files + Wait + Copy + Drop> ScanReader for FileReader<R> {
    fn read_all(&self, shared: &Shared, places: &Places, notes: &Notes) {
        let mut errors = NoteWriter::new(&self.rt, notes);
        attend(&self.rt, shared, places.services.as_str(), &mut errors);
    }
}

/// How a tree has ended, and how many steps its record has.
#[derive(Clone, Copy)]
pub struct TreeEnd {
    pub done: Result<(), ServeFault>,
    pub steps: u64,
}

/// What the driver takes over.
#[derive(Drop)]
struct TrialDriverParts<R: Wait + Drop> {
    backends: Vec<LinkedBackend<R>>,
    first_listing: FoundServices,
    settings: RunSettings<BufWriter<RecordFile>>,
}

/// What is made before a tree runs.
#[derive(Drop)]
struct TrialParts<R: Wait + Drop> {
    server: Server<Shared>,
    file: SocketFile,
    driver: TrialDriverParts<R>,
    workers: Vec<FakeWorker>,
}

/// The lanes: what the driver asks, the ways to their threads, and who carries out the orders
/// there.
#[derive(Drop)]
struct FakeLanes<R: Wait + Drop> {
    backends: Vec<LinkedBackend<R>>,
    links: Vec<Arc<LaneLink, Global>>,
    workers: Vec<FakeWorker>,
}

fn new_lanes<R: Wait + Copy + Drop>(rt: R, alloc: Global) -> Result<FakeLanes<R>, NoMemory> {
    let mut lanes = FakeLanes {
        backends: Vec::new(alloc),
        links: Vec::new(alloc),
        workers: Vec::new(alloc),
    };
    for _ in 0..LANES {
        let bell = Arc::new(alloc, Bell::new())?;
        let link = Arc::new(alloc, LaneLink::new(alloc, bell))?;
        lanes.backends.push(LinkedBackend::new(rt, alloc, &link)?)?;
        lanes.links.push(link)?;
        lanes.workers.push(FakeWorker::new(alloc)?)?;
    }
    Ok(lanes)
}

// The listing for the first scan. A service that could not be read for want of memory is read
// again.
fn first_listing<R: Files + Copy + Drop>(
    rt: &R,
    alloc: Global,
    places: &Places,
) -> Result<FoundServices, NoMemory> {
    let mut told = Text::new();
    let found = read_listing(rt, alloc, places.services.as_str(), &mut told).map_err(|_| NoMemory)?;
    let mut remarks = found.remarks.iter();
    if remarks.any(|remark| remark.fault == DirFault::NoMemory) {
        return Err(NoMemory);
    }
    Ok(found)
}

// What the threads share.
fn new_shared<R: Clock>(
    rt: &R,
    alloc: Global,
    lanes: Vec<Arc<LaneLink, Global>>,
) -> Result<Shared, NoMemory> {
    let Some(clock) = ServerClock::start(rt) else {
        return Err(NoMemory);
    };
    Ok(Shared {
        alloc,
        clock,
        callers: new_callers(alloc)?,
        scans: ScanTasks::new(),
        rows: RowCache::new(alloc)?,
        lanes,
        driver: Bell::new(),
    })
}

// All that is needed before a thread is started. The socket comes last.
fn prepare<R: Net + Files<File = File> + Wait + Clock + Copy + Drop>(
    rt: &R,
    alloc: Global,
    places: &Places,
) -> Result<TrialParts<R>, NoMemory> {
    let FakeLanes {
        backends,
        links,
        workers,
    } = new_lanes(*rt, alloc)?;
    let first_listing = first_listing(rt, alloc, places)?;
    let recorder = create_recorder(rt, alloc, Some(places.record.as_str())).map_err(|_| NoMemory)?;
    let settings = RunSettings {
        handover: HANDOVER,
        recorder,
    };
    let shared = new_shared(rt, alloc, links)?;
    let slots = ClientSlots::new(alloc)?;
    let (listener, file) = listen(rt, alloc, places.socket.as_str()).map_err(|_| NoMemory)?;
    let server = new_server(rt, alloc, places, listener, &file, slots, shared)?;
    Ok(TrialParts {
        server,
        file,
        driver: TrialDriverParts {
            backends,
            first_listing,
            settings,
        },
        workers,
    })
}

// The server. Where memory for it is refused, its socket is gone.
fn new_server<R: Files>(
    rt: &R,
    alloc: Global,
    places: &Places,
    listener: UnixListener,
    file: &SocketFile,
    slots: ClientSlots,
    shared: Shared,
) -> Result<Server<Shared>, NoMemory> {
    match Server::new(alloc, listener, slots, shared) {
        Ok(server) => Ok(server),
        Err(_) => {
            file.remove(rt, places.socket.as_str());
            Err(NoMemory)
        }
    }
}

/// Runs a tree from its first scan to its end, and tells what a client read, and what is in the
/// record. `NoMemory` where it could not begin to run.
pub fn run_tree<K: ScanReader + Send + Drop, R>(
    rt: &R,
    alloc: Global,
    places: &Places,
    reader: K,
    text: &mut Text,
    refusals: &mut u32,
) -> Result<(), NoMemory>
where
    R: Net + Files<File = File> + Threads + Wait + Clock + Copy + Sync + Send + Drop,
{
    let TrialParts {
        server,
        file,
        driver,
        workers,
    } = prepare(rt, alloc, places)?;
    let notes = Notes::new(alloc);
    // As long as nothing else is noted, a thread could not be started.
    let end = Mutex::new(TreeEnd {
        done: Err(ServeFault::Thread),
        steps: 0,
    });
    let talked = thread::scope(thread::scope_env(), rt, |scope| {
        if start_reader(scope, reader, server.answers(), places, &notes)
            && start_all(scope, rt, &server, workers, driver, &end, &notes)
        {
            talk(rt, alloc, places, text)
        } else {
            end_all(rt, &server);
            Talked::none()
        }
    });
    file.remove(rt, places.socket.as_str());
    *refusals = refusals.saturating_add(talked.refusals);
    let end = *end.lock(rt);
    match end.done {
        // It could not begin to run: nothing was lost.
        Err(ServeFault::Thread | ServeFault::NoMemory) if talked.answers == 0 => Err(NoMemory),
        done => {
            let _ = writeln!(text, "ended: {done:?}");
            *refusals = refusals.saturating_add(tell_record(rt, alloc, places, end.steps, text));
            Ok(())
        }
    }
}

// Starts all other threads. The driver is the last: it ends with the tree alone. Whether all run.
fn start_all<'s, S, R: Threads + Wait + Clock + Copy + Sync + Send + Drop>(
    scope: &Scope<'s, S>,
    rt: &'s R,
    server: &'s Server<Shared>,
    workers: Vec<FakeWorker>,
    driver: TrialDriverParts<R>,
    end: &'s Mutex<TreeEnd>,
    notes: &'s Notes,
) -> bool {
    for (link, worker) in server.answers().lanes.iter().zip(workers) {
        if !start_lane(scope, rt, server.answers(), link, worker) {
            return false;
        }
    }
    start_listener(scope, rt, server, notes) && start_driver(scope, rt, server, driver, end, notes)
}

// Starts the thread of a lane. Whether it runs.
fn start_lane<'s, S, R: Threads + Wait + Clock + Sync>(
    scope: &Scope<'s, S>,
    rt: &'s R,
    shared: &'s Shared,
    link: &'s LaneLink,
    worker: FakeWorker,
) -> bool {
    Builder::new()
        .stack_size(STACK)
        .spawn_scoped(scope, move || carry_out(rt, shared, link, worker))
        .is_ok()
}

fn carry_out<R: Wait + Clock>(rt: &R, shared: &Shared, link: &LaneLink, worker: FakeWorker) {
    let mut worker = worker;
    serve_lane(rt, link, &shared.driver, &mut worker);
}

// Starts the thread that reads the scan directory. Whether it runs.
fn start_reader<'s, S, K: ScanReader + Send + Drop + 's>(
    scope: &Scope<'s, S>,
    reader: K,
    shared: &'s Shared,
    places: &'s Places,
    notes: &'s Notes,
) -> bool {
    Builder::new()
        .stack_size(STACK)
        .spawn_scoped(scope, move || reader.read_all(shared, places, notes))
        .is_ok()
}

// Starts the driver. Whether it runs.
fn start_driver<'s, S, R: Threads + Wait + Clock + Copy + Sync + Send + Drop>(
    scope: &Scope<'s, S>,
    rt: &'s R,
    server: &'s Server<Shared>,
    parts: TrialDriverParts<R>,
    end: &'s Mutex<TreeEnd>,
    notes: &'s Notes,
) -> bool {
    Builder::new()
        .stack_size(DRIVER_STACK)
        .spawn_scoped(scope, move || drive_all(rt, server, parts, end, notes))
        .is_ok()
}

// Drives the tree to its end, and then ends the other threads.
fn drive_all<R: Wait + Clock + Copy + Drop>(
    rt: &R,
    server: &Server<Shared>,
    parts: TrialDriverParts<R>,
    end: &Mutex<TreeEnd>,
    notes: &Notes,
) {
    let TrialDriverParts {
        backends,
        first_listing,
        mut settings,
    } = parts;
    let log = NoteWriter::new(rt, notes);
    let mut errors = NoteWriter::new(rt, notes);
    let context = Context { rt, server };
    let done = run_all(
        &context,
        &mut settings,
        &mut errors,
        &log,
        backends,
        first_listing,
    );
    *end.lock(rt) = TreeEnd {
        done,
        steps: settings.recorder.steps(),
    };
    end_all(rt, server);
}

// Ends all threads: those that read the scan directory and carry out orders, and those of the
// connections.
fn end_all<R: Wait + Clock>(rt: &R, server: &Server<Shared>) {
    server.answers().scans.end(rt);
    for link in &server.answers().lanes {
        link.end(rt);
    }
    end_connections(rt, server);
}
