//! A tree that runs, from its first scan to its end: its threads are started and ended here.
use crate::options::ServeOptions;
use crate::service_lanes::TreeLanes;
use crate::threads::{DriverParts, start_driver, start_lane};
use child_runner::{Bell, LaneLink, LaneWorker, ShellProbe};
use day_times::day_second;
use error_notes::{NoteWriter, Notes};
use line_server::{ClientSlots, Server};
use order_lanes::Backend;
use run_recorder::{RecordFile, RecordWriter, Recorder, create_recorder};
use scan_directory::{FoundServices, read_listing};
use server_rules::{ServeFault, serving_line};
use server_threads::{
    NotedEnd, RowCache, ScanTasks, ServerClock, Shared, SocketFile, attend, end_connections,
    listen, new_callers, start_listener,
};
use std::alloc::Global;
use std::fs::File;
use std::io::{self, BufWriter, ErrorKind, Write};
use std::net::Net;
use std::os::unix::net::UnixListener;
use std::rt::Files;
use std::sync::{Arc, Wait};
use std::thread::{Scope, Threads};
use std::time::Clock;
use std::{mem, thread};
use tree_driver::RunSettings;

/// What is made before a tree is served: what its threads share, the slots of connections, the
/// listing for the first scan, and the recorder of its runs.
#[derive(Drop)]
struct ServerParts {
    shared: Shared,
    slots: ClientSlots,
    first_listing: FoundServices,
    recorder: Recorder<BufWriter<RecordFile>>,
}

/// Runs a tree of the services of a directory, and serves clients on a socket, until the tree has
/// ended. Its threads live from its first run to its last: a run is the tree's steps between two
/// handovers. Faults of service directories are noted, and so is each new run. No service is
/// started, and no record is touched, before `probe` has found that `/bin/sh` runs, by which
/// signals are sent. Page `s6-svscan`.
pub fn run_tree<
    B: Backend + Send,
    K: LaneWorker + Send,
    R: Net + Files<File = File> + Threads + Wait + Clock + Copy + Sync + Send + Drop,
>(
    rt: &R,
    alloc: Global,
    lanes: TreeLanes<B, K>,
    probe: ShellProbe,
    options: ServeOptions<'_>,
    notes: &Notes,
) -> Result<(), ServeFault> {
    // `file` is the file of the socket, which is removed at the end.
    let Ok((listener, file)) = listen(rt, alloc, options.socket) else {
        return Err(ServeFault::Socket);
    };
    let mut lanes = lanes;
    let links = mem::replace(&mut lanes.links, Vec::new(alloc));
    // Where this fails, no service was started.
    match prepare(rt, alloc, probe, links, options, notes) {
        Ok(parts) => serve(rt, listener, file, parts, lanes, options, notes),
        Err(fault) => {
            file.remove(rt, options.socket);
            Err(fault)
        }
    }
}

// Makes all that is needed before a service is started: the listing for the first scan, the
// recorder, which writes the runs into the file of the record, if there is one, and what the
// threads share. Of that, `callers` have what connections ask of the driver, `scans` is where the
// driver asks for a reading of the scan directory, `rows` is what was last read for statuses, and
// `driver` is the bell that wakes the driver. `slots` say who is connected. What is written to
// `errors` becomes notes. The error says what could not be made or read: `NoMemory` where memory
// was refused (`fault_of` looks whether that was why). Each of the `links` carries the orders of a
// lane to the lane's thread, and its reports back.
fn prepare<R: Files<File = File> + Wait + Clock + Copy + Drop>(
    rt: &R,
    alloc: Global,
    probe: ShellProbe,
    links: Vec<Arc<LaneLink, Global>>,
    options: ServeOptions<'_>,
    notes: &Notes,
) -> Result<ServerParts, ServeFault> {
    let Some(clock) = ServerClock::start(rt) else {
        return Err(ServeFault::Clock);
    };
    let mut errors = NoteWriter::new(rt, notes);
    let first_listing = match read_listing(rt, alloc, options.directory, &mut errors) {
        Ok(found) => found,
        Err(error) => return Err(fault_of(&error, ServeFault::Directory)),
    };
    // The shell was started before all that. This waits until it has ended.
    if !probe.has_shell() {
        return Err(ServeFault::Shell);
    }
    let recorder = match create_recorder(rt, alloc, options.record) {
        Ok(recorder) => recorder,
        Err(error) => return Err(fault_of(&error, ServeFault::Record)),
    };
    let (Ok(callers), Ok(rows), Ok(slots)) = (
        new_callers(alloc),
        RowCache::new(alloc),
        ClientSlots::new(alloc),
    ) else {
        return Err(ServeFault::NoMemory);
    };
    let shared = Shared {
        alloc,
        clock,
        callers,
        scans: ScanTasks::new(),
        rows,
        lanes: links,
        driver: Bell::new(),
    };
    Ok(ServerParts {
        shared,
        slots,
        first_listing,
        recorder,
    })
}

// Why a tree can't be served after this error: `NoMemory` where memory was refused, else `fault`,
// which says what could not be done.
fn fault_of(error: &io::Error, fault: ServeFault) -> ServeFault {
    match error.kind() {
        ErrorKind::OutOfMemory => ServeFault::NoMemory,
        _ => fault,
    }
}

// Serves the tree in threads, and reads its scan directory in this one (`attend`), until the tree
// has ended. The `workers` carry out the orders of the lanes, each in a thread. The driver's thread
// takes over `driver`, and notes in `outcome` how the tree has ended. What is written to `errors`
// becomes notes; once all threads run, `tell_serving` writes that clients can connect. The error
// says why the tree did not run to its end: `Socket` where the system refused a further descriptor
// of the listener, `Thread` where a thread could not be started.
fn serve<
    B: Backend + Send,
    K: LaneWorker + Send,
    R: Files + Threads + Wait + Clock + Copy + Sync + Send + Drop,
>(
    rt: &R,
    listener: UnixListener,
    file: SocketFile,
    parts: ServerParts,
    lanes: TreeLanes<B, K>,
    options: ServeOptions<'_>,
    notes: &Notes,
) -> Result<(), ServeFault> {
    let ServerParts {
        shared,
        slots,
        first_listing,
        recorder,
    } = parts;
    let Ok(server) = Server::new(shared.alloc, listener, slots, shared) else {
        return Err(ServeFault::Socket);
    };
    // The links are with `shared`.
    let TreeLanes {
        backends,
        workers,
        ..
    } = lanes;
    let driver = DriverParts {
        backends,
        first_listing,
        settings: RunSettings {
            handover: options.handover,
            recorder,
        },
    };
    let outcome = NotedEnd::new();
    let mut errors = NoteWriter::new(rt, notes);
    thread::scope(thread::scope_env(), rt, |scope| {
        if start_all(scope, rt, &server, workers, driver, &outcome, notes) {
            tell_serving(server.answers(), options.socket, &mut errors);
            attend(rt, server.answers(), options.directory, &mut errors);
        }
        // All threads run, and the tree has ended; or one of them could not be started. The
        // listener is still open, as `remove` asks.
        file.remove(rt, options.socket);
        end_all(rt, &server);
    });
    outcome.get(rt)
}

// Tells by one write that clients can connect, and when the tree began. Nothing is told where
// memory is refused, or after the year 9999.
fn tell_serving<E: Write>(shared: &Shared, socket: &str, errors: &mut E) {
    let Some(day) = day_second(shared.clock.since) else {
        return;
    };
    if let Ok(line) = serving_line(shared.alloc, socket, day.as_str()) {
        let _ = errors.write_all(line.as_slice());
    }
}

// Starts all threads of a tree but this one: for each lane one, with the lane's link, by which
// orders come and reports go back, and its worker, which carries them out; the one that accepts
// connections; and the driver. Returns whether all of them run.
fn start_all<'s, S, B, K, W, R>(
    scope: &Scope<'s, S>,
    rt: &'s R,
    server: &'s Server<Shared>,
    workers: Vec<K>,
    driver: DriverParts<B, W>,
    outcome: &'s NotedEnd,
    notes: &'s Notes,
) -> bool
where
    B: Backend + Send + 's,
    K: LaneWorker + Send + 's,
    W: RecordWriter + Send + Drop + 's,
    R: Threads + Wait + Clock + Copy + Sync + Drop,
{
    for (link, worker) in server.answers().lanes.iter().zip(workers) {
        if !start_lane(scope, rt, server.answers(), link, worker) {
            // The system refused the lane's thread.
            return false;
        }
    }
    start_listener(scope, rt, server, notes)
        && start_driver(scope, rt, server, driver, outcome, notes)
}

// Ends all threads of a tree but this one: those of the lanes, and those of the connections. The
// driver has ended before, or was not started.
fn end_all<R: Wait + Clock>(rt: &R, server: &Server<Shared>) {
    for link in &server.answers().lanes {
        link.end(rt);
    }
    end_connections(rt, server);
}
