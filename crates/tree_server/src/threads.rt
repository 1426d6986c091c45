//! The eleven threads of a tree. Here are the driver, which makes the tree's steps, and those of
//! the four lanes, which carry out orders. The thread that began reads the scan directory
//! (`serve.rt`), one accepts connections (`connecting.rt` of server_threads), two have the last
//! slot (`accepting.rt` of line_server), one keeps the children (`keeper.rt` of child_runner), and
//! one writes notes (`writing.rt` of error_notes).
use child_runner::{LaneLink, LaneWorker, serve_lane};
use error_notes::{NoteWriter, Notes};
use line_server::Server;
use order_lanes::Backend;
use run_recorder::RecordWriter;
use scan_directory::FoundServices;
use server_threads::{Context, NotedEnd, Shared};
use std::sync::Wait;
use std::thread::{Builder, Scope, Threads};
use std::time::Clock;
use tree_driver::{RunSettings, run_all};

/// The stack of the driver, in bytes. A step may publish all rows of the board. Only what is
/// touched takes memory.
const DRIVER_STACK: usize = 8 * 1024 * 1024;

/// The stack of the thread of a lane, in bytes.
const LANE_STACK: usize = 1024 * 1024;

/// What the driver takes over: the backends that runs ask, by lane, the listing for the first scan,
/// and how long runs are and where they are recorded.
#[derive(Drop)]
pub struct DriverParts<B, W> {
    pub backends: Vec<B>,
    pub first_listing: FoundServices,
    pub settings: RunSettings<W>,
}

/// Starts the driver. Returns false where the system refuses the thread.
pub fn start_driver<'s, S, B, W, R>(
    scope: &Scope<'s, S>,
    rt: &'s R,
    server: &'s Server<Shared>,
    parts: DriverParts<B, W>,
    outcome: &'s NotedEnd,
    notes: &'s Notes,
) -> bool
where
    B: Backend + Send + 's,
    W: RecordWriter + Send + Drop + 's,
    R: Threads + Wait + Clock + Copy + Sync + Drop,
{
    Builder::new()
        .stack_size(DRIVER_STACK)
        .spawn_scoped(scope, move || {
            drive_all(rt, server, parts, outcome, notes)
        })
        .is_ok()
}

// Drives the tree to its end, and then ends the thread that reads the scan directory.
fn drive_all<B: Backend, W: RecordWriter + Drop, R: Wait + Clock + Copy + Drop>(
    rt: &R,
    server: &Server<Shared>,
    parts: DriverParts<B, W>,
    outcome: &NotedEnd,
    notes: &Notes,
) {
    let DriverParts {
        backends,
        first_listing,
        mut settings,
    } = parts;
    // What is written to these two becomes notes: lines for standard error, which another thread
    // writes.
    let log = NoteWriter::new(rt, notes);
    let mut errors = NoteWriter::new(rt, notes);
    let context = Context { rt, server };
    // This takes as long as the tree lives.
    let done = run_all(
        &context,
        &mut settings,
        &mut errors,
        &log,
        backends,
        first_listing,
    );
    outcome.note(rt, done);
    // The thread that reads the scan directory reads no more then, and ends the other threads.
    server.answers().scans.end(rt);
}

/// Starts the thread of a lane. Returns false where the system refuses the thread.
pub fn start_lane<'s, S, K, R>(
    scope: &Scope<'s, S>,
    rt: &'s R,
    shared: &'s Shared,
    link: &'s LaneLink,
    worker: K,
) -> bool
where
    K: LaneWorker + Send + 's,
    R: Threads + Wait + Clock + Sync,
{
    Builder::new()
        .stack_size(LANE_STACK)
        .spawn_scoped(scope, move || { carry_out(rt, shared, link, worker) })
        .is_ok()
}

// Carries out the orders of a lane to the end of the tree.
fn carry_out<K: LaneWorker, R: Wait + Clock>(rt: &R, shared: &Shared, link: &LaneLink, worker: K) {
    let mut worker = worker;
    // The driver's bell is rung when there is a report, or room for orders again.
    serve_lane(rt, link, &shared.driver, &mut worker);
}
