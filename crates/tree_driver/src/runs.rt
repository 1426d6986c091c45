//! The runs of a tree, one after the other. A run is the steps between two handovers, and has an
//! office of its own, which makes them.
ghost use Rattle.std.specs.Prelude.{◌≡◌, ℕ, slice_get};
ghost use Rattle.office.specs.Names.{ring_of, lane_ring_of, asked_of};

use crate::driver_state::{DriverState, Lasting};
use crate::driving::wait_for_bell;
use crate::recording::drive_to_end;
use channel_names::Channels;
use inbox::Finished;
use locked_services::Closed;
use log::{Log, info};
use office::{NewOffice, Office, OpenFault, Opened};
use order_lanes::{Backend, Lanes};
use run_recorder::{RecordWriter, Recorder};
use scan_directory::FoundServices;
use server_rules::{ACTOR_COUNT, Pace, RETRY_WAIT, ServeFault};
use server_threads::Context;
use status_board::Board;
use std::alloc::Global;
use std::io::Write;
use std::marker::Brand;
use std::sync::Wait;
use std::time::Clock;
use tree_core::Tree;

/// How long runs are, and where they are recorded.
#[derive(Drop)]
pub struct RunSettings<W> {
    /// After how many steps the next run goes on.
    pub handover: u64,
    pub recorder: Recorder<W>,
}

/// What goes on from one run to the next: the tree, and the backends of its lanes.
#[derive(Drop)]
struct Between<B: Drop> {
    tree: Box<Tree<Global>>,
    backends: Vec<B>,
}

/// What comes after a run.
#[derive(Drop)]
enum AfterRun<B: Drop> {
    /// The tree has ended, or can't go on.
    Over(Result<(), ServeFault>),
    /// Memory for the next run was refused: it is tried again.
    Again(Between<B>),
    /// The next run.
    Next(Between<B>),
}

/// Runs a tree from its first scan to its end, one run after the other. Each new run is noted by
/// `log`.
pub fn run_all<B: Backend, R: Wait + Clock + Copy + Drop, W: RecordWriter + Drop, E: Write, L: Log>(
    context: &Context<'_, R>,
    settings: &mut RunSettings<W>,
    errors: &mut E,
    log: &L,
    backends: Vec<B>,
    first_listing: FoundServices,
) -> Result<(), ServeFault> {
    let alloc = context.alloc();
    // What outlasts each run, beside the tree and the backends: above all the connections.
    let Ok(mut lasting) = Lasting::new(alloc, first_listing, settings.recorder.is_there()) else {
        return Err(ServeFault::NoMemory);
    };
    // The tree and the backends, from one run to the next.
    let mut between = first_tree(alloc, backends);
    for _ in context.rt.forever() {
        if let Some(done) = run_next(context, settings, errors, log, &mut between, &mut lasting) {
            return done;
        }
    }
    // Never reached: the loop has no end.
    Ok(())
}

// A tree that has made no step. None where there is no memory for it.
fn first_tree<B: Drop>(alloc: Global, backends: Vec<B>) -> Option<Between<B>> {
    let tree = Box::new(alloc, Tree::new(alloc)).ok()?;
    Some(Between { tree, backends })
}

// Makes one run, of the tree in `between`, where it leaves what the next run begins with. Returns
// how the tree has ended; None where it goes on.
fn run_next<B: Backend, R: Wait + Clock + Copy + Drop, W: RecordWriter + Drop, E: Write, L: Log>(
    context: &Context<'_, R>,
    settings: &mut RunSettings<W>,
    errors: &mut E,
    log: &L,
    between: &mut Option<Between<B>>,
    lasting: &mut Lasting,
) -> Option<Result<(), ServeFault>> {
    // None only where `first_tree` was refused memory.
    let Some(before) = between.take() else {
        return Some(Err(ServeFault::NoMemory));
    };
    // `Again`: memory for the run was refused, so it is tried again.
    match run_once(context, settings, errors, before, lasting) {
        AfterRun::Over(done) => Some(done),
        AfterRun::Again(next) => {
            *between = Some(next);
            None
        }
        AfterRun::Next(next) => {
            info!(log; "svscan: handover");
            *between = Some(next);
            None
        }
    }
}

// Makes a new office of the tree, and runs it.
fn run_once<B: Backend, R: Wait + Clock + Copy + Drop, W: RecordWriter + Drop, E: Write>(
    context: &Context<'_, R>,
    settings: &mut RunSettings<W>,
    errors: &mut E,
    before: Between<B>,
    lasting: &mut Lasting,
) -> AfterRun<B> {
    // `Brand` names the run's rings and its board, for the proof alone. An office that can't be
    // made gives the tree and the backends back, and `wait_or_end` says what comes then: the end of
    // the tree, or another try.
    match NewOffice::new(context.alloc(), before.tree, ACTOR_COUNT, before.backends) {
        Ok(office) => run_named::<B, Brand, R, W, E>(context, settings, errors, office, lasting),
        Err((fault, tree, backends)) => {
            wait_or_end(context, fault, Between { tree, backends }, lasting)
        }
    }
}

// What comes where an office was not made or opened. Before the first run that ends the tree.
// Between two runs, where memory or the board's reader was refused, the next run is tried again a
// little later; what connections ask meanwhile is refused. `unmade` has all for that run.
fn wait_or_end<B: Drop, R: Wait + Clock>(
    context: &Context<'_, R>,
    fault: OpenFault,
    unmade: Between<B>,
    lasting: &mut Lasting,
) -> AfterRun<B> {
    match fault {
        // These numbers stay the same, so a further try would fail too.
        OpenFault::Actors | OpenFault::Lanes => AfterRun::Over(Err(ServeFault::Lanes)),
        // The first listing is taken by the first run, so there was none yet.
        OpenFault::NoMemory | OpenFault::Board if lasting.first_listing.is_some() => {
            AfterRun::Over(Err(ServeFault::NoMemory))
        }
        OpenFault::NoMemory | OpenFault::Board => {
            refuse_and_wait(context, lasting);
            AfterRun::Again(unmade)
        }
    }
}

// Answers what connections ask by `refused NoMemory`, and waits until the driver's bell rings, but
// at most 100 ms.
pub(crate) fn refuse_and_wait<R: Wait + Clock>(context: &Context<'_, R>, lasting: &mut Lasting) {
    lasting.clients.refuse_all(context);
    wait_for_bell(context, Some(RETRY_WAIT));
}

// Opens the office, and runs it. The type `C` names the run's rings and its board, for the proof
// alone. Where the office can't be opened, `wait_or_end` says what comes then. `lasting` is what
// outlasts a run: the clients, and what the next run begins with.
fn run_named<
    B: Backend,
    C: Channels + Lanes,
    R: Wait + Clock + Copy + Drop,
    W: RecordWriter + Drop,
    E: Write,
>(
    context: &Context<'_, R>,
    settings: &mut RunSettings<W>,
    errors: &mut E,
    office: NewOffice<B>,
    lasting: &mut Lasting,
) -> AfterRun<B>
    requires seats { (k : ℕ) → C.seat_ring k ≡ ring_of (slice_get office.rings k) }
    requires board { C.board ≡ office.board }
    requires tree { C.opening ≡ office.tree }
    requires history { C.history ≡ office.history }
    requires lanes { (k : ℕ) → C.lane_ring k ≡ lane_ring_of (slice_get office.lane_rings k) }
    requires before { (k : ℕ) → C.asked_before k ≡ asked_of B.asked (slice_get office.backends k) }
{
    match office.open::<C, R>(context.alloc(), *context.rt) {
        Ok(opened) => run_opened(context, settings, errors, opened, lasting),
        Err((fault, tree, backends)) => {
            wait_or_end(context, fault, Between { tree, backends }, lasting)
        }
    }
}

// Runs an open office. The memory for recording and closing the run is taken first. `seats` are
// where inputs are handed in, `readers` read the board. Where the next run follows (`None`), the
// office is closed.
fn run_opened<
    C: Channels + Lanes,
    D: Board<C>,
    B: Backend,
    R: Wait + Clock,
    W: RecordWriter + Drop,
    E: Write,
>(
    context: &Context<'_, R>,
    settings: &mut RunSettings<W>,
    errors: &mut E,
    opened: Opened<C, D, B>,
    lasting: &mut Lasting,
) -> AfterRun<B> {
    let Opened {
        office,
        seats,
        readers,
        known,
    } = opened;
    // One reader of the board is enough.
    let Some(reader) = readers.into_iter().next() else {
        return AfterRun::Over(Err(ServeFault::NoMemory));
    };
    // The steps of the run are counted from 1 again.
    lasting.clients.notes.begin_run();
    // An empty list with room for what each seat gives at the end of the run.
    let spare_finishes = take_memory(context, lasting, &mut settings.recorder);
    // The pace says when the run takes inputs, and when it ends, by how many steps a run is to have
    // (`handover`).
    let pace = Pace::new(settings.handover);
    let mut state = DriverState::new(context.alloc(), seats, reader, known, lasting, pace);
    match drive_to_end(context, settings, errors, &office, &mut state) {
        None => close(context, office, state, spare_finishes),
        Some(done) => AfterRun::Over(done),
    }
}

// Takes the memory that recording and closing a run need, and tries again until there is some; what
// connections ask meanwhile is refused. Returns an empty list with room for what each seat gives
// when it is finished at the end of the run.
fn take_memory<C: Channels, R: Wait + Clock, W: RecordWriter + Drop>(
    context: &Context<'_, R>,
    lasting: &mut Lasting,
    recorder: &mut Recorder<W>,
) -> Vec<Finished<C>> {
    let alloc = context.alloc();
    for _ in context.rt.forever() {
        // This sets aside the memory for recording.
        if recorder.prepare().is_ok() {
            if let Ok(spare_finishes) = Vec::with_capacity(alloc, ACTOR_COUNT) {
                return spare_finishes;
            }
        }
        refuse_and_wait(context, lasting);
    }
    // Never reached: the loop has no end.
    Vec::new(alloc)
}

// Finishes every seat, and closes the office, in which nothing is left to be done. `spare_finishes`
// is an empty list with room for what each seat gives when it is finished. Returns what the next
// run begins with; `Close` where the office can't be closed.
fn close<C: Channels + Lanes, D: Board<C>, B: Backend, R: Wait>(
    context: &Context<'_, R>,
    office: Office<C, D, B>,
    state: DriverState<'_, C>,
    spare_finishes: Vec<Finished<C>>,
) -> AfterRun<B> {
    let mut finishes = spare_finishes;
    for seat in state.seats {
        // There is room for each.
        let _ = finishes.push(seat.finish());
    }
    let mut known = state.known;
    match office.close(context.rt, &mut known, finishes) {
        Ok(
            Closed {
                tree,
                run,
                backends,
                ..
            },
        ) => {
            // The thread that reads the scan directory drops this run. An earlier one that it has
            // not taken yet is dropped here.
            let _before = context.shared().scans.leave_run(context.rt, run);
            AfterRun::Next(Between { tree, backends })
        }
        Err(_) => AfterRun::Over(Err(ServeFault::Close)),
    }
}
