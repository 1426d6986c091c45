//! Fifteen seats submit, each in a thread of its own, while one thread drives and three read.
use crate::acts::input_of;
use channel_names::Channels;
use inbox::{Seat, Ticket};
use locked_services::{DriveStop, Driven};
use office::Office;
use order_lanes::{Backend, Lanes};
use run_history::KnownHistory;
use s6_events::{Actor, At};
use status_board::{Board, BoardReader, Shot};
use std::alloc::Global;
use std::sync::Wait;
use std::sync::atomic::{AtomicU64, Ordering};
use std::thread;
use std::thread::{Builder, Scope, Threads};
use std::time::{Clock, Duration};
use tree_core::{Act, Input};

/// How many seats there are.
const SEATS: u8 = 15;

/// How many acts each of them submits.
const ACTS: u64 = 2_000;

/// How many threads read.
const READERS: usize = 3;

// What is marked once all steps were made or something failed.
const DONE: u64 = 1;

// What is marked for each fault.
const FAULT: u64 = 2;

// Marks a fault, where there is one.
fn note(marks: &AtomicU64, is_good: bool) {
    if !is_good {
        marks.fetch_add(FAULT, Ordering::SeqCst);
    }
}

// Whether a fault is marked.
fn has_fault(marks: &AtomicU64) -> bool {
    marks.load(Ordering::SeqCst) >= FAULT
}

// Whether the end is marked.
fn is_done(marks: &AtomicU64) -> bool {
    marks.load(Ordering::SeqCst) % FAULT == DONE
}

/// All threads together: whether none met a fault.
pub fn storm<
    C: Channels + Lanes + Send + Sync,
    D: Board<C> + Send,
    B: Backend + Send,
    R: Threads + Wait + Clock + Sync,
>(
    rt: &R,
    alloc: Global,
    office: &Office<C, D, B>,
    seats: &mut Vec<Seat<C>>,
    readers: &mut Vec<BoardReader<C>>,
) -> bool {
    let marks = AtomicU64::new(0);
    let noted = &marks;
    thread::scope(thread::scope_env(), rt, |scope| {
        start_seats(scope, rt, alloc, seats, noted);
        let is_started = start_driver(scope, rt, office, noted);
        note(noted, is_started);
        if !is_started {
            noted.fetch_add(DONE, Ordering::SeqCst);
        }
        start_readers(scope, rt, readers, noted);
    });
    !has_fault(&marks)
}

// A thread for each seat.
fn start_seats<'s, E, C: Channels + Send + Sync + 's, R: Threads + Wait + Clock + Sync>(
    scope: &Scope<'s, E>,
    rt: &'s R,
    alloc: Global,
    seats: &mut Vec<Seat<C>>,
    marks: &'s AtomicU64,
) {
    for _ in 0..SEATS {
        note(marks, start_seat(scope, rt, alloc, seats, marks));
    }
}

// Some threads that read.
fn start_readers<'s, E, C: Channels + Send + Sync + 's, R: Threads + Wait + Clock + Sync>(
    scope: &Scope<'s, E>,
    rt: &'s R,
    readers: &mut Vec<BoardReader<C>>,
    marks: &'s AtomicU64,
) {
    for _ in 0..READERS {
        note(marks, start_reader(scope, rt, readers, marks));
    }
}

// A thread for the last of these seats: whether there is one, and it could be started.
fn start_seat<'s, E, C: Channels + Send + Sync + 's, R: Threads + Wait + Clock + Sync>(
    scope: &Scope<'s, E>,
    rt: &'s R,
    alloc: Global,
    seats: &mut Vec<Seat<C>>,
    marks: &'s AtomicU64,
) -> bool {
    match seats.pop() {
        Some(seat) => Builder::new()
            .spawn_scoped(scope, move || submit_all(rt, alloc, seat, marks))
            .is_ok(),
        None => false,
    }
}

// A thread for the last of these readers: whether there is one, and it could be started.
fn start_reader<'s, E, C: Channels + Send + Sync + 's, R: Threads + Wait + Clock + Sync>(
    scope: &Scope<'s, E>,
    rt: &'s R,
    readers: &mut Vec<BoardReader<C>>,
    marks: &'s AtomicU64,
) -> bool {
    match readers.pop() {
        Some(reader) => Builder::new()
            .spawn_scoped(scope, move || watch(rt, reader, marks))
            .is_ok(),
        None => false,
    }
}

// A thread that drives.
fn start_driver<
    's,
    E,
    C: Channels + Lanes + Send + Sync,
    D: Board<C> + Send,
    B: Backend + Send,
    R: Threads + Wait + Clock + Sync,
>(scope: &Scope<'s, E>, rt: &'s R, office: &'s Office<C, D, B>, marks: &'s AtomicU64) -> bool {
    Builder::new()
        .spawn_scoped(scope, move || drive_all(rt, office, marks))
        .is_ok()
}

// Submits all acts, each until the ring takes it, or until something failed.
fn submit_all<C: Channels, R: Wait + Clock>(
    rt: &R,
    alloc: Global,
    seat: Seat<C>,
    marks: &AtomicU64,
) {
    let mut seat = seat;
    let mut kept = None;
    for _ in rt.forever() {
        if seat.sent() >= ACTS || has_fault(marks) {
            break;
        }
        submit_next(rt, alloc, &mut seat, &mut kept, marks);
    }
}

// The seat's next input.
fn next_input<C: Channels>(alloc: Global, seat: &Seat<C>) -> Option<Input<Global>> {
    let number = u32::try_from(seat.sent()).ok()?;
    input_of(alloc, seat.actor(), number)
}

// Submits the input that was kept, or else the next one. It is kept, for a moment later, where the
// ring is full.
fn submit_next<C: Channels, R: Wait + Clock>(
    rt: &R,
    alloc: Global,
    seat: &mut Seat<C>,
    kept: &mut Option<Input<Global>>,
    marks: &AtomicU64,
) {
    if kept.is_none() {
        *kept = next_input(alloc, seat);
        note(marks, kept.is_some());
    }
    submit_kept(seat, kept);
    if kept.is_some() {
        thread::sleep(rt, Duration::from_millis(1));
    }
}

// Submits the input that there is. It stays where the ring is full.
fn submit_kept<C: Channels>(seat: &mut Seat<C>, kept: &mut Option<Input<Global>>) {
    if seat.sent() >= ACTS {
        return;
    }
    if let Some(Input { actor, at, act }) = kept.take() {
        if let Err((act, _)) = seat.submit(at, act) {
            *kept = Some(Input { actor, at, act });
        }
    }
}

// Reads until all is done: it is a fault where a shot is older than one before it.
fn watch<C: Channels, R: Wait + Clock>(rt: &R, reader: BoardReader<C>, marks: &AtomicU64) {
    let mut reader = reader;
    note(
        marks,
        reads_in_order(rt, &mut reader, &mut Shot::empty(), marks),
    );
}

// Whether no shot is older than one before it, until all is done.
fn reads_in_order<C: Channels, R: Wait + Clock>(
    rt: &R,
    reader: &mut BoardReader<C>,
    shot: &mut Shot,
    marks: &AtomicU64,
) -> bool {
    let mut seen = 0u64;
    let mut is_in_order = true;
    for _ in rt.forever() {
        let is_last = is_done(marks);
        is_in_order = reader.read_into(shot) && shot.at >= seen && is_in_order;
        seen = shot.at;
        if is_last || !is_in_order {
            break;
        }
        thread::sleep(rt, Duration::from_millis(1));
    }
    is_in_order
}

// Drives until all steps were made or something failed.
fn drive_all<C: Channels + Lanes, D: Board<C>, B: Backend, R: Wait + Clock>(
    rt: &R,
    office: &Office<C, D, B>,
    marks: &AtomicU64,
) {
    let wanted = u64::from(SEATS) * ACTS;
    let mut known = office.history(rt);
    let mut made = 0u64;
    for _ in rt.forever() {
        if made >= wanted || has_fault(marks) {
            break;
        }
        let driven = drive_on(rt, office, &mut known);
        made = made.saturating_add(driven);
    }
    marks.fetch_add(DONE, Ordering::SeqCst);
}

// Makes steps, and carries the orders of a lane that is full: how many there were.
fn drive_on<C: Channels + Lanes, D: Board<C>, B: Backend, R: Wait + Clock>(
    rt: &R,
    office: &Office<C, D, B>,
    known: &mut KnownHistory<C>,
) -> u64 {
    let Driven { steps, stop } = office.drive(rt, known, 512);
    match stop {
        DriveStop::Blocked(lane) if lane < office.lanes() => {
            office.carry(rt, lane, 4_096);
        }
        DriveStop::Idle => thread::sleep(rt, Duration::from_millis(1)),
        _ => {}
    }
    steps
}
