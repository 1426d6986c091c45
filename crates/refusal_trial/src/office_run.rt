//! A run of an office with two seats and two lanes, in which what is refused is asked for again.
ghost use Rattle.std.specs.Prelude.{◌≡◌, ℕ, slice_get};
ghost use Rattle.office.specs.Names.{ring_of, lane_ring_of, asked_of};

use crate::attempts::Attempts;
use crate::office_steps::{play_opened, tell_rows};
use channel_names::Channels;
use office::{Closed, NewOffice};
use order_lanes::probe::Probe;
use order_lanes::{Backend, Lanes};
use s6_events::{NoMemory, Order};
use std::alloc::Global;
use std::io::Write;
use std::marker::Brand;
use std::sync::{Arc, Mutex, Wait};
use tree_core::Tree;

/// What a run begins with.
#[derive(Drop)]
pub struct TreeAndBackends<B: Drop> {
    tree: Box<Tree<Global>>,
    backends: Vec<B>,
}

/// What came of an office.
#[derive(Drop)]
pub enum Played<B: Drop> {
    /// Its opening was refused memory, and all came back.
    Back(TreeAndBackends<B>),
    /// It was opened, and closed.
    Closed(Closed<B>),
    /// It was not closed, or not opened for another cause.
    Lost,
}

/// What a lane was asked, in order.
type AskedLog = Arc<Mutex<Vec<Order>>, Global>;

/// A tree that has made no step, and two backends that start nothing, with what each was asked.
#[derive(Drop)]
struct NewParts<R: Drop> {
    parts: TreeAndBackends<Probe<R>>,
    logs: Vec<AskedLog>,
}

fn new_parts<R: Copy + Drop>(rt: R, alloc: Global) -> Result<NewParts<R>, NoMemory> {
    let mut backends = Vec::new(alloc);
    let mut logs = Vec::new(alloc);
    for _ in 0..2 {
        let log = Arc::new(alloc, Mutex::new(Vec::new(alloc)))?;
        logs.push(Arc::try_clone(&log)?)?;
        backends.push(Probe::new(rt, alloc, Vec::new(alloc), 0, log))?;
    }
    let tree = Box::new(alloc, Tree::new(alloc))?;
    let parts = TreeAndBackends { tree, backends };
    Ok(NewParts { parts, logs })
}

/// Plays the run, and prints what came of it.
pub fn play<R: Wait + Copy + Drop>(rt: &R, alloc: Global, attempts: &mut Attempts) {
    let made = match new_parts(*rt, alloc) {
        Ok(made) => Ok(made),
        Err(_) => {
            attempts.refuse();
            new_parts(*rt, alloc)
        }
    };
    let Ok(NewParts { parts, logs }) = made else {
        return attempts.add(b"refused twice\n");
    };
    match play_parts(rt, alloc, parts, attempts) {
        Some(closed) => tell_closed(rt, alloc, &closed, logs.as_slice(), attempts),
        None => attempts.add(b"lost\n"),
    }
}

// Plays the run on these parts; on those that came back, once more.
fn play_parts<B: Backend, R: Wait>(
    rt: &R,
    alloc: Global,
    parts: TreeAndBackends<B>,
    attempts: &mut Attempts,
) -> Option<Closed<B>> {
    let mut parts = Some(parts);
    for _ in 0..2 {
        match open(rt, alloc, parts.take()?, attempts) {
            Played::Back(back) => {
                attempts.refuse();
                parts = Some(back);
            }
            Played::Closed(closed) => return Some(closed),
            Played::Lost => return None,
        }
    }
    None
}

// Tells how many steps the run made, and its tree, the rows of the tree, and what each lane was
// asked.
fn tell_closed<B: Backend, R: Wait>(
    rt: &R,
    alloc: Global,
    closed: &Closed<B>,
    logs: &[AskedLog],
    attempts: &mut Attempts,
) {
    attempts.make("closed", |text| {
        let steps = closed.steps;
        let made = closed.tree.steps();
        let _ = writeln!(text, "{steps} steps, tree of {made}");
        tell_rows(alloc, closed.tree.rows().as_slice(), text)
    });
    for log in logs {
        attempts.begin("asked of a lane");
        for order in log.lock(rt).iter() {
            attempts.tell_order(order);
        }
    }
}

// Opens an office of two seats on these parts, and plays its run.
fn open<B: Backend, R: Wait>(
    rt: &R,
    alloc: Global,
    parts: TreeAndBackends<B>,
    attempts: &mut Attempts,
) -> Played<B> {
    let TreeAndBackends { tree, backends } = parts;
    match NewOffice::new(alloc, tree, 2, backends) {
        Ok(office) => open_named::<B, Brand, R>(rt, alloc, office, attempts),
        Err((_, tree, backends)) => Played::Back(TreeAndBackends { tree, backends }),
    }
}

// The same in a run that names the rings and the board of the office so.
fn open_named<B: Backend, C: Channels + Lanes, R: Wait>(
    rt: &R,
    alloc: Global,
    office: NewOffice<B>,
    attempts: &mut Attempts,
) -> Played<B>
    requires seats { (k : ℕ) → C.seat_ring k ≡ ring_of (slice_get office.rings k) }
    requires board { C.board ≡ office.board }
    requires tree { C.opening ≡ office.tree }
    requires history { C.history ≡ office.history }
    requires lanes { (k : ℕ) → C.lane_ring k ≡ lane_ring_of (slice_get office.lane_rings k) }
    requires before { (k : ℕ) → C.asked_before k ≡ asked_of B.asked (slice_get office.backends k) }
{
    match office.open::<C, &R>(alloc, rt) {
        Ok(opened) => play_opened(rt, alloc, opened, attempts),
        Err((_, tree, backends)) => Played::Back(TreeAndBackends { tree, backends }),
    }
}
