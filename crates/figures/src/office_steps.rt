//! Steps of an office.
ghost use Rattle.std.specs.Prelude.{◌≡◌, ℕ, slice_get};
ghost use Rattle.office.specs.Names.{ring_of, lane_ring_of, asked_of};

use crate::fault::Fault;
use crate::rounds::{ROUND, end_of, input_of, scan_of};
use crate::taker::Taker;
use crate::tree_steps::new_tree;
use crate::words::Load;
use channel_names::Channels;
use inbox::Seat;
use locked_services::DriveStop;
use office::{NewOffice, Office, Opened};
use order_lanes::{Backend, Lanes};
use run_history::KnownHistory;
use s6_events::NoMemory;
use status_board::Board;
use std::alloc::Global;
use std::marker::Brand;
use std::sync::Wait;
use tree_core::{Input, Tree};

/// How many orders a lane holds.
const LANE: u64 = 4_096;

// One backend, which only takes orders.
fn one_taker(alloc: Global) -> Result<Vec<Taker>, NoMemory> {
    let mut backends = Vec::new(alloc);
    backends.push(Taker::new(alloc))?;
    Ok(backends)
}

/// The office of a new tree, with one lane whose backend takes each order, takes the scan and then
/// all acts, which one thread submits and drives in turn.
pub fn drive_all<R: Wait>(rt: &R, alloc: Global, load: Load) -> Result<(), Fault> {
    match one_taker(alloc) {
        Ok(backends) => drive_lanes(rt, alloc, backends, load),
        Err(refused) => Err(Fault::NoMemory(refused)),
    }
}

// Does what `drive_all` says, with these backends.
fn drive_lanes<B: Backend, R: Wait>(
    rt: &R,
    alloc: Global,
    backends: Vec<B>,
    load: Load,
) -> Result<(), Fault> {
    match new_tree(alloc) {
        Ok(tree) => drive_tree(rt, alloc, tree, backends, load),
        Err(refused) => Err(Fault::NoMemory(refused)),
    }
}

// Does what `drive_all` says, with this tree and these backends.
fn drive_tree<B: Backend, R: Wait>(
    rt: &R,
    alloc: Global,
    tree: Box<Tree<Global>>,
    backends: Vec<B>,
    load: Load,
) -> Result<(), Fault> {
    match NewOffice::new(alloc, tree, usize::from(load.seats), backends) {
        Ok(office) => drive_named::<B, Brand, R>(rt, alloc, office, load),
        Err((fault, _, _)) => Err(Fault::NotOpened(fault)),
    }
}

// Does what `drive_all` says, in this office. `C` names its rings and its board for proofs.
fn drive_named<B: Backend, C: Channels + Lanes, R: Wait>(
    rt: &R,
    alloc: Global,
    office: NewOffice<B>,
    load: Load,
) -> Result<(), Fault>
    requires seats { (k : ℕ) → C.seat_ring k ≡ ring_of (slice_get office.rings k) }
    requires board { C.board ≡ office.board }
    requires tree { C.opening ≡ office.tree }
    requires history { C.history ≡ office.history }
    requires lanes { (k : ℕ) → C.lane_ring k ≡ lane_ring_of (slice_get office.lane_rings k) }
    requires before { (k : ℕ) → C.asked_before k ≡ asked_of B.asked (slice_get office.backends k) }
{
    match office.open::<C, &R>(alloc, rt) {
        Ok(opened) => drive_opened(rt, alloc, opened, load),
        Err((fault, _, _)) => Err(Fault::NotOpened(fault)),
    }
}

// Drives the office with its own seats.
fn drive_opened<B: Backend, C: Channels + Lanes, D: Board<C>, R: Wait>(
    rt: &R,
    alloc: Global,
    opened: Opened<C, D, B>,
    load: Load,
) -> Result<(), Fault> {
    let Opened {
        office,
        mut seats,
        mut known,
        ..
    } = opened;
    drive_rounds(rt, alloc, &office, &mut known, seats.as_mut_slice(), load)
}

// Submits the scan and has the office take its step; then the same with round after round of acts.
fn drive_rounds<B: Backend, C: Channels + Lanes, D: Board<C>, R: Wait>(
    rt: &R,
    alloc: Global,
    office: &Office<C, D, B>,
    known: &mut KnownHistory<C>,
    seats: &mut [Seat<C>],
    load: Load,
) -> Result<(), Fault> {
    submit_scan(alloc, seats, load)?;
    drive(rt, office, known, 1)?;
    for first in (0..load.count).step_by(ROUND as usize) {
        submit_round(seats, load, first)?;
        let wanted = u64::from(end_of(load, first).saturating_sub(first));
        drive(
            rt,
            office,
            known,
            wanted.saturating_mul(u64::from(load.seats)),
        )?;
    }
    Ok(())
}

// The first seat submits the scan.
fn submit_scan<C: Channels>(alloc: Global, seats: &mut [Seat<C>], load: Load) -> Result<(), Fault> {
    let scan = scan_of(alloc, load)?;
    match seats.first_mut() {
        Some(seat) => submit(seat, scan),
        None => Err(Fault::NotMade),
    }
}

// Each seat submits the acts of the round that begins with this one.
fn submit_round<C: Channels>(seats: &mut [Seat<C>], load: Load, first: u32) -> Result<(), Fault> {
    for seat in seats.iter_mut() {
        submit_turn(seat, load, first)?;
    }
    Ok(())
}

// A seat submits its acts of that round.
fn submit_turn<C: Channels>(seat: &mut Seat<C>, load: Load, first: u32) -> Result<(), Fault> {
    for number in first..end_of(load, first) {
        submit(seat, input_of(load, seat.actor(), number))?;
    }
    Ok(())
}

// Submits an input, for which there is room.
fn submit<C: Channels>(seat: &mut Seat<C>, input: Input<Global>) -> Result<(), Fault> {
    let Input { actor: _, at, act } = input;
    if seat.sent() > u64::from(u32::MAX) || seat.submit(at, act).is_err() {
        return Err(Fault::NotMade);
    }
    Ok(())
}

// Makes so many steps; where a lane has no room for more orders, its backend is asked all that it
// holds.
fn drive<C: Channels + Lanes, D: Board<C>, B: Backend, R: Wait>(
    rt: &R,
    office: &Office<C, D, B>,
    known: &mut KnownHistory<C>,
    wanted: u64,
) -> Result<(), Fault> {
    let mut left = wanted;
    for _ in 0..2 {
        let driven = office.drive(rt, known, left);
        left = left.saturating_sub(driven.steps);
        match driven.stop {
            DriveStop::Count => return Ok(()),
            DriveStop::Blocked(lane) if lane < office.lanes() => {
                office.carry(rt, lane, LANE);
            }
            _ => return Err(Fault::NotMade),
        }
    }
    Err(Fault::NotMade)
}
