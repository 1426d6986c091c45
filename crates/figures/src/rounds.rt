//! What is submitted: a scan, and then rounds of acts.
use crate::fault::Fault;
use crate::words::Load;
use s6_events::{Actor, At, Exit, Name, NoMemory, Sid};
use servicedir::Config;
use std::alloc::Global;
use tree_core::{Act, Entry, Input, Listing};

/// How many acts a seat submits before all that was submitted is done: 21 runs of its service,
/// which a ring holds.
pub const ROUND: u32 = 63;

// What a look at the directory finds of the service of this seat.
fn entry_of(seat: u8) -> Entry {
    let name = Name::new(&[b'a' + seat % 26]).unwrap_or_default();
    let config = Some(Config::plain());
    Entry { name, config }
}

// Adds the services of so many seats.
fn add_entries(entries: &mut Vec<Entry>, seats: u8) -> Result<(), NoMemory> {
    for seat in 0..seats {
        entries.push(entry_of(seat))?;
    }
    Ok(())
}

/// A look at a directory with a service for each seat, as the first seat's input.
pub fn scan_of(alloc: Global, load: Load) -> Result<Input<Global>, Fault> {
    let mut entries = Vec::new(alloc);
    match add_entries(&mut entries, load.seats) {
        Ok(()) => Ok(Input {
            actor: Actor::default(),
            at: At::zero(),
            act: Act::Scan(Listing::new(entries)),
        }),
        Err(refused) => Err(Fault::NoMemory(refused)),
    }
}

// How many runs of services come before this act, where each seat in turn submits all of a round.
fn runs_before(load: Load, seat: u8, number: u32) -> u64 {
    let seats = u64::from(load.seats);
    let rounds = u64::from(number / ROUND);
    let turns = rounds.saturating_mul(seats).saturating_add(u64::from(seat));
    turns
        .saturating_mul(21)
        .saturating_add(u64::from(number % ROUND / 3))
}

/// The input of this number of a seat. A run takes 300 milliseconds, and a second after it the
/// timer goes off.
pub fn input_of(load: Load, actor: Actor, number: u32) -> Input<Global> {
    let sid = Sid(u64::from(actor.number()).saturating_add(1));
    let generation = u64::from(number / 3).saturating_add(1);
    let begin = runs_before(load, actor.number(), number).saturating_mul(1_300);
    let (moment, act) = match number % 3 {
        0 => (begin, Act::Tick),
        1 => (begin, Act::Started(sid, generation, 500)),
        _ => (
            begin.saturating_add(300),
            Act::Death(sid, generation, Exit::Code(1)),
        ),
    };
    let at = At::new(moment).unwrap_or_default();
    Input { actor, at, act }
}

/// Where the round ends that begins with this act.
pub fn end_of(load: Load, first: u32) -> u32 {
    load.count.min(first.saturating_add(ROUND))
}
