//! What is asked of the seats and the readers of an office.
use channel_names::Channels;
use inbox::{Finished, Seat};
use office::Office;
use order_lanes::{Backend, Lanes};
use run_history::KnownHistory;
use s6_events::At;
use s6_script::parse_line;
use status_board::{Board, BoardReader};
use std::alloc::Global;
use std::io::Write;
use std::sync::Wait;
use std::thread;
use std::thread::Threads;
use tree_core::{Act, Input};

// Submits the input of a script's line: whether the seat took it.
fn submit_line<C: Channels>(alloc: Global, line: &str, seat: &mut Seat<C>) -> bool {
    match parse_line(alloc, alloc, line.as_bytes()) {
        Ok(Input { actor: _, at, act }) => seat.sent() < 1_000 && seat.submit(at, act).is_ok(),
        Err(_) => false,
    }
}

// Submits it so many times.
fn submit_times<C: Channels>(alloc: Global, count: u64, line: &str, seat: &mut Seat<C>) -> bool {
    let mut is_taken = true;
    for _ in 0..count {
        is_taken = submit_line(alloc, line, seat) && is_taken;
    }
    is_taken
}

/// Submits an input: the line says how many times, and then has the line of a script. The seat of
/// its actor is meant.
pub fn submit_many<C: Channels>(alloc: Global, rest: &str, seats: &mut Vec<Seat<C>>) -> bool {
    let (count, line) = rest.split_once(' ').unwrap_or(("", rest));
    let actor = line.split(' ').nth(1).unwrap_or("");
    let place = actor.parse::<usize>().unwrap_or(0);
    match seats.get_mut(place) {
        Some(seat) => submit_times(alloc, count.parse::<u64>().unwrap_or(0), line, seat),
        None => false,
    }
}

/// The last seat finishes.
pub fn finish<C: Channels>(
    seats: &mut Vec<Seat<C>>,
    finishes: &mut Vec<Finished<C>>,
) -> Option<()> {
    let seat = seats.pop()?;
    finishes.push(seat.finish()).ok()
}

/// The last two seats submit so many ticks each, in threads of their own. How many each sent is
/// told.
pub fn submit_beside<C: Channels + Send + Sync, R: Threads + Sync>(
    rt: &R,
    count: &str,
    seats: &mut Vec<Seat<C>>,
    text: &mut Vec<u8>,
) -> Option<()> {
    let count = count.parse::<u32>().ok()?;
    let second = seats.pop()?;
    let first = seats.pop()?;
    let (first, second) = thread::join(
        rt,
        move || submit_ticks(first, count),
        move || submit_ticks(second, count),
    );
    let sent = (first.sent(), second.sent());
    seats.push(first).ok()?;
    seats.push(second).ok()?;
    writeln!(text, "{} {}", sent.0, sent.1).ok()
}

// Submits so many ticks at the moment 0, and gives the seat back.
fn submit_ticks<C: Channels>(seat: Seat<C>, count: u32) -> Seat<C> {
    let mut seat = seat;
    for _ in 0..count {
        if seat.sent() < u64::from(count) {
            let _ticket = seat.submit(At::zero(), Act::Tick).ok();
        }
    }
    seat
}

/// The last reader is told of all that was published, and reads: how many steps its shot is of.
pub fn take_board<C: Channels + Lanes, D: Board<C>, B: Backend, R: Wait>(
    rt: &R,
    office: &Office<C, D, B>,
    known: &mut KnownHistory<C>,
    readers: &mut Vec<BoardReader<C>>,
    text: &mut Vec<u8>,
) -> Option<()> {
    let reader = readers.last_mut()?;
    reader.learn(office.tell(rt, known));
    let at = reader.read()?.at;
    writeln!(text, "{at}").ok()
}
