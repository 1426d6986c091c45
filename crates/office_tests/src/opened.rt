//! What is asked of an office that is open.
use crate::asking::ask;
use crate::parts::TestParts;
use crate::seats::{finish, submit_beside, submit_many, take_board};
use crate::storm::storm;
use channel_names::Channels;
use inbox::{Finished, Seat};
use office::{Closed, Office, Opened};
use order_lanes::{Backend, Lanes, act_of};
use run_history::KnownHistory;
use s6_events::At;
use status_board::Board;
use std::alloc::Global;
use std::io::Write;
use std::sync::Wait;
use std::thread::Threads;
use std::time::Clock;

/// An office that is open, and what is left of the seats that have finished.
#[derive(Drop)]
pub struct Open<C: Channels + Lanes, D: Board<C>, B: Backend> {
    pub opened: Opened<C, D, B>,
    pub finishes: Vec<Finished<C>>,
}

/// Closes the office: what is left, or why it goes on. Then all is as it was.
pub fn close<C: Channels + Lanes, D: Board<C>, B: Backend, R: Wait>(
    rt: &R,
    open: &mut Option<Open<C, D, B>>,
    left: &mut Option<TestParts<B>>,
    text: &mut Vec<u8>,
) -> bool {
    let Some(Open { opened, finishes }) = open.take() else {
        return false;
    };
    let Opened {
        office,
        seats,
        readers,
        mut known,
    } = opened;
    match office.close(rt, &mut known, finishes) {
        Ok(closed) => leave(closed, left, text),
        Err((office, finishes, fault)) => {
            let opened = Opened {
                office,
                seats,
                readers,
                known,
            };
            *open = Some(Open { opened, finishes });
            writeln!(text, "{fault:?}").is_ok()
        }
    }
}

// The run is closed: how many steps it made, how many the tree has made, and how many backends
// there are.
fn leave<B: Drop>(closed: Closed<B>, left: &mut Option<TestParts<B>>, text: &mut Vec<u8>) -> bool {
    let (steps, made, lanes) = (closed.steps, closed.tree.steps(), closed.backends.len());
    let Closed { tree, backends, .. } = closed;
    *left = Some(TestParts { tree, backends });
    writeln!(text, "{steps} steps, tree of {made}, {lanes} backends").is_ok()
}

/// Does what a line asks of an open office, and writes what came of it. Whether the line could be
/// read, and there was memory.
pub fn do_open<
    B: Backend + Send,
    C: Channels + Lanes + Send + Sync,
    D: Board<C> + Send,
    R: Threads + Wait + Clock + Sync,
>(rt: &R, alloc: Global, asked: &str, open: &mut Open<C, D, B>, text: &mut Vec<u8>) -> bool {
    let (verb, rest) = asked.split_once(' ').unwrap_or((asked, ""));
    let Opened {
        office,
        seats,
        readers,
        known,
    } = &mut open.opened;
    match verb {
        "submit" => submit_many(alloc, rest, seats),
        "finish" => finish(seats, &mut open.finishes).is_some(),
        "beside" => submit_beside(rt, rest, seats, text).is_some(),
        "read" => take_board(rt, office, known, readers, text).is_some(),
        "serve" => serve(rt, rest, office, text),
        "report" => hand_in_report(rt, office, seats, text),
        "storm" => storm(rt, alloc, office, seats, readers),
        "sizes" => sizes(rt, office, known, open.finishes.len(), text),
        _ => ask(rt, alloc, verb, rest, office, known, text),
    }
}

// The first seat hands in the next report of the first lane. What is handed in is told.
fn hand_in_report<C: Channels + Lanes, D: Board<C>, B: Backend, R: Wait>(
    rt: &R,
    office: &Office<C, D, B>,
    seats: &mut [Seat<C>],
    text: &mut Vec<u8>,
) -> bool {
    let Some(seat) = seats.first_mut() else {
        return false;
    };
    if office.lanes() == 0 || seat.sent() > 1_000 {
        return false;
    }
    match office.report(rt, 0) {
        Some(report) => {
            seat.submit(At::zero(), act_of(&report)).is_ok() && writeln!(text, "{report:?}").is_ok()
        }
        None => text.extend_from_slice(b"none\n").is_ok(),
    }
}

// Serves each lane in a thread of its own.
fn serve<
    B: Backend + Send,
    C: Channels + Lanes + Send + Sync,
    D: Board<C>,
    R: Threads + Wait + Sync,
>(rt: &R, turns: &str, office: &Office<C, D, B>, text: &mut Vec<u8>) -> bool {
    let turns = turns.parse::<u64>().unwrap_or(0);
    let served = office.serve_lanes(rt, turns);
    writeln!(text, "{served:?}").is_ok()
}

// Tells how many lanes, steps and finishes there are.
fn sizes<C: Channels + Lanes, D: Board<C>, B: Backend, R: Wait>(
    rt: &R,
    office: &Office<C, D, B>,
    known: &mut KnownHistory<C>,
    finishes: usize,
    text: &mut Vec<u8>,
) -> bool {
    let (lanes, steps) = (office.lanes(), office.steps(rt, known));
    writeln!(text, "{lanes} lanes, {steps} steps, {finishes} finishes").is_ok()
}
