//! The acts of two seats.
use channel_names::Channels;
use inbox::Seat;
use s6_events::NoMemory;
use s6_script::{LineFault, parse_line};
use std::alloc::Global;
use tree_core::Input;

/// What the first seat submits: its moments, its actor and its acts.
const FIRST: &str = "0 0 scan web other
5 0 subscribe dir q repeat a+b
6 0 mkdir q
6 0 subscribe dir q repeat a+b
6 0 wait u o 100 other web
7 0 send dir q aabab
9 0 svc web du
9 0 status web
10 0 tally web
11 0 permafailon web 60 3 1-2,SIGTERM";

/// What the second seat submits.
const SECOND: &str = "0 1 started 1 1 500
5 1 notify 1 1 0a
6 1 death 1 1 code 1
7 1 finished 1 1 code 0
8 1 started 2 1 501";

/// Submits the acts of both seats, and then ticks, until each has submitted 32. What is refused is
/// asked for again.
pub fn submit_all<C: Channels>(alloc: Global, seats: &mut [Seat<C>]) -> u32 {
    let mut refusals = 0u32;
    for (seat, lines) in seats.iter_mut().zip([FIRST, SECOND].iter()) {
        for line in lines.split('\n') {
            refusals = refusals.saturating_add(submit_line(alloc, line, seat));
        }
        for _ in seat.sent()..32 {
            refusals = refusals.saturating_add(submit_line(alloc, "20 0 tick", seat));
        }
    }
    refusals
}

// Submits the input of a line: how often memory was refused.
fn submit_line<C: Channels>(alloc: Global, line: &str, seat: &mut Seat<C>) -> u32 {
    for refusals in 0..2 {
        match parse_line(alloc, alloc, line.as_bytes()) {
            Ok(Input { actor: _, at, act }) => {
                if seat.sent() < 1_000 {
                    let _ = seat.submit(at, act);
                }
                return refusals;
            }
            Err(LineFault::NoMemory) => {}
            Err(_) => return refusals,
        }
    }
    2
}
