//! The driver at work on one run: in rounds, it hands inputs in, makes steps, and hands out what
//! they gave.
use crate::delivery::deliver_all;
use crate::driver_state::{DriverState, Lasting};
use crate::lanes::{carry_all, hand_in_reports};
use crate::serving::begin_all;
use channel_names::Channels;
use locked_services::{DriveStop, Driven};
use office::Office;
use order_lanes::{Backend, Lanes};
use server_rules::{After, Halt, OwnAnswer, Round, RunEnd, SCANNER, Wanted};
use server_threads::{Context, ReadScan};
use status_board::Board;
use std::io::Write;
use std::sync::Wait;
use std::time::{Clock, Duration};
use tree_core::Act;

/// How many steps are made before what they gave is handed out.
const STEPS: u64 = 64;

/// Drives a run to its end, round after round. A round hands in all that is asked, read, reported
/// and due, makes the steps, hands out what they gave, and has the lanes carry. The services for
/// which a scan had no room are told on `errors`.
pub fn drive_run<C: Channels + Lanes, D: Board<C>, B: Backend, R: Wait + Clock, E: Write>(
    context: &Context<'_, R>,
    office: &Office<C, D, B>,
    state: &mut DriverState<'_, C>,
    errors: &mut E,
) -> RunEnd {
    for _ in context.rt.forever() {
        let now = context.shared().clock.millis(context.rt);
        // A run that is to end takes no further inputs.
        let is_open = state.pace.takes_inputs();
        let mut is_full = false;
        if is_open {
            hand_in_all(context, state, now);
            // A ring was full before all reports of the lanes were handed in.
            is_full = hand_in_reports(context, office, state, now);
        }
        // Makes the steps. `halt` says why no further one was made.
        let halt = drive_some(context, office, state);
        let round = round_after(context, office, state, halt, now, is_open, is_full);
        write_error_lines(state.lasting, errors);
        match state.pace.after(&round) {
            After::GoOn => {}
            After::Wait(time) => wait_for_bell(context, time),
            After::Stop(end) => return end,
        }
    }
    // Never reached: the loop has no end.
    RunEnd::Full
}

/// Writes the lines that still wait for standard error: they are about services for which a scan
/// had no room.
pub fn write_error_lines<E: Write>(lasting: &mut Lasting, errors: &mut E) {
    if !lasting.lines.is_empty() {
        let _ = errors.write_all(lasting.lines.as_slice());
        lasting.lines.clear();
    }
}

/// Ends a round: wakes the connections to which something was posted, has the lanes carry orders,
/// and returns what the round has found. It began at the moment `now`, in milliseconds; `halt` says
/// why no further step was made, `is_open` whether the run took inputs, and `is_full` whether a
/// ring was full before all reports were handed in.
pub fn round_after<C: Channels + Lanes, D: Board<C>, B: Backend, R: Wait>(
    context: &Context<'_, R>,
    office: &Office<C, D, B>,
    state: &mut DriverState<'_, C>,
    halt: Halt,
    now: u64,
    is_open: bool,
    is_full: bool,
) -> Round {
    state.lasting.clients.wake_all(context);
    let carrying = carry_all(context, office);
    // A busy lane is one that takes no order now. Meanwhile a run takes inputs for some steps more.
    state.pace.is_lane_busy = !carrying.busy.is_empty();
    let is_idle = halt == Halt::Idle;
    if is_idle {
        // No input is left that could still change what is due.
        state.lasting.plans.due = office.next_due(context.rt, &mut state.known);
    }
    Round {
        moment: now,
        is_open,
        is_full,
        // A scan that was called for while another one was under way begins in the next round:
        // nobody rings for it.
        has_more: state.lasting.clients.has_more_to_begin() || state.lasting.plans.is_called(),
        halt,
        has_ended: is_idle && office.ended(context.rt, &mut state.known),
        carrying,
        due: state.lasting.plans.due,
    }
}

// Hands in scans, ticks, and what connections ask. The first scan, of the listing that was read at
// the start, goes before all else.
fn hand_in_all<C: Channels + Lanes, R: Wait>(
    context: &Context<'_, R>,
    state: &mut DriverState<'_, C>,
    now: u64,
) {
    if let Some(listing) = state.lasting.first_listing.take() {
        // This scan is made for nobody who asked.
        state.lasting.plans.begin_scan();
        // It is the first input of the first run, so there is room for it.
        let _ = state.submit_scan(now, listing);
    }
    // Nothing else is handed in before the first scan is answered.
    if state.lasting.awaits_first {
        return;
    }
    begin_all(context, state, now);
    hand_in_found(context, state, now);
    // A connection waits for a scan, and none is under way: another thread is asked to read the
    // directory.
    if state.lasting.plans.is_called() {
        state.lasting.plans.begin_scan();
        context.shared().scans.ask(context.rt);
    }
    hand_in_due(state, now);
}

/// Hands in a tick, which lets the timers and deadlines that are due go off, if one is wanted at
/// this moment, in milliseconds.
pub fn hand_in_due<C: Channels + Lanes>(state: &mut DriverState<'_, C>, now: u64) {
    if state.lasting.plans.wanted(now) == Wanted::Tick {
        // The tick is handed in now. If the ring is full, `round_after` looks again for what is
        // due, after the steps that fill it.
        state.lasting.plans.due = None;
        let _ = state.hand_in(SCANNER, now, Act::Tick);
    }
}

// Hands in the listing that another thread has read of the scan directory, if there is one; or
// tells those that asked for the scan why there is none.
fn hand_in_found<C: Channels + Lanes, R: Wait>(
    context: &Context<'_, R>,
    state: &mut DriverState<'_, C>,
    now: u64,
) {
    let Some(found) = context.shared().scans.take_found(context.rt) else {
        return;
    };
    // None: the scan was handed in, and its reply answers those that asked.
    let Some(reason) = refusal_of(state, now, found) else {
        return;
    };
    for slot in state.lasting.plans.end_scan().as_slice() {
        state.lasting.clients.refuse_errand(context, *slot, reason);
    }
}

// Hands in a scan of what was found. Returns why there is no scan, which is told to those that
// asked for it; None where it was handed in.
fn refusal_of<C: Channels + Lanes>(
    state: &mut DriverState<'_, C>,
    now: u64,
    found: ReadScan,
) -> Option<OwnAnswer> {
    match found {
        Err(reason) => Some(reason),
        // `Full`: the scanner's ring didn't take the scan.
        Ok(found) => (!state.submit_scan(now, found)).then_some(OwnAnswer::Full),
    }
}

/// Makes all steps that can be made, and hands out what they gave. Returns why no further step was
/// made. The office makes the steps, and shows the rows of the services on the board.
pub fn drive_some<C: Channels + Lanes, D: Board<C>, B: Backend, R: Wait>(
    context: &Context<'_, R>,
    office: &Office<C, D, B>,
    state: &mut DriverState<'_, C>,
) -> Halt {
    for _ in context.rt.forever() {
        let driven = office.drive(context.rt, &mut state.known, STEPS);
        if driven.steps > 0 {
            // From now on the board's reader gives no rows that are older than those which were
            // shown last.
            let told = office.tell(context.rt, &mut state.known);
            state.board.reader.learn(told);
        }
        note_steps(context, state, driven);
        if driven.stop == DriveStop::Idle {
            // Every input is done, so the tree's clock, which statuses and `clock` tell, is at the
            // greatest moment that was handed in.
            state.lasting.clients.now = state.lasting.handed_in;
        }
        if !deliver_all(context, office, state) {
            return Halt::NoMemory;
        }
        match driven.stop {
            // It made as many steps as it may make at once: it goes on.
            DriveStop::Count => {}
            DriveStop::Idle => return Halt::Idle,
            DriveStop::Blocked(lane) => return Halt::Blocked(lane),
            DriveStop::NoMemory => return Halt::NoMemory,
            DriveStop::RunFull => return Halt::Full,
        }
    }
    // Never reached: the loop has no end.
    Halt::Idle
}

// Brings up to date what statuses are told from, after the steps of one call of `drive`: how many
// steps were made, whether the board shows the last of them, and the rows that were read of the
// board before, which are no longer fresh.
fn note_steps<C: Channels + Lanes, R: Wait>(
    context: &Context<'_, R>,
    state: &mut DriverState<'_, C>,
    driven: Driven,
) {
    let board = &mut state.board;
    // A drive that was refused memory may not have shown its last step.
    board.is_shown = driven.stop != DriveStop::NoMemory;
    board.made = board.made.saturating_add(driven.steps);
    if driven.steps > 0 || !board.is_shown {
        context.shared().rows.invalidate(context.rt);
    }
}

/// Waits until somebody rings the driver's bell, since there is something to do, but at most so
/// many milliseconds where a number is given.
pub fn wait_for_bell<R: Wait + Clock>(context: &Context<'_, R>, time: Option<u64>) {
    let bell = &context.shared().driver;
    match time {
        Some(millis) => {
            let _ = bell.wait_at_most(context.rt, Duration::from_millis(millis));
        }
        None => bell.wait(context.rt),
    }
}
