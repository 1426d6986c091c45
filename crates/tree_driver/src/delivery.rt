//! Turns the effect of each step into posts, pairs of a slot and a line, and posts them. The roster
//! (in `notes`) lists the services and how each is over; `pace.steps` counts the steps that were
//! handed out.
use crate::driver_state::{DriverState, Lasting};
use channel_names::Channels;
use locked_services::new_effect;
use office::Office;
use order_lanes::{Backend, Lanes};
use s6_events::{Actor, At, NoMemory};
use server_rules::{Place, askers_of, hand_out, place_of};
use server_threads::Context;
use status_board::Board;
use std::alloc::Global;
use std::mem;
use std::sync::Wait;
use tree_core::{Effect, Reply};

/// Hands out what the steps gave that were not handed out yet: to the connections of clients, the
/// replies, letters, matches and releases that concern them. False where memory is refused for one
/// of the steps: the next call begins with that step.
pub fn deliver_all<C: Channels + Lanes, D: Board<C>, B: Backend, R: Wait>(
    context: &Context<'_, R>,
    office: &Office<C, D, B>,
    state: &mut DriverState<'_, C>,
) -> bool {
    // The effect, what one step gave, is read into the same memory for each step. Afterwards it is
    // put back.
    let Ok(mut effect) = state.lasting.take_effect(context.alloc()) else {
        return false;
    };
    let delivered = deliver_each(context, office, state, &mut effect);
    state.lasting.effect = Some(effect);
    if delivered.is_err() {
        return false;
    }
    // The roster forgets services that are no longer on the board, where it has grown long.
    let DriverState { board, lasting, .. } = state;
    lasting.clients.forget_gone(context, board);
    true
}

// Hands out what each step gave that was not handed out yet, one step after the other; each is read
// into `effect`. At `NoMemory` nothing of that step was handed out.
fn deliver_each<C: Channels + Lanes, D: Board<C>, B: Backend, R: Wait>(
    context: &Context<'_, R>,
    office: &Office<C, D, B>,
    state: &mut DriverState<'_, C>,
    effect: &mut Effect<Global>,
) -> Result<(), NoMemory> {
    for _ in 0..u64::MAX {
        // The first step that was not handed out yet.
        let number = state.pace.steps.saturating_add(1);
        // Fills `effect` with what that step gave. `told` is whose input it took, and when that was
        // handed in.
        let told = office.step(context.rt, &mut state.known, number, effect)?;
        // No step of this number is made yet.
        let Some((actor, moment)) = told else {
            break;
        };
        // Adds the step's posts to `state.posts`.
        hand_out_of(context, state, actor, number, moment, effect)?;
        if state.posts.iter().any(|post| post.tells_states()) {
            // The states of services are told from the board and the roster, so the roster has to
            // note all steps that the board shows. Where memory is refused, it misses some:
            // `post_all` sees that, and answers `refused NoMemory`.
            let _ = catch_up(context, office, state);
        }
        // The posts go into the connections' mailboxes. Where one is the reply to the step, its
        // text is made of `effect.reply`.
        let DriverState {
            board,
            lasting,
            posts,
            ..
        } = &mut *state;
        lasting
            .clients
            .post_all(context, board, &effect.reply, posts.as_slice());
        posts.clear();
    }
    Ok(())
}

// Works out what is posted of a step, and to whom: adds it to `state.posts`. `actor` is who handed
// in the step's input: the scanner, a lane or a client. The roster notes the step first, unless it
// has already; for a step of the scanner it is noted afterwards that its scan or tick was made. At
// `NoMemory` nothing is posted, and the step is still to be handed out.
fn hand_out_of<C: Channels + Lanes, R: Wait>(
    context: &Context<'_, R>,
    state: &mut DriverState<'_, C>,
    actor: Actor,
    number: u64,
    moment: At,
    effect: &Effect<Global>,
) -> Result<(), NoMemory> {
    let place = place_of(actor);
    // Whether the scanner's next step is the scan that was handed in; else it is a tick.
    let is_scan = state.is_scan_next();
    let Lasting {
        clients,
        plans,
        clock,
        ..
    } = &mut *state.lasting;
    // Notes what the step told of services.
    clients.notes.note(number, moment, effect)?;
    // The tree's clock never goes back.
    if *clock < moment {
        *clock = moment;
    }
    // `askers_of` gives the slots whose requests the reply answers: for a scan, those in `served`,
    // which asked for it.
    hand_out(
        askers_of(place, is_scan, &plans.served).as_slice(),
        *clock,
        &clients.notes.roster,
        effect,
        &mut clients.connections,
        &mut state.posts,
    )?;
    // The step is handed out now, so `deliver_each` goes on with the next one.
    state.pace.steps = number;
    if place == Place::Scanner {
        note_scanner(context, state, &effect.reply);
    }
    Ok(())
}

// Has the roster note the steps that are not handed out yet, since the board shows them already. At
// `NoMemory` some are not noted. `noted` is how many steps of the run the roster has noted, and
// `made` how many were made;
fn catch_up<C: Channels + Lanes, D: Board<C>, B: Backend, R: Wait>(
    context: &Context<'_, R>,
    office: &Office<C, D, B>,
    state: &mut DriverState<'_, C>,
) -> Result<(), NoMemory> {
    let first = state.lasting.clients.notes.noted.saturating_add(1);
    if state.board.made < first {
        return Ok(());
    }
    let mut effect = new_effect(context.alloc())?;
    for number in first..=state.board.made {
        let told = office.step(context.rt, &mut state.known, number, &mut effect)?;
        if let Some((_, moment)) = told {
            state.lasting.clients.notes.note(number, moment, &effect)?;
        }
    }
    Ok(())
}

// Notes that a step of the scanner, actor 0, was made: a scan or a tick, with this reply. If it was
// the scan, that is over: what it could not read is kept for statuses, and lines are kept for
// standard error about the services for which it had no room in the tree (`full`).
fn note_scanner<C: Channels + Lanes, R: Wait>(
    context: &Context<'_, R>,
    state: &mut DriverState<'_, C>,
    reply: &Reply<Global>,
) {
    let is_scan = state.is_scan_next();
    // `is_scan_next` compares this count with the number of the scan.
    state.scans_and_ticks = state.scans_and_ticks.saturating_add(1);
    if !is_scan {
        return;
    }
    // No scan is handed in and unanswered any more.
    state.scan = None;
    let lasting = &mut *state.lasting;
    if lasting.awaits_first {
        // Requests of connections are begun only once the first scan is answered, as it is now.
        // Those that rang before are looked for in one more round.
        lasting.awaits_first = false;
        context.shared().driver.ring(context.rt);
    }
    // Answers to `states` tell of these directories, which could not be used.
    let unread = mem::replace(&mut lasting.unread, Vec::new(context.alloc()));
    context.shared().rows.set_unread(context.rt, unread);
    // Those who asked for the scan get its reply from `posts`.
    let _ = lasting.plans.end_scan();
    if let Reply::Scanned(report) = reply {
        // Where memory is refused, these services are not told of now.
        if let Ok(lines) = lasting.full.lines_of(report.listed()) {
            lasting.lines = lines;
        }
    }
}
