//! What connections ask is begun, or answered from the board.
use crate::driver_state::DriverState;
use channel_names::Channels;
use line_server::SLOT_COUNT;
use order_lanes::Lanes;
use server_rules::{FIRST_CLIENT, Todo};
use server_threads::Context;
use std::alloc::Global;
use std::sync::Wait;
use tree_core::Act;

/// How many requests of a connection are begun before the next connection gets its turn.
const TURN: usize = 64;

/// Begins what connections ask for, and ends what those made that have left. The moment is in
/// milliseconds.
pub fn begin_all<C: Channels + Lanes, R: Wait>(
    context: &Context<'_, R>,
    state: &mut DriverState<'_, C>,
    now: u64,
) {
    for slot in 0..SLOT_COUNT {
        // Takes over what the client has asked since the last round, or that it has left.
        state.lasting.clients.hand_over(context, slot);
        begin_some(context, state, slot, now);
        // Takes over what waits by now: the connection may not ring for it again.
        state.lasting.clients.hand_over(context, slot);
    }
}

// Begins what the connection on this slot asks, request after request, as far as that is possible
// now. An act goes into its ring; an answer is given at once. For a scan the connection joins those
// who wait for one; for a record the run ends early; `Free` ends a connection whose client has
// left. After these, or where the ring doesn't take an act, the next request waits for a later
// round.
fn begin_some<C: Channels + Lanes, R: Wait>(
    context: &Context<'_, R>,
    state: &mut DriverState<'_, C>,
    slot: usize,
    now: u64,
) {
    // An act that the ring did not take before goes first.
    if let Some(act) = state.lasting.clients.take_held(slot) {
        if !is_submitted(context, state, slot, now, act) {
            return;
        }
    }
    for _ in 0..TURN {
        match state.lasting.clients.begin(slot, now) {
            Todo::Submit(act) => {
                if is_submitted(context, state, slot, now, act) {
                    continue;
                }
            }
            Todo::Give(answer) => {
                let DriverState { board, lasting, .. } = state;
                lasting.clients.give(context, board, slot, answer);
                continue;
            }
            Todo::Scan => {
                let _ = state.lasting.plans.askers.try_push(slot);
            }
            Todo::Record => {
                if state.lasting.clients.await_record(context, slot) {
                    state.pace.end_early();
                }
            }
            Todo::Free => state.lasting.clients.free(context, slot),
            Todo::Nothing | Todo::Tell => {}
        }
        // Nothing more is begun for this connection in this round.
        break;
    }
}

// Hands in an act for the connection on this slot, and notes whose starts it makes unwanted. False
// where its ring doesn't take it: then it is kept.
fn is_submitted<C: Channels + Lanes, R: Wait>(
    context: &Context<'_, R>,
    state: &mut DriverState<'_, C>,
    slot: usize,
    now: u64,
    act: Act<Global>,
) -> bool {
    context.shared().note_act(context.rt, &act);
    // The connection on slot 0 is the actor `FIRST_CLIENT`, and the others follow.
    match state.hand_in(FIRST_CLIENT.saturating_add(slot), now, act) {
        Ok(()) => true,
        Err(act) => {
            state.lasting.clients.hold(slot, act);
            false
        }
    }
}
