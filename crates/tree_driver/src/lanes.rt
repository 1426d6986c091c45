//! The lanes, as the driver sees them: each is a queue of orders to a thread that starts and
//! signals programs, and gives back reports of them.
use crate::driver_state::DriverState;
use channel_names::Channels;
use office::Office;
use order_lanes::{Backend, Carried, Lanes, Report, act_of};
use server_rules::{Carrying, FIRST_LANE, LANE_LIMIT};
use server_threads::Context;
use status_board::Board;
use std::sync::Wait;

/// The most orders that a lane carries before the next one gets its turn.
const ORDERS_A_TURN: u64 = 256;

/// Has each lane carry at most 256 orders: these are handed over to the lane's thread. Returns
/// whether one may have more to carry, and which lanes take no order now.
pub fn carry_all<C: Channels + Lanes, D: Board<C>, B: Backend, R: Wait>(
    context: &Context<'_, R>,
    office: &Office<C, D, B>,
) -> Carrying {
    let mut carrying = Carrying::new();
    for lane in 0..office.lanes() {
        match office.carry(context.rt, lane, ORDERS_A_TURN) {
            // It carried 256 orders, and further ones may be left.
            Carried::Asked => carrying.has_more = true,
            // No order is left.
            Carried::Idle => {}
            // The lane takes no order now. The list has room for each lane, so the push can't fail.
            Carried::Refused(_) => {
                let _ = carrying.busy.try_push(lane);
            }
        }
    }
    carrying
}

/// Hands in the reports of all lanes at their seats. A report that a seat doesn't take, since its
/// ring is full, is kept for the next call. Returns whether there was such a report. The moment is
/// in milliseconds.
pub fn hand_in_reports<C: Channels + Lanes, D: Board<C>, B: Backend, R: Wait>(
    context: &Context<'_, R>,
    office: &Office<C, D, B>,
    state: &mut DriverState<'_, C>,
    now: u64,
) -> bool {
    let mut is_full = false;
    for lane in 0..LANE_LIMIT {
        for _ in 0..u64::MAX {
            // A report that an earlier call could not hand in goes first.
            let kept = state.lasting.take_kept(lane);
            // Else the lane's next report. `LANE_LIMIT` is the most; an office may have fewer
            // lanes.
            let next = if kept.is_some() || lane >= office.lanes() {
                kept
            } else {
                office.report(context.rt, lane)
            };
            let Some(report) = next else {
                break;
            };
            if !is_handed_in(state, lane, now, report) {
                is_full = true;
                break;
            }
        }
    }
    is_full
}

// Hands in a report of this lane. False where its seat doesn't take it: then it is kept.
fn is_handed_in<C: Channels + Lanes>(
    state: &mut DriverState<'_, C>,
    lane: usize,
    now: u64,
    report: Report,
) -> bool {
    let is_taken = state
        .hand_in(FIRST_LANE.saturating_add(lane), now, act_of(&report))
        .is_ok();
    if is_taken {
        // The roster notes a start that failed, which no letter of the service tells.
        state.lasting.clients.notes.roster.note_report(&report);
    } else if let Some(kept) = state.lasting.kept.get_mut(lane) {
        *kept = Some(report);
    }
    is_taken
}
