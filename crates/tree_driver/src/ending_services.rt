//! The end of a tree that can't go on, since its run was not recorded: its services are told to
//! end, and waited for.
use crate::driver_state::DriverState;
use crate::driving::{drive_some, hand_in_due, round_after, wait_for_bell};
use crate::lanes::hand_in_reports;
use channel_names::Channels;
use office::Office;
use order_lanes::{Backend, Lanes};
use server_rules::{After, RETRY_WAIT, SCANNER};
use server_threads::Context;
use status_board::Board;
use std::sync::Wait;
use std::time::Clock;
use tree_core::{Act, ScanOrder};

/// How long services may take to end, in milliseconds. Those that still live then get SIGKILL, once
/// the threads have ended: by `Keeper::end` in `keeper.rt` of child_runner.
const END_WAIT: u64 = 10_000;

/// Tells all services to end, as `svscanctl -t` does, and goes on with their reports, timers and
/// orders until the tree has ended or the run takes no step more, but for at most 10,000 ms. What
/// connections ask meanwhile is not begun.
pub fn end_services<C: Channels + Lanes, D: Board<C>, B: Backend, R: Wait + Clock>(
    context: &Context<'_, R>,
    office: &Office<C, D, B>,
    state: &mut DriverState<'_, C>,
) {
    let clock = context.shared().clock;
    let begun = clock.millis(context.rt);
    // Those who wait for a scan are dropped: no scan is begun any more, and a scan that is asked
    // for would go before each tick.
    state.lasting.plans.askers.clear();
    // The order `-t` is the next input. All inputs of the run are done, so the ring has room for
    // it.
    let _ = state.hand_in(SCANNER, begun, Act::Scanctl(ScanOrder::Terminate));
    for _ in context.rt.forever() {
        let now = clock.millis(context.rt);
        // How long services may still take to end, in milliseconds.
        let left = END_WAIT.saturating_sub(now.saturating_sub(begun));
        if left == 0 {
            break;
        }
        hand_in_due(state, now);
        let is_full = hand_in_reports(context, office, state, now);
        let halt = drive_some(context, office, state);
        // Has the lanes carry orders. `true`: the run still takes reports and ticks.
        let round = round_after(context, office, state, halt, now, true, is_full);
        match round.after_ending() {
            After::GoOn => {}
            After::Wait(_) => wait_for_bell(context, Some(RETRY_WAIT.min(left))),
            After::Stop(_) => break,
        }
    }
}
