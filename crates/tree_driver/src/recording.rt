//! When a run, the steps between two handovers, is recorded: at its end, which comes early where
//! somebody waits for a record.
use crate::driver_state::DriverState;
use crate::driving::{drive_run, write_error_lines};
use crate::ending_services::end_services;
use crate::runs::{RunSettings, refuse_and_wait};
use channel_names::Channels;
use office::Office;
use order_lanes::{Backend, Lanes};
use run_recorder::{RecordFault, RecordWriter, Recorder};
use server_rules::{RunEnd, ServeFault};
use server_threads::Context;
use status_board::Board;
use std::io::Write;
use std::sync::Wait;
use std::time::Clock;

// Drives a run to its end, and records it. Returns how the tree has ended; None where the next run
// follows. Where the record fails at a handover, the tree can't go on: its services are told to
// end, and waited for, before that is returned.
pub(crate) fn drive_to_end<
    C: Channels + Lanes,
    D: Board<C>,
    B: Backend,
    R: Wait + Clock,
    W: RecordWriter + Drop,
    E: Write,
>(
    context: &Context<'_, R>,
    settings: &mut RunSettings<W>,
    errors: &mut E,
    office: &Office<C, D, B>,
    state: &mut DriverState<'_, C>,
) -> Option<Result<(), ServeFault>> {
    // Why the run is driven no more, and whether it was recorded.
    let end = drive_run(context, office, state, errors);
    let recorded = record(context, office, state, &mut settings.recorder);
    match (end, recorded) {
        // The next run goes on with the tree.
        (RunEnd::Handover, Ok(())) => None,
        (RunEnd::Handover, Err(fault)) => {
            end_services(context, office, state);
            // What is still to be told about services for which a scan had no room.
            write_error_lines(state.lasting, errors);
            Some(Err(fault))
        }
        (RunEnd::Ended, recorded) => Some(recorded),
        // The run takes no step more, and something is left to be done in it.
        (RunEnd::Full, _) => Some(Err(ServeFault::Full)),
    }
}

// Records the run, and tells the connections that wait for it, which `context` reaches. Where
// memory is refused it is tried again; what connections ask meanwhile is refused. `Record` where
// the run can't be written.
fn record<C: Channels + Lanes, D: Board<C>, B: Backend, R: Wait + Clock, W: RecordWriter + Drop>(
    context: &Context<'_, R>,
    office: &Office<C, D, B>,
    state: &mut DriverState<'_, C>,
    recorder: &mut Recorder<W>,
) -> Result<(), ServeFault> {
    for _ in context.rt.forever() {
        match recorder.append(context.rt, office, &mut state.known) {
            Ok(()) => {
                let clients = &mut state.lasting.clients;
                if recorder.is_removed() {
                    // Nobody could read it.
                    clients.refuse_record(context);
                } else {
                    // How many steps the whole record has now: that is told to those who wait.
                    clients.tell_recorded(context, recorder.steps());
                }
                return Ok(());
            }
            Err(RecordFault::Write) => break,
            // After a pause it is tried again.
            Err(RecordFault::NoMemory) => refuse_and_wait(context, state.lasting),
        }
    }
    Err(ServeFault::Record)
}
