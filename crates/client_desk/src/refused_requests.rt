//! What can't be done for a connection is refused.
use crate::clients::Clients;
use line_server::SLOT_COUNT;
use server_rules::{Answer, OwnAnswer, Todo};
use server_threads::Context;
use std::sync::Wait;

/// How many requests of a connection are refused before the next connection gets its turn.
const TURN: usize = 64;

impl Clients {
    /// Refuses, for this reason, the scan or the record for which the connection on this slot
    /// waits. Nothing is posted once its client has left.
    pub fn refuse_errand<R: Wait>(
        &mut self,
        context: &Context<'_, R>,
        slot: usize,
        reason: OwnAnswer,
    ) {
        let Some(connection) = self.connections.get_mut(slot) else {
            return;
        };
        // `refuse_errand` gives an answer unless the client has left.
        if let Todo::Give(answer) = connection.refuse_errand(reason) {
            self.post_own(context, slot, answer);
        }
    }

    /// Answers what connections ask by `refused NoMemory`, since no step can be made now: at most
    /// 64 requests of each, and none of a connection for which something is under way. What a
    /// connection that has left made is ended once steps are made again.
    pub fn refuse_all<R: Wait>(&mut self, context: &Context<'_, R>) {
        for slot in 0..SLOT_COUNT {
            // Takes over what the client has asked.
            self.hand_over(context, slot);
            for _ in 0..TURN {
                if !self.is_refused(context, slot) {
                    break;
                }
            }
        }
        // So what was posted is written.
        self.wake_all(context);
    }

    // Refuses the next request of the connection on this slot, by `refused NoMemory`. False where
    // there is no request, or where something is under way for the connection: then nothing is
    // refused.
    fn is_refused<R: Wait>(&mut self, context: &Context<'_, R>, slot: usize) -> bool {
        let Some(connection) = self.connections.get_mut(slot) else {
            return false;
        };
        // Nothing is to be posted where the connection has no request that may be refused now.
        let Todo::Give(Answer::Own(reason)) = connection.refuse_next(OwnAnswer::NoMemory) else {
            return false;
        };
        self.post_answer(context, slot, reason.text());
        true
    }
}
