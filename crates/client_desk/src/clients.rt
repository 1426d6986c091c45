//! The connections of a tree, by their slots, as the driver serves them.
use crate::run_board::RunBoard;
use arrayvec::ArrayVec;
use channel_names::Channels;
use line_server::SLOT_COUNT;
use s6_events::NoMemory;
use server_rules::{Askers, Connection, OwnAnswer, StepNotes, Todo};
use server_threads::Context;
use std::alloc::Global;
use std::sync::Wait;
use tree_core::Act;

/// The connections of a tree, from its first run to its last, for the driver; and the roster of
/// services that they are told of.
#[derive(Drop)]
pub struct Clients {
    /// By their slots.
    pub connections: Vec<Connection>,
    /// The roster of the services, and how many steps it has noted.
    pub notes: StepNotes,
    /// The tree's clock, in milliseconds: the greatest moment that was handed in. It is brought up
    /// to date whenever no input is left to be done.
    pub now: u64,
    /// By their slots: the act that the ring of a connection has not taken yet.
    pub(crate) untaken_acts: Vec<Option<Act<Global>>>,
    /// By slots: whether something was posted since the connection was last woken.
    pub(crate) posted: [bool; SLOT_COUNT],
    /// Whether runs are recorded.
    pub(crate) has_record: bool,
    /// The slots of the connections that wait for the run to be recorded.
    pub(crate) recorders: Askers,
}

impl Clients {
    /// Nobody is connected, and nothing waits. `has_record`: whether runs are recorded. `NoMemory`
    /// where memory is refused.
    pub fn new(alloc: Global, has_record: bool) -> Result<Clients, NoMemory> {
        let mut connections = Vec::with_capacity(alloc, SLOT_COUNT)?;
        let mut untaken_acts = Vec::with_capacity(alloc, SLOT_COUNT)?;
        for _ in 0..SLOT_COUNT {
            connections.push(Connection::new(alloc))?;
            untaken_acts.push(None)?;
        }
        Ok(Clients {
            connections,
            notes: StepNotes::new(alloc),
            now: 0,
            untaken_acts,
            posted: [false; SLOT_COUNT],
            has_record,
            recorders: ArrayVec::new(),
        })
    }

    /// Hands the connection on this slot what its client asks, or tells it that the client has
    /// left. The caller is where the connection's thread leaves the requests.
    pub fn hand_over<R: Wait>(&mut self, context: &Context<'_, R>, slot: usize) {
        if let (Some(caller), Some(connection)) = (
            context.caller(slot),
            self.connections.get_mut(slot),
        ) {
            caller.hand_over(context.rt, connection);
        }
    }

    /// Begins what comes next for the connection on this slot, and answers what is to be done. The
    /// moment `now` is the present one, and `self.now` the tree's clock, both in milliseconds.
    pub fn begin(&mut self, slot: usize, now: u64) -> Todo {
        match self.connections.get_mut(slot) {
            Some(connection) => connection.begin(self.now, now),
            None => Todo::Nothing,
        }
    }

    /// Whether something is to be begun for some connection: a request, an act that was put off,
    /// or, once its client has left, the end of what it made.
    pub fn has_more_to_begin(&self) -> bool {
        self.connections
            .iter()
            .any(|connection| connection.is_ready())
    }

    /// Keeps an act, what an input asks of the tree, of the connection on this slot, since its ring
    /// had no room for it.
    pub fn hold(&mut self, slot: usize, act: Act<Global>) {
        if let Some(held) = self.untaken_acts.get_mut(slot) {
            *held = Some(act);
        }
    }

    /// Takes out the act that was kept of the connection on this slot; None where none was.
    pub fn take_held(&mut self, slot: usize) -> Option<Act<Global>> {
        match self.untaken_acts.get_mut(slot) {
            Some(held) => held.take(),
            None => None,
        }
    }

    /// Has the connection on this slot wait until the run is recorded, and returns true. Where runs
    /// are not recorded (`has_record`) it returns false, and the request is refused by
    /// `OwnAnswer::Record`. `recorders` are the slots that wait.
    pub fn await_record<R: Wait>(&mut self, context: &Context<'_, R>, slot: usize) -> bool {
        let waits = self.has_record && self.recorders.try_push(slot).is_ok();
        if !waits {
            self.refuse_errand(context, slot, OwnAnswer::Record);
        }
        waits
    }

    /// Makes the slot free for the next connection, once all that this one made is ended. The
    /// caller is where the connection's thread leaves its requests, and waits.
    pub fn free<R: Wait>(&mut self, context: &Context<'_, R>, slot: usize) {
        if let Some(connection) = self.connections.get_mut(slot) {
            // The slot begins anew, for the next client.
            *connection = Connection::new(context.alloc());
        }
        if let Some(caller) = context.caller(slot) {
            // The thread of the connection that has left waits for this.
            caller.free(context.rt);
        }
    }

    /// Where the roster has grown long, and the board shows the last step, the roster forgets the
    /// services that have no row on the board any more.
    pub fn forget_gone<C: Channels, R: Wait>(
        &mut self,
        context: &Context<'_, R>,
        board: &mut RunBoard<C>,
    ) {
        if self.notes.roster.is_long() {
            context.shared().rows.forget_gone(
                context.rt,
                &mut board.reader,
                // Without the moment of the last step, nothing is forgotten.
                board.is_shown.then_some(self.now),
                &mut self.notes.roster,
            );
        }
    }

    // Whether something is still to be told to the connection on this slot, though it asks nothing.
    pub(crate) fn is_told_more(&self, slot: usize) -> bool {
        match self.connections.get(slot) {
            Some(connection) => connection.is_told_more(),
            None => false,
        }
    }
}
