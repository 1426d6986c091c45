//! Who is connected: a connection has one of 11 slots, known by its number, from 0.
use crate::mailbox::Mailbox;
use crate::making_way::{KnockStage, LAST_TIME, Occupant, SlotUse, first_chance, longest_idle};
use std::alloc::{AllocError, Global};
use std::sync::{Arc, Wait};

/// The most connections at one time.
pub const SLOT_COUNT: usize = 11;

/// The slot whose threads run from the start, so that a connection can come even where the system
/// has no thread for it.
pub const LAST_SLOT: usize = SLOT_COUNT - 1;

/// How long a knock first waits for a connection that is leaving anyway, in milliseconds, before
/// another one makes way.
const LEAVING_WAIT: u64 = 20;

/// How long a knock waits until it looks again, in milliseconds, where nothing tells when a slot
/// may be free.
const LOOK_WAIT: u64 = 100;

/// A connection on its slot, with its mailbox.
#[derive(Drop)]
struct SlotHolder {
    mailbox: Arc<Mailbox>,
    occupant: Occupant,
}

// The occupant of a slot. One that is needed (`needed`) makes no way, whatever it does, and neither
// does a free slot.
fn occupant_of(holder: &Option<SlotHolder>, is_needed: bool) -> Occupant {
    match holder {
        Some(holder) if !is_needed => holder.occupant,
        _ => Occupant {
            came: 0,
            doing: SlotUse::Needed,
        },
    }
}

/// The connection of each slot, and whether more may come.
#[derive(Drop)]
pub struct ClientSlots {
    holders: Vec<Option<SlotHolder>>,
    // How often a slot became free, or a connection idle while another one knocked; modulo 2^64.
    changes: u64,
    // Whether a connection has knocked, and waits for a slot.
    is_knocked: bool,
    is_ending: bool,
}

impl ClientSlots {
    /// All slots are free. No later call takes memory.
    pub fn new(alloc: Global) -> Result<ClientSlots, AllocError> {
        let mut holders = Vec::with_capacity(alloc, SLOT_COUNT)?;
        for _ in 0..SLOT_COUNT {
            holders.push(None)?;
        }
        Ok(ClientSlots {
            holders,
            changes: 0,
            is_knocked: false,
            // Whether the server is ending, so that no connection is taken any more.
            is_ending: false,
        })
    }

    /// Gives the connection, which came at the moment `now`, in milliseconds, the first free slot,
    /// but not the last one. None where none of these is free, or the server is ending.
    pub fn give_first(&mut self, mailbox: Arc<Mailbox>, now: u64) -> Option<usize> {
        let holders = self.holders.as_slice();
        let slot = holders.iter().position(|taken| taken.is_none())?;
        // The last slot is given by `give_last` alone.
        if slot >= LAST_SLOT || !self.take_at(slot, mailbox, now) {
            return None;
        }
        Some(slot)
    }

    /// Gives the connection the last slot. False where that is not free, or the server is ending.
    pub fn give_last(&mut self, mailbox: Arc<Mailbox>, now: u64) -> bool {
        self.take_at(LAST_SLOT, mailbox, now)
    }

    // Gives the connection, which came at the moment `now`, this slot. False where the slot is not
    // free, or the server is ending.
    fn take_at(&mut self, slot: usize, mailbox: Arc<Mailbox>, now: u64) -> bool {
        if self.is_ending {
            return false;
        }
        match self.holders.get_mut(slot) {
            Some(place) if place.is_none() => {
                let occupant = Occupant {
                    came: now,
                    doing: SlotUse::NewSince(now),
                };
                *place = Some(SlotHolder { mailbox, occupant });
                true
            }
            _ => false,
        }
    }

    /// Notes that lines of the connection on this slot were read. Returns whether they are to be
    /// carried out: not where it made way before.
    pub fn note_lines(&mut self, slot: usize) -> bool {
        let Some(Some(holder)) = self.holders.get_mut(slot) else {
            return false;
        };
        holder.occupant.doing = holder.occupant.doing.noting(SlotUse::Needed);
        holder.occupant.doing.takes_lines()
    }

    /// Notes what the connection on this slot does now. Returns whether a connection that has
    /// knocked is to look again, since this one is idle.
    pub fn note(&mut self, slot: usize, doing: SlotUse) -> bool {
        let Some(Some(holder)) = self.holders.get_mut(slot) else {
            return false;
        };
        holder.occupant.doing = holder.occupant.doing.noting(doing);
        if !self.is_knocked || holder.occupant.doing.idle_since().is_none() {
            return false;
        }
        self.changes = self.changes.wrapping_add(1);
        true
    }

    /// Notes that something was written to the connection on this slot at the moment `now`, in
    /// milliseconds: if it is idle, it is since then.
    pub fn note_written(&mut self, slot: usize, now: u64) {
        if let Some(Some(holder)) = self.holders.get_mut(slot) {
            if holder.occupant.doing.idle_since().is_some() {
                holder.occupant.doing = SlotUse::IdleSince(now);
            }
        }
    }

    /// Looks who makes way for a connection that has knocked, at the moment `now`, in milliseconds:
    /// the one that has been idle for the longest time, of those that came 100 milliseconds ago or
    /// earlier. It is dismissed: no further line of it is read, and its slot is free once its
    /// answers are written. Those of `needed` stay. At the first look of a knock nobody is
    /// dismissed if one is leaving anyway, and only one makes way for a knock. Notes in `stage` how
    /// far the knock is then. Returns after how many milliseconds it is time to look again.
    pub fn make_way<R: Wait>(
        &mut self,
        rt: &R,
        needed: &[bool; SLOT_COUNT],
        now: u64,
        stage: &mut KnockStage,
    ) -> u64 {
        self.end_late(rt, now);
        let is_first = *stage == KnockStage::First;
        if !stage.may_dismiss(self.is_one_leaving()) {
            if is_first {
                *stage = KnockStage::Later;
                return LEAVING_WAIT;
            }
            return LOOK_WAIT;
        }
        let occupants = self.occupants(needed);
        match longest_idle(&occupants, now) {
            Some(slot) => {
                self.dismiss(slot, now);
                *stage = KnockStage::Served;
                LOOK_WAIT
            }
            None => {
                *stage = KnockStage::Later;
                first_chance(&occupants, now).unwrap_or(LOOK_WAIT)
            }
        }
    }

    // The occupants of all slots; those of `needed` count as needed.
    fn occupants(&self, needed: &[bool; SLOT_COUNT]) -> [Occupant; SLOT_COUNT] {
        let mut occupants = [occupant_of(&None, false); SLOT_COUNT];
        let holders = self.holders.as_slice();
        for ((place, holder), is_needed) in occupants.iter_mut().zip(holders).zip(needed) {
            *place = occupant_of(holder, *is_needed);
        }
        occupants
    }

    // Whether a connection has ended or was dismissed, and its slot will be free.
    fn is_one_leaving(&self) -> bool {
        self.holders
            .as_slice()
            .iter()
            .flatten()
            .any(|holder| holder.occupant.doing.is_leaving())
    }

    // Dismisses the connection of this slot. Its own thread frees the slot, once all that was
    // posted to it is written.
    fn dismiss(&mut self, slot: usize, now: u64) {
        if let Some(Some(holder)) = self.holders.get_mut(slot) {
            holder.occupant.doing = holder.occupant.doing.dismissed(now);
            holder.mailbox.dismiss();
        }
    }

    // Ends each connection that has ended or made way, and to which all was answered a second ago
    // or earlier, and which has not read that.
    fn end_late<R: Wait>(&self, rt: &R, now: u64) {
        for holder in self.holders.as_slice().iter().flatten() {
            match holder.occupant.doing.last_moment() {
                Some(moment) if now.saturating_sub(moment) >= LAST_TIME => holder.mailbox.end(rt),
                _ => {}
            }
        }
    }

    /// Notes whether a connection has knocked, and waits for a slot.
    pub fn note_knock(&mut self, is_knocked: bool) {
        self.is_knocked = is_knocked;
    }

    /// The slot is free again.
    pub fn free(&mut self, slot: usize) {
        if let Some(place) = self.holders.get_mut(slot) {
            *place = None;
        }
        // Whoever waits for a slot sees by the count that one became free.
        self.changes = self.changes.wrapping_add(1);
    }

    /// How often a slot became free, or a connection idle while another one knocked; modulo 2^64.
    pub fn changes(&self) -> u64 {
        self.changes
    }

    /// The mailbox of the connection on this slot, if one is there.
    pub fn mailbox(&self, slot: usize) -> Option<Arc<Mailbox>> {
        match self.holders.get(slot) {
            Some(Some(holder)) => holder.mailbox.clone().ok(),
            _ => None,
        }
    }

    /// Whether no connection is taken any more.
    pub fn is_ending(&self) -> bool {
        self.is_ending
    }

    /// Takes no connection from now on, and ends each that is there at once.
    pub fn end_all<R: Wait>(&mut self, rt: &R) {
        self.is_ending = true;
        for holder in self.holders.as_slice().iter().flatten() {
            holder.mailbox.end(rt);
        }
    }
}
