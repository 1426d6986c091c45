//! The notes, whole lines for standard error, that wait to be written, up to a limit of bytes, and
//! how many were lost.
ghost use Rattle.std.specs.Prelude.{◌≡◌, ◌++◌, ◌+◌, ◌<◌, ◌≤◌, [], Err, length, IsTrue, ◌↔◌, OnOk, OnErr, true, false};
ghost use Rattle.error_notes.specs.Notes.{notes_limit, one_more};
ghost use Rattle.error_notes.specs.declared.note_list.LostNote.TheVariants.{Full, Closed};

use std::alloc::{AllocError, Allocator};
use std::marker::Model;

/// The most bytes that wait. A note with which there would be more is lost.
pub const NOTES_LIMIT: usize = 65_536;

/// Why a note was lost.
#[derive(Clone, Copy, Debug, PartialEq, Eq)]
pub enum LostNote {
    /// More than 65,536 bytes would wait.
    Full = 1,
    /// The list was closed before.
    Closed = 2,
    /// Memory was refused.
    NoMemory = 3,
}

// Written by hand: of a `From` that a derive makes, no contract says which fault `?` gives.
impl From<AllocError> for LostNote {
    ghost use Rattle.std.specs.Prelude.{◌≡◌};
    ghost use Rattle.error_notes.specs.declared.note_list.LostNote.TheVariants.{NoMemory};

    ghost from_gives = { λ _ why. why ≡ NoMemory };

    // Where memory for a note is refused, the note is lost for that reason.
    fn from(_: AllocError) -> LostNote {
        LostNote::NoMemory
    }
}

/// The notes that wait to be written, at most 65,536 bytes, and how many were lost since the last
/// were taken. A note is one or more whole lines. It waits whole, or is lost and counted.
#[derive(Drop)]
pub struct NoteList<A: Allocator> {
    bytes: Vec<u8, A>,
    lost: u64,
    is_open: bool,
}

impl<A: Allocator> Model for NoteList<A> {
    ghost use Rattle.std.specs.Prelude.{◌≤◌, length};
    ghost use Rattle.error_notes.specs.Notes.{NotesView, notes_limit};

    ghost Value = { NotesView };

    ghost view = { λ n. record { waiting = n.bytes.items; lost = n.lost; is_open = n.is_open } };

    ghost invariant = { λ n. length n.bytes.items ≤ notes_limit };
}

impl<A: Allocator + Copy> NoteList<A> {
    /// Nothing waits, nothing was lost, and notes may be posted.
    pub fn new(alloc: A) -> NoteList<A>
        ensures { result ≡ record { waiting = []; lost = 0; is_open = true } }
    {
        NoteList {
            bytes: Vec::new(alloc),
            lost: 0,
            is_open: true,
        }
    }

    /// Adds a note behind all that wait already. At a fault the note is lost and counted, and
    /// nothing else has changed.
    pub fn post(&mut self, note: &[u8]) -> Result<(), LostNote>
        ensures whole { OnOk result (self.new
            ≡ record self.old { waiting = self.old.waiting ++ note.now }) }
        ensures lost { OnErr result (self.new
            ≡ record self.old { lost = one_more self.old.lost }) }
        ensures closed { self.old.is_open ≡ false → result ≡ Err Closed }
        ensures full { result ≡ Err Full → notes_limit < length self.old.waiting + length note.now }
        ensures limit { OnOk result (length self.old.waiting + length note.now ≤ notes_limit) }
    {
        let added = self.add(note);
        if added.is_err() {
            self.lose();
        }
        added
    }

    // Adds a note; at a fault nothing has changed.
    fn add(&mut self, note: &[u8]) -> Result<(), LostNote>
        ensures whole { OnOk result (self.new
            ≡ record self.old { waiting = self.old.waiting ++ note.now }) }
        ensures same { OnErr result (self.new ≡ self.old) }
        ensures closed { self.old.is_open ≡ false → result ≡ Err Closed }
        ensures full { result ≡ Err Full → notes_limit < length self.old.waiting + length note.now }
        ensures limit { OnOk result (length self.old.waiting + length note.now ≤ notes_limit) }
    {
        if !self.is_open {
            return Err(LostNote::Closed);
        }
        // What waits is never longer than the limit.
        if note.len() > NOTES_LIMIT - self.bytes.len() {
            return Err(LostNote::Full);
        }
        self.bytes.extend_from_slice(note)?;
        Ok(())
    }

    /// Counts a note that was lost before it could be posted.
    pub fn lose(&mut self)
        ensures { self.new ≡ record self.old { lost = one_more self.old.lost } }
    {
        self.lost = self.lost.saturating_add(1);
    }

    /// Moves all that waits into `text`, and returns how many notes were lost since the last call.
    /// What was in `text` is gone; its memory serves for what is posted next.
    pub fn take_all(&mut self, text: &mut Vec<u8, A>) -> u64
        ensures text { text.new.items ≡ self.old.waiting }
        ensures lost { result ≡ self.old.lost }
        ensures list { self.new ≡ record self.old { waiting = []; lost = 0 } }
    {
        text.clear();
        // What waited is in `text` now, and the list goes on with the memory of `text`.
        std::mem::swap(&mut self.bytes, text);
        let lost = self.lost;
        self.lost = 0;
        lost
    }

    /// Closes the list: from now on nothing more is posted. What waits may still be taken.
    pub fn close(&mut self)
        ensures { self.new ≡ record self.old { is_open = false } }
    {
        self.is_open = false;
    }

    /// Whether notes may be posted.
    pub fn is_open(&self) -> bool
        ensures { result ≡ self.now.is_open }
    {
        self.is_open
    }

    /// Whether there is nothing to tell: no note waits, and none was lost.
    pub fn is_empty(&self) -> bool
        ensures { IsTrue result ↔ (self.now.waiting ≡ []) × (self.now.lost ≡ 0) }
    {
        self.bytes.is_empty() && self.lost == 0
    }
}
