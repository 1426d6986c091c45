//! The rows of the board, the status of each service, as they were last read: when a status may
//! still be told from them.
ghost use Rattle.std.specs.Prelude.{◌≡◌, ◌&&◌, IfOk, IfNone, IfSome, None, OnOk, Some, filter};
ghost use Rattle.status_board.specs.Board.{last_shot};
ghost use Rattle.server_rules.specs.Roster.{has_row};
ghost use Rattle.server_rules.specs.Status.{told_text, is_had};
ghost use Rattle.server_rules.specs.StatusAge.{is_fresh};

use crate::roster::Roster;
use crate::status_age::is_recent;
use crate::status_lines::{Subject, push_told};
use channel_names::Channels;
use s6_events::NoMemory;
use scan_directory::Remark;
use status_board::{BoardReader, Shot};
use std::alloc::{AllocError, Global};

/// The rows of a shot (all rows of the board after one step), the roster, and what the last scan
/// could not read. `step` is the moment of the last step before the rows were read, in
/// milliseconds; None where they may not be those of the board any more. `has_roster` is whether
/// the roster is of the same step as the rows.
#[derive(Drop)]
pub struct CachedRows {
    pub shot: Box<Shot>,
    pub roster: Roster,
    /// What the last scan could not read.
    pub unread: Vec<Remark>,
    pub step: Option<u64>,
    /// Whether the roster is of the same step as the rows.
    pub has_roster: bool,
}

impl CachedRows {
    /// Nothing is read yet. `NoMemory` where memory is refused.
    pub fn new(alloc: Global) -> Result<CachedRows, NoMemory>
        ensures step { IfOk result (λ rows. rows.step ≡ None) }
    {
        Ok(CachedRows {
            shot: Box::new(alloc, Shot::empty())?,
            roster: Roster::new(alloc),
            unread: Vec::new(alloc),
            step: None,
            has_roster: false,
        })
    }

    /// Whether a status of these services may be told from them at the moment `now`: the last step
    /// before they were read was at the moment `step`, which has to be recent, and all that the
    /// status tells has to be there (`has`).
    pub fn is_fresh(&self, now: u64, subject: &Subject) -> bool
        ensures { result ≡ is_fresh self.now.step now && is_had self.now.has_roster subject.now }
    {
        match self.step {
            Some(step) => is_recent(step, now) && self.has(subject),
            None => false,
        }
    }

    /// Whether it has all from which a status of these services is told.
    pub fn has(&self, subject: &Subject) -> bool
        ensures { result ≡ is_had self.now.has_roster subject.now }
    {
        match subject {
            Subject::One(_) | Subject::All => true,
            Subject::States => self.has_roster,
        }
    }

    /// The status of these services.
    pub fn status(&self, alloc: Global, subject: &Subject) -> Result<Vec<u8>, AllocError>
        ensures { IfOk result (λ text. text.items ≡ told_text subject.now (record {
          rows = self.now.shot.value.rows.items;
          roster = self.now.roster;
          unread = self.now.unread.items;
        })) }
    {
        let mut text = Vec::new(alloc);
        push_told(
            &mut text,
            self.shot.rows.as_slice(),
            &self.roster,
            self.unread.as_slice(),
            subject,
        )?;
        Ok(text)
    }

    /// The rows may not be those of the board any more: without the moment of their step, no status
    /// is told from them.
    pub fn forget(&mut self)
        ensures step { self.new.step ≡ None }
    {
        self.step = None;
    }

    /// Reads the board anew. `step` is the moment of the last step; None where the board doesn't
    /// show that step. The moment is kept only with the shot that was published last.
    pub fn read<C: Channels>(&mut self, reader: &mut BoardReader<C>, step: Option<u64>)
        ensures kept { IfSome self.new.step
            (λ at. (step ≡ Some at) × (last_shot reader.new ≡ Some self.new.shot.value)) }
    {
        self.step = None;
        // The roster that was copied before is not of these rows.
        self.has_roster = false;
        if reader.read_into(&mut self.shot) {
            self.step = step;
        }
    }

    /// Copies the roster, which has noted all steps up to that of the rows.
    pub fn take_roster(&mut self, roster: &Roster) -> Result<(), NoMemory>
        ensures taken { OnOk result (self.new.roster ≡ roster.now) }
        ensures step { self.new.step ≡ self.old.step }
        ensures shot { self.new.shot ≡ self.old.shot }
    {
        self.has_roster = false;
        self.roster.copy_from(roster)?;
        self.has_roster = true;
        Ok(())
    }

    /// Has the roster forget the services that have no row. Nothing is forgotten where the rows may
    /// not be those of the last step.
    pub fn keep_present(&self, roster: &mut Roster)
        ensures known { IfSome self.now.step
            (λ at. roster.new ≡ filter (has_row self.now.shot.value.rows.items) roster.old) }
        ensures unknown { IfNone self.now.step (roster.new ≡ roster.old) }
    {
        if self.step.is_some() {
            roster.keep(self.shot.rows.as_slice());
        }
    }
}
