//! What the steps of a run have told so far: the roster, which lists the services that scans added
//! and how each is over.
ghost use Rattle.std.specs.Prelude.{◌≡◌, [], OnOk, OnErr};
ghost use Rattle.tree_core.specs.Effect.{outcome_of};
ghost use Rattle.server_rules.specs.StepNotes.{has_noted, with_next_run, with_step, tells_of};

use crate::roster::Roster;
use crate::status_lines::Subject;
use s6_events::{At, NoMemory};
use std::alloc::Global;
use tree_core::{Effect, Reply};

/// What the steps told of services, and up to which step of the run that is noted. Each step is
/// noted once, even where its effect is looked at again.
#[derive(Drop)]
pub struct StepNotes {
    pub roster: Roster,
    /// The clock of the tree after the last step that was noted.
    pub clock: At,
    /// How many steps of the run were noted.
    pub noted: u64,
}

impl StepNotes {
    /// The notes of a tree that made no step.
    pub fn new(alloc: Global) -> StepNotes
        ensures roster { result.roster ≡ [] }
        ensures clock { result.clock ≡ 0 }
        ensures noted { result.noted ≡ 0 }
    {
        StepNotes {
            roster: Roster::new(alloc),
            clock: At::zero(),
            noted: 0,
        }
    }

    /// The next run begins, with no step.
    pub fn begin_run(&mut self)
        ensures { self.new ≡ with_next_run self.old }
    {
        self.noted = 0;
    }

    /// Notes what step `number` gave, counted from 1, unless it was noted before. `moment` is when
    /// its input was handed in. At `NoMemory` nothing was noted.
    pub fn note(&mut self, number: u64, moment: At, effect: &Effect<Global>) -> Result<(), NoMemory>
        ensures noted { OnOk result
            (self.new ≡ with_step number moment (outcome_of effect.now) self.old) }
        ensures refused { OnErr result (self.new ≡ self.old) }
    {
        if self.has_noted(number) {
            return Ok(());
        }
        // A scan may have added services.
        if let Reply::Scanned(report) = &effect.reply {
            self.roster.add(report.listed())?;
        }
        // The tree's clock never goes back, even where an input has an earlier moment.
        if self.clock < moment {
            self.clock = moment;
        }
        // The letters that the step told.
        self.roster.note(self.clock, effect.events.as_slice());
        self.noted = number;
        Ok(())
    }

    /// Whether step `number` was noted, counted from 1.
    pub fn has_noted(&self, number: u64) -> bool
        ensures { result ≡ has_noted number self.now }
    {
        number <= self.noted
    }

    /// Whether the status of these services may be told now. `steps` is how many steps the run has,
    /// and `is_shown` whether the board shows the last of them. States are told only where all
    /// these steps were noted and the board shows them; rows are told always.
    pub fn tells_of(&self, subject: &Subject, steps: u64, is_shown: bool) -> bool
        ensures { result ≡ tells_of subject.now steps is_shown self.now }
    {
        match subject {
            Subject::One(_) | Subject::All => true,
            Subject::States => self.has_noted(steps) && is_shown,
        }
    }
}
