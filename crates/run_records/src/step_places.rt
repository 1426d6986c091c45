//! Where the steps of one actor stand in a run.
ghost use Rattle.std.specs.Prelude.{◌≡◌, ◌+◌, ◌≤◌, [], ◌∷◌, ◌++◌, OnOk, OnErr, slice_get};

use s6_events::NoMemory;
use std::alloc::Global;
use std::marker::Model;

/// The room that a list takes with its first step: a block of more than 32 MiB, as those of the log
/// (`LOG_ROOM` in `run.rt`).
const FIRST_ROOM: usize = 4_194_305;

/// The places of one actor's steps in a run, oldest first.
#[derive(Drop)]
pub struct StepPlaces {
    list: Vec<usize>,
}

impl Model for StepPlaces {
    ghost use Rattle.std.specs.Prelude.{◌-◌, vec_len, vec_capacity};
    ghost use Rattle.run_records.specs.Runs.{PlaceList};

    ghost Value = { PlaceList };

    ghost view = { λ p. record { places = p.list.items; room = vec_capacity p.list - vec_len p.list } };
}

impl StepPlaces {
    /// No step yet.
    pub fn new(alloc: Global) -> StepPlaces
        ensures { result.places ≡ [] }
    {
        StepPlaces {
            list: Vec::new(alloc),
        }
    }

    /// Makes room for one step more. `NoMemory` where memory is refused; the places stay.
    pub fn reserve(&mut self) -> Result<(), NoMemory>
        ensures places { self.new.places ≡ self.old.places }
        ensures room { OnOk result (1 ≤ self.new.room) }
    {
        // At the actor's first step it takes room for all of them, if it gets it.
        if self.list.capacity() == 0 {
            if let Ok(()) = self.list.reserve(FIRST_ROOM) {
                return Ok(());
            }
        }
        // Where so much is refused, room for one step will do.
        self.list.reserve(1)?;
        Ok(())
    }

    /// Adds the place of the actor's next step, for which there is room.
    pub fn push(&mut self, place: usize)
        requires { 1 ≤ self.old.room }
        ensures { self.new.places ≡ self.old.places ++ place ∷ [] }
    {
        self.list.push_reserved(place);
    }

    /// The place of the actor's step `number`, counted from 0; None where there is no such step.
    pub fn nth(&self, number: usize) -> Option<usize>
        ensures { result ≡ slice_get self.now.places number }
    {
        self.list.get(number).copied()
    }
}
