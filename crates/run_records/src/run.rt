//! The steps of a run.
ghost use Rattle.std.specs.Prelude.{◌≡◌, ◌<◌, ◌≤◌, ◌⊎◌, [], ◌∷◌, ◌++◌, suc, length, OnOk, IfErr, IfOk, IfSome, IfNone, option_map};
ghost use Rattle.tree_core.specs.Effect.{outcome_of};
ghost use Rattle.tree_core.specs.Limits.{order_limit};
ghost use Rattle.run_records.specs.Runs.{AreEmpty, IsFilled, HasRoom, actor_at, moment_at, outcome_at, reply_at};
ghost use Rattle.run_records.specs.RunText.{IsWritten, StopsWriting};

use crate::step_log::{LogRoom, StepLog};
use crate::step_places::StepPlaces;
use crate::writing::{RunFault, write_head, write_stored};
use s6_events::{Actor, At, NoMemory};
use std::alloc::Global;
use std::io::Write;
use std::marker::Model;
use step_codes::KeptInput;
use tree_core::{Effect, Reply};

/// How many actors there may be.
const ACTOR_LIMIT: usize = 16;

/// The most steps of a run.
pub const RUN_LIMIT: usize = 262_144;

/// The room of a new run. Each block has more than 32 MiB, so the C library always takes it from
/// the system by itself, and gives it back to the system when the run is dropped. A page of a block
/// uses memory only once it is written.
const LOG_ROOM: LogRoom = LogRoom {
    starts: 8_388_608,
    bytes: 67_108_864,
    whole: RUN_LIMIT,
    orders: 2 * RUN_LIMIT,
};

/// The steps of a run, oldest first, and the places of each actor's steps. Contracts see each step
/// as its input and all that it gave.
#[derive(Drop)]
pub struct Run {
    log: StepLog,
    // For each actor, by its number, where its steps stand in the log.
    places: Vec<StepPlaces>,
}

impl Model for Run {
    ghost use Rattle.run_records.specs.Runs.{RunView};
    ghost use Rattle.run_records.specs.RunFields.{run_view, IsSoundRun};

    ghost Value = { RunView };

    ghost view = { run_view };

    ghost invariant = { IsSoundRun };
}

impl Run {
    /// A run with no step, and with room for all, so that none is moved while a lock is held.
    /// `NoMemory` where memory is refused.
    pub fn new(alloc: Global) -> Result<Run, NoMemory>
        ensures { IfOk result (λ run. run.steps ≡ []) }
    {
        Ok(Run {
            log: StepLog::new(alloc, LOG_ROOM)?,
            places: no_places(alloc)?,
        })
    }

    /// How many steps there are.
    pub fn len(&self) -> usize
        ensures { result ≡ length self.now.steps }
    {
        self.log.len()
    }

    /// Makes room for one step more of this actor, whatever it gives. `NoMemory` where memory is
    /// refused, or where 2^32 steps are kept whole; the steps stay.
    pub fn reserve(&mut self, actor: Actor) -> Result<(), NoMemory>
        ensures steps { self.new.steps ≡ self.old.steps }
        ensures room { OnOk result (HasRoom actor self.new) }
    {
        self.log.reserve()?;
        // The actor's own list, which says where its steps stand in the log.
        self.places[usize::from(actor.number())].reserve()?;
        Ok(())
    }

    /// Adds a step of this input and this effect, for which there is room. The effect has to be
    /// filled anew before it is read again.
    #[inline(always)]
    pub fn add<I: KeptInput>(&mut self, input: I, effect: &mut Effect<Global>)
        requires room { HasRoom (I.input input).actor self.old }
        requires orders { length effect.old.orders.items ≤ order_limit }
        ensures { self.new.steps ≡ self.old.steps
            ++ record { input = I.input input; outcome = outcome_of effect.old } ∷ [] }
    {
        // By this list of its own an actor's step is found again in the log, at whose end the step
        // comes.
        self.places[usize::from(input.actor().number())].push(self.log.len());
        self.log.push(input, effect);
    }

    /// All that step `number` gave, counted from 1; None where there is no such step. `NoMemory`
    /// where memory is refused.
    pub fn effect(&self, alloc: Global, number: u64) -> Result<Option<Effect<Global>>, NoMemory>
        ensures { IfOk result
            (λ effect. option_map (λ e. outcome_of e) effect ≡ outcome_at number self.now.steps) }
    {
        let mut effect = Effect::new(alloc);
        if self.fill(number, &mut effect)? {
            Ok(Some(effect))
        } else {
            Ok(None)
        }
    }

    // The place of the step of this number, from 1; None where there is no such step.
    fn place_of(&self, number: u64) -> Option<usize>
        ensures some { IfSome result
            (λ place. (number ≡ suc place) × (place < length self.now.steps)) }
        ensures none { IfNone result ((number ≡ 0) ⊎ (length self.now.steps < number)) }
    {
        if number == 0 || number > self.log.len() as u64 {
            None
        } else {
            Some((number - 1) as usize)
        }
    }

    /// Fills an effect with all that step `number` gave, counted from 1; what it held is gone.
    /// False where there is no such step: nothing is filled in. `NoMemory` where memory is refused:
    /// the effect may then be filled in part. The effect's lists are used again, so a caller that
    /// reads many steps takes that memory once.
    pub fn fill(&self, number: u64, effect: &mut Effect<Global>) -> Result<bool, NoMemory>
        ensures { IfOk result
            (λ is_there. IsFilled is_there (outcome_of effect.new) number self.now.steps) }
    {
        match self.place_of(number) {
            Some(place) => {
                self.log.fill(place, effect)?;
                Ok(true)
            }
            None => Ok(false),
        }
    }

    /// Whose input step `number` took, counted from 1; None where there is no such step.
    pub fn actor(&self, number: u64) -> Option<Actor>
        ensures { result ≡ actor_at number self.now.steps }
    {
        match self.place_of(number) {
            Some(place) => Some(self.log.actor(place)),
            None => None,
        }
    }

    /// The moment at which the input of step `number` was handed in, counted from 1; None where
    /// there is no such step.
    pub fn moment(&self, number: u64) -> Option<At>
        ensures { result ≡ moment_at number self.now.steps }
    {
        match self.place_of(number) {
            Some(place) => Some(self.log.moment(place)),
            None => None,
        }
    }

    /// The reply to this actor's input `number`, counted from 1 among its own; None where the run
    /// has no such input. `NoMemory` where memory is refused.
    pub fn reply(
        &self,
        alloc: Global,
        actor: Actor,
        number: u64,
    ) -> Result<Option<Reply<Global>>, NoMemory>
        ensures { IfOk result (λ reply. reply ≡ reply_at actor number self.now.steps) }
    {
        // An actor's inputs are counted from 1.
        if number == 0 {
            return Ok(None);
        }
        let places = &self.places[usize::from(actor.number())];
        let Some(place) = places.nth((number - 1) as usize) else {
            return Ok(None);
        };
        let reply = self.log.reply(alloc, place)?;
        Ok(Some(reply))
    }

    /// Writes the steps as a recorded script: the head line, if `head`, and then for each step the
    /// line of its input and that of its reply. Returns how many steps these are. Where each run
    /// goes on from the one before, and only the first is written with the head line, their texts
    /// in a row are one script. The writer is not flushed. `RunFault` says what each fault leaves
    /// written.
    #[inline(never)]
    pub fn write<W: Write>(
        &self,
        alloc: Global,
        head: bool,
        writer: &mut W,
    ) -> Result<u64, RunFault>
        ensures ok { IfOk result (λ count. IsWritten count head self.now.steps
            (W.contents writer.old) (W.contents writer.new)) }
        ensures fault { IfErr result (λ fault. StopsWriting fault head self.now.steps
            (W.contents writer.old) (W.contents writer.new)) }
    {
        if let Err(fault) = write_head(head, writer) {
            return Err(fault);
        }
        // Working memory, which each step fills anew.
        let mut text = Vec::new(alloc);
        let mut effect = Effect::new(alloc);
        for place in 0..self.log.len() {
            let stored = self.log.look(place);
            // Only a fault names it: it is not written.
            let number = place as u64 + 1;
            if let Err(fault) = write_stored(
                alloc,
                &mut text,
                &mut effect,
                stored,
                number,
                writer,
            ) {
                return Err(fault);
            }
        }
        Ok(self.log.len() as u64)
    }
}

// For each actor a list of places with no step.
fn no_places(alloc: Global) -> Result<Vec<StepPlaces>, NoMemory>
    ensures count { IfOk result (λ all. length all.items ≡ 16) }
    ensures empty { IfOk result (λ all. AreEmpty all.items) }
{
    let mut all = Vec::new(alloc);
    for _ in 0..ACTOR_LIMIT {
        all.push(StepPlaces::new(alloc))?;
    }
    Ok(all)
}
