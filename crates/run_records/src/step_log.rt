//! The steps of a run, in little room. A step's code is its input and what it gave, as some dozens
//! of bytes (`step_codes`).
ghost use Rattle.std.specs.Prelude.{◌≡◌, ◌<◌, ◌≤◌, [], ◌∷◌, ◌++◌, length, OnOk, IfOk, IsTrue, IsFalse, slice_get, Some, drop};
ghost use Rattle.tree_core.specs.Effect.{outcome_of};
ghost use Rattle.tree_core.specs.Limits.{order_limit};
ghost use Rattle.run_records.specs.Runs.{LogHasRoom, RunStep};
ghost use Rattle.run_records.specs.Stored.{IsStored};

use crate::record::Record;
use crate::whole_steps::WholeSteps;
use s6_events::{Actor, At, NoMemory};
use std::alloc::Global;
use std::marker::Model;
use step_codes::{Code, KeptInput, take_head, take_outcome, take_reply};
use tree_core::{Effect, PlainInput, Reply};

/// Where a step of the log is kept.
#[derive(Clone, Copy)]
pub enum StepStart {
    /// Its code begins at this byte.
    Coded(u32),
    /// It is kept as it is, at this place.
    Whole(u32),
}

/// How much a new log has room for: so many starts, bytes of codes, steps that are kept as they
/// are, and orders of these.
#[derive(Clone, Copy)]
pub struct LogRoom {
    pub starts: usize,
    pub bytes: usize,
    pub whole: usize,
    pub orders: usize,
}

/// A step as it is kept.
#[derive(Drop)]
pub enum Stored<'a> {
    /// Its code, and bytes behind it.
    Coded(Code<'a>),
    /// It is kept as it is.
    Whole(&'a Record),
}

/// The steps of a run, oldest first. A step is kept as its code, some dozens of bytes, or as it is
/// where it has none, or where memory for its code was refused. Contracts see each step as its
/// input and all that it gave.
#[derive(Drop)]
pub struct StepLog {
    // The codes of steps, one behind the other.
    codes: Vec<u8>,
    // Where each step is kept, oldest first.
    starts: Vec<StepStart>,
    whole: WholeSteps,
    /// Where a code is made, so that all steps use the same memory.
    scratch: Vec<u8>,
}

impl Model for StepLog {
    ghost use Rattle.run_records.specs.Runs.{LogView};
    ghost use Rattle.run_records.specs.LogFields.{IsSoundLog, log_view};

    ghost Value = { LogView };

    ghost view = { log_view };

    ghost invariant = { IsSoundLog };
}

impl StepLog {
    /// No step, and this room. `NoMemory` where memory is refused.
    pub fn new(alloc: Global, room: LogRoom) -> Result<StepLog, NoMemory>
        ensures { IfOk result (λ log. log.steps ≡ []) }
    {
        Ok(StepLog {
            codes: Vec::with_capacity(alloc, room.bytes)?,
            starts: Vec::with_capacity(alloc, room.starts)?,
            whole: WholeSteps::new(alloc, room.whole, room.orders)?,
            scratch: Vec::new(alloc),
        })
    }

    /// How many steps there are.
    pub fn len(&self) -> usize
        ensures { result ≡ length self.now.steps }
    {
        self.starts.len()
    }

    /// Makes room for one step more, whatever it gives. `NoMemory` where memory is refused, or
    /// where 2^32 steps are kept whole; the steps stay.
    pub fn reserve(&mut self) -> Result<(), NoMemory>
        ensures steps { self.new.steps ≡ self.old.steps }
        ensures room { OnOk result (LogHasRoom self.new) }
    {
        // The place of a step that is kept whole has 32 bits.
        if self.whole.len() > u32::MAX as usize {
            return Err(NoMemory);
        }
        self.starts.reserve(1)?;
        // Room for the step as it is: where it has no code, or memory for its code is refused, it
        // is kept so.
        self.whole.reserve()
    }

    // Adds the code of a step, if it has one and there is memory for it. Returns whether it was
    // added.
    #[inline(always)]
    fn push_code<I: KeptInput>(&mut self, input: &I, effect: &Effect<Global>) -> bool
        requires { 1 ≤ self.old.room }
        ensures yes { IsTrue result → self.new.steps ≡ self.old.steps
            ++ record { input = I.input input.now; outcome = outcome_of effect.now } ∷ [] }
        ensures no { IsFalse result → self.new ≡ self.old }
    {
        let start = self.codes.len();
        if start > u32::MAX as usize {
            // A start has 32 bits: a step whose code would begin further on is kept whole.
            return false;
        }
        self.scratch.clear();
        match input.push_step(&mut self.scratch, effect) {
            Ok(true) => {}
            // It has no code, or memory for it was refused: it is kept whole.
            _ => return false,
        }
        if self
            .codes
            .extend_from_slice(self.scratch.as_slice())
            .is_err()
        {
            return false;
        }
        self.starts.push_reserved(StepStart::Coded(start as u32));
        true
    }

    /// Adds a step of this input and this effect, for which there is room. The effect has to be
    /// filled anew before it is read again.
    #[inline(always)]
    pub fn push<I: KeptInput>(&mut self, input: I, effect: &mut Effect<Global>)
        requires room { LogHasRoom self.old }
        requires orders { length effect.old.orders.items ≤ order_limit }
        ensures { self.new.steps ≡ self.old.steps
            ++ record { input = I.input input; outcome = outcome_of effect.old } ∷ [] }
    {
        if !self.push_code(&input, effect) {
            self.push_whole(input.into_plain(), effect);
        }
    }

    // Adds a step as it is, for which there is room. It is not inlined, since most steps have a
    // code.
    #[inline(never)]
    fn push_whole(&mut self, input: PlainInput<Global>, effect: &mut Effect<Global>)
        requires room { LogHasRoom self.old }
        requires orders { length effect.old.orders.items ≤ order_limit }
        ensures { self.new.steps
            ≡ self.old.steps ++ record { input = input; outcome = outcome_of effect.old } ∷ [] }
    {
        // `reserve` has seen to it that the place fits into 32 bits.
        let place = self.whole.len() as u32;
        self.whole.push(input, effect);
        self.starts.push_reserved(StepStart::Whole(place));
    }

    /// The step at this place, as it is kept.
    pub fn look(&self, place: usize) -> Stored<'_>
        requires { place < length self.now.steps }
        ensures { (s : RunStep) → slice_get self.now.steps place ≡ Some s → IsStored s result }
    {
        match self.starts[place] {
            StepStart::Coded(start) => Stored::Coded(code_from(self.codes.as_slice(), start)),
            StepStart::Whole(at) => Stored::Whole(self.whole.record(at as usize)),
        }
    }

    /// Whose input the step at this place took.
    pub fn actor(&self, place: usize) -> Actor
        requires { place < length self.now.steps }
        ensures { (s : RunStep) → slice_get self.now.steps place ≡ Some s
            → result ≡ s.input.actor }
    {
        match self.look(place) {
            Stored::Coded(mut code) => take_head(&mut code).0,
            Stored::Whole(record) => record.input.actor,
        }
    }

    /// The moment at which the input of the step at this place was handed in.
    pub fn moment(&self, place: usize) -> At
        requires { place < length self.now.steps }
        ensures { (s : RunStep) → slice_get self.now.steps place ≡ Some s → result ≡ s.input.at }
    {
        match self.look(place) {
            Stored::Coded(mut code) => take_head(&mut code).1,
            Stored::Whole(record) => record.input.at,
        }
    }

    /// The reply of the step at this place. `NoMemory` where memory is refused.
    pub fn reply(&self, alloc: Global, place: usize) -> Result<Reply<Global>, NoMemory>
        requires { place < length self.now.steps }
        ensures { IfOk result (λ reply. (s : RunStep) → slice_get self.now.steps place ≡ Some s
            → reply ≡ s.outcome.reply) }
    {
        match self.look(place) {
            Stored::Coded(mut code) => {
                // The reply stands behind the actor and the moment.
                let _head = take_head(&mut code);
                Ok(take_reply(&mut code))
            }
            Stored::Whole(record) => record.reply.copied(alloc),
        }
    }

    /// Fills an effect with all that the step at this place gave; what it held is gone. `NoMemory`
    /// where memory is refused: the effect may then be filled in part.
    pub fn fill(&self, place: usize, effect: &mut Effect<Global>) -> Result<(), NoMemory>
        requires { place < length self.now.steps }
        ensures { OnOk result ((s : RunStep) → slice_get self.now.steps place ≡ Some s
            → outcome_of effect.new ≡ s.outcome) }
    {
        match self.starts[place] {
            StepStart::Coded(start) => {
                let mut code = code_from(self.codes.as_slice(), start);
                // What the step gave stands behind the actor and the moment.
                let _head = take_head(&mut code);
                take_outcome(&mut code, effect)?;
                Ok(())
            }
            StepStart::Whole(at) => {
                self.whole.fill(at as usize, effect)?;
                Ok(())
            }
        }
    }
}

// The codes of steps from byte `start` on, no byte where there are fewer.
fn code_from(codes: &[u8], start: u32) -> Code<'_>
    ensures { result ≡ drop start codes.now }
{
    let start = start as usize;
    if start <= codes.len() {
        Code::of(&codes[start..])
    } else {
        Code::of(&[])
    }
}
