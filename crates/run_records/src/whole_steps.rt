//! Steps that are kept as they are: they have no code in bytes, or memory for it was refused. Their
//! orders stand in one list for all.
ghost use Rattle.std.specs.Prelude.{◌≡◌, ◌<◌, ◌≤◌, [], ◌∷◌, ◌++◌, length, OnOk, IfOk, slice_get, Some};
ghost use Rattle.tree_core.specs.Effect.{outcome_of};
ghost use Rattle.tree_core.specs.Limits.{order_limit};
ghost use Rattle.run_records.specs.Runs.{RunStep, WholeHasRoom};
ghost use Rattle.run_records.specs.WholeSteps.{IsWithin, step_of};

use crate::record::Record;
use s6_events::{NoMemory, Order};
use std::alloc::Global;
use std::marker::Model;
use std::mem;
use tree_core::{Effect, ORDER_LIMIT, PlainInput, Reply};

/// Steps that are kept as they are, oldest first: each input with all that it gave. Contracts see
/// them so.
#[derive(Drop)]
pub struct WholeSteps {
    records: Vec<Record>,
    orders: Vec<Order>,
}

impl Model for WholeSteps {
    ghost use Rattle.run_records.specs.Runs.{WholeView};
    ghost use Rattle.run_records.specs.WholeFields.{AreSound, whole_view};

    ghost Value = { WholeView };

    ghost view = { whole_view };

    ghost invariant = { AreSound };
}

impl WholeSteps {
    /// No step, and room for so many steps and orders. `NoMemory` where memory is refused.
    pub fn new(alloc: Global, steps: usize, orders: usize) -> Result<WholeSteps, NoMemory>
        ensures { IfOk result (λ whole. whole.steps ≡ []) }
    {
        Ok(WholeSteps {
            records: Vec::with_capacity(alloc, steps)?,
            orders: Vec::with_capacity(alloc, orders)?,
        })
    }

    /// How many steps there are.
    pub fn len(&self) -> usize
        ensures { result ≡ length self.now.steps }
    {
        self.records.len()
    }

    /// Makes room for one step more, whatever it gives. `NoMemory` where memory is refused; the
    /// steps stay.
    pub fn reserve(&mut self) -> Result<(), NoMemory>
        ensures steps { self.new.steps ≡ self.old.steps }
        ensures room { OnOk result (WholeHasRoom self.new) }
    {
        self.records.reserve(1)?;
        self.orders.reserve(ORDER_LIMIT)?;
        Ok(())
    }

    /// Adds a step of this input and this effect, for which there is room. The effect's reply,
    /// events, matches and releases move into the step; its orders are copied. The effect has to be
    /// filled anew before it is read again.
    pub fn push(&mut self, input: PlainInput<Global>, effect: &mut Effect<Global>)
        requires room { WholeHasRoom self.old }
        requires orders { length effect.old.orders.items ≤ order_limit }
        ensures { self.new.steps
            ≡ self.old.steps ++ record { input = input; outcome = outcome_of effect.old } ∷ [] }
    {
        let alloc = *self.records.allocator();
        // The step's part of the one list of orders.
        let first = self.orders.len();
        let count = effect.orders.len();
        // There is room: the clauses ask for it.
        if self
            .orders
            .extend_from_slice(effect.orders.as_slice())
            .is_err()
        {
            unreachable!()
        }
        self.records.push_reserved(Record {
            input,
            reply: mem::replace(&mut effect.reply, Reply::Done),
            events: mem::replace(&mut effect.events, Vec::new(alloc)),
            matched: mem::replace(&mut effect.matched, Vec::new(alloc)),
            released: mem::replace(&mut effect.released, Vec::new(alloc)),
            first,
            count,
        });
    }

    /// The record of the step at this place: its input and its reply.
    pub fn record(&self, place: usize) -> &Record
        requires { place < length self.now.steps }
        ensures { (s : RunStep) → slice_get self.now.steps place ≡ Some s
            → (result.now.input ≡ s.input) × (result.now.reply ≡ s.outcome.reply) }
    {
        &self.records[place]
    }

    /// Fills an effect with all that the step at this place gave; what it held is gone. `NoMemory`
    /// where memory is refused: the effect may then be filled in part.
    pub fn fill(&self, place: usize, effect: &mut Effect<Global>) -> Result<(), NoMemory>
        requires { place < length self.now.steps }
        ensures { OnOk result ((s : RunStep) → slice_get self.now.steps place ≡ Some s
            → outcome_of effect.new ≡ s.outcome) }
    {
        fill_effect(self.orders.as_slice(), &self.records[place], effect)
    }
}

// Fills an effect with all that a record's step gave.
fn fill_effect(orders: &[Order], one: &Record, effect: &mut Effect<Global>) -> Result<(), NoMemory>
    requires { IsWithin orders.now one.now }
    ensures { OnOk result (outcome_of effect.new ≡ (step_of orders.now one.now).outcome) }
{
    let alloc = *effect.events.allocator();
    effect.orders.clear();
    // The step's part of the one list of orders.
    let part = &orders[one.first..one.first + one.count];
    // An effect has room for the orders of any step.
    if effect.orders.try_extend_from_slice(part).is_err() {
        unreachable!()
    }
    effect.reply = one.reply.copied(alloc)?;
    effect.events.clear();
    effect.events.extend_from_slice(one.events.as_slice())?;
    effect.matched.clear();
    effect.matched.extend_from_slice(one.matched.as_slice())?;
    effect.released.clear();
    effect.released.extend_from_slice(one.released.as_slice())?;
    Ok(())
}
