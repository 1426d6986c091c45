//! The codes of steps: the actor, the moment, what the step gave, and its act.
ghost use Rattle.std.specs.Prelude.{◌≡◌, ◌<◌, ◌≤◌, ◌++◌, ◌∷◌, [], ℕ, List, length, IsTrue, IsFalse, IfOk, OnOk};
ghost use Rattle.std.specs.declared.alloc.Global.{Global};
ghost use Rattle.s6_events.specs.At.{last_moment};
ghost use Rattle.s6_events.specs.declared.order.Order.{Order};
ghost use Rattle.tree_core.specs.Effect.{outcome_of};
ghost use Rattle.tree_core.specs.Limits.{order_limit};
ghost use Rattle.tree_core.specs.Machine.{Outcome};
ghost use Rattle.step_codes.specs.Adding.{Adds};
ghost use Rattle.step_codes.specs.NumberCodes.{number_onto};
ghost use Rattle.step_codes.specs.ListCodes.{list_onto, AllFit};
ghost use Rattle.step_codes.specs.OrderCodes.{order_onto, FitsOrder};
ghost use Rattle.step_codes.specs.ReplyCodes.{has_reply_code};
ghost use Rattle.step_codes.specs.StepCodes.{outcome_onto, step_onto, FitsOutcome, FitsStep};

use crate::acts::{has_act_code, push_act, push_told};
use crate::coded::{Code, Coded};
use crate::kept_input::ToldInput;
use crate::lists::{push_list, take_list};
use crate::numbers::put_number;
use crate::replies::{has_reply_code, push_reply, take_reply};
use arrayvec::ArrayVec;
use s6_events::{Actor, At, Order};
use std::alloc::{AllocError, Global};
use tree_core::{Effect, ORDER_LIMIT, PlainInput};

// Adds the code of what a step gave.
fn push_outcome(code: &mut Vec<u8>, effect: &Effect<Global>) -> Result<(), AllocError>
    ensures added { OnOk result
        (Adds code.old.items code.new.items (outcome_onto (outcome_of effect.now))) }
    ensures fits { OnOk result (IsTrue (has_reply_code effect.now.reply)
        → effect.now.matched.items ≡ []
        → FitsOutcome (outcome_of effect.now)) }
{
    push_reply(code, &effect.reply)?;
    push_list(code, effect.events.as_slice())?;
    push_list(code, effect.orders.as_slice())?;
    // The waiters that the step released, each with what became of its condition.
    push_list(code, effect.released.as_slice())
}

// Adds the actor and the moment of a step.
#[inline(always)]
fn push_head(code: &mut Vec<u8>, actor: Actor, at: At) -> Result<(), AllocError>
    ensures added { OnOk result
        (Adds code.old.items code.new.items (λ rest. actor ∷ number_onto at rest)) }
    ensures actor { actor ≤ 15 }
    ensures at { at ≤ last_moment }
{
    // The actor has one byte, and the moment at most nine.
    code.reserve(10)?;
    code.push_reserved(actor.number());
    put_number(code, at.millis());
    Ok(())
}

/// Adds the code of a step, if it has one, and returns whether it has: it has none where its act or
/// its reply has none, or where a subscription matched. An error where memory is refused.
pub fn push_step(
    code: &mut Vec<u8>,
    input: &PlainInput<Global>,
    effect: &Effect<Global>,
) -> Result<bool, AllocError>
    ensures added { IfOk result (λ has_code. IsTrue has_code → Adds code.old.items code.new.items
        (step_onto input.now (outcome_of effect.now))) }
    ensures fits { IfOk result
        (λ has_code. IsTrue has_code → FitsStep input.now (outcome_of effect.now)) }
{
    // Matches of subscriptions have no code.
    if !has_act_code(&input.act) || !has_reply_code(&effect.reply) || !effect.matched.is_empty() {
        return Ok(false);
    }
    push_head(code, input.actor, input.at)?;
    push_outcome(code, effect)?;
    push_act(code, &input.act)?;
    Ok(true)
}

/// Adds the code of the step of a tick or a report, as `push_step` does, and returns whether it has
/// one. An error where memory is refused.
#[inline(always)]
pub fn push_told_step(
    code: &mut Vec<u8>,
    input: &ToldInput,
    effect: &Effect<Global>,
) -> Result<bool, AllocError>
    ensures added { IfOk result (λ has_code. IsTrue has_code → Adds code.old.items code.new.items
        (step_onto input.now (outcome_of effect.now))) }
    ensures fits { IfOk result
        (λ has_code. IsTrue has_code → FitsStep input.now (outcome_of effect.now)) }
{
    // Matches of subscriptions have no code.
    if !has_reply_code(&effect.reply) || !effect.matched.is_empty() {
        return Ok(false);
    }
    push_head(code, input.actor, input.at)?;
    push_outcome(code, effect)?;
    push_told(code, input.act)?;
    Ok(true)
}

/// Takes the actor and the moment of a step.
pub fn take_head(code: &mut Code<'_>) -> (Actor, At)
    ensures { (actor at : ℕ) → (rest : List ℕ) → actor ≤ 15 → at ≤ last_moment
        → code.old ≡ actor ∷ number_onto at rest
        → (result.0 ≡ actor) × (result.1 ≡ at) × (code.new ≡ rest) }
{
    // Bytes that are no code of a step give some actor and some moment.
    let actor = Actor::new(code.take_byte()).unwrap_or_default();
    let at = At::new(u64::take(code)).unwrap_or_default();
    (actor, at)
}

// Takes the orders of a step. Those for which there is no room are left out.
fn take_orders(code: &mut Code<'_>, into: &mut ArrayVec<Order, ORDER_LIMIT>)
    ensures { (orders : List Order) → (rest : List ℕ) → length orders ≤ order_limit
        → AllFit FitsOrder orders → code.old ≡ list_onto order_onto orders rest
        → (into.new.items ≡ orders) × (code.new ≡ rest) }
{
    into.clear();
    let count = u64::take(code);
    for _ in 0..count {
        let _left_out = into.try_push(Order::take(code));
    }
}

/// Makes an effect what a step gave. What it held is gone. An error where memory is refused.
pub fn take_outcome(code: &mut Code<'_>, effect: &mut Effect<Global>) -> Result<(), AllocError>
    ensures { OnOk result ((o : Outcome Global) → (rest : List ℕ) → FitsOutcome o
        → code.old ≡ outcome_onto o rest → (outcome_of effect.new ≡ o) × (code.new ≡ rest)) }
{
    effect.reply = take_reply(code);
    effect.events.clear();
    take_list(code, &mut effect.events)?;
    take_orders(code, &mut effect.orders);
    // A step with a match has no code.
    effect.matched.clear();
    effect.released.clear();
    // The waiters that the step released.
    take_list(code, &mut effect.released)?;
    Ok(())
}
