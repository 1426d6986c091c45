//! Inputs as a record keeps them: ticks and reports in a few words, all others as plain data.
ghost use Rattle.std.specs.Prelude.{◌≡◌, IfSome};
ghost use Rattle.tree_core.specs.Plain.{act_of};
ghost use Rattle.step_codes.specs.ToldActs.{act_of_told};

use crate::steps::{push_step, push_told_step};
use s6_events::{Actor, At, Exit, Sid};
use std::alloc::{AllocError, Global};
use std::marker::Model;
use tree_core::{Act, Effect, Input, PlainAct, PlainInput};

/// A tick, or any report but a notification. A report names a service and its generation first, and
/// then the process number or how the program ended.
#[derive(Clone, Copy)]
pub enum ToldAct {
    Tick,
    Started(Sid, u64, u32),
    StartFailed(Sid, u64),
    Death(Sid, u64, Exit),
    FinishEnded(Sid, u64, Exit),
}

/// An input that is a tick or a report. A clause sees it as the input that it stands for.
#[derive(Drop)]
pub struct ToldInput {
    pub actor: Actor,
    pub at: At,
    pub act: ToldAct,
}

impl Model for ToldInput {
    ghost use Rattle.std.specs.declared.alloc.Global.{Global};
    ghost use Rattle.tree_core.specs.declared.input.Input.{Input};
    ghost use Rattle.step_codes.specs.ToldActs.{act_of_told};

    ghost Value = { Input Global };

    ghost view = { λ t. record { actor = t.actor; at = t.at; act = act_of_told t.act } };
}

/// An input as a record can keep it once the tree has taken the input itself.
pub trait KeptInput: Drop {
    ghost use Rattle.std.specs.Prelude.{◌≡◌, IsTrue, IfOk};
    ghost use Rattle.std.specs.declared.alloc.Global.{Global};
    ghost use Rattle.tree_core.specs.Effect.{outcome_of};
    ghost use Rattle.tree_core.specs.declared.input.Input.{Input};
    ghost use Rattle.step_codes.specs.Adding.{Adds};
    ghost use Rattle.step_codes.specs.StepCodes.{step_onto, FitsStep};

    /// The input that it stands for.
    ghost input: { Self → Input Global };

    /// The actor that handed it in.
    fn actor(&self) -> Actor
        ensures { result ≡ (input self.now).actor };

    /// Adds the code of its step, if that has one, and returns whether it has. An error where
    /// memory is refused.
    fn push_step(&self, code: &mut Vec<u8>, effect: &Effect<Global>) -> Result<bool, AllocError>
        ensures added { IfOk result (λ has_code. IsTrue has_code
            → Adds code.old.items code.new.items
            (step_onto (input self.now) (outcome_of effect.now))) }
        ensures fits { IfOk result
            (λ has_code. IsTrue has_code → FitsStep (input self.now) (outcome_of effect.now)) };

    /// The input as plain data.
    fn into_plain(self) -> PlainInput<Global>
        ensures { result ≡ input self };
}

impl KeptInput for PlainInput<Global> {
    ghost input = { λ i. i };

    fn actor(&self) -> Actor {
        self.actor
    }

    // Adds the code of its step, the bytes in which a run keeps it, and returns true; false where
    // the step has none, and is kept as it is.
    fn push_step(&self, code: &mut Vec<u8>, effect: &Effect<Global>) -> Result<bool, AllocError> {
        push_step(code, self, effect)
    }

    fn into_plain(self) -> PlainInput<Global> {
        self
    }
}

// The act as plain data.
fn plain_of(act: ToldAct) -> PlainAct<Global>
    ensures { act_of result ≡ act_of_told act }
{
    match act {
        ToldAct::Tick => PlainAct::Tick,
        ToldAct::Started(sid, generation, pid) => PlainAct::Started(sid, generation, pid),
        ToldAct::StartFailed(sid, generation) => PlainAct::StartFailed(sid, generation),
        ToldAct::Death(sid, generation, exit) => PlainAct::Death(sid, generation, exit),
        ToldAct::FinishEnded(sid, generation, exit) => PlainAct::FinishEnded(sid, generation, exit),
    }
}

impl KeptInput for ToldInput {
    ghost input = { λ i. i };

    fn actor(&self) -> Actor {
        self.actor
    }

    // Adds the code of its step, the bytes in which a run keeps it, and returns true; false where
    // the step has none, and is kept as it is.
    #[inline(always)]
    fn push_step(&self, code: &mut Vec<u8>, effect: &Effect<Global>) -> Result<bool, AllocError> {
        push_told_step(code, self, effect)
    }

    // Called only for a step that is not kept as a code: it has none, or it could not be added.
    #[inline(never)]
    fn into_plain(self) -> PlainInput<Global> {
        let act = plain_of(self.act);
        PlainInput {
            actor: self.actor,
            at: self.at,
            act,
        }
    }
}

/// The same input in a few words, if it is a tick or any report but a notification; else None.
#[inline(always)]
pub fn told_of(input: &Input<Global>) -> Option<ToldInput>
    ensures { IfSome result (λ told. told ≡ input.now) }
{
    // A notification is left out, since it has a list of bytes.
    let act = match &input.act {
        Act::Tick => ToldAct::Tick,
        Act::Started(sid, generation, pid) => ToldAct::Started(*sid, *generation, *pid),
        Act::StartFailed(sid, generation) => ToldAct::StartFailed(*sid, *generation),
        Act::Death(sid, generation, exit) => ToldAct::Death(*sid, *generation, *exit),
        Act::FinishEnded(sid, generation, exit) => ToldAct::FinishEnded(*sid, *generation, *exit),
        _ => return None,
    };
    Some(ToldInput {
        actor: input.actor,
        at: input.at,
        act,
    })
}
