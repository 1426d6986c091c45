//! Writing a run as a recorded script.
ghost use Rattle.std.specs.Prelude.{◌≡◌, ℕ, List, [], IfErr, IfOk, OnOk};
ghost use Rattle.std.specs.Io.KnownBytes.{Appends};
ghost use Rattle.s6_script.specs.Recording.{FitsLine};
ghost use Rattle.s6_script.specs.Script.{step_lines};
ghost use Rattle.s6_script.specs.declared.version.Version.TheVariants.{Two};
ghost use Rattle.tree_core.specs.Effect.{outcome_of};
ghost use Rattle.step_codes.specs.StepCodes.{step_onto, FitsStep};
ghost use Rattle.run_records.specs.Runs.{RunStep};
ghost use Rattle.run_records.specs.Stored.{IsStored};
ghost use Rattle.run_records.specs.RunText.{recorded_of, recorded_reply, run_fault_number, run_text, StopsHead, StopsStep};

use crate::step_log::Stored;
use s6_script::{SpellFault, spell_step, write_whole};
use std::alloc::{AllocError, Global};
use std::io::Write;
use step_codes::{Code, take_act, take_head, take_outcome};
use thiserror::Error;
use tree_core::{Effect, PlainInput, Reply};

/// Why a run was not written whole.
#[derive(Clone, Copy, Debug, PartialEq, Eq, Error)]
pub enum RunFault {
    /// The writer answered an error, or took no byte. The beginning was written, which may end
    /// anywhere.
    #[error("the run was not written")]
    Write,
    /// Memory was refused. The steps before were written.
    #[error("out of memory")]
    NoMemory,
    /// The input of the step of this number, from 1, has no spelling, or one that is too long for
    /// an input line. The steps before were written.
    #[error("the input of step {0} has no spelling")]
    Unspelt(u64),
}

impl RunFault {
    /// The number that stands for the fault, from 1 to 3, in the order of this list.
    pub fn number(&self) -> u8
        ensures { result ≡ run_fault_number self.now }
    {
        match self {
            RunFault::Write => 1,
            RunFault::NoMemory => 2,
            RunFault::Unspelt(_) => 3,
        }
    }
}

// Writes the head line, if it is wanted.
pub(crate) fn write_head<W: Write>(head: bool, writer: &mut W) -> Result<(), RunFault>
    ensures ok { OnOk result (Appends (W.contents writer.old) (W.contents writer.new)
        (run_text head [])) }
    ensures fault { IfErr result
        (λ fault. StopsHead fault head (W.contents writer.old) (W.contents writer.new)) }
{
    if head && write_whole(writer, b"s6-script 2\n").is_err() {
        return Err(RunFault::Write);
    }
    Ok(())
}

// Writes the lines of one step, as version 2 of a script (`Two`) has them: its input, and its
// reply. `text` and `effect` are working memory, used again for each step; `number` names the step
// in a fault.
pub(crate) fn write_stored<W: Write>(
    alloc: Global,
    text: &mut Vec<u8>,
    effect: &mut Effect<Global>,
    stored: Stored<'_>,
    number: u64,
    writer: &mut W,
) -> Result<(), RunFault>
    ensures fits { OnOk result ((s : RunStep) → IsStored s stored.entry → FitsLine s.input) }
    ensures ok { OnOk result ((s : RunStep) → IsStored s stored.entry
        → Appends (W.contents writer.old) (W.contents writer.new)
        (step_lines Two (recorded_of s))) }
    ensures fault { IfErr result (λ fault. (s : RunStep) → IsStored s stored.entry
        → StopsStep fault number s.input s.outcome.reply
        (W.contents writer.old) (W.contents writer.new)) }
{
    match stored {
        Stored::Whole(record) => write_step(
            alloc,
            text,
            &record.input,
            &record.reply,
            number,
            writer,
        ),
        Stored::Coded(mut code) => {
            let Ok(input) = read_step(alloc, &mut code, effect) else {
                return Err(RunFault::NoMemory);
            };
            match write_step(alloc, text, &input, &effect.reply, number, writer) {
                Ok(()) => Ok(()),
                Err(fault) => Err(fault),
            }
        }
    }
}

// Reads the input of a step, and makes the effect what it gave. An error where memory is refused.
fn read_step(
    alloc: Global,
    code: &mut Code<'_>,
    effect: &mut Effect<Global>,
) -> Result<PlainInput<Global>, AllocError>
    ensures { IfOk result (λ input. (s : RunStep) → (rest : List ℕ)
        → FitsStep s.input s.outcome → code.old ≡ step_onto s.input s.outcome rest
        → (input ≡ s.input) × (outcome_of effect.new ≡ s.outcome)) }
{
    // A step's code has these three behind one another.
    let (actor, at) = take_head(code);
    take_outcome(code, effect)?;
    let act = take_act(alloc, code)?;
    Ok(PlainInput { actor, at, act })
}

// Writes the lines of one step, as version 2 of a script (`Two`) has them: its input, and its
// reply. `text` is working memory, used again for each step; `number` names the step in a fault.
fn write_step<W: Write>(
    alloc: Global,
    text: &mut Vec<u8>,
    input: &PlainInput<Global>,
    reply: &Reply<Global>,
    number: u64,
    writer: &mut W,
) -> Result<(), RunFault>
    ensures fits { OnOk result (FitsLine input.now) }
    ensures ok { OnOk result (Appends (W.contents writer.old) (W.contents writer.new)
        (step_lines Two (recorded_reply input.now reply.now))) }
    ensures fault { IfErr result
        (λ fault. StopsStep fault number input.now reply.now
        (W.contents writer.old) (W.contents writer.new)) }
{
    match spell_step(alloc, text, input, reply) {
        Ok(()) => {}
        Err(SpellFault::Unspelt) => return Err(RunFault::Unspelt(number)),
        // It is `NoMemory`: `Write` never comes from `spell_step`.
        Err(_) => return Err(RunFault::NoMemory),
    }
    match write_whole(writer, text.as_slice()) {
        Ok(()) => Ok(()),
        Err(_) => Err(RunFault::Write),
    }
}
