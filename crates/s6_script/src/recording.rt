//! Writes inputs and replies as a recorded script has them.
ghost use Rattle.std.specs.Prelude.{◌≡◌, ◌++◌, Err, OnOk};
ghost use Rattle.std.specs.Io.KnownBytes.{Appends};
ghost use Rattle.s6_script.specs.Spelling.{spelling};
ghost use Rattle.s6_script.specs.Writing.{AppendsFront};
ghost use Rattle.s6_script.specs.Recording.{FitsLine};
ghost use Rattle.s6_script.specs.Script.{input_line, reply_record};
ghost use Rattle.s6_script.specs.ReplyText.{reply_text};

use super::limits::INPUT_LINE_LIMIT;
use super::plain_spelling::spell_plain;
use super::reply_text::push_reply;
use super::writing::{WriteFault, write_whole};
use std::alloc::{AllocError, Allocator};
use std::io::Write;
use thiserror::Error;
use tree_core::{PlainInput, Reply};

/// Why an input or a reply was not written whole.
#[derive(Clone, Copy, Debug, PartialEq, Eq, Error)]
pub enum SpellFault {
    /// The writer answered an error, or took no byte. Some of the text, or none, was written, from
    /// its beginning on, and not all.
    #[error("the record was not written")]
    Write = 1,
    /// Memory was refused. Nothing was written.
    #[error("out of memory")]
    NoMemory = 2,
    /// The input has no spelling within the limits of a script. Nothing was written.
    #[error("the input has no spelling")]
    Unspelt = 3,
}

impl From<AllocError> for SpellFault {
    ghost use Rattle.s6_script.specs.declared.recording.SpellFault.TheVariants.{NoMemory};

    ghost from_gives = { λ _ fault. fault ≡ NoMemory };

    fn from(_refused: AllocError) -> SpellFault {
        SpellFault::NoMemory
    }
}

impl From<WriteFault> for SpellFault {
    ghost use Rattle.s6_script.specs.Recording.{spell_fault_of};

    ghost from_gives = { λ refused fault. fault ≡ spell_fault_of refused };

    fn from(refused: WriteFault) -> SpellFault {
        match refused {
            WriteFault::Write => SpellFault::Write,
            WriteFault::NoMemory => SpellFault::NoMemory,
        }
    }
}

/// Writes the spelling of an input, without a newline. `Unspelt` where it has none, or one that is
/// too long for an input line. At `Unspelt` and at `NoMemory` nothing was written, at `Write` not
/// all of it.
pub fn write_input<A: Allocator + Copy, W: Write>(
    alloc: A,
    input: &PlainInput<A>,
    writer: &mut W,
) -> Result<(), SpellFault>
    ensures fits { OnOk result (FitsLine input.now) }
    ensures ok { OnOk result (Appends (W.contents writer.old) (W.contents writer.new)
        (spelling input.now)) }
    ensures write { result ≡ Err SpellFault.Write
        → AppendsFront (W.contents writer.old) (W.contents writer.new) (spelling input.now) }
    ensures no_memory { result ≡ Err SpellFault.NoMemory →
        W.contents writer.new ≡ W.contents writer.old }
    ensures unspelt { result ≡ Err SpellFault.Unspelt
        → (W.contents writer.new ≡ W.contents writer.old) × (FitsLine input.now → ⊥) }
{
    let mut text = Vec::new(alloc);
    if !spell_plain(alloc, &mut text, input)? {
        return Err(SpellFault::Unspelt);
    }
    if text.len() >= INPUT_LINE_LIMIT {
        // With its newline, the line would be longer than a script allows.
        return Err(SpellFault::Unspelt);
    }
    write_whole(writer, text.as_slice())?;
    Ok(())
}

/// Writes the text of a reply, without a newline or what stands before it in a line. At `NoMemory`
/// nothing was written, at `Write` not all of it. `Unspelt` never comes.
pub fn write_reply<A: Allocator + Copy, W: Write>(
    alloc: A,
    reply: &Reply<A>,
    writer: &mut W,
) -> Result<(), SpellFault>
    ensures ok { OnOk result (Appends (W.contents writer.old) (W.contents writer.new)
        (reply_text reply.now)) }
    ensures write { result ≡ Err SpellFault.Write
        → AppendsFront (W.contents writer.old) (W.contents writer.new) (reply_text reply.now) }
    ensures no_memory { result ≡ Err SpellFault.NoMemory →
        W.contents writer.new ≡ W.contents writer.old }
    ensures spelt { result ≡ Err SpellFault.Unspelt → ⊥ }
{
    let mut text = Vec::new(alloc);
    push_reply(&mut text, reply)?;
    write_whole(writer, text.as_slice())?;
    Ok(())
}

/// Fills the text with a step of a recorded script: the line of its input, and that of its reply.
/// `Unspelt` where the input has no spelling, or one that is too long for an input line. `Write`
/// never comes.
pub fn spell_step<A: Allocator + Copy>(
    alloc: A,
    text: &mut Vec<u8, A>,
    input: &PlainInput<A>,
    reply: &Reply<A>,
) -> Result<(), SpellFault>
    ensures fits { OnOk result (FitsLine input.now) }
    ensures ok { OnOk result (text.new.items
        ≡ input_line input.now ++ reply_record (reply_text reply.now)) }
    ensures unspelt { result ≡ Err SpellFault.Unspelt → FitsLine input.now → ⊥ }
    ensures in_memory { result ≡ Err SpellFault.Write → ⊥ }
{
    if !spell_plain(alloc, text, input)? {
        // It has no spelling.
        return Err(SpellFault::Unspelt);
    }
    if text.len() >= INPUT_LINE_LIMIT {
        // Its line is too long.
        return Err(SpellFault::Unspelt);
    }
    // The input line ends here, and the line of its reply begins with an equals sign and a space.
    text.extend_from_slice(b"\n= ")?;
    push_reply(text, reply)?;
    text.extend_from_slice(b"\n")?;
    Ok(())
}
