//! The block of a step, which is its part of a transcript (what the machine answered, a line each):
//! how its text is made, and written whole.
ghost use Rattle.std.specs.Prelude.{◌≡◌, Err, OnOk};
ghost use Rattle.std.specs.Io.KnownBytes.{Appends};
ghost use Rattle.s6_script.specs.Writing.{AppendsFront};
ghost use Rattle.s6_replay.specs.Transcript.{block};
ghost use Rattle.tree_core.specs.Effect.{outcome_of};

use s6_script::{
    WriteFault, push_events, push_matches, push_number, push_orders, push_releases, push_reply,
    write_whole,
};
use std::alloc::{AllocError, Allocator};
use std::io::Write;
use tree_core::Effect;

// Fills the text with the block of a step: a line with its number and its reply, then one for each
// event, order, match and release.
fn make_block<A: Allocator>(
    number: u64,
    effect: &Effect<A>,
    text: &mut Vec<u8, A>,
) -> Result<(), AllocError>
    ensures { OnOk result (text.new.items ≡ block number (outcome_of effect.now)) }
{
    text.clear();
    push_number(text, number)?;
    text.push(b' ')?;
    push_reply(text, &effect.reply)?;
    text.push(b'\n')?;
    push_events(text, effect.events.as_slice())?;
    push_orders(text, effect.orders.as_slice())?;
    push_matches(text, effect.matched.as_slice())?;
    push_releases(text, effect.released.as_slice())
}

/// Writes the block of a step: a line with this number and the reply, then one for each event,
/// order, match and release. The block is made whole in memory first, so at `NoMemory` nothing of
/// it was written. At `Write` a part of it was, from its beginning on, which may end within a line.
/// The writer is not flushed.
pub fn write_effect<A: Allocator + Copy, W: Write>(
    alloc: A,
    number: u64,
    effect: &Effect<A>,
    writer: &mut W,
) -> Result<(), WriteFault>
    ensures ok { OnOk result (Appends (W.contents writer.old) (W.contents writer.new)
        (block number (outcome_of effect.now))) }
    ensures write { result ≡ Err WriteFault.Write →
        AppendsFront (W.contents writer.old) (W.contents writer.new)
        (block number (outcome_of effect.now)) }
    ensures no_memory { result ≡ Err WriteFault.NoMemory
        → W.contents writer.new ≡ W.contents writer.old }
{
    let mut text = Vec::new(alloc);
    write_block(number, effect, &mut text, writer)
}

// Writes the block of a step. The block is first made whole in `text`, whose memory is used again.
pub fn write_block<A: Allocator, W: Write>(
    number: u64,
    effect: &Effect<A>,
    text: &mut Vec<u8, A>,
    writer: &mut W,
) -> Result<(), WriteFault>
    ensures ok { OnOk result (Appends (W.contents writer.old) (W.contents writer.new)
        (block number (outcome_of effect.now))) }
    ensures write { result ≡ Err WriteFault.Write →
        AppendsFront (W.contents writer.old) (W.contents writer.new)
        (block number (outcome_of effect.now)) }
    ensures no_memory { result ≡ Err WriteFault.NoMemory
        → W.contents writer.new ≡ W.contents writer.old }
{
    make_block(number, effect, text)?;
    write_whole(writer, text.as_slice())
}
