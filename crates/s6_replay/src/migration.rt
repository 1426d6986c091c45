//! Migration: makes a recorded script (version 2), in which a reply follows each input, from one of
//! version 1, which has no replies.
ghost use Rattle.std.specs.Prelude.{◌≡◌, ◌<◌, ◌++◌, ◌∷◌, [], IfOk, IfErr, OnOk};
ghost use Rattle.s6_script.specs.Spelling.{spelling};
ghost use Rattle.tree_core.specs.Machine.{new_machine};
ghost use Rattle.tree_core.specs.StandsFor.{StandsFor};
ghost use Rattle.s6_script.specs.Script.{input_limit, reply_record};
ghost use Rattle.s6_script.specs.ReplyText.{reply_text};
ghost use Rattle.s6_replay.specs.Migration.{IsRecorded, RecordingStops, Records, RecordStops, Migrates, MigrateStops, HeadWritten, HeadUnwritten};

use super::counts::Counts;
use super::fault::ReplayFault;
use super::head::read_head;
use super::limits::INPUT_LIMIT;
use super::reading::{Scratch, read_end, read_step};
use super::turn::Turn;
use s6_script::{Version, WriteFault, push_reply, write_whole};
use std::alloc::{AllocError, Allocator, Global};
use std::io::{BufRead, Write};
use tree_core::{Effect, Input, Reply, Tree};

// Fills the text with the two lines of a step: that of its input, and behind `= ` its reply.
fn make_step<A: Allocator>(
    line: &[u8],
    reply: &Reply<A>,
    text: &mut Vec<u8, A>,
) -> Result<(), AllocError>
    ensures { OnOk result (text.new.items
        ≡ (line.now ++ 10 ∷ []) ++ reply_record (reply_text reply.now)) }
{
    text.clear();
    text.extend_from_slice(line)?;
    text.extend_from_slice(b"\n= ")?;
    push_reply(text, reply)?;
    text.extend_from_slice(b"\n")
}

// Applies the input of this line to the tree, and writes the line and the reply. Returns how many
// events and orders it gave.
fn record_input<A: Allocator + Copy, W: Write>(
    tree: &mut Tree<A>,
    effect: &mut Effect<A>,
    text: &mut Vec<u8, A>,
    writer: &mut W,
    input: &mut Input<A>,
    line: &[u8],
) -> Result<(usize, usize), ReplayFault>
    requires { line.now ≡ spelling input.old }
    ensures fault { IfErr result
        (λ fault. RecordingStops fault tree.old input.old
        (W.contents writer.old) (W.contents writer.new)) }
    ensures ok { IfOk result (λ given. IsRecorded given.0 given.1 tree.old tree.new input.old
        (W.contents writer.old) (W.contents writer.new)) }
{
    let Ok(()) = tree.apply_in_place(input, effect) else {
        return Err(ReplayFault::NoMemory);
    };
    let given = (
        effect.events.as_slice().len(),
        effect.orders.as_slice().len(),
    );
    if make_step(line, &effect.reply, text).is_err() {
        return Err(ReplayFault::NoMemory);
    }
    match write_whole(writer, text.as_slice()) {
        Ok(()) => Ok(given),
        Err(WriteFault::Write) => Err(ReplayFault::Write),
        // This never comes from `write_whole`.
        Err(WriteFault::NoMemory) => Err(ReplayFault::NoMemory),
    }
}

// Reads the input after `done` others, applies it to the tree, and writes its two lines. The
// scratch has memory that each step uses again. Patterns take their memory from `patterns`, and all
// else from `alloc`.
fn record_step<A: Allocator + Copy, R: BufRead, W: Write>(
    alloc: A,
    patterns: Global,
    reader: &mut R,
    writer: &mut W,
    tree: &mut Tree<A>,
    scratch: &mut Scratch<A>,
    done: u64,
) -> Result<Turn, ReplayFault>
    requires { done < input_limit }
    ensures fault { IfErr result (λ fault. RecordStops A fault done tree.old
        (R.remaining reader.old) (R.remaining reader.new)
        (W.contents writer.old) (W.contents writer.new)) }
    ensures ok { IfOk result (λ turn. Records A turn tree.old tree.new
        (R.remaining reader.old) (R.remaining reader.new)
        (W.contents writer.old) (W.contents writer.new)) }
{
    let found = read_step(alloc, patterns, reader, scratch, Version::One, done)?;
    if !found {
        return Ok(Turn::End);
    }
    let Scratch {
        line,
        text,
        input,
        effect,
        ..
    } = scratch;
    match record_input(tree, effect, text, writer, input, line.as_slice()) {
        Ok((events, orders)) => Ok(Turn::Done { events, orders }),
        Err(fault) => Err(fault),
    }
}

// Writes the head line of version 2.
fn write_head<W: Write>(writer: &mut W) -> Result<(), ReplayFault>
    ensures ok { OnOk result (HeadWritten (W.contents writer.old) (W.contents writer.new)) }
    ensures fault { IfErr result
        (λ fault. HeadUnwritten fault (W.contents writer.old) (W.contents writer.new)) }
{
    match write_whole(writer, b"s6-script 2\n") {
        Ok(()) => Ok(()),
        Err(_) => Err(ReplayFault::Write),
    }
}

// Migrates a script on a tree that has taken no step. After as many inputs as a script may have,
// its end must follow. Patterns take their memory from `patterns`, and all else from `alloc`.
fn migrate_all<A: Allocator + Copy, R: BufRead, W: Write>(
    alloc: A,
    patterns: Global,
    reader: &mut R,
    writer: &mut W,
    tree: &mut Tree<A>,
    scratch: &mut Scratch<A>,
) -> Result<Counts, ReplayFault>
    requires { StandsFor tree.old new_machine }
    ensures ok { IfOk result (λ counts. Migrates A counts
        (R.remaining reader.old) (R.remaining reader.new)
        (W.contents writer.old) (W.contents writer.new)) }
    ensures fault { IfErr result (λ fault. MigrateStops A fault
        (R.remaining reader.old) (R.remaining reader.new)
        (W.contents writer.old) (W.contents writer.new)) }
{
    match read_head(reader) {
        Ok(Version::One) => {}
        // A script of version 2 has its replies already.
        Ok(Version::Two) => return Err(ReplayFault::Head),
        Err(fault) => return Err(fault),
    }
    if let Err(fault) = write_head(writer) {
        return Err(fault);
    }
    let mut counts = Counts::none();
    for done in 0..INPUT_LIMIT {
        match record_step(alloc, patterns, reader, writer, tree, scratch, done) {
            Err(fault) => return Err(fault),
            Ok(Turn::End) => return Ok(counts),
            Ok(Turn::Done { events, orders }) => counts = counts.with_input(events, orders),
        }
    }
    match read_end(reader, Version::One) {
        Err(fault) => Err(fault),
        Ok(()) => Ok(counts),
    }
}

/// Reads a script of version 1, hands its inputs to a new tree one after the other, and writes the
/// script of version 2 of the same inputs with the replies of the tree. Hand in a buffered reader
/// and a buffered writer; the writer is not flushed here. Patterns take their memory from
/// `patterns`, and all else from `alloc`.
///
/// The limits and the faults are those of `run`. A script of version 2 gives `Head`, and then
/// nothing was written. At any later fault but `Write` the new script of the inputs before it was
/// written. At `Write` a part of the new script was written, from its beginning on, and not all of
/// it.
pub fn migrate<A: Allocator + Copy, R: BufRead, W: Write>(
    alloc: A,
    patterns: Global,
    reader: &mut R,
    writer: &mut W,
) -> Result<Counts, ReplayFault>
    ensures ok { IfOk result (λ counts. Migrates A counts
        (R.remaining reader.old) (R.remaining reader.new)
        (W.contents writer.old) (W.contents writer.new)) }
    ensures fault { IfErr result (λ fault. MigrateStops A fault
        (R.remaining reader.old) (R.remaining reader.new)
        (W.contents writer.old) (W.contents writer.new)) }
{
    let mut tree = Tree::new(alloc);
    let mut scratch = Scratch::new(alloc);
    migrate_all(alloc, patterns, reader, writer, &mut tree, &mut scratch)
}
