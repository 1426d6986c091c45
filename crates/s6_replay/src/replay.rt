//! A replay: from a script (inputs, a line each) to its transcript (what the machine answers to
//! each).
ghost use Rattle.std.specs.Prelude.{IfOk, IfErr};
ghost use Rattle.tree_core.specs.Machine.{new_machine};
ghost use Rattle.tree_core.specs.StandsFor.{StandsFor};
ghost use Rattle.s6_replay.specs.Replay.{IsWhole, Stops};

use super::counts::Counts;
use super::fault::ReplayFault;
use super::head::read_head;
use super::limits::INPUT_LIMIT;
use super::reading::{Scratch, read_end};
use super::turn::{Turn, take_turn};
use std::alloc::{Allocator, Global};
use std::io::{BufRead, Write};
use tree_core::Tree;

// Replays a script on a tree that has taken no step: a turn reads one input, applies it, and writes
// what it gave. After as many inputs as a script may have, its end must follow. Patterns take their
// memory from `patterns`, and all else from `alloc`.
fn replay_all<A: Allocator + Copy, R: BufRead, W: Write>(
    alloc: A,
    patterns: Global,
    reader: &mut R,
    writer: &mut W,
    tree: &mut Tree<A>,
    scratch: &mut Scratch<A>,
) -> Result<Counts, ReplayFault>
    requires { StandsFor tree.old new_machine }
    ensures ok { IfOk result (λ counts. IsWhole A counts
        (R.remaining reader.old) (R.remaining reader.new)
        (W.contents writer.old) (W.contents writer.new)) }
    ensures fault { IfErr result (λ fault. Stops A fault
        (R.remaining reader.old) (R.remaining reader.new)
        (W.contents writer.old) (W.contents writer.new)) }
{
    let version = match read_head(reader) {
        Ok(version) => version,
        Err(fault) => return Err(fault),
    };
    let mut counts = Counts::none();
    for done in 0..INPUT_LIMIT {
        match take_turn(
            alloc, patterns, reader, writer, tree, scratch, version, done,
        ) {
            Err(fault) => return Err(fault),
            Ok(Turn::End) => return Ok(counts),
            Ok(Turn::Done { events, orders }) => counts = counts.with_input(events, orders),
        }
    }
    match read_end(reader, version) {
        Err(fault) => Err(fault),
        Ok(()) => Ok(counts),
    }
}

/// Replays a script of either version: reads its inputs one after the other, hands them to a new
/// tree, and writes what the tree answers. Replies in the script are read and not compared. The
/// script is read through the reader's own buffer. The transcript is written a block at a time, so
/// hand in a buffered writer; it is not flushed here. Patterns take their memory from `patterns`,
/// and all else from `alloc`.
///
/// An input line has at most 65,536 bytes with its newline, a reply line 262,144, and a script at
/// most 1,000,000 input lines. A line beyond these limits is refused whatever it holds, and before
/// its end is read. In version 2 an input is done once its reply line was read.
///
/// At a fault the transcript of all inputs before was written, and nothing more but at `Write`. Of
/// what follows their lines no more was read than is said here; in version 2 that may be a reply
/// line behind a whole input line.
/// - `Head`: the input does not begin with a head line, however long the first line is.
/// - `Line`: a line, or what ends one byte beyond the limit; after 1,000,000 inputs, one byte.
/// - `Pattern`: a line that spells an input, but `regex` refuses its pattern, and not for want of
///   memory.
/// - `Truncated`, `Read`: a part of a line; at `Read` after 1,000,000 inputs, nothing.
/// - `NoMemory`: a line, or a part of it.
/// - `Write`: one more input. Some of its block, or none, was written, and never all.
pub fn run<A: Allocator + Copy, R: BufRead, W: Write>(
    alloc: A,
    patterns: Global,
    reader: &mut R,
    writer: &mut W,
) -> Result<Counts, ReplayFault>
    ensures ok { IfOk result (λ counts. IsWhole A counts
        (R.remaining reader.old) (R.remaining reader.new)
        (W.contents writer.old) (W.contents writer.new)) }
    ensures fault { IfErr result (λ fault. Stops A fault
        (R.remaining reader.old) (R.remaining reader.new)
        (W.contents writer.old) (W.contents writer.new)) }
{
    let mut tree = Tree::new(alloc);
    let mut scratch = Scratch::new(alloc);
    replay_all(alloc, patterns, reader, writer, &mut tree, &mut scratch)
}
