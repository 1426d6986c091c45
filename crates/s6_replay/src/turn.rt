//! One turn of a replay: a step of the script is read and applied, and its block (its part of the
//! transcript) is written.
ghost use Rattle.std.specs.Prelude.{◌<◌, IfOk, IfErr};
ghost use Rattle.s6_script.specs.Script.{input_limit};
ghost use Rattle.s6_replay.specs.Turn.{Turns, TurnStops};

use super::block::write_block;
use super::fault::ReplayFault;
use super::reading::{Scratch, read_step};
use s6_script::{Version, WriteFault};
use std::alloc::{Allocator, Global};
use std::io::{BufRead, Write};
use tree_core::Tree;

// What one turn did.
#[derive(Clone, Copy, Debug, PartialEq, Eq)]
pub enum Turn {
    // An input was answered, with this many events and orders.
    Done { events: usize, orders: usize },
    // The script has ended.
    End,
}

// Reads the step after `done` others, applies its input to the tree, and writes its block, whose
// number counts from 1. The scratch has memory that each step uses again. Returns how many events
// and orders the input gave. Patterns take their memory from `patterns`, and all else from `alloc`.
pub fn take_turn<A: Allocator + Copy, R: BufRead, W: Write>(
    alloc: A,
    patterns: Global,
    reader: &mut R,
    writer: &mut W,
    tree: &mut Tree<A>,
    scratch: &mut Scratch<A>,
    version: Version,
    done: u64,
) -> Result<Turn, ReplayFault>
    requires { done < input_limit }
    ensures fault { IfErr result (λ fault. TurnStops A fault version done tree.old
        (R.remaining reader.old) (R.remaining reader.new)
        (W.contents writer.old) (W.contents writer.new)) }
    ensures ok { IfOk result (λ turn. Turns A turn version done tree.old tree.new
        (R.remaining reader.old) (R.remaining reader.new)
        (W.contents writer.old) (W.contents writer.new)) }
{
    let found = read_step(alloc, patterns, reader, scratch, version, done)?;
    if !found {
        return Ok(Turn::End);
    }
    let Scratch {
        text,
        input,
        effect,
        ..
    } = scratch;
    let Ok(()) = tree.apply_in_place(input, effect) else {
        return Err(ReplayFault::NoMemory);
    };
    let events = effect.events.as_slice().len();
    let orders = effect.orders.as_slice().len();
    match write_block(done + 1, effect, text, writer) {
        Ok(()) => Ok(Turn::Done { events, orders }),
        Err(WriteFault::Write) => Err(ReplayFault::Write),
        Err(WriteFault::NoMemory) => Err(ReplayFault::NoMemory),
    }
}
