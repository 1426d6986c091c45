//! Checking the replies of a recorded script: each input is handed to a new tree, and its reply
//! compared with the line in the script.
ghost use Rattle.std.specs.Prelude.{◌≡◌, ◌<◌, [], IfOk, IfErr};
ghost use Rattle.tree_core.specs.Machine.{new_machine};
ghost use Rattle.tree_core.specs.StandsFor.{StandsFor};
ghost use Rattle.s6_script.specs.Script.{input_limit};
ghost use Rattle.s6_replay.specs.ReadingStops.{StopsBehind};
ghost use Rattle.s6_replay.specs.Turn.{text_in};
ghost use Rattle.s6_replay.specs.Checking.{Checks, CheckStops, Compares, ComparesStep};
ghost use Rattle.s6_replay.specs.declared.fault.ReplayFault.TheVariants.{NoMemory};

use super::checked::Checked;
use super::fault::ReplayFault;
use super::head::read_head;
use super::limits::INPUT_LIMIT;
use super::reading::{Scratch, read_end, read_step};
use s6_script::{Version, push_reply};
use std::alloc::{Allocator, Global};
use std::io::BufRead;
use tree_core::{Effect, Input, Tree};

// What was found out about a step.
#[derive(Clone, Copy, Debug, PartialEq, Eq)]
pub enum Compared {
    // Its reply is the machine's.
    Same,
    // It is another.
    Other,
    // The script has ended.
    End,
}

// The text of a reply: its line without the `= ` at its front.
fn text_of(line: &[u8]) -> &[u8]
    ensures { result.now ≡ text_in line.now }
{
    &line[line.len().min(2)..]
}

// Applies an input to the tree. Returns whether the reply in this line of the script is the one
// that the tree gives. `text` is memory for the text of the tree's reply.
fn compare_reply<A: Allocator + Copy>(
    tree: &mut Tree<A>,
    effect: &mut Effect<A>,
    text: &mut Vec<u8, A>,
    input: &mut Input<A>,
    line: &[u8],
) -> Result<bool, ReplayFault>
    ensures ok { IfOk result
        (λ same. Compares same tree.old tree.new input.old (text_in line.now)) }
    ensures fault { IfErr result (λ fault. fault ≡ NoMemory) }
{
    let Ok(()) = tree.apply_in_place(input, effect) else {
        return Err(ReplayFault::NoMemory);
    };
    text.clear();
    if push_reply(text, &effect.reply).is_err() {
        return Err(ReplayFault::NoMemory);
    }
    Ok(text_of(line) == text.as_slice())
}

// Reads the step after `done` others, applies its input to the tree, and compares its reply with
// the recorded one. The scratch has memory that each step uses again, with the lines and the input
// that were read. Patterns take their memory from `patterns`, and all else from `alloc`.
fn compare_step<A: Allocator + Copy, R: BufRead>(
    alloc: A,
    patterns: Global,
    reader: &mut R,
    tree: &mut Tree<A>,
    scratch: &mut Scratch<A>,
    done: u64,
) -> Result<Compared, ReplayFault>
    requires { done < input_limit }
    ensures fault { IfErr result (λ fault. StopsBehind A Version.Two done fault []
        (R.remaining reader.old) (R.remaining reader.new)) }
    ensures ok { IfOk result (λ compared. ComparesStep A compared tree.old tree.new
        (R.remaining reader.old) (R.remaining reader.new)) }
{
    let found = read_step(alloc, patterns, reader, scratch, Version::Two, done)?;
    if !found {
        return Ok(Compared::End);
    }
    let Scratch {
        reply,
        text,
        input,
        effect,
        ..
    } = scratch;
    match compare_reply(tree, effect, text, input, reply.as_slice()) {
        Ok(true) => Ok(Compared::Same),
        Ok(false) => Ok(Compared::Other),
        Err(fault) => Err(fault),
    }
}

// Checks a script on a tree that has taken no step. After as many inputs as a script may have, its
// end must follow. Patterns take their memory from `patterns`, and all else from `alloc`.
fn check_all<A: Allocator + Copy, R: BufRead>(
    alloc: A,
    patterns: Global,
    reader: &mut R,
    tree: &mut Tree<A>,
    scratch: &mut Scratch<A>,
) -> Result<Checked, ReplayFault>
    requires { StandsFor tree.old new_machine }
    ensures ok { IfOk result
        (λ checked. Checks A checked (R.remaining reader.old) (R.remaining reader.new)) }
    ensures fault { IfErr result
        (λ fault. CheckStops A fault (R.remaining reader.old) (R.remaining reader.new)) }
{
    match read_head(reader) {
        Ok(Version::Two) => {}
        // A script of version 1 has no replies to compare.
        Ok(Version::One) => return Err(ReplayFault::Head),
        Err(fault) => return Err(fault),
    }
    for done in 0..INPUT_LIMIT {
        match compare_step(alloc, patterns, reader, tree, scratch, done) {
            Err(fault) => return Err(fault),
            Ok(Compared::End) => return Ok(Checked::Legal(done)),
            // The head line is line 1, and each step before has two lines.
            Ok(Compared::Other) => return Ok(Checked::Differs(done * 2 + 3)),
            Ok(Compared::Same) => {}
        }
    }
    match read_end(reader, Version::Two) {
        Err(fault) => Err(fault),
        Ok(()) => Ok(Checked::Legal(INPUT_LIMIT)),
    }
}

/// Reads a script of version 2, hands its inputs to a new tree one after the other, and compares
/// each reply with the recorded one. `Legal` where all recorded replies are the machine's;
/// `Differs` at the first that is not, and nothing after that line is read. Hand in a buffered
/// reader. Patterns take their memory from `patterns`, and all else from `alloc`.
///
/// The limits and the faults are those of `run`; a script of version 1 gives `Head`. Where there is
/// a fault, all replies before it are the machine's.
pub fn check<A: Allocator + Copy, R: BufRead>(
    alloc: A,
    patterns: Global,
    reader: &mut R,
) -> Result<Checked, ReplayFault>
    ensures ok { IfOk result
        (λ checked. Checks A checked (R.remaining reader.old) (R.remaining reader.new)) }
    ensures fault { IfErr result
        (λ fault. CheckStops A fault (R.remaining reader.old) (R.remaining reader.new)) }
{
    let mut tree = Tree::new(alloc);
    let mut scratch = Scratch::new(alloc);
    check_all(alloc, patterns, reader, &mut tree, &mut scratch)
}
