//! The story of a script: a line for each event. The script is replayed step by step, and a teller
//! makes the lines of each step.
ghost use Rattle.std.specs.Prelude.{◌≡◌, ◌<◌, ◌++◌, [], OnOk, IfOk, IfErr};
ghost use Rattle.std.specs.Io.KnownBytes.{Appends};
ghost use Rattle.tree_core.specs.Effect.{outcome_of};
ghost use Rattle.tree_core.specs.Machine.{Machine, new_machine};
ghost use Rattle.s6_script.specs.Writing.{AppendsFront};
ghost use Rattle.s6_script.specs.Script.{input_limit};
ghost use Rattle.tree_core.specs.Rows.{all_rows};
ghost use Rattle.tree_core.specs.StandsFor.{StandsFor};
ghost use Rattle.run_stories.specs.Requests.{reply_lines};
ghost use Rattle.run_stories.specs.ActWords.{body_words};
ghost use Rattle.run_stories.specs.Scripts.{TellsNext, NextStops, IsStory, StoryStops};
ghost use Rattle.run_stories.specs.Stories.{rows_after, effect_lines, IsTold};
ghost use Rattle.s6_replay.specs.declared.fault.ReplayFault.TheVariants.{NoMemory, Write};

use crate::act_words::{head_of, is_told, push_body};
use crate::cause::{Cause, cause_of};
use crate::effect_words::push_effect;
use crate::reply_words::push_reply_lines;
use arrayvec::ArrayVec;
use s6_replay::{INPUT_LIMIT, ReplayFault, Scratch, read_end, read_head, read_step};
use s6_script::{Version, write_whole};
use std::alloc::{AllocError, Allocator, Global};
use std::io::{BufRead, Write};
use supervise_core::Row;
use tree_core::{Act, Effect, Reply, SERVICE_LIMIT, Tree};

// The rows of the last scan, by which services are named, and memory that is used again for each
// step: what its act is about, and its story, which is the text of the scratch.
#[derive(Drop)]
struct Teller<A: Allocator> {
    rows: ArrayVec<Row, SERVICE_LIMIT>,
    body: Vec<u8, A>,
    scratch: Scratch<A>,
}

impl<A: Allocator + Copy> Teller<A> {
    // A teller that has told no step: it has no rows by which to name services, and its memory is
    // empty.
    fn new(alloc: A) -> Teller<A>
        ensures { result.rows.items ≡ [] }
    {
        Teller {
            rows: ArrayVec::new(),
            // Memory that each step uses again: what its act is about, and its lines and its story.
            body: Vec::new(alloc),
            scratch: Scratch::new(alloc),
        }
    }
}

/// Takes the rows of all services, if this is the reply to a scan that was done: services are named
/// by the rows of the last scan.
pub fn follow_scan<A: Allocator + Copy>(
    rows: &mut ArrayVec<Row, SERVICE_LIMIT>,
    tree: &Tree<A>,
    reply: &Reply<A>,
)
    ensures { (m : Machine) → StandsFor tree.now m
        → rows.new.items ≡ rows_after rows.old.items reply.now (all_rows m) }
{
    if let Reply::Scanned(_) = reply {
        *rows = tree.rows();
    }
}

// Fills the text with what an act is about, where services are named by these rows.
fn make_body<A: Allocator>(
    body: &mut Vec<u8, A>,
    rows: &ArrayVec<Row, SERVICE_LIMIT>,
    act: &Act<A>,
) -> Result<(), AllocError>
    ensures { OnOk result (body.new.items ≡ body_words rows.now.items act.now) }
{
    body.clear();
    push_body(body, rows.as_slice(), act)
}

// Fills the text with the story of a step that the tree took. Of its act, `told` is whether it has
// a line of its own once it is done, `head` what it is, `body` what it is about, and `cause` what
// it tells of a program.
fn make_story<A: Allocator + Copy>(
    tree: &Tree<A>,
    rows: &mut ArrayVec<Row, SERVICE_LIMIT>,
    text: &mut Vec<u8, A>,
    effect: &Effect<A>,
    told: bool,
    head: &[u8],
    body: &Vec<u8, A>,
    cause: Cause,
) -> Result<(), AllocError>
    ensures story { OnOk result ((m : Machine) → StandsFor tree.now m → text.new.items
        ≡ reply_lines m.clock rows.old.items told head.now body.now.items effect.now.reply
        ++ effect_lines m.clock (rows_after rows.old.items effect.now.reply (all_rows m)) cause
        (outcome_of effect.now)) }
    ensures named { OnOk result ((m : Machine) → StandsFor tree.now m
        → rows.new.items ≡ rows_after rows.old.items effect.now.reply (all_rows m)) }
{
    let now = tree.now();
    text.clear();
    // Services that a scan dropped are named by the rows before it, and all others by those after
    // it.
    push_reply_lines(
        text,
        now,
        rows.as_slice(),
        told,
        head,
        body.as_slice(),
        &effect.reply,
    )?;
    follow_scan(rows, tree, &effect.reply);
    push_effect(text, now, rows.as_slice(), cause, effect)?;
    Ok(())
}

// Applies the input that was read to the tree, and fills the text of the scratch with the story of
// the step.
fn tell_step<A: Allocator + Copy>(
    tree: &mut Tree<A>,
    teller: &mut Teller<A>,
) -> Result<(), ReplayFault>
    ensures told { OnOk result (IsTold teller.old.rows.items teller.new.rows.items
        teller.new.scratch.text.items tree.old tree.new teller.old.scratch.input) }
    ensures fault { IfErr result (λ fault. fault ≡ NoMemory) }
{
    let Teller {
        rows,
        body,
        scratch,
    } = teller;
    let Scratch {
        text,
        input,
        effect,
        ..
    } = scratch;
    // The act is read before the step, which takes it.
    let told = is_told(&input.act);
    let head = head_of(&input.act);
    let cause = cause_of(&input.act);
    let Ok(()) = make_body(body, rows, &input.act) else {
        return Err(ReplayFault::NoMemory);
    };
    let Ok(()) = tree.apply_in_place(input, effect) else {
        return Err(ReplayFault::NoMemory);
    };
    match make_story(tree, rows, text, effect, told, head, body, cause) {
        Ok(()) => Ok(()),
        Err(_) => Err(ReplayFault::NoMemory),
    }
}

// Writes the story of a step.
fn write_story<A: Allocator, W: Write>(
    teller: &Teller<A>,
    writer: &mut W,
) -> Result<(), ReplayFault>
    ensures ok { OnOk result (Appends (W.contents writer.old) (W.contents writer.new)
        teller.now.scratch.text.items) }
    ensures fault { IfErr result (λ fault. (fault ≡ Write)
        × AppendsFront (W.contents writer.old) (W.contents writer.new)
        teller.now.scratch.text.items) }
{
    match write_whole(writer, teller.scratch.text.as_slice()) {
        Ok(()) => Ok(()),
        Err(_) => Err(ReplayFault::Write),
    }
}

// Reads the step after `done` others, tells it, and writes its story. Returns whether there was
// one. Patterns take their memory from `patterns`, and all else from `alloc`.
fn tell_next<A: Allocator + Copy, R: BufRead, W: Write>(
    alloc: A,
    patterns: Global,
    reader: &mut R,
    writer: &mut W,
    tree: &mut Tree<A>,
    teller: &mut Teller<A>,
    version: Version,
    done: u64,
) -> Result<bool, ReplayFault>
    requires { done < input_limit }
    ensures ok { IfOk result (λ more. TellsNext A more version
        teller.old.rows.items teller.new.rows.items tree.old tree.new
        (R.remaining reader.old) (R.remaining reader.new)
        (W.contents writer.old) (W.contents writer.new)) }
    ensures fault { IfErr result (λ fault. NextStops A fault version done
        teller.old.rows.items tree.old
        (R.remaining reader.old) (R.remaining reader.new)
        (W.contents writer.old) (W.contents writer.new)) }
{
    let scratch = &mut teller.scratch;
    let found = read_step(alloc, patterns, reader, scratch, version, done)?;
    if !found {
        return Ok(false);
    }
    if let Err(fault) = tell_step(tree, teller) {
        return Err(fault);
    }
    match write_story(teller, writer) {
        Ok(()) => Ok(true),
        Err(fault) => Err(fault),
    }
}

// Tells the story of a script on a tree that has taken no step. After as many inputs as a script
// may have, its end must follow. Patterns take their memory from `patterns`, and all else from
// `alloc`.
fn tell_all<A: Allocator + Copy, R: BufRead, W: Write>(
    alloc: A,
    patterns: Global,
    reader: &mut R,
    writer: &mut W,
    tree: &mut Tree<A>,
    teller: &mut Teller<A>,
) -> Result<(), ReplayFault>
    requires fresh { StandsFor tree.old new_machine }
    requires unnamed { teller.old.rows.items ≡ [] }
    ensures ok { OnOk result (IsStory A (R.remaining reader.old) (R.remaining reader.new)
        (W.contents writer.old) (W.contents writer.new)) }
    ensures fault { IfErr result (λ fault. StoryStops A fault
        (R.remaining reader.old) (R.remaining reader.new)
        (W.contents writer.old) (W.contents writer.new)) }
{
    let version = match read_head(reader) {
        Ok(version) => version,
        Err(fault) => return Err(fault),
    };
    for done in 0..INPUT_LIMIT {
        match tell_next(alloc, patterns, reader, writer, tree, teller, version, done) {
            Ok(true) => {}
            Ok(false) => return Ok(()),
            Err(fault) => return Err(fault),
        }
    }
    match read_end(reader, version) {
        Ok(()) => Ok(()),
        Err(fault) => Err(fault),
    }
}

/// Reads a script of either version, hands its inputs to a new tree one after the other, and writes
/// what happens, a line for each event, as docs/STORY.md says. Replies in the script are read and
/// not compared. Hand in a buffered reader and a buffered writer; the writer is not flushed here.
/// Patterns take their memory from `patterns`, and all else from `alloc`.
///
/// The limits and the faults are those of `s6_replay::run`. At `Line`, `Pattern`, `Truncated`,
/// `Read` and `NoMemory` the story of all steps before was written, and nothing more. At `Write` a
/// part of the story of the steps that were read was written, from its beginning on, and not all.
/// At `Head` nothing was written.
pub fn tell_story<A: Allocator + Copy, R: BufRead, W: Write>(
    alloc: A,
    patterns: Global,
    reader: &mut R,
    writer: &mut W,
) -> Result<(), ReplayFault>
    ensures ok { OnOk result (IsStory A (R.remaining reader.old) (R.remaining reader.new)
        (W.contents writer.old) (W.contents writer.new)) }
    ensures fault { IfErr result (λ fault. StoryStops A fault
        (R.remaining reader.old) (R.remaining reader.new)
        (W.contents writer.old) (W.contents writer.new)) }
{
    let mut tree = Tree::new(alloc);
    let mut teller = Teller::new(alloc);
    tell_all(alloc, patterns, reader, writer, &mut tree, &mut teller)
}
