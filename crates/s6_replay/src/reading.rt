//! Reads the lines of a step (an input line, and in version 2 its reply line), and says which fault
//! a line has, and which line it is.
ghost use Rattle.std.specs.Prelude.{◌≡◌, ◌<◌, ◌≤◌, [], IfOk, IfErr, OnOk, IsTrue, Some, None, if◌then◌else◌};
ghost use Rattle.std.specs.Io.KnownBytes.{Consumes, IsAtEnd};
ghost use Rattle.s6_script.specs.Spelling.{spelling};
ghost use Rattle.s6_script.specs.Script.{IsReplyText, input_limit, reply_record};
ghost use Rattle.s6_replay.specs.ReadingStops.{StopsBehind, input_line_number};
ghost use Rattle.s6_replay.specs.Turn.{InputWasRead, WasRead, ReplyStops, HoldsReply, EndStops, text_in};

use super::fault::ReplayFault;
use super::limits::{INPUT_LIMIT, REPLY_LINE_LIMIT};
use super::line::{Ended, LineReadFault, read_line};
use s6_events::{Actor, At};
use s6_script::{INPUT_LINE_LIMIT, LineFault, Version, parse_into};
use std::alloc::{Allocator, Global};
use std::io::{BufRead, Read};
use tree_core::{Act, Effect, Input};

/// Memory that is used again for each step: its lines, a text that is compared or written, its
/// input, and the effect that the tree fills. A step that needs no more room in these than those
/// before it takes no memory for them.
#[derive(Drop)]
pub struct Scratch<A: Allocator> {
    /// The input line that was read last, without its newline.
    pub line: Vec<u8, A>,
    /// The reply line that was read last, without its newline.
    pub reply: Vec<u8, A>,
    /// A text that is compared with a line, or written.
    pub text: Vec<u8, A>,
    /// The input of the step that was read last, until the tree takes it.
    pub input: Input<A>,
    /// What the tree gave for the input that it took last.
    pub effect: Effect<A>,
}

impl<A: Allocator + Copy> Scratch<A> {
    /// Memory in which no step was read yet. Until one is, its input is a tick.
    pub fn new(alloc: A) -> Scratch<A> {
        Scratch {
            line: Vec::new(alloc),
            reply: Vec::new(alloc),
            text: Vec::new(alloc),
            input: Input {
                actor: Actor::default(),
                at: At::zero(),
                act: Act::Tick,
            },
            effect: Effect::new(alloc),
        }
    }
}

impl From<LineReadFault> for ReplayFault {
    ghost use Rattle.s6_replay.specs.Turn.{fault_of};

    ghost from_gives = { λ refused fault. fault ≡ fault_of refused };

    fn from(refused: LineReadFault) -> ReplayFault {
        match refused {
            LineReadFault::Read => ReplayFault::Read,
            LineReadFault::NoMemory => ReplayFault::NoMemory,
        }
    }
}

// The number of the input line after `done` steps. The head line is line 1; a step has one line in
// version 1, two in version 2.
pub fn input_line_number(version: Version, done: u64) -> u64
    requires { done ≤ input_limit }
    ensures { result ≡ input_line_number version done }
{
    match version {
        Version::One => done + 2,
        Version::Two => done * 2 + 2,
    }
}

// Reads the input line after `done` steps into `line`, and the input that it spells into `input`;
// `text` is memory for that. Whether there was one: not at the end of the script. Patterns take
// their memory from `patterns`, and all else from `alloc`.
fn read_input<A: Allocator + Copy, R: BufRead>(
    alloc: A,
    patterns: Global,
    reader: &mut R,
    line: &mut Vec<u8, A>,
    text: &mut Vec<u8, A>,
    input: &mut Input<A>,
    version: Version,
    done: u64,
) -> Result<bool, ReplayFault>
    requires { done < input_limit }
    ensures fault { IfErr result
        (λ fault. StopsBehind A version done fault []
        (R.remaining reader.old) (R.remaining reader.new)) }
    ensures ok { IfOk result (λ found. InputWasRead (if found then Some input.new else None)
        line.new.items (R.remaining reader.old) (R.remaining reader.new)) }
{
    match read_line::<A, R, INPUT_LINE_LIMIT>(reader, line)? {
        Ended::TooLong => return Err(ReplayFault::Line(input_line_number(version, done))),
        // The script ended behind a whole line; below, within this one.
        Ended::End if line.is_empty() => return Ok(false),
        Ended::End => return Err(ReplayFault::Truncated),
        Ended::Newline => {}
    }
    match parse_into(alloc, patterns, line.as_slice(), text, input) {
        Ok(()) => Ok(true),
        Err(LineFault::Line) => Err(ReplayFault::Line(input_line_number(version, done))),
        Err(LineFault::Pattern) => Err(ReplayFault::Pattern(input_line_number(version, done))),
        Err(LineFault::NoMemory) => Err(ReplayFault::NoMemory),
    }
}

// Whether a line holds a reply: an equals sign, a space, and some printable bytes.
fn holds_reply(line: &[u8]) -> bool
    ensures { HoldsReply line.now result }
{
    match line.strip_prefix(b"= ") {
        Some(text) => !text.is_empty() && text.iter().all(|byte| matches!(*byte, 32..=126)),
        None => false,
    }
}

// Reads the reply line of the input after `done` steps. It is line `done * 2 + 3`, since the head
// line is line 1.
fn read_reply<A: Allocator + Copy, R: BufRead>(
    reader: &mut R,
    line: &mut Vec<u8, A>,
    done: u64,
) -> Result<(), ReplayFault>
    requires { done < input_limit }
    ensures fault { IfErr result
        (λ fault. ReplyStops A fault done (R.remaining reader.old) (R.remaining reader.new)) }
    ensures reply { IfOk result (λ _. IsReplyText (text_in line.new.items)) }
    ensures read { IfOk result (λ _. Consumes (R.remaining reader.old) (R.remaining reader.new)
        (reply_record (text_in line.new.items))) }
{
    match read_line::<A, R, REPLY_LINE_LIMIT>(reader, line)? {
        Ended::TooLong => return Err(ReplayFault::Line(done * 2 + 3)),
        Ended::End => return Err(ReplayFault::Truncated),
        Ended::Newline => {}
    }
    if holds_reply(line.as_slice()) {
        Ok(())
    } else {
        Err(ReplayFault::Line(done * 2 + 3))
    }
}

/// Reads the lines of the step after `done` others, and puts its input into the scratch. Whether
/// there was one: not at the end of the script. The limits and the faults are those of `run`.
/// Patterns take their memory from `patterns`, and all else from `alloc`.
pub fn read_step<A: Allocator + Copy, R: BufRead>(
    alloc: A,
    patterns: Global,
    reader: &mut R,
    scratch: &mut Scratch<A>,
    version: Version,
    done: u64,
) -> Result<bool, ReplayFault>
    requires { done < input_limit }
    ensures fault { IfErr result
        (λ fault. StopsBehind A version done fault []
        (R.remaining reader.old) (R.remaining reader.new)) }
    ensures ok { IfOk result (λ found. WasRead version (text_in scratch.new.reply.items)
        (if found then Some scratch.new.input else None)
        (R.remaining reader.old) (R.remaining reader.new)) }
    ensures line { IfOk result (λ found. IsTrue found
        → scratch.new.line.items ≡ spelling scratch.new.input) }
{
    let Scratch {
        line,
        reply,
        text,
        input,
        ..
    } = scratch;
    let found = read_input(alloc, patterns, reader, line, text, input, version, done)?;
    if !found {
        return Ok(false);
    }
    match version {
        Version::One => Ok(true),
        Version::Two => match read_reply(reader, reply, done) {
            Ok(()) => Ok(true),
            Err(fault) => Err(fault),
        },
    }
}

/// Looks for the end of the input after 1,000,000 steps, as many as a script may have. `Line` where
/// there is a further byte.
pub fn read_end<R: BufRead>(reader: &mut R, version: Version) -> Result<(), ReplayFault>
    ensures ok { OnOk result (Consumes (R.remaining reader.old) (R.remaining reader.new) []
        × IsAtEnd (R.remaining reader.new)) }
    ensures fault { IfErr result
        (λ fault. EndStops fault version (R.remaining reader.old) (R.remaining reader.new)) }
{
    let mut byte = [0; 1];
    match reader.read(&mut byte) {
        Err(_) => Err(ReplayFault::Read),
        Ok(0) => Ok(()),
        Ok(_) => Err(ReplayFault::Line(input_line_number(version, INPUT_LIMIT))),
    }
}
