//! Finds out what the command line asks for, `replay` or a text of the program, and does it. The
//! other tools are looked for before.
use crate::buffered::{
    CheckFault, check_replies, dated_story, record_replies, replay, story, timeline,
};
use crate::fault_lines::{NO_TOOL, REPLAY_USAGE, SYSTEM_STATUS, USAGE_STATUS, replay_fault};
use crate::help_texts::{HELP, REPLAY_HELP, VERSION};
use jiff_fmt::temporal::parse_timestamp;
use s6_replay::{Checked, ReplayFault};
use std::alloc::{Allocator, Global};
use std::env::{Env, FillError};
use std::io::{Read, Write};

/// The status of a check that found another reply than the machine's.
const DIFFERS_STATUS: u8 = 1;

// No known word has more bytes.
const LONGEST_WORD: usize = 16;

// No time of day that is taken has more bytes.
const LONGEST_DAY: usize = 40;

// The nanoseconds of a millisecond.
const MILLISECOND: i128 = 1_000_000;

// What the command line asks for. `DatedStory` is a story with times of day, and has the time at
// which the script's clock was 0, in milliseconds since 1970. At `ReplayUsage` the words behind
// `replay` are wrong; at `Unknown` the first word names no tool.
#[derive(Clone, Copy, Debug, PartialEq, Eq)]
enum ReplayTask {
    Help,
    Version,
    Replay,
    Check,
    Migrate,
    Story,
    // With times of day; the script's clock was 0 this many milliseconds after the beginning of
    // 1970.
    DatedStory(u64),
    Timeline,
    ReplayHelp,
    ReplayUsage,
    Unknown,
}

// Whether the command line has a word at this place; the program's name is at 0. A word is read
// into an array, which takes no memory.
fn has_word(env: &impl Env, place: usize) -> bool {
    let mut word = [0; LONGEST_WORD];
    // A word that is longer than the array is there too: its error is `TooLong`.
    !matches!(env.arg(place, &mut word), Err(FillError::NotPresent))
}

// Whether the command line has this word at this place.
fn is_word(env: &impl Env, place: usize, text: &[u8]) -> bool {
    let mut word = [0; LONGEST_WORD];
    match env.arg(place, &mut word) {
        Ok(count) => &word[..count] == text,
        // No word is there, or one that is longer than any known one.
        Err(_) => false,
    }
}

// The milliseconds from the beginning of 1970 to the time of day at this place of the command line;
// None where there is no time of day, or one before 1970.
fn day_at(env: &impl Env, place: usize) -> Option<u64> {
    let mut word = [0; LONGEST_DAY];
    let count = env.arg(place, &mut word).ok()?;
    let instant = parse_timestamp(&word[..count]).ok()?;
    // `MILLISECOND` is a millisecond in nanoseconds.
    u64::try_from(instant.nanosecond / MILLISECOND).ok()
}

// What the command line asks for, where words follow `replay --story`. The program's name is at
// place 0, and so `--story` at 2.
fn asked_of_story(env: &impl Env) -> ReplayTask {
    // Behind `--story` only `--since TIME` may come.
    if !is_word(env, 3, b"--since") || has_word(env, 5) {
        return ReplayTask::ReplayUsage;
    }
    match day_at(env, 4) {
        Some(start) => ReplayTask::DatedStory(start),
        None => ReplayTask::ReplayUsage,
    }
}

// What the words behind `replay` ask for. The program's name is at place 0, and `replay` at 1, so
// the first of these words is at 2. A second one may come behind `--story` alone.
fn asked_of_replay(env: &impl Env) -> ReplayTask {
    if !has_word(env, 2) {
        ReplayTask::Replay
    } else if has_word(env, 3) {
        if is_word(env, 2, b"--story") {
            asked_of_story(env)
        } else {
            ReplayTask::ReplayUsage
        }
    } else if is_word(env, 2, b"--check") {
        ReplayTask::Check
    } else if is_word(env, 2, b"--migrate") {
        ReplayTask::Migrate
    } else if is_word(env, 2, b"--story") {
        ReplayTask::Story
    } else if is_word(env, 2, b"--timeline") {
        ReplayTask::Timeline
    } else if is_word(env, 2, b"--help") || is_word(env, 2, b"-h") {
        ReplayTask::ReplayHelp
    } else {
        ReplayTask::ReplayUsage
    }
}

// What the command line asks for: `replay`, with the words behind it, or `--help` or `--version`
// alone; `Unknown` for any other words. The program's name is at place 0.
fn asked_tool(env: &impl Env) -> ReplayTask {
    if is_word(env, 1, b"replay") {
        return asked_of_replay(env);
    }
    // Behind `--help` and `--version` no word is taken.
    if has_word(env, 2) {
        ReplayTask::Unknown
    } else if is_word(env, 1, b"--help") {
        ReplayTask::Help
    } else if is_word(env, 1, b"--version") {
        ReplayTask::Version
    } else {
        ReplayTask::Unknown
    }
}

// Prints a text, and returns the exit status. Where the text can't be written whole, a line on
// `errors` says so.
fn print<W: Write, E: Write>(mut output: W, errors: &mut E, text: &[u8]) -> u8
where
    W: Drop,
{
    if output.write_all(text).is_ok() && output.flush().is_ok() {
        return 0;
    }
    let _ = errors.write_all(b"s6_tree: write\n");
    SYSTEM_STATUS
}

// Prints what a check found, and returns the exit status: 1 where a reply differs.
fn print_checked<W: Write, E: Write>(mut output: W, errors: &mut E, checked: Checked) -> u8
where
    W: Drop,
{
    let (written, status) = match checked {
        Checked::Legal(inputs) => (write!(output, "legal {inputs}\n"), 0),
        Checked::Differs(line) => (write!(output, "differs at line {line}\n"), DIFFERS_STATUS),
    };
    if written.is_ok() && output.flush().is_ok() {
        return status;
    }
    replay_fault(&ReplayFault::Write, errors)
}

// Tells why a script was not checked to its end, and returns the exit status. Where it was cut off,
// a second line says how much of it is whole.
fn tell_unchecked<E: Write>(unchecked: &CheckFault, errors: &mut E) -> u8 {
    let status = replay_fault(&unchecked.fault, errors);
    if unchecked.fault == ReplayFault::Truncated {
        let lines = unchecked.whole_lines;
        let _ = write!(
            errors,
            "replay: the first {lines} lines are whole; head -n {lines} keeps them\n"
        );
    }
    status
}

// The exit status of a tool that only reads and writes. A line on `errors` tells its fault.
fn ended<E: Write>(done: Result<(), ReplayFault>, errors: &mut E) -> u8 {
    match done {
        Ok(()) => 0,
        Err(fault) => replay_fault(&fault, errors),
    }
}

// Writes this line, which says that the words are wrong, and returns the status 100.
fn refuse<E: Write>(errors: &mut E, line: &[u8]) -> u8 {
    let _ = errors.write_all(line);
    USAGE_STATUS
}

/// Runs the tool that the command line asks for, on this input and these two outputs, and returns
/// the exit status: 0 where it was done, 1 where a recorded reply is not the machine's, 100 where
/// the command line is wrong or the input is no script, 111 where the system refused something. At
/// 100 and 111 one line on `errors` says why; where it can't be written, the status is the same.
/// Reading the command line takes no memory.
pub fn run_tool<A: Allocator + Copy, R: Read + Drop, W: Write + Drop, E: Write>(
    env: &impl Env,
    alloc: A,
    patterns: Global,
    input: R,
    output: W,
    errors: &mut E,
) -> u8 {
    match asked_tool(env) {
        ReplayTask::Help => print(output, errors, HELP),
        ReplayTask::Version => print(output, errors, VERSION),
        ReplayTask::ReplayHelp => print(output, errors, REPLAY_HELP),
        ReplayTask::Replay => ended(replay(alloc, patterns, input, output), errors),
        // The script once more, with the replies of a new tree.
        ReplayTask::Migrate => ended(record_replies(alloc, patterns, input, output), errors),
        ReplayTask::Story => ended(story(alloc, patterns, input, output), errors),
        ReplayTask::DatedStory(start) => {
            ended(dated_story(alloc, patterns, start, input, output), errors)
        }
        ReplayTask::Timeline => ended(timeline(alloc, patterns, input, output), errors),
        ReplayTask::Check => match check_replies(alloc, patterns, input) {
            Ok(checked) => print_checked(output, errors, checked),
            Err(unchecked) => tell_unchecked(&unchecked, errors),
        },
        ReplayTask::ReplayUsage => refuse(errors, REPLAY_USAGE),
        ReplayTask::Unknown => refuse(errors, NO_TOOL),
    }
}
