//! The tool `replay`, with buffers: it reads a script, a tree's inputs line by line, and writes
//! what the tree answers, or the story in words.
ghost use Rattle.std.specs.Prelude.{◌≡◌, ◌⊎◌, IfOk, IfErr, OnOk};
ghost use Rattle.s6_replay.specs.Replay.{IsWhole, Stops};
ghost use Rattle.s6_replay.specs.Migration.{Migrates, MigrateStops};
ghost use Rattle.replay_tool.specs.Flushed.{IsFlushed};
ghost use Rattle.run_stories.specs.Scripts.{IsStory, StoryStops};
ghost use Rattle.s6_replay.specs.declared.fault.ReplayFault.TheVariants.{Write};

use crate::dated::Dated;
use crate::line_counter::LineCounter;
use run_stories::{draw_timeline, tell_story};
use s6_replay::{Checked, Counts, ReplayFault, check, migrate, run};
use std::alloc::{Allocator, Global};
use std::io::{BufRead, BufReader, BufWriter, Read, Write};

// Buffers of 8,192 bytes for what is read and for what is written. `NoMemory` where memory is
// refused.
fn buffers<A: Allocator + Copy, R: Read + Drop, W: Write + Drop>(
    alloc: A,
    input: R,
    output: W,
) -> Result<(BufReader<R, A>, BufWriter<W, A>), ReplayFault> {
    let Ok(reader) = BufReader::new(alloc, input) else {
        return Err(ReplayFault::NoMemory);
    };
    let Ok(writer) = BufWriter::new(alloc, output) else {
        return Err(ReplayFault::NoMemory);
    };
    Ok((reader, writer))
}

// Replays a script, and flushes the writer. Where the flush fails, the fault is `Write`, whatever
// else was wrong.
fn replay_whole<A: Allocator + Copy, R: BufRead, W: Write>(
    alloc: A,
    patterns: Global,
    reader: &mut R,
    writer: &mut W,
) -> Result<Counts, ReplayFault>
    ensures ok { IfOk result (λ counts. IsWhole A counts
        (R.remaining reader.old) (R.remaining reader.new)
        (W.contents writer.old) (W.contents writer.new)) }
    ensures fault { IfErr result (λ fault. (fault ≡ Write) ⊎ IsFlushed
        (Stops A fault (R.remaining reader.old) (R.remaining reader.new) (W.contents writer.old))
        (W.contents writer.new)) }
{
    let replayed = run(alloc, patterns, reader, writer);
    if writer.flush().is_err() {
        return Err(ReplayFault::Write);
    }
    replayed
}

/// Replays the script that the input gives, and writes its transcript, each through a buffer of
/// 8,192 bytes. Patterns take their memory from `patterns`, and all else from `alloc`. At a fault
/// but `Write` the transcript that was written before has left the buffer; at `Write` its end may
/// be missing.
pub fn replay<A: Allocator + Copy, R: Read + Drop, W: Write + Drop>(
    alloc: A,
    patterns: Global,
    input: R,
    output: W,
) -> Result<(), ReplayFault> {
    let (mut reader, mut writer) = buffers(alloc, input, output)?;
    // How many inputs, events and orders there were is not told.
    let _counts = replay_whole(alloc, patterns, &mut reader, &mut writer)?;
    Ok(())
}

// Migrates a script, and flushes the writer. Where the flush fails, the fault is `Write`, whatever
// else was wrong.
fn migrate_whole<A: Allocator + Copy, R: BufRead, W: Write>(
    alloc: A,
    patterns: Global,
    reader: &mut R,
    writer: &mut W,
) -> Result<Counts, ReplayFault>
    ensures ok { IfOk result (λ counts. Migrates A counts
        (R.remaining reader.old) (R.remaining reader.new)
        (W.contents writer.old) (W.contents writer.new)) }
    ensures fault { IfErr result (λ fault. (fault ≡ Write) ⊎ IsFlushed
        (MigrateStops A fault (R.remaining reader.old) (R.remaining reader.new)
        (W.contents writer.old))
        (W.contents writer.new)) }
{
    let migrated = migrate(alloc, patterns, reader, writer);
    if writer.flush().is_err() {
        return Err(ReplayFault::Write);
    }
    migrated
}

/// Reads the script of version 1 that the input gives, and writes the script of version 2 with the
/// same inputs and the replies of a new tree, each through a buffer of 8,192 bytes. Memory and
/// faults are as in `replay`.
pub fn record_replies<A: Allocator + Copy, R: Read + Drop, W: Write + Drop>(
    alloc: A,
    patterns: Global,
    input: R,
    output: W,
) -> Result<(), ReplayFault> {
    let (mut reader, mut writer) = buffers(alloc, input, output)?;
    // How many inputs, events and orders there were is not told.
    let _counts = migrate_whole(alloc, patterns, &mut reader, &mut writer)?;
    Ok(())
}

/// Why a script was not checked to its end: the fault, and how many of the lines that were read are
/// those of whole steps.
#[derive(Drop)]
pub struct CheckFault {
    pub fault: ReplayFault,
    pub whole_lines: u64,
}

/// Reads the script of version 2 that the input gives, through a buffer of 8,192 bytes, and checks
/// its replies. Memory and faults are as in `replay`.
pub fn check_replies<A: Allocator + Copy, R: Read + Drop>(
    alloc: A,
    patterns: Global,
    input: R,
) -> Result<Checked, CheckFault> {
    let Ok(mut reader) = BufReader::new(alloc, LineCounter::new(input)) else {
        return Err(CheckFault {
            fault: ReplayFault::NoMemory,
            whole_lines: 0,
        });
    };
    match check(alloc, patterns, &mut reader) {
        Ok(checked) => Ok(checked),
        Err(fault) => {
            let whole_lines = reader.get_ref().whole_lines();
            Err(CheckFault { fault, whole_lines })
        }
    }
}

// Tells the story of a script, and flushes the writer. Where the flush fails, the fault is `Write`,
// whatever else was wrong.
fn tell_whole<A: Allocator + Copy, R: BufRead, W: Write>(
    alloc: A,
    patterns: Global,
    reader: &mut R,
    writer: &mut W,
) -> Result<(), ReplayFault>
    ensures ok { OnOk result (IsStory A (R.remaining reader.old) (R.remaining reader.new)
        (W.contents writer.old) (W.contents writer.new)) }
    ensures fault { IfErr result (λ fault. (fault ≡ Write) ⊎ IsFlushed
        (StoryStops A fault (R.remaining reader.old) (R.remaining reader.new)
        (W.contents writer.old)) (W.contents writer.new)) }
{
    let told = tell_story(alloc, patterns, reader, writer);
    if writer.flush().is_err() {
        return Err(ReplayFault::Write);
    }
    told
}

/// Reads the script that the input gives, and writes its story, each through a buffer of 8,192
/// bytes. Memory and faults are as in `replay`.
pub fn story<A: Allocator + Copy, R: Read + Drop, W: Write + Drop>(
    alloc: A,
    patterns: Global,
    input: R,
    output: W,
) -> Result<(), ReplayFault> {
    let (mut reader, mut writer) = buffers(alloc, input, output)?;
    tell_whole(alloc, patterns, &mut reader, &mut writer)
}

/// Writes the story of a script as `story` does, but with times of day in place of seconds. The
/// script's clock was 0 `start` milliseconds after the beginning of 1970.
pub fn dated_story<A: Allocator + Copy, R: Read + Drop, W: Write + Drop>(
    alloc: A,
    patterns: Global,
    start: u64,
    input: R,
    output: W,
) -> Result<(), ReplayFault> {
    let (mut reader, writer) = buffers(alloc, input, output)?;
    // It writes a time of day in place of the seconds with which a line begins.
    let mut writer = Dated::new(writer, start);
    tell_whole(alloc, patterns, &mut reader, &mut writer)
}

// Draws the timeline of a script, and flushes the writer. Where the flush fails, the fault is
// `Write`, whatever else was wrong.
fn draw_whole<A: Allocator + Copy, R: BufRead, W: Write>(
    alloc: A,
    patterns: Global,
    reader: &mut R,
    writer: &mut W,
) -> Result<(), ReplayFault> {
    let drawn = draw_timeline(alloc, patterns, reader, writer);
    if writer.flush().is_err() {
        return Err(ReplayFault::Write);
    }
    drawn
}

/// Reads the script that the input gives, and writes its timeline, each through a buffer of 8,192
/// bytes. Memory and faults are as in `replay`; nothing is written before the whole script was
/// read.
pub fn timeline<A: Allocator + Copy, R: Read + Drop, W: Write + Drop>(
    alloc: A,
    patterns: Global,
    input: R,
    output: W,
) -> Result<(), ReplayFault> {
    let (mut reader, mut writer) = buffers(alloc, input, output)?;
    draw_whole(alloc, patterns, &mut reader, &mut writer)
}
