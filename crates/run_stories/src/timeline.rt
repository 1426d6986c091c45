//! The timeline of a script: a lane for each service name. The script is replayed step by step,
//! while a watcher notes what the lanes show; then the picture is drawn.
ghost use Rattle.std.specs.Prelude.{◌<◌};
ghost use Rattle.s6_script.specs.Script.{input_limit};

use crate::drawing::{Layout, write_end, write_frame, write_lane};
use crate::intervals::{Interval, cut_lane};
use crate::lanes::{TimelineLane, TimelineLanes};
use crate::scale::Scale;
use crate::story::follow_scan;
use arrayvec::ArrayVec;
use s6_events::{At, Name};
use s6_replay::{INPUT_LIMIT, ReplayFault, Scratch, read_end, read_head, read_step};
use s6_script::Version;
use std::alloc::{Allocator, Global};
use std::io::{BufRead, Write};
use supervise_core::Row;
use tree_core::{Act, SERVICE_LIMIT, Tree};

// What was seen of a run so far: its lanes, the moment of its first step, and the rows of its last
// scan, by which services are named. And memory that is used again for each step.
#[derive(Drop)]
struct SeenRun<A: Allocator> {
    lanes: TimelineLanes<A>,
    first: Option<At>,
    rows: ArrayVec<Row, SERVICE_LIMIT>,
    scratch: Scratch<A>,
}

impl<A: Allocator + Copy> SeenRun<A> {
    // A watcher that has seen no step: it has no lanes, no rows by which to name services, and its
    // memory is empty.
    fn new(alloc: A) -> SeenRun<A> {
        SeenRun {
            lanes: TimelineLanes::new(alloc),
            // The moment of the first step.
            first: None,
            rows: ArrayVec::new(),
            // Memory that each step uses again.
            scratch: Scratch::new(alloc),
        }
    }
}

// The service to which a user sends letters by this act; None for any other act.
fn lettered<A: Allocator>(act: &Act<A>) -> Option<Name> {
    match act {
        Act::Svc(name, _) => Some(*name),
        _ => None,
    }
}

// Applies the input that was read to the tree, and notes what the lanes show after it.
fn watch_step<A: Allocator + Copy>(
    alloc: A,
    tree: &mut Tree<A>,
    watcher: &mut SeenRun<A>,
) -> Result<(), ReplayFault> {
    let SeenRun {
        lanes,
        first,
        rows,
        scratch,
    } = watcher;
    let Scratch { input, effect, .. } = scratch;
    // Letters may change what a lane shows without an event; the act is read before the step, which
    // takes it.
    let named = lettered(&input.act);
    let Ok(()) = tree.apply_in_place(input, effect) else {
        return Err(ReplayFault::NoMemory);
    };
    if first.is_none() {
        *first = Some(tree.now());
    }
    // Services are named by the rows of the last scan.
    follow_scan(rows, tree, &effect.reply);
    match lanes.note_step(alloc, tree, rows.as_slice(), effect, named) {
        Ok(()) => Ok(()),
        Err(_) => Err(ReplayFault::NoMemory),
    }
}

// Reads the step after `done` others, and watches it: the lanes take in what it changed. Returns
// whether there was one. Patterns take their memory from `patterns`, and all else from `alloc`.
fn watch_next<A: Allocator + Copy, R: BufRead>(
    alloc: A,
    patterns: Global,
    reader: &mut R,
    tree: &mut Tree<A>,
    watcher: &mut SeenRun<A>,
    version: Version,
    done: u64,
) -> Result<bool, ReplayFault>
    requires { done < input_limit }
{
    let scratch = &mut watcher.scratch;
    let found = read_step(alloc, patterns, reader, scratch, version, done)?;
    if !found {
        return Ok(false);
    }
    watch_step(alloc, tree, watcher)?;
    Ok(true)
}

// Watches the whole of a script on a tree that has taken no step. After as many inputs as a script
// may have, its end must follow. Patterns take their memory from `patterns`, and all else from
// `alloc`.
fn watch_all<A: Allocator + Copy, R: BufRead>(
    alloc: A,
    patterns: Global,
    reader: &mut R,
    tree: &mut Tree<A>,
    watcher: &mut SeenRun<A>,
) -> Result<(), ReplayFault> {
    let version = read_head(reader)?;
    for done in 0..INPUT_LIMIT {
        if !watch_next(alloc, patterns, reader, tree, watcher, version, done)? {
            return Ok(());
        }
    }
    read_end(reader, version)
}

// How many bytes the longest name of a lane has.
fn longest_name<A: Allocator>(lanes: &[TimelineLane<A>]) -> usize {
    let mut longest = 0;
    for lane in lanes {
        longest = lane.name.as_bytes().len().max(longest);
    }
    longest
}

// Draws a lane, the one at this place from the top. `intervals` is memory for its parts, each of
// one shade.
fn draw_lane<A: Allocator, W: Write>(
    writer: &mut W,
    layout: Layout,
    scale: &Scale,
    intervals: &mut Vec<Interval, A>,
    place: usize,
    lane: &TimelineLane<A>,
) -> Result<(), ReplayFault> {
    if cut_lane(scale, lane.changes.as_slice(), intervals).is_err() {
        return Err(ReplayFault::NoMemory);
    }
    match write_lane(writer, layout, place, &lane.name, intervals.as_slice()) {
        Ok(()) => Ok(()),
        Err(_) => Err(ReplayFault::Write),
    }
}

// Draws the lanes, one below the other.
fn draw_lanes<A: Allocator + Copy, W: Write>(
    alloc: A,
    writer: &mut W,
    layout: Layout,
    scale: &Scale,
    lanes: &[TimelineLane<A>],
) -> Result<(), ReplayFault> {
    let mut intervals = Vec::new(alloc);
    for (place, lane) in lanes.iter().enumerate() {
        draw_lane(writer, layout, scale, &mut intervals, place, lane)?;
    }
    Ok(())
}

// Draws what was seen, up to this moment: the frame of the picture, the lanes, and its end.
fn draw_all<A: Allocator + Copy, W: Write>(
    alloc: A,
    writer: &mut W,
    watcher: &SeenRun<A>,
    last: At,
) -> Result<(), ReplayFault> {
    let lanes = watcher.lanes.lanes.as_slice();
    let layout = Layout::of(lanes.len(), longest_name(lanes));
    let scale = Scale {
        // Where there was no step, the picture shows one moment.
        first: watcher.first.unwrap_or(last),
        last,
    };
    if write_frame(writer, layout, &scale).is_err() {
        return Err(ReplayFault::Write);
    }
    draw_lanes(alloc, writer, layout, &scale, lanes)?;
    match write_end(writer) {
        Ok(()) => Ok(()),
        Err(_) => Err(ReplayFault::Write),
    }
}

// Watches a script on a tree that has taken no step, and draws what was seen. Patterns take their
// memory from `patterns`, and all else from `alloc`.
fn draw_script<A: Allocator + Copy, R: BufRead, W: Write>(
    alloc: A,
    patterns: Global,
    reader: &mut R,
    writer: &mut W,
    tree: &mut Tree<A>,
    watcher: &mut SeenRun<A>,
) -> Result<(), ReplayFault> {
    watch_all(alloc, patterns, reader, tree, watcher)?;
    draw_all(alloc, writer, watcher, tree.now())
}

/// Reads a script of either version, hands its inputs to a new tree one after the other, and writes
/// a picture in SVG: a lane for each service name, which shows what the service was from when to
/// when, as docs/STORY.md says. Replies in the script are read and not compared. Hand in a buffered
/// reader and a buffered writer; the writer is not flushed here. Patterns take their memory from
/// `patterns`, and all else from `alloc`: some 16 bytes for each change that a lane shows.
///
/// The limits and the faults are those of `s6_replay::run`. The picture is written once the whole
/// script was read. So nothing was written at a fault that comes before. At `Write`, and at
/// `NoMemory` while it is written, a part of the picture was, from its beginning on.
pub fn draw_timeline<A: Allocator + Copy, R: BufRead, W: Write>(
    alloc: A,
    patterns: Global,
    reader: &mut R,
    writer: &mut W,
) -> Result<(), ReplayFault> {
    let mut tree = Tree::new(alloc);
    let mut watcher = SeenRun::new(alloc);
    draw_script(alloc, patterns, reader, writer, &mut tree, &mut watcher)
}
