//! Scenes: what is asked of offices, line by line, and what comes of it.
ghost use Rattle.std.specs.Prelude.{◌≡◌, ℕ, slice_get};
ghost use Rattle.office.specs.Names.{ring_of, lane_ring_of, asked_of};

use crate::opened::{Open, close, do_open};
use crate::parts::TestParts;
use channel_names::Channels;
use office::{NewOffice, OpenFault, Opened};
use order_lanes::{Backend, Lanes};
use status_board::Board;
use std::alloc::Global;
use std::io::Write;
use std::marker::Brand;
use std::sync::Wait;
use std::thread::Threads;
use std::time::Clock;
use tree_core::Tree;

/// Plays a scene on what a run left or begins with, and writes it: each line that begins with `> `,
/// and what came of it. `> open` and a number opens an office of so many actors on what the run
/// before left. Where something was refused for want of memory, `no memory` comes last.
pub fn play_scene<B: Backend + Send, R: Threads + Wait + Clock + Copy + Send + Sync + Drop>(
    rt: &R,
    alloc: Global,
    left: &mut Option<TestParts<B>>,
    scene: &str,
    text: &mut Vec<u8>,
) {
    for run in scene.split("> open ") {
        if !run.is_empty() && !play_next(rt, alloc, left, run, text) {
            let _ = text.extend_from_slice(b"no memory\n");
        }
    }
}

// Plays the next run: whether there was memory.
fn play_next<B: Backend + Send, R: Threads + Wait + Clock + Copy + Send + Sync + Drop>(
    rt: &R,
    alloc: Global,
    left: &mut Option<TestParts<B>>,
    run: &str,
    text: &mut Vec<u8>,
) -> bool {
    let (actors, lines) = run.split_once('\n').unwrap_or((run, ""));
    let actors = actors.parse::<usize>().unwrap_or(0);
    let is_written = writeln!(text, "> open {actors}").is_ok();
    match left.take() {
        Some(parts) => play_run(rt, alloc, actors, parts, lines, left, text) && is_written,
        None => false,
    }
}

// Plays a run on these parts.
fn play_run<B: Backend + Send, R: Threads + Wait + Clock + Copy + Send + Sync + Drop>(
    rt: &R,
    alloc: Global,
    actors: usize,
    parts: TestParts<B>,
    lines: &str,
    left: &mut Option<TestParts<B>>,
    text: &mut Vec<u8>,
) -> bool {
    let TestParts { tree, backends } = parts;
    let office = match NewOffice::new(alloc, tree, actors, backends) {
        Ok(office) => office,
        Err(refused) => return come_back(refused, left, text),
    };
    let (played, is_written) = play_named::<B, Brand, R>(rt, alloc, office, lines.as_bytes(), text);
    *left = played;
    is_written
}

// Plays a run that names the rings and the board of its office so: what it leaves, and whether
// there was memory. The lines come as bytes, since a call picks no names for a function that takes
// a `&str`.
fn play_named<
    B: Backend + Send,
    C: Channels + Lanes + Send + Sync,
    R: Threads + Wait + Clock + Copy + Send + Sync + Drop,
>(
    rt: &R,
    alloc: Global,
    office: NewOffice<B>,
    lines: &[u8],
    text: &mut Vec<u8>,
) -> (Option<TestParts<B>>, bool)
    requires seats { (k : ℕ) → C.seat_ring k ≡ ring_of (slice_get office.rings k) }
    requires board { C.board ≡ office.board }
    requires tree { C.opening ≡ office.tree }
    requires history { C.history ≡ office.history }
    requires lanes { (k : ℕ) → C.lane_ring k ≡ lane_ring_of (slice_get office.lane_rings k) }
    requires before { (k : ℕ) → C.asked_before k ≡ asked_of B.asked (slice_get office.backends k) }
{
    let lines = str::from_utf8(lines).unwrap_or("");
    let mut left = None;
    let is_written = match office.open::<C, R>(alloc, *rt) {
        Ok(opened) => play_opened(rt, alloc, opened, lines, &mut left, text),
        Err(refused) => come_back(refused, &mut left, text),
    };
    (left, is_written)
}

// The parts came back: why, how many steps the tree has made, and how many backends there are.
fn come_back<B: Backend>(
    refused: (OpenFault, Box<Tree<Global>>, Vec<B>),
    left: &mut Option<TestParts<B>>,
    text: &mut Vec<u8>,
) -> bool {
    let (fault, tree, backends) = refused;
    let (made, lanes) = (tree.steps(), backends.len());
    *left = Some(TestParts { tree, backends });
    writeln!(text, "{fault:?}, tree of {made}, {lanes} backends").is_ok()
}

// Plays the lines of an office that is open.
fn play_opened<
    B: Backend + Send,
    C: Channels + Lanes + Send + Sync,
    D: Board<C> + Send,
    R: Threads + Wait + Clock + Sync,
>(
    rt: &R,
    alloc: Global,
    opened: Opened<C, D, B>,
    lines: &str,
    left: &mut Option<TestParts<B>>,
    text: &mut Vec<u8>,
) -> bool {
    let finishes = Vec::new(alloc);
    let mut open = Some(Open { opened, finishes });
    play_lines(rt, alloc, lines, &mut open, left, text)
}

// Plays each line, up to the first that finds no memory.
fn play_lines<
    B: Backend + Send,
    C: Channels + Lanes + Send + Sync,
    D: Board<C> + Send,
    R: Threads + Wait + Clock + Sync,
>(
    rt: &R,
    alloc: Global,
    lines: &str,
    open: &mut Option<Open<C, D, B>>,
    left: &mut Option<TestParts<B>>,
    text: &mut Vec<u8>,
) -> bool {
    for line in lines.split('\n') {
        if let Some(asked) = line.strip_prefix("> ") {
            if !play_line(rt, alloc, asked, open, left, text) {
                return false;
            }
        }
    }
    true
}

// Plays a line: whether there was memory.
fn play_line<
    B: Backend + Send,
    C: Channels + Lanes + Send + Sync,
    D: Board<C> + Send,
    R: Threads + Wait + Clock + Sync,
>(
    rt: &R,
    alloc: Global,
    asked: &str,
    open: &mut Option<Open<C, D, B>>,
    left: &mut Option<TestParts<B>>,
    text: &mut Vec<u8>,
) -> bool {
    let is_written = writeln!(text, "> {asked}").is_ok();
    if asked == "close" {
        return close(rt, open, left, text) && is_written;
    }
    match open {
        Some(open) => do_open(rt, alloc, asked, open, text) && is_written,
        None => false,
    }
}
