//! The program of the supervision tree: it runs a tree, or one of the tools that talk to it.
#![tactic(auto)]

ghost use Rattle.std.specs.Prelude.{◌≤◌};

use std::env;
use std::env::Env;
use std::process::ExitCode;
use tree_front::{Begun, BegunTree, LimitedErrors, Standard, begin_program, end_program};
use tree_server::{HANDOVER, run_tree};

// After how many steps a run of the tree ends, and the next goes on from its tree: the number in
// the environment variable S6_TREE_HANDOVER. It is HANDOVER, the most, where that is not set or
// can't be read, is no number, is 0 or is greater.
fn handover<R: Env + Alloc>(rt: &R) -> u64
    ensures least { 1 ≤ result }
    ensures most { result ≤ 260000 }
{
    let steps = match env::var(rt, "S6_TREE_HANDOVER") {
        Ok(text) => text.as_str().parse::<u64>().unwrap_or(HANDOVER),
        Err(_) => HANDOVER,
    };
    if steps == 0 {
        HANDOVER
    } else {
        steps.min(HANDOVER)
    }
}

// The program: does what the command line asks for, and returns the exit status. `begin_program`
// does that itself (`Done`), but where a tree is asked for it returns what the tree needs: `place`
// says where it runs, `lanes` start and signal its services, `keeper` has the threads that watch
// them, `notes` are lines for standard error, and `probe` is the try whether there is a shell. Then
// the tree runs to its end.
fn main(rt: HostRuntime) -> ExitCode {
    let alloc = rt.alloc();
    // What the program reads and writes. Standard error is there twice: once for the thread that
    // writes the notes. A limit of a file's size is kept.
    let standard = Standard {
        input: rt.stdin(),
        output: rt.stdout(),
        errors: LimitedErrors::new(rt, alloc, rt.stderr()),
        notes_output: LimitedErrors::new(rt, alloc, rt.stderr()),
    };
    let BegunTree {
        place,
        lanes,
        keeper,
        notes,
        probe,
    } = match begin_program(rt, alloc, standard) {
        // A tool was run, or the words were wrong.
        Begun::Done(status) => return ExitCode::from(status),
        Begun::Tree(tree) => tree,
    };
    // The directory, the socket and the record of the tree, and how many steps a run has.
    let options = place.options(handover(&(&rt, alloc)));
    // `done` is how the tree came to its end.
    let done = run_tree(&rt, alloc, lanes, probe, options, &notes);
    // This ends the keeper and the notes, and tells why the tree ended, if that is a fault.
    ExitCode::from(end_program(&rt, &place, keeper, &notes, done))
}
