//! Measures how many steps a second an office makes, beside a tree alone.
#![tactic(auto)]

mod fault;
mod figures;
mod office_steps;
mod rounds;
mod taker;
mod tree_steps;
mod words;

use fault::Fault;
use figures::{now, write_since};
use office_steps::drive_all;
use std::alloc::Global;
use std::io::Write;
use std::process::ExitCode;
use std::sync::Wait;
use std::time::Clock;
use tree_steps::apply_all;
use words::{AskedFigures, HELP, Load, USAGE, read_words};

// The steps of a tree alone.
fn measure_tree(
    clock: &impl Clock,
    alloc: Global,
    load: Load,
    output: &mut impl Write,
) -> Result<(), Fault> {
    let start = now(clock)?;
    apply_all(alloc, load)?;
    write_since(clock, output, "steps of a tree alone", load, start)
}

// The same steps of an office. What is measured begins as the office is opened.
fn measure_office<R: Wait + Clock>(
    rt: &R,
    alloc: Global,
    load: Load,
    output: &mut impl Write,
) -> Result<(), Fault> {
    let start = now(rt)?;
    drive_all(rt, alloc, load)?;
    write_since(rt, output, "steps of an office", load, start)
}

// Writes the help.
fn write_help(output: &mut impl Write) -> Result<(), Fault> {
    output.write_all(HELP).map_err(|_| Fault::Write)
}

// Does what the words ask for.
fn run<R: Wait + Clock>(
    rt: &R,
    alloc: Global,
    words: AskedFigures,
    output: &mut impl Write,
) -> Result<(), Fault> {
    match words {
        AskedFigures::Help => write_help(output),
        AskedFigures::Steps(load) => {
            measure_tree(rt, alloc, load, output)?;
            measure_office(rt, alloc, load, output)
        }
    }
}

fn main(rt: HostRuntime) -> ExitCode {
    let mut errors = rt.stderr();
    let Some(words) = read_words(&rt) else {
        let _ = errors.write_all(USAGE);
        return ExitCode::from(100);
    };
    if let Err(fault) = run(&rt, rt.alloc(), words, &mut rt.stdout()) {
        let _ = writeln!(errors, "figures: {fault}");
        return ExitCode::from(111);
    }
    ExitCode::from(0)
}
