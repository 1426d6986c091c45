//! The figures that are written, and the clock that they are read off.
use crate::fault::Fault;
use crate::words::Load;
use std::io::{self, Write};
use std::time::{Clock, Instant};

/// The moment that it is.
pub fn now(clock: &impl Clock) -> Result<Instant, Fault> {
    Instant::now(clock).map_err(|_| Fault::NoClock)
}

// Writes a line of figures about `what`: how many steps there were, how long they took (`micros`),
// and so how many there are in a second.
fn write_figures(output: &mut impl Write, what: &str, load: Load, micros: u128) -> io::Result<()> {
    let (seats, all, millis) = (load.seats, load.all(), micros / 1000);
    let a_second = u128::from(all) * 1_000_000 / micros.max(1);
    writeln!(
        output,
        "{what}: {seats} seats, {all} in all, {millis} ms, {a_second} a second"
    )?;
    output.flush()
}

/// Writes the line of figures about `what`, which was begun at `start` and is done now.
pub fn write_since(
    clock: &impl Clock,
    output: &mut impl Write,
    what: &str,
    load: Load,
    start: Instant,
) -> Result<(), Fault> {
    let passed = start.elapsed(clock).map_err(|_| Fault::NoClock)?;
    write_figures(output, what, load, passed.as_micros()).map_err(|_| Fault::Write)
}
