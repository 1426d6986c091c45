//! The steps of that run, and what is told of them.
use crate::acts::submit_all;
use crate::attempts::{Attempts, Text};
use crate::office_run::Played;
use channel_names::Channels;
use inbox::{Finished, Seat};
use locked_services::{DriveStop, Driven};
use office::{Office, Opened};
use order_lanes::{AskFault, Backend, Carried, Lanes};
use run_history::KnownHistory;
use run_records::RunFault;
use s6_events::NoMemory;
use s6_replay::{Checked, ReplayFault, check, write_effect};
use s6_script::push_row;
use status_board::{Board, BoardReader};
use std::alloc::Global;
use std::io::Write;
use std::sync::Wait;
use supervise_core::Row;

/// Plays the run of an office, and closes it.
pub fn play_opened<B: Backend, C: Channels + Lanes, D: Board<C>, R: Wait>(
    rt: &R,
    alloc: Global,
    opened: Opened<C, D, B>,
    attempts: &mut Attempts,
) -> Played<B> {
    let Opened {
        office,
        mut seats,
        mut readers,
        mut known,
    } = opened;
    for _ in 0..submit_all(alloc, seats.as_mut_slice()) {
        attempts.refuse();
    }
    drive_all(rt, &office, &mut known, attempts);
    carry_all(rt, &office, attempts);
    attempts.make(
        "effects",
        |text| tell_effects(rt, alloc, &office, &mut known, text),
    );
    attempts.make("record", |text| record(rt, &office, &mut known, text));
    attempts.make(
        "legal",
        |text| tell_legal(rt, alloc, &office, &mut known, text),
    );
    let readers = readers.as_mut_slice();
    attempts.make(
        "shown",
        |text| tell_shot(rt, alloc, &office, &mut known, readers, text),
    );
    close(rt, alloc, office, seats, known, attempts)
}

// Makes all steps, one by one. A refused one is none, and is made when it is asked for again.
fn drive_all<B: Backend, C: Channels + Lanes, D: Board<C>, R: Wait>(
    rt: &R,
    office: &Office<C, D, B>,
    known: &mut KnownHistory<C>,
    attempts: &mut Attempts,
) {
    let mut made = 0u64;
    for _ in 0..1_000 {
        let Driven { steps, stop } = office.drive(rt, known, 1);
        made = made.saturating_add(steps);
        match stop {
            DriveStop::Count => {}
            DriveStop::NoMemory => {
                attempts.refuse();
                if office.steps(rt, known) as u64 != made {
                    attempts.add(b"another count\n");
                }
            }
            DriveStop::Blocked(lane) if lane < office.lanes() => {
                office.carry(rt, lane, 1);
            }
            _ => break,
        }
    }
}

// Has all orders asked.
fn carry_all<B: Backend, C: Channels + Lanes, D: Board<C>, R: Wait>(
    rt: &R,
    office: &Office<C, D, B>,
    attempts: &mut Attempts,
) {
    for lane in 0..office.lanes() {
        for _ in 0..2 {
            if office.carry(rt, lane, 4_096) == Carried::Refused(AskFault::NoMemory) {
                attempts.refuse();
            }
        }
    }
}

// What each step gave.
fn tell_effects<B: Backend, C: Channels + Lanes, D: Board<C>, R: Wait>(
    rt: &R,
    alloc: Global,
    office: &Office<C, D, B>,
    known: &mut KnownHistory<C>,
    text: &mut Text,
) -> Result<(), NoMemory> {
    for number in 1..=65u64 {
        match office.effect(rt, known, number)? {
            Some(effect) => {
                write_effect(alloc, number, &effect, text).map_err(|_| NoMemory)?;
            }
            None => {
                let _ = writeln!(text, "{number} is none");
            }
        }
    }
    Ok(())
}

// The run as a script.
fn record<B: Backend, C: Channels + Lanes, D: Board<C>, R: Wait>(
    rt: &R,
    office: &Office<C, D, B>,
    known: &mut KnownHistory<C>,
    text: &mut Text,
) -> Result<(), NoMemory> {
    match office.write_run(rt, known, true, text) {
        Ok(count) => {
            let _ = writeln!(text, "{count} steps");
            Ok(())
        }
        Err(RunFault::NoMemory) => Err(NoMemory),
        Err(fault) => {
            let _ = writeln!(text, "{fault:?}");
            Ok(())
        }
    }
}

// Whether the script is legal.
fn tell_legal<B: Backend, C: Channels + Lanes, D: Board<C>, R: Wait>(
    rt: &R,
    alloc: Global,
    office: &Office<C, D, B>,
    known: &mut KnownHistory<C>,
    text: &mut Text,
) -> Result<(), NoMemory> {
    let mut script = Text::new();
    if office.write_run(rt, known, true, &mut script) == Err(RunFault::NoMemory) {
        return Err(NoMemory);
    }
    match check(alloc, alloc, &mut script.as_slice()) {
        Err(ReplayFault::NoMemory) => return Err(NoMemory),
        Ok(Checked::Legal(count)) => {
            let _ = writeln!(text, "legal {count}");
        }
        _ => {
            let _ = writeln!(text, "not legal");
        }
    }
    Ok(())
}

// The state that was published last.
fn tell_shot<B: Backend, C: Channels + Lanes, D: Board<C>, R: Wait>(
    rt: &R,
    alloc: Global,
    office: &Office<C, D, B>,
    known: &mut KnownHistory<C>,
    readers: &mut [BoardReader<C>],
    text: &mut Text,
) -> Result<(), NoMemory> {
    let told = office.tell(rt, known);
    let Some(reader) = readers.first_mut() else {
        return Ok(());
    };
    reader.learn(told);
    let Some(shot) = reader.read() else {
        return Ok(());
    };
    let _ = writeln!(text, "after step {}", shot.at);
    tell_rows(alloc, shot.rows.as_slice(), text)
}

/// Tells rows, a line for each.
pub fn tell_rows(alloc: Global, rows: &[Row], text: &mut Text) -> Result<(), NoMemory> {
    let mut lines = Vec::new(alloc);
    for row in rows {
        push_row(&mut lines, row)?;
        lines.push(b'\n')?;
    }
    let _ = text.try_extend_from_slice(lines.as_slice());
    Ok(())
}

// Closes the office, which takes no memory but for the list of what its two seats leave. Where that
// is refused, it is asked for once more, as all is in this trial.
fn close<B: Backend, C: Channels + Lanes, D: Board<C>, R: Wait>(
    rt: &R,
    alloc: Global,
    office: Office<C, D, B>,
    seats: Vec<Seat<C>>,
    mut known: KnownHistory<C>,
    attempts: &mut Attempts,
) -> Played<B> {
    let mut finishes: Vec<Finished<C>> = Vec::new(alloc);
    if finishes.reserve(2).is_err() {
        attempts.refuse();
        let _ = finishes.reserve(2);
    }
    for seat in seats {
        let _ = finishes.push(seat.finish());
    }
    match office.close(rt, &mut known, finishes) {
        Ok(closed) => Played::Closed(closed),
        Err(_) => Played::Lost,
    }
}
