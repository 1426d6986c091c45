//! The record of the running tree: whether it is legal, and what it has of each service.
use crate::attempts::Text;
use crate::tree_places::Places;
use s6_events::NoMemory;
use s6_replay::{Checked, ReplayFault, check, run};
use std::alloc::Global;
use std::fs::File;
use std::io::{self, Read, Write};
use std::rt::Files;
use std::str;

/// The serials of the services.
const SERIALS: [&str; 3] = ["1", "2", "3"];

/// The actors that hand in reports: one for each lane.
const LANES: [&str; 2] = ["1", "2"];

// Adds what is in the file of the record.
fn read_record<R: Files<File = File>>(
    rt: &R,
    places: &Places,
    record: &mut Text,
) -> io::Result<()> {
    let mut file = File::open(rt, places.record.as_str())?;
    let mut part = [0u8; 1_024];
    for _ in 0..1_000 {
        let count = file.read(&mut part)?;
        if count == 0 {
            break;
        }
        let _ = record.try_extend_from_slice(part.get(..count).unwrap_or(&[]));
    }
    Ok(())
}

// How many steps the record has, where it is legal; None where it isn't.
fn legal_steps(alloc: Global, record: &Text) -> Result<Option<u64>, NoMemory> {
    match check(alloc, alloc, &mut record.as_slice()) {
        Ok(Checked::Legal(steps)) => Ok(Some(steps)),
        Err(ReplayFault::NoMemory) => Err(NoMemory),
        _ => Ok(None),
    }
}

/// Tells whether the record is legal and has as many steps as the answer `recorded N` says.
pub fn tell_recorded<R: Files<File = File>>(
    rt: &R,
    alloc: Global,
    places: &Places,
    answer: &str,
    text: &mut Text,
) -> Result<(), NoMemory> {
    let told = match answer.trim_end().strip_prefix("recorded ") {
        Some(number) => number.parse::<u64>().ok(),
        None => None,
    };
    let mut record = Text::new();
    read_record(rt, places, &mut record).map_err(|_| NoMemory)?;
    let steps = legal_steps(alloc, &record)?;
    tell_steps(steps, told, text);
    Ok(())
}

// Tells whether a legal record has this many steps.
fn tell_steps(steps: Option<u64>, told: Option<u64>, text: &mut Text) {
    if steps.is_some() && steps == told {
        let _ = text.try_extend_from_slice(b"legal, with all steps\n");
    } else {
        let _ = writeln!(text, "not legal, or of other steps: {steps:?}, {told:?}");
    }
}

/// Tells what the whole record has, of this many steps: the reports of each service, and the
/// letters and orders that a replay gives. Returns how often memory was refused.
pub fn tell_record<R: Files<File = File>>(
    rt: &R,
    alloc: Global,
    places: &Places,
    steps: u64,
    text: &mut Text,
) -> u32 {
    for refusals in 0..2 {
        let mut told = Text::new();
        if add_record(rt, alloc, places, steps, &mut told).is_ok() {
            let _ = text.try_extend_from_slice(told.as_slice());
            return refusals;
        }
    }
    let _ = text.try_extend_from_slice(b"no record\n");
    2
}

fn add_record<R: Files<File = File>>(
    rt: &R,
    alloc: Global,
    places: &Places,
    steps: u64,
    text: &mut Text,
) -> Result<(), NoMemory> {
    let mut record = Text::new();
    read_record(rt, places, &mut record).map_err(|_| NoMemory)?;
    tell_steps(legal_steps(alloc, &record)?, Some(steps), text);
    let mut effects = Text::new();
    if run(alloc, alloc, &mut record.as_slice(), &mut effects).is_err() {
        return Err(NoMemory);
    }
    for serial in SERIALS.iter() {
        add_reports(serial, &record, text);
        add_effects(serial, &effects, text);
    }
    Ok(())
}

// Adds the reports of a service in the record, in order, each with its reply.
fn add_reports(serial: &str, record: &Text, text: &mut Text) {
    let lines = str::from_utf8(record.as_slice()).unwrap_or("");
    let mut report = None;
    for line in lines.split('\n') {
        match (report, line.strip_prefix("= ")) {
            (Some(report), Some(reply)) => {
                let _ = writeln!(text, "{report} -> {reply}");
            }
            _ => {}
        }
        report = report_of(serial, line);
    }
}

// The words of the report in the line of an input, without its moment and its actor; None where the
// line is no report of this service.
fn report_of<'a>(serial: &str, line: &'a str) -> Option<&'a str> {
    let (_moment, rest) = line.split_once(' ')?;
    let (actor, words) = rest.split_once(' ')?;
    let is_of_lane = LANES.iter().any(|lane| *lane == actor);
    let is_of_service = words.split(' ').nth(1) == Some(serial);
    (is_of_lane && is_of_service).then_some(words)
}

// Adds the letters and the orders of a service that a replay gave, in order.
fn add_effects(serial: &str, effects: &Text, text: &mut Text) {
    let lines = str::from_utf8(effects.as_slice()).unwrap_or("");
    for line in lines.split('\n') {
        let mut words = line.split(' ');
        let is_of_service = match (words.next(), words.next()) {
            (Some("e"), Some(word)) => word == serial,
            (Some("o"), Some(_)) => words.next() == Some(serial),
            _ => false,
        };
        if is_of_service {
            let _ = writeln!(text, "{line}");
        }
    }
}
