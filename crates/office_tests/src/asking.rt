//! What is asked of an office alone.
use crate::replaying::is_replayed;
use channel_names::Channels;
use inbox::Ticket;
use office::Office;
use order_lanes::{Backend, Lanes};
use run_history::KnownHistory;
use s6_events::Actor;
use s6_replay::{check, write_effect};
use s6_script::push_reply;
use status_board::Board;
use std::alloc::Global;
use std::io::Write;
use std::sync::Wait;
use tree_core::Reply;

// The numbers of a line; 0 where there is none.
fn numbers_of(rest: &str) -> (u64, u64) {
    let (first, second) = rest.split_once(' ').unwrap_or((rest, ""));
    (number_of(first), number_of(second))
}

fn number_of(word: &str) -> u64 {
    word.parse::<u64>().unwrap_or(0)
}

// The actor of this number, if there is one.
fn actor_of(number: u64) -> Option<Actor> {
    Actor::new(u8::try_from(number).ok()?)
}

/// Does what a line asks of an office, and writes what came of it. Whether the line could be read,
/// and there was memory.
pub fn ask<C: Channels + Lanes, D: Board<C>, B: Backend, R: Wait>(
    rt: &R,
    alloc: Global,
    verb: &str,
    rest: &str,
    office: &Office<C, D, B>,
    known: &mut KnownHistory<C>,
    text: &mut Vec<u8>,
) -> bool {
    let (first, second) = numbers_of(rest);
    match verb {
        "drive" => drive(rt, office, known, first, text),
        "carry" => carry(rt, office, first as usize, second, text),
        "reply" => tell_reply(rt, office, known, first, second, text),
        "effect" => tell_effect(rt, alloc, office, known, first, text),
        "record" => record(rt, office, known, first == 1, text),
        "check" => tell_checked(rt, alloc, office, known, text),
        "done" => tell_answered(rt, office, known, first, true, text),
        "answered" => tell_answered(rt, office, known, first, false, text),
        "replayed" => tell_replayed(rt, alloc, office, known, first, text),
        _ => false,
    }
}

// Makes at most so many steps.
fn drive<C: Channels + Lanes, D: Board<C>, B: Backend, R: Wait>(
    rt: &R,
    office: &Office<C, D, B>,
    known: &mut KnownHistory<C>,
    most: u64,
    text: &mut Vec<u8>,
) -> bool {
    let driven = office.drive(rt, known, most);
    writeln!(text, "{driven:?}").is_ok()
}

// Asks a lane's backend at most so many times.
fn carry<C: Channels + Lanes, D: Board<C>, B: Backend, R: Wait>(
    rt: &R,
    office: &Office<C, D, B>,
    lane: usize,
    most: u64,
    text: &mut Vec<u8>,
) -> bool {
    if lane >= office.lanes() || most == 0 {
        return false;
    }
    let carried = office.carry(rt, lane, most);
    writeln!(text, "{carried:?}").is_ok()
}

// Tells the reply to an actor's input of this number.
fn tell_reply<C: Channels + Lanes, D: Board<C>, B: Backend, R: Wait>(
    rt: &R,
    office: &Office<C, D, B>,
    known: &mut KnownHistory<C>,
    actor: u64,
    number: u64,
    text: &mut Vec<u8>,
) -> bool {
    let Some(actor) = actor_of(actor) else {
        return false;
    };
    match office.reply(rt, known, Ticket { actor, number }) {
        Ok(Some(reply)) => push_reply(text, &reply).is_ok() && text.push(b'\n').is_ok(),
        Ok(None) => text.extend_from_slice(b"none\n").is_ok(),
        Err(_) => false,
    }
}

// Whether a reply counts, where maybe `done` alone does.
fn does_count(reply: &Reply<Global>, by_done: bool) -> bool {
    !by_done || matches!(reply, Reply::Done)
}

// Whether the input of a ticket is answered, by `done` where that is wanted.
fn is_answered<C: Channels + Lanes, D: Board<C>, B: Backend, R: Wait>(
    rt: &R,
    office: &Office<C, D, B>,
    known: &mut KnownHistory<C>,
    ticket: Ticket,
    by_done: bool,
) -> bool {
    match office.reply(rt, known, ticket) {
        Ok(Some(reply)) => does_count(&reply, by_done),
        _ => false,
    }
}

// How many of an actor's first so many inputs are answered.
fn count_answered<C: Channels + Lanes, D: Board<C>, B: Backend, R: Wait>(
    rt: &R,
    office: &Office<C, D, B>,
    known: &mut KnownHistory<C>,
    actor: Actor,
    most: u64,
    by_done: bool,
) -> u64 {
    let mut count = 0u64;
    for number in 0..most {
        let number = number + 1;
        let is_one = is_answered(rt, office, known, Ticket { actor, number }, by_done);
        count = count.saturating_add(u64::from(is_one));
    }
    count
}

// Tells how many of each actor's first so many inputs are answered, those of all actors together.
fn tell_answered<C: Channels + Lanes, D: Board<C>, B: Backend, R: Wait>(
    rt: &R,
    office: &Office<C, D, B>,
    known: &mut KnownHistory<C>,
    most: u64,
    by_done: bool,
    text: &mut Vec<u8>,
) -> bool {
    let mut count = 0u64;
    for number in 0..16u8 {
        let actor = Actor::new(number).unwrap_or_default();
        count = count.saturating_add(count_answered(rt, office, known, actor, most, by_done));
    }
    writeln!(text, "{count}").is_ok()
}

// Tells all that the step of this number gave.
fn tell_effect<C: Channels + Lanes, D: Board<C>, B: Backend, R: Wait>(
    rt: &R,
    alloc: Global,
    office: &Office<C, D, B>,
    known: &mut KnownHistory<C>,
    number: u64,
    text: &mut Vec<u8>,
) -> bool {
    match office.effect(rt, known, number) {
        Ok(Some(effect)) => write_effect(alloc, number, &effect, text).is_ok(),
        Ok(None) => text.extend_from_slice(b"none\n").is_ok(),
        Err(_) => false,
    }
}

// Writes the run as a script, behind the head line if `head`, and how many steps that are.
fn record<C: Channels + Lanes, D: Board<C>, B: Backend, R: Wait>(
    rt: &R,
    office: &Office<C, D, B>,
    known: &mut KnownHistory<C>,
    head: bool,
    text: &mut Vec<u8>,
) -> bool {
    match office.write_run(rt, known, head, text) {
        Ok(count) => writeln!(text, "{count} steps").is_ok(),
        Err(_) => false,
    }
}

// Tells what a check finds of the run, written as a script.
fn tell_checked<C: Channels + Lanes, D: Board<C>, B: Backend, R: Wait>(
    rt: &R,
    alloc: Global,
    office: &Office<C, D, B>,
    known: &mut KnownHistory<C>,
    text: &mut Vec<u8>,
) -> bool {
    let mut script = Vec::new(alloc);
    if office.write_run(rt, known, true, &mut script).is_err() {
        return false;
    }
    match check(alloc, alloc, &mut script.as_slice()) {
        Ok(checked) => writeln!(text, "{checked:?}").is_ok(),
        Err(fault) => writeln!(text, "{fault:?}").is_ok(),
    }
}

// Tells whether a new tree that takes the inputs of so many steps, one after the other, gives the
// replies of the records.
fn tell_replayed<C: Channels + Lanes, D: Board<C>, B: Backend, R: Wait>(
    rt: &R,
    alloc: Global,
    office: &Office<C, D, B>,
    known: &mut KnownHistory<C>,
    steps: u64,
    text: &mut Vec<u8>,
) -> bool {
    match is_replayed(rt, alloc, office, known, steps) {
        Some(is_same) => writeln!(text, "{is_same}").is_ok(),
        None => false,
    }
}
