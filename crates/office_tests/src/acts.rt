//! Acts of every kind, by number.
use s6_events::Actor;
use s6_script::{parse_line, push_number, push_spaced};
use std::alloc::{AllocError, Global};
use tree_core::Input;

/// An act of each kind, as a script has it. `#` stands for how many acts of its kind there are up
/// to this one, `%` for its number.
const ACTS: &str = "scan first second
started 1 # %
svc second u
notify 1 # 0a0a0a0a0a0a0a0a0a0a0a0a0a0a0a0a0a0a0a0a0a0a0a0a0a0a0a0a0a0a0a0a0a0a0a0a0a0a0a0a0a0a0a0a0a0a0a0a0a0a0a0a0a0a0a0a0a0a0a0a0a0a0a0a
death 1 # code 1
finished 1 # code 0
startfailed 2 #
status first
tally first
permafailon first 60 1 1-2,SIGTERM
mkdir free
subscribe dir free once a+b
send dir free aab
wait u o 100 first
cancel #
unsubscribe #
scanctl n
tick";

// The act of this number: of most kinds one in 18. Those for which a pattern is built or searched
// are rarer, since they take most of the time; and now and then all services are ordered to leave.
fn act_of(number: u32) -> &'static str {
    match number % 18 {
        11 if number % 1_800 == 11 => "subscribe dir free repeat a+b",
        11 if number % 180 != 11 => "tick",
        12 if number % 36 != 12 => "tick",
        16 if number % 1_800 != 16 => "tick",
        kind => ACTS.split('\n').nth(kind as usize).unwrap_or("tick"),
    }
}

// Adds a byte of an act, or what it stands for.
fn push_byte(text: &mut Vec<u8>, byte: u8, number: u32) -> Result<(), AllocError> {
    match byte {
        b'#' => push_number(text, u64::from(number / 18) + 1),
        b'%' => push_number(text, u64::from(number)),
        other => text.extend_from_slice(&[other]),
    }
}

// Adds the act of this number.
fn push_act(text: &mut Vec<u8>, number: u32) -> Result<(), AllocError> {
    for byte in act_of(number).as_bytes() {
        push_byte(text, *byte, number)?;
    }
    Ok(())
}

// Adds the line of an actor's input of this number. Each comes a tenth of a second after the one
// before.
fn push_input(text: &mut Vec<u8>, actor: Actor, number: u32) -> Result<(), AllocError> {
    push_number(text, u64::from(number) * 100)?;
    push_spaced(text, u64::from(actor.number()))?;
    push_byte(text, b' ', number)?;
    push_act(text, number)
}

/// The input of this number of an actor; None where there is no memory.
pub fn input_of(alloc: Global, actor: Actor, number: u32) -> Option<Input<Global>> {
    let mut line = Vec::new(alloc);
    match push_input(&mut line, actor, number) {
        Ok(()) => parse_line(alloc, alloc, line.as_slice()).ok(),
        Err(_) => None,
    }
}
