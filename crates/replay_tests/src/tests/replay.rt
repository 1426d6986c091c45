//! Scripts and transcripts: what no clause says, and the worked rows.
use super::cases::Case;
use super::{holds, same};
use s6_replay::{Counts, ReplayFault, run};
use std::alloc::Global;
use std::process::Abort;
use std::test::Fail;

mod cut;
mod ends;
mod fakes;
mod images;
mod limits;
mod lines;
mod printing;
mod recorded;
mod refused;
mod rows;
mod spelling;

// What is answered, and what was written.
#[derive(Drop)]
struct Replayed {
    answer: Result<Counts, ReplayFault>,
    written: Vec<u8>,
}

// A replay of a script in memory.
fn replay_in_memory(alloc: Global, script: &[u8]) -> Replayed {
    let mut reader = script;
    let mut written = Vec::new(alloc);
    let answer = run(alloc, alloc, &mut reader, &mut written);
    Replayed { answer, written }
}

// The answer in words.
fn words_of(alloc: Global, answer: &Result<Counts, ReplayFault>) -> Result<String, Fail> {
    Ok(match answer {
        Ok(
            Counts {
                inputs,
                events,
                orders,
            },
        ) => format!(in alloc; "{inputs} inputs, {events} events, {orders} orders")?,
        Err(fault) => format!(in alloc; "{fault}")?,
    })
}

// What was done gives the answer of the case, and what is written there.
fn check_replayed(
    rt: &impl Abort,
    alloc: Global,
    found: &Replayed,
    case: &Case,
) -> Result<(), Fail> {
    let words = words_of(alloc, &found.answer)?;
    same(rt, case.name, words.as_bytes(), case.answer.as_bytes());
    same(
        rt,
        case.name,
        found.written.as_slice(),
        case.written.as_bytes(),
    );
    Ok(())
}

// How many blocks of the transcript the text is, from its beginning on, or None where it isn't a
// number of whole ones. A block begins with its number, and its other lines with a letter.
fn count_blocks(transcript: &str, text: &[u8]) -> Option<usize> {
    let rest = transcript.as_bytes().strip_prefix(text)?;
    let mut count = 0usize;
    let mut begins_line = true;
    for byte in text {
        if begins_line && byte.is_ascii_digit() {
            count = count.saturating_add(1);
        }
        begins_line = *byte == b'\n';
    }
    let is_end = match rest.first() {
        Some(byte) => byte.is_ascii_digit(),
        None => true,
    };
    if begins_line && is_end {
        Some(count)
    } else {
        None
    }
}
