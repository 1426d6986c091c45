//! Reads a `row` line, the status of a service. Its words are counted from 0: `row`, the serial,
//! the name, and then the fields.
ghost use Rattle.std.specs.Prelude.{◌≡◌, ◌≤◌, IfSome};
ghost use Rattle.tool_lines.specs.ServiceRows.{truth_of, number_of, number_in, truths_in, numbers_in, row_of, exit_in, sid_in};

use crate::words::{is_word, word_or_none};
use s6_events::{Exit, Name, Sid};
use servicedir::parse_digits;
use supervise_core::Row;

/// The greatest number that is read.
const MOST_NUMBER: u32 = 4_294_967_295;

/// The greatest exit code, and the greatest number of a signal.
const MOST_END: u32 = 255;

// The fields of a row that are true or false.
#[derive(Clone, Copy, Debug, PartialEq, Eq)]
struct Truths {
    up: bool,
    wanted_up: bool,
    normally_up: bool,
    ready: bool,
    paused: bool,
}

// The fields of a row that are numbers.
#[derive(Clone, Copy, Debug, PartialEq, Eq)]
struct Numbers {
    pid: Option<u32>,
    exit: Option<Exit>,
    up_down_for: Option<u32>,
    ready_for: Option<u32>,
}

// What the word of a field says, `true` or `false`; None where it is neither.
fn truth_of(word: &[u8]) -> Option<bool>
    ensures { result ≡ truth_of word.now }
{
    if is_word(word, b"true") {
        Some(true)
    } else if is_word(word, b"false") {
        Some(false)
    } else {
        None
    }
}

// The number that a word spells, up to `most`; no number where the word is -1. None for any other
// word.
fn number_of(word: &[u8], most: u32) -> Option<Option<u32>>
    ensures value { result ≡ number_of most word.now }
    ensures bound { IfSome result (λ number. IfSome number (λ n. n ≤ most)) }
{
    if is_word(word, b"-1") {
        return Some(None);
    }
    match parse_digits(word, most) {
        Some(number) => Some(Some(number)),
        None => None,
    }
}

// The number that a word of a `row` line spells, by its place, counted from 0; no number where the
// word is -1. None for any other word.
fn number_in(line: &[u8], place: usize) -> Option<Option<u32>>
    ensures { result ≡ number_in line.now place }
{
    number_of(word_or_none(line, place), MOST_NUMBER)
}

// How a run ended, by the words 9 and 10 of a `row` line, the exit code and the signal: its code or
// its signal, or neither. None where both are there, or one of them can't be read.
fn exit_in(line: &[u8]) -> Option<Option<Exit>>
    ensures { result ≡ exit_in line.now }
{
    let code = number_of(word_or_none(line, 9), MOST_END)?;
    let signal = number_of(word_or_none(line, 10), MOST_END)?;
    match (code, signal) {
        (None, None) => Some(None),
        (Some(code), None) => Some(Some(Exit::Code(code as u8))),
        (None, Some(signal)) => Some(Some(Exit::Killed(signal as u8))),
        (Some(_), Some(_)) => None,
    }
}

// The five fields of a `row` line that are true or false, its words 3 to 7, counted from 0; None
// where one of them is neither.
fn truths_in(line: &[u8]) -> Option<Truths>
    ensures { result ≡ truths_in line.now }
{
    Some(Truths {
        up: truth_of(word_or_none(line, 3))?,
        wanted_up: truth_of(word_or_none(line, 4))?,
        normally_up: truth_of(word_or_none(line, 5))?,
        ready: truth_of(word_or_none(line, 6))?,
        paused: truth_of(word_or_none(line, 7))?,
    })
}

// The process number, the last exit and the two ages of a `row` line, its words 8 to 12, counted
// from 0; None where one of them can't be read.
fn numbers_in(line: &[u8]) -> Option<Numbers>
    ensures { result ≡ numbers_in line.now }
{
    Some(Numbers {
        pid: number_in(line, 8)?,
        exit: exit_in(line)?,
        up_down_for: number_in(line, 11)?,
        ready_for: number_in(line, 12)?,
    })
}

// The serial of the service of a `row` line, which is its second word; None where that is no
// number.
fn sid_in(line: &[u8]) -> Option<Sid>
    ensures { result ≡ sid_in line.now }
{
    match parse_digits(word_or_none(line, 1), MOST_NUMBER) {
        Some(number) => Some(Sid(u64::from(number))),
        None => None,
    }
}

/// What a `row` line says of a service; None for any other line, and for one with a number over
/// 4294967295. The line is without its newline. `truths` are the fields that are true or false, and
/// `numbers` those that are numbers; `seconds_of` widens an age, if there is one.
pub fn row_of(line: &[u8]) -> Option<Row>
    ensures { result ≡ row_of line.now }
{
    let sid = sid_in(line)?;
    let name = Name::new(word_or_none(line, 2))?;
    let truths = truths_in(line)?;
    let numbers = numbers_in(line)?;
    Some(Row {
        sid,
        name,
        up: truths.up,
        wanted_up: truths.wanted_up,
        normally_up: truths.normally_up,
        ready: truths.ready,
        paused: truths.paused,
        pid: numbers.pid,
        exit: numbers.exit,
        up_down_for: seconds_of(numbers.up_down_for),
        ready_for: seconds_of(numbers.ready_for),
    })
}

// An age in seconds, as a line spelled it, in the 64 bits that it has in a `Row`; None where there
// is none.
fn seconds_of(number: Option<u32>) -> Option<u64>
    ensures { result ≡ number }
{
    number.map(|number| u64::from(number))
}
