//! The lines of a server without what another run may tell otherwise: moments, ages, and the
//! serials of waiters and subscriptions.
use std::io::Write;

/// How many words of a `row` are told: all but its two ages.
const ROW_WORDS: usize = 11;

/// How many words of a `state` are told: those of its row, behind `state`, its word and its moment.
const STATE_WORDS: usize = 14;

// Whether the word at this place is told of a line that begins with `first`.
fn is_told(first: &str, place: usize) -> bool {
    match first {
        "row" => place < ROW_WORDS,
        "state" => place != 2 && place < STATE_WORDS,
        "e" | "r" | "m" => place != 1,
        "wait" | "sub" | "clock" | "recorded" => place == 0,
        _ => true,
    }
}

// The word as it is told: of a death of a tally, what is behind its moment.
fn told_word<'a>(first: &str, word: &'a str) -> &'a str {
    match word.split_once(':') {
        Some((_, exit)) if first == "tally" => exit,
        _ => word,
    }
}

/// Writes the line, and a newline.
pub fn write_plain<W: Write>(line: &str, text: &mut W) {
    let first = line.split(' ').next().unwrap_or("");
    for (place, word) in line.split(' ').enumerate() {
        if is_told(first, place) {
            if place > 0 {
                let _ = text.write_all(b" ");
            }
            let _ = text.write_all(told_word(first, word).as_bytes());
        }
    }
    let _ = text.write_all(b"\n");
}

/// Writes each line of a message.
pub fn write_all_plain<W: Write>(message: &str, text: &mut W) {
    for line in message.split('\n') {
        if !line.is_empty() {
            write_plain(line, text);
        }
    }
}
