//! Reads a line of the server, whose words are counted from 0. The lines are this program's own,
//! not those of s6.
ghost use Rattle.std.specs.Prelude.{◌≡◌};
ghost use Rattle.s6_tools.specs.Answers.{is_done, kind_of, outcome_of, release_of, match_of, failure_of, answer_of, says_done};

use crate::tool_fault::ToolFault;
use tool_lines::{ToldWord, is_word, word_or_none};

/// How a waiter was released.
#[derive(Clone, Copy, Debug, PartialEq, Eq)]
pub enum Outcome {
    /// `held`: what it waited for holds.
    Held,
    /// `failed`: a service that it waited for failed for good.
    Failed,
    /// `gone`: the supervisor of a service that it waited for has ended.
    Gone,
    /// `timedout`: its time was up.
    TimedOut,
}

/// What a line of the server says to the tool that reads it. A tool has at most one waiter or
/// subscription on its connection, so it ignores serials.
#[derive(Debug, Drop)]
pub enum ServerAnswer {
    /// `done`, `scanned ..`, `tally ..`, `recorded ..` or `clock ..`: the request was carried out.
    Done,
    /// `refused REASON`.
    Refused(ToldWord),
    /// `row ..`: a status.
    Row,
    /// `wait WAIT`: the waiter was made.
    Waiter,
    /// `sub SUB`: the subscription was made.
    Subscription,
    /// `permafail 125` or `permafail 0`: whether the service fails for good.
    PermanentFailure(bool),
    /// `r WAIT OUTCOME`: the waiter was released.
    Released(Outcome),
    /// `m SUB LETTER`: the subscription has matched up to this letter.
    Matched(u8),
    /// `m SUB overlong`: the subscription has ended, because its text grew too long.
    Overlong,
    /// `busy`: the server has no slot for one more connection.
    Busy,
    /// A line that no server writes.
    Strange,
}

impl ServerAnswer {
    /// Whether it says that the request was carried out.
    pub fn says_done(&self) -> bool
        ensures { result ≡ says_done self.now }
    {
        matches!(self, ServerAnswer::Done)
    }
}

// The kind of a line, by its first word.
#[derive(Clone, Copy, Debug, PartialEq, Eq)]
enum Kind {
    Done,
    Refused,
    Row,
    Waiter,
    Subscription,
    Failure,
    Release,
    Match,
    Busy,
    Strange,
}

// Whether it is the first word of an answer to a request that was carried out.
fn is_done(word: &[u8]) -> bool
    ensures { result ≡ is_done word.now }
{
    is_word(word, b"done")
        || is_word(word, b"scanned")
        || is_word(word, b"tally")
        || is_word(word, b"recorded")
        || is_word(word, b"clock")
}

// The kind of a server's line, by `word`, the first word of the line; Strange where none of the
// other kinds begins with it.
fn kind_of(word: &[u8]) -> Kind
    ensures { result ≡ kind_of word.now }
{
    if is_done(word) {
        Kind::Done
    } else if is_word(word, b"refused") {
        Kind::Refused
    } else if is_word(word, b"row") {
        Kind::Row
    } else if is_word(word, b"wait") {
        Kind::Waiter
    } else if is_word(word, b"sub") {
        Kind::Subscription
    } else if is_word(word, b"permafail") {
        Kind::Failure
    } else if is_word(word, b"r") {
        Kind::Release
    } else if is_word(word, b"m") {
        Kind::Match
    } else if is_word(word, b"busy") {
        Kind::Busy
    } else {
        Kind::Strange
    }
}

// How a waiter was released, by `word`, the third word of a line `r WAIT OUTCOME`; None where that
// is no outcome.
fn outcome_of(word: &[u8]) -> Option<Outcome>
    ensures { result ≡ outcome_of word.now }
{
    if is_word(word, b"held") {
        Some(Outcome::Held)
    } else if is_word(word, b"failed") {
        Some(Outcome::Failed)
    } else if is_word(word, b"gone") {
        Some(Outcome::Gone)
    } else if is_word(word, b"timedout") {
        Some(Outcome::TimedOut)
    } else {
        None
    }
}

// What an `r` line says, by its third word.
fn release_of(word: &[u8]) -> ServerAnswer
    ensures { result ≡ release_of word.now }
{
    match outcome_of(word) {
        Some(outcome) => ServerAnswer::Released(outcome),
        None => ServerAnswer::Strange,
    }
}

// What an `m` line says, by its third word.
fn match_of(word: &[u8]) -> ServerAnswer
    ensures { result ≡ match_of word.now }
{
    if is_word(word, b"overlong") {
        return ServerAnswer::Overlong;
    }
    match word {
        [letter] => ServerAnswer::Matched(*letter),
        _ => ServerAnswer::Strange,
    }
}

// Whether a service fails for good, by the word behind `permafail`: 125 where it does, as the
// status of `permafailon` says it, else 0.
fn failure_of(word: &[u8]) -> ServerAnswer
    ensures { result ≡ failure_of word.now }
{
    if is_word(word, b"125") {
        ServerAnswer::PermanentFailure(true)
    } else if is_word(word, b"0") {
        ServerAnswer::PermanentFailure(false)
    } else {
        ServerAnswer::Strange
    }
}

/// What a line says. The line is without its newline.
pub fn read_answer(line: &[u8]) -> ServerAnswer
    ensures { result ≡ answer_of line.now }
{
    match kind_of(word_or_none(line, 0)) {
        Kind::Done => ServerAnswer::Done,
        Kind::Refused => ServerAnswer::Refused(ToldWord::new(word_or_none(line, 1))),
        Kind::Row => ServerAnswer::Row,
        Kind::Waiter => ServerAnswer::Waiter,
        Kind::Subscription => ServerAnswer::Subscription,
        Kind::Failure => failure_of(word_or_none(line, 1)),
        // Behind `r` and `m` stands a serial, and then the verdict or the letter.
        Kind::Release => release_of(word_or_none(line, 2)),
        Kind::Match => match_of(word_or_none(line, 2)),
        Kind::Busy => ServerAnswer::Busy,
        Kind::Strange => ServerAnswer::Strange,
    }
}

/// Looks whether the answer says that the request was carried out. The fault is `Socket` where it
/// is another line, which no server writes then.
pub fn expect_done(answer: &ServerAnswer) -> Result<(), ToolFault> {
    if answer.says_done() {
        Ok(())
    } else {
        Err(ToolFault::Socket)
    }
}
