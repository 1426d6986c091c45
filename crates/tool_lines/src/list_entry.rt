//! A line of the server about a service, as `list` reads it.
ghost use Rattle.std.specs.Prelude.{◌≡◌, ◌==◌, ◌<◌, length, IfSome};
ghost use Rattle.std.specs.List.{position};
ghost use Rattle.tool_lines.specs.ListEntries.{Tells, behind_word, name_of_entry};

use crate::service_row::row_of;
use crate::told_word::ToldWord;
use crate::words::{is_word, word_or_none};
use s6_events::Name;
use std::str;
use supervise_core::Row;

/// A service, as `list` shows it.
#[derive(Debug, Drop)]
pub struct ListedService {
    /// The word of its state.
    pub state: ToldWord,
    /// The tree's clock when it came up or went down, in milliseconds; None where it did neither.
    pub at: Option<u64>,
    /// The time of day then, where it is known.
    pub since: Option<ToldWord>,
    pub row: Row,
}

/// What `list` shows of a name of the scan directory.
#[derive(Debug, Drop)]
pub enum ListEntry {
    /// A service.
    Service(ListedService),
    /// A directory that the last scan could not read, and the word of its fault.
    Unread(Name, ToldWord),
}

impl ListEntry {
    /// Its name.
    pub fn name(&self) -> &Name
        ensures { result.now ≡ name_of_entry self.now }
    {
        match self {
            ListEntry::Service(service) => &service.row.name,
            ListEntry::Unread(name, _) => name,
        }
    }
}

// The place of the first space.
fn space_in(line: &[u8]) -> Option<usize>
    ensures place { result ≡ position (λ b. b == 32) line.now }
    ensures bound { IfSome result (λ place. place < length line.now) }
{
    line.iter().position(|byte| *byte == b' ')
}

// The line without its first word and the space behind that; nothing where it has no space.
fn behind_word(line: &[u8]) -> &[u8]
    ensures { result.now ≡ behind_word line.now }
{
    match space_in(line) {
        Some(place) => &line[place + 1..],
        None => &[],
    }
}

/// What a line of the answer to `states` says; None for any other line. The line is without its
/// newline.
pub fn entry_of(line: &[u8]) -> Option<ListEntry>
    ensures { IfSome result (λ entry. Tells entry line.now) }
{
    let word = word_or_none(line, 0);
    if is_word(word, b"state") {
        service_of(line)
    } else if is_word(word, b"unread") {
        unread_of(line)
    } else {
        None
    }
}

// The service that a line `state WORD SINCE row ..` tells of; None where what stands behind SINCE
// can't be read as a `row` line. The words are counted from 0, and the time of day (`since`) is
// filled in later.
fn service_of(line: &[u8]) -> Option<ListEntry>
    ensures { IfSome result (λ entry. Tells entry line.now) }
{
    // The `row` line stands behind the first three words.
    let row = row_of(behind_word(behind_word(behind_word(line))))?;
    Some(ListEntry::Service(ListedService {
        state: ToldWord::new(word_or_none(line, 1)),
        at: moment_of(word_or_none(line, 2)),
        since: None,
        row,
    }))
}

// The directory that a line `unread NAME FAULT` tells of, which the last scan could not read; None
// where NAME is no name.
fn unread_of(line: &[u8]) -> Option<ListEntry>
    ensures { IfSome result (λ entry. Tells entry line.now) }
{
    let name = Name::new(word_or_none(line, 1))?;
    Some(ListEntry::Unread(name, ToldWord::new(word_or_none(line, 2))))
}

/// The moment that a word spells, in milliseconds; None where it spells none, as `-1`.
pub fn moment_of(word: &[u8]) -> Option<u64> {
    str::from_utf8(word).ok()?.parse::<u64>().ok()
}
