//! The status of services, as it is told to a client.
ghost use Rattle.std.specs.Prelude.{◌≡◌, ◌++◌, ◌∷◌, [], OnOk, option_map};
ghost use Rattle.std.specs.List.{find, flat_map};
ghost use Rattle.std.specs.Str.{bytes_eq};
ghost use Rattle.server_rules.specs.Status.{moment_text, row_line, state_head, state_line, state_tail, status_line, status_text, told_text};

use crate::roster::{Ending, Roster};
use crate::state_word::state_of;
use s6_events::{At, Name};
use s6_script::{push_number, push_row};
use scan_directory::{Remark, push_all_unread};
use std::alloc::AllocError;
use supervise_core::Row;

/// Which services a status is about.
#[derive(Clone, Copy, PartialEq, Eq, Debug)]
pub enum Subject {
    /// The service of this name.
    One(Name),
    /// All services: their rows.
    All,
    /// All services: their states and rows, and what the last scan could not read.
    States,
}

// The row of this name.
fn row_of<'a>(rows: &'a [Row], name: &Name) -> Option<&'a Row>
    ensures { option_map (λ r. r.now) result
        ≡ find (λ row. bytes_eq row.name name.now) rows.entry.now }
{
    rows.iter().find(|row| row.name == *name)
}

// Adds a row, or `refused NoService` where there is none.
fn push_line(text: &mut Vec<u8>, row: Option<&Row>) -> Result<(), AllocError>
    ensures { OnOk result (text.new.items
        ≡ text.old.items ++ status_line (option_map (λ r. r.now) row.entry)) }
{
    match row {
        Some(row) => push_row(text, row),
        None => text.extend_from_slice(b"refused NoService"),
    }
}

// Adds the row of this name, or that there is no such service, and an empty line behind it.
fn push_status(text: &mut Vec<u8>, rows: &[Row], name: &Name) -> Result<(), AllocError>
    ensures { OnOk result (text.new.items ≡ text.old.items ++ status_text rows.now name.now) }
{
    push_line(text, row_of(rows, name))?;
    text.extend_from_slice(b"\n\n")
}

// Adds all rows, a line for each.
fn push_rows(text: &mut Vec<u8>, rows: &[Row]) -> Result<(), AllocError>
    ensures { OnOk result (text.new.items ≡ text.old.items ++ flat_map row_line rows.now) }
{
    for row in rows {
        push_row_line(text, row)?;
    }
    Ok(())
}

// Adds a row, and the end of its line.
fn push_row_line(text: &mut Vec<u8>, row: &Row) -> Result<(), AllocError>
    ensures { OnOk result (text.new.items ≡ text.old.items ++ row_line row.now) }
{
    push_row(text, row)?;
    text.extend_from_slice(b"\n")
}

// Adds a moment, in milliseconds; -1 where there is none.
fn push_moment(text: &mut Vec<u8>, moment: Option<At>) -> Result<(), AllocError>
    ensures { OnOk result (text.new.items ≡ text.old.items ++ moment_text moment) }
{
    match moment {
        Some(at) => push_number(text, at.millis()),
        None => text.extend_from_slice(b"-1"),
    }
}

// Adds the front of a line `state WORD SINCE ..`: up to the space behind WORD.
fn push_state(
    text: &mut Vec<u8>,
    ending: Option<Ending>,
    start_failed: bool,
    row: &Row,
) -> Result<(), AllocError>
    ensures { OnOk result (text.new.items
        ≡ text.old.items ++ state_head ending start_failed row.now) }
{
    text.extend_from_slice(b"state ")?;
    text.extend_from_slice(state_of(ending, start_failed, row).word())?;
    text.extend_from_slice(b" ")
}

// Adds the moment since which a service is up or down, and its row.
fn push_since(text: &mut Vec<u8>, since: Option<At>, row: &Row) -> Result<(), AllocError>
    ensures { OnOk result (text.new.items ≡ text.old.items ++ state_tail since row.now) }
{
    push_moment(text, since)?;
    text.extend_from_slice(b" ")?;
    push_row_line(text, row)
}

// Adds the word of a service's state, since when it is up or down, and its row.
fn push_state_line(text: &mut Vec<u8>, roster: &Roster, row: &Row) -> Result<(), AllocError>
    ensures { OnOk result (text.new.items ≡ text.old.items ++ state_line roster.now row.now) }
{
    push_state(
        text,
        roster.ending(row.sid),
        roster.start_failed(row.sid),
        row,
    )?;
    push_since(text, roster.since(row.sid), row)
}

// Adds all rows, each behind the word of its service's state.
fn push_states(text: &mut Vec<u8>, roster: &Roster, rows: &[Row]) -> Result<(), AllocError>
    ensures { OnOk result (text.new.items
        ≡ text.old.items ++ flat_map (state_line roster.now) rows.now) }
{
    for row in rows {
        push_state_line(text, roster, row)?;
    }
    Ok(())
}

/// Adds the status of these services, and an empty line: the row of one, or that there is none of
/// its name; the rows of all; or the states and rows of all, and what the last scan could not read.
/// Page `s6-svstat`.
pub fn push_told(
    text: &mut Vec<u8>,
    rows: &[Row],
    roster: &Roster,
    unread: &[Remark],
    subject: &Subject,
) -> Result<(), AllocError>
    ensures { OnOk result (text.new.items ≡ text.old.items ++ told_text subject.now (record {
      rows = rows.now;
      roster = roster.now;
      unread = unread.now;
    })) }
{
    match subject {
        Subject::One(name) => push_status(text, rows, name),
        Subject::All => {
            push_rows(text, rows)?;
            text.extend_from_slice(b"\n")
        }
        Subject::States => {
            push_states(text, roster, rows)?;
            push_all_unread(text, unread)?;
            text.extend_from_slice(b"\n")
        }
    }
}
