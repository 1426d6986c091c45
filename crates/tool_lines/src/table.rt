//! The services as a table. An entry, a line of it, is a service, or a directory that the last scan
//! could not read (unread).
ghost use Rattle.std.specs.Prelude.{◌≡◌, ◌++◌, ◌∷◌, IfOk, OnOk, None, map, option_map, replicate, if◌then◌else◌};
ghost use Rattle.std.specs.List.{flat_map};
ghost use Rattle.tool_lines.specs.Tables.{heading, cell, service_cell, unread_cell, word_cell, number_cell, age_cell, exit_cell, wanted_cell, width_of, padded, heading_line, row_line, sized_column, padded_columns, table_text};

use crate::age::push_age;
use crate::list_entry::{ListEntry, ListedService};
use crate::told_word::ToldWord;
use s6_events::{Exit, Name};
use s6_script::push_number;
use std::alloc::{AllocError, Global};
use supervise_core::Row;

/// A column of the table.
#[derive(Clone, Copy, Debug, PartialEq, Eq)]
pub enum Column {
    /// NAME: the name of the service.
    Name,
    /// STATE: the word of its state.
    State,
    /// PID: the process number of its run, while that is there.
    Pid,
    /// SINCE: the time of day at which it came up, or went down.
    Since,
    /// FOR: for how long it has been up, or down.
    For,
    /// READY: for how long it has been ready, while it is up.
    Ready,
    /// LAST-EXIT: how its last run ended, while it is down.
    LastExit,
    /// WANTED: `up` where it is to be started again when it is down, else `down`.
    Wanted,
}

// The columns whose cells have spaces behind them: all but WANTED.
const PADDED_COLUMNS: [Column; 7] = [
    Column::Name,
    Column::State,
    Column::Pid,
    Column::Since,
    Column::For,
    Column::Ready,
    Column::LastExit,
];

// A column, and how many bytes its widest cell has.
#[derive(Clone, Copy, Debug, PartialEq, Eq)]
struct SizedColumn {
    column: Column,
    width: usize,
}

impl Column {
    // Its head.
    fn heading(self) -> &'static [u8]
        ensures { result.now ≡ heading self }
    {
        match self {
            Column::Name => b"NAME",
            Column::State => b"STATE",
            Column::Pid => b"PID",
            Column::Since => b"SINCE",
            Column::For => b"FOR",
            Column::Ready => b"READY",
            Column::LastExit => b"LAST-EXIT",
            Column::Wanted => b"WANTED",
        }
    }
}

// Adds the cell of a number, such as a process number; `-` where there is none.
fn push_number_cell(text: &mut Vec<u8>, number: Option<u32>) -> Result<(), AllocError>
    ensures { OnOk result (text.new.items ≡ text.old.items ++ number_cell number) }
{
    match number {
        Some(number) => push_number(text, u64::from(number)),
        None => text.extend_from_slice(b"-"),
    }
}

// Adds the cell of an age, which is told in its two largest units, as 3m12s; `-` where there is
// none.
fn push_age_cell(text: &mut Vec<u8>, seconds: Option<u64>) -> Result<(), AllocError>
    ensures { OnOk result (text.new.items ≡ text.old.items ++ age_cell seconds) }
{
    match seconds {
        Some(seconds) => push_age(text, seconds),
        None => text.extend_from_slice(b"-"),
    }
}

// Adds the cell that tells how the last run of a service ended, as `code 1` or `signal 9`; `-`
// while the service is up, and before any run has ended.
fn push_exit_cell(text: &mut Vec<u8>, exit: Option<Exit>) -> Result<(), AllocError>
    ensures { OnOk result (text.new.items ≡ text.old.items ++ exit_cell exit) }
{
    match exit {
        Some(Exit::Code(code)) => {
            text.extend_from_slice(b"code ")?;
            push_number(text, u64::from(code))
        }
        Some(Exit::Killed(signal)) => {
            text.extend_from_slice(b"signal ")?;
            push_number(text, u64::from(signal))
        }
        None => text.extend_from_slice(b"-"),
    }
}

// The cell of a service under WANTED: `up` where it is to be started again when it is down, else
// `down`.
fn wanted_word(row: &Row) -> &'static [u8]
    ensures { result.now ≡ wanted_cell row.now.wanted_up }
{
    if row.wanted_up { b"up" } else { b"down" }
}

// For how long it has been ready, while it is up.
fn up_and_ready_for(row: &Row) -> Option<u64>
    ensures { result ≡ (if row.now.up then row.now.ready_for else None) }
{
    if row.up { row.ready_for } else { None }
}

// Adds the cell of a word that may be unknown, as the time of day since which a service is up or
// down; then the cell is `-`.
fn push_word_cell(text: &mut Vec<u8>, word: Option<&ToldWord>) -> Result<(), AllocError>
    ensures { OnOk result (text.new.items
        ≡ text.old.items ++ word_cell (option_map (λ w. w.now) word.entry)) }
{
    match word {
        Some(word) => text.extend_from_slice(word.as_bytes()),
        None => text.extend_from_slice(b"-"),
    }
}

// Adds the cell of a service in a column.
fn push_service_cell(
    text: &mut Vec<u8>,
    service: &ListedService,
    column: Column,
) -> Result<(), AllocError>
    ensures { OnOk result (text.new.items ≡ text.old.items ++ service_cell service.now column) }
{
    let row = &service.row;
    match column {
        Column::Name => text.extend_from_slice(row.name.as_bytes()),
        Column::State => text.extend_from_slice(service.state.as_bytes()),
        Column::Pid => push_number_cell(text, row.pid),
        Column::Since => push_word_cell(text, service.since.as_ref()),
        Column::For => push_age_cell(text, row.up_down_for),
        Column::Ready => push_age_cell(text, up_and_ready_for(row)),
        Column::LastExit => push_exit_cell(text, row.exit),
        Column::Wanted => text.extend_from_slice(wanted_word(row)),
    }
}

// Adds the cell of a directory that could not be read: its state is `unread`, its fault stands
// under LAST-EXIT, and most cells are `-`.
fn push_unread_cell(
    text: &mut Vec<u8>,
    name: &Name,
    fault: &ToldWord,
    column: Column,
) -> Result<(), AllocError>
    ensures { OnOk result (text.new.items
        ≡ text.old.items ++ unread_cell name.now fault.now column) }
{
    match column {
        Column::Name => text.extend_from_slice(name.as_bytes()),
        Column::State => text.extend_from_slice(b"unread"),
        Column::LastExit => text.extend_from_slice(fault.as_bytes()),
        _ => text.extend_from_slice(b"-"),
    }
}

// Adds the text of an entry's cell in this column, with no spaces behind it. The entry is a
// service, or a directory that could not be read.
fn push_cell(text: &mut Vec<u8>, entry: &ListEntry, column: Column) -> Result<(), AllocError>
    ensures { OnOk result (text.new.items ≡ text.old.items ++ cell entry.now column) }
{
    match entry {
        ListEntry::Service(service) => push_service_cell(text, service, column),
        ListEntry::Unread(name, fault) => push_unread_cell(text, name, fault, column),
    }
}

// The text of an entry's cell in this column, alone and with no spaces behind it, so that its width
// can be seen.
fn cell_of(alloc: Global, entry: &ListEntry, column: Column) -> Result<Vec<u8>, AllocError>
    ensures { IfOk result (λ text. text.items ≡ cell entry.now column) }
{
    let mut text = Vec::new(alloc);
    push_cell(&mut text, entry, column)?;
    Ok(text)
}

// How many bytes the widest cell of a column has; its head counts too.
fn width_of(alloc: Global, entries: &[ListEntry], column: Column) -> Result<usize, AllocError>
    ensures { IfOk result (λ width. width ≡ width_of entries.now column) }
{
    let mut width = column.heading().len();
    for entry in entries {
        width = width.max(cell_of(alloc, entry, column)?.len());
    }
    Ok(width)
}

// All columns but the last one, WANTED, each with the number of bytes of its widest cell, among the
// cells of these entries and its head.
fn size_columns(alloc: Global, entries: &[ListEntry]) -> Result<Vec<SizedColumn>, AllocError>
    ensures { IfOk result
        (λ columns. columns.items ≡ map (sized_column entries.now) padded_columns) }
{
    let mut columns = Vec::new(alloc);
    for column in PADDED_COLUMNS.as_slice() {
        let width = width_of(alloc, entries, *column)?;
        columns.push(SizedColumn {
            column: *column,
            width,
        })?;
    }
    Ok(columns)
}

// Adds a cell, spaces up to the width of its column, and two more.
fn push_padded(text: &mut Vec<u8>, cell: &[u8], width: usize) -> Result<(), AllocError>
    ensures { OnOk result (text.new.items ≡ text.old.items ++ padded width cell.now) }
{
    text.extend_from_slice(cell)?;
    push_spaces(text, width.saturating_sub(cell.len()))?;
    text.extend_from_slice(b"  ")
}

// Adds `count` spaces, which fill a cell up to the width of its column.
fn push_spaces(text: &mut Vec<u8>, count: usize) -> Result<(), AllocError>
    ensures { OnOk result (text.new.items ≡ text.old.items ++ replicate count 32) }
{
    for _ in 0..count {
        text.push(b' ')?;
    }
    Ok(())
}

// Adds the cell of an entry in the column `sized`, then spaces up to the width of that column, and
// two more.
fn push_padded_cell(
    alloc: Global,
    text: &mut Vec<u8>,
    entry: &ListEntry,
    sized: SizedColumn,
) -> Result<(), AllocError>
    ensures { OnOk result (text.new.items
        ≡ text.old.items ++ padded sized.width (cell entry.now sized.column)) }
{
    let cell = cell_of(alloc, entry, sized.column)?;
    push_padded(text, cell.as_slice(), sized.width)
}

// Adds the first line of the table, the heads of all columns. `columns` are all but the last one,
// WANTED, which is written here.
fn push_heading_line(text: &mut Vec<u8>, columns: &[SizedColumn]) -> Result<(), AllocError>
    ensures { OnOk result (text.new.items ≡ text.old.items ++ heading_line columns.now) }
{
    for sized in columns {
        push_padded(text, sized.column.heading(), sized.width)?;
    }
    text.extend_from_slice(b"WANTED\n")
}

// Adds the line of one entry, its cells in all columns. `columns` are all but the last one, WANTED,
// behind which no spaces stand.
fn push_entry_line(
    alloc: Global,
    text: &mut Vec<u8>,
    columns: &[SizedColumn],
    entry: &ListEntry,
) -> Result<(), AllocError>
    ensures { OnOk result (text.new.items ≡ text.old.items ++ row_line columns.now entry.now) }
{
    for sized in columns {
        push_padded_cell(alloc, text, entry, *sized)?;
    }
    push_cell(text, entry, Column::Wanted)?;
    text.extend_from_slice(b"\n")
}

// Adds the line of each entry, below the heads. `columns` are all columns but the last one, WANTED,
// with their widths.
fn push_entry_lines(
    alloc: Global,
    text: &mut Vec<u8>,
    columns: &[SizedColumn],
    entries: &[ListEntry],
) -> Result<(), AllocError>
    ensures { OnOk result (text.new.items
        ≡ text.old.items ++ flat_map (row_line columns.now) entries.now) }
{
    for entry in entries {
        push_entry_line(alloc, text, columns, entry)?;
    }
    Ok(())
}

/// A line of heads, and then a line for each entry.
pub fn table_of(alloc: Global, entries: &[ListEntry]) -> Result<Vec<u8>, AllocError>
    ensures { IfOk result (λ text. text.items ≡ table_text entries.now) }
{
    let columns = size_columns(alloc, entries)?;
    let mut text = Vec::new(alloc);
    push_heading_line(&mut text, columns.as_slice())?;
    push_entry_lines(alloc, &mut text, columns.as_slice(), entries)?;
    Ok(text)
}
