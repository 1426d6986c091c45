//! The line of `svstat`: fields of a `row` reply, which is the server's line about the status of a
//! service. How each field is spelled is in `reply_text.rt` of s6_script.
ghost use Rattle.std.specs.Prelude.{◌≡◌, ◌∷◌, ◌++◌, IfOk, OnOk};
ghost use Rattle.std.specs.List.{flat_map};
ghost use Rattle.tool_lines.specs.StatusLine.{field_in, place_of, status_line};

use crate::words::word_or_none;
use s6_events::Field;
use std::alloc::{AllocError, Global};

// Which word of a `row` reply a field is, counted from 0: the fields come after `row`, the serial
// and the name.
fn place_of(field: Field) -> usize
    ensures { result ≡ place_of field }
{
    match field {
        Field::Up => 3,
        Field::WantedUp => 4,
        Field::NormallyUp => 5,
        Field::Ready => 6,
        Field::Paused => 7,
        Field::Pid => 8,
        Field::ExitCode => 9,
        Field::Signal => 10,
        Field::UpDownFor => 11,
        Field::ReadyFor => 12,
    }
}

// A field of a row, or no byte where the row has no such word.
fn field_of(row: &[u8], field: Field) -> &[u8]
    ensures { result.now ≡ field_in row.entry.now field }
{
    word_or_none(row, place_of(field))
}

// Adds a field of a row behind a space.
fn push_field(line: &mut Vec<u8>, row: &[u8], field: Field) -> Result<(), AllocError>
    ensures { OnOk result (line.new.items ≡ line.old.items ++ 32 ∷ field_in row.now field) }
{
    line.extend_from_slice(b" ")?;
    line.extend_from_slice(field_of(row, field))
}

// Adds fields of a row, each behind a space.
fn push_fields(line: &mut Vec<u8>, row: &[u8], fields: &[Field]) -> Result<(), AllocError>
    ensures { OnOk result (line.new.items
        ≡ line.old.items ++ flat_map (λ field. 32 ∷ field_in row.now field) fields.now) }
{
    for field in fields {
        push_field(line, row, *field)?;
    }
    Ok(())
}

/// The line that `svstat` prints for a `row` reply, without its newline: these fields, with a space
/// between each two. Page `s6-svstat`.
pub fn svstat_line(alloc: Global, reply: &[u8], fields: &[Field]) -> Result<Vec<u8>, AllocError>
    ensures { IfOk result (λ line. line.items ≡ status_line reply.now fields.now) }
{
    let mut line = Vec::new(alloc);
    if let Some((first, more)) = fields.split_first() {
        line.extend_from_slice(field_of(reply, *first))?;
        push_fields(&mut line, reply, more)?;
    }
    Ok(line)
}
