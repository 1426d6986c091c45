//! Inputs and replies as a recorded script has them.
use super::fakes::FailingWriter;
use super::rows::{FAULTY_ROWS, ROWS};
use super::{Case, holds, same};
use s6_events::{Actor, At, Sid};
use s6_script::{LineFault, SpellFault, parse_line, write_input, write_reply};
use std::alloc::Global;
use std::process::Abort;
use std::test::Fail;
use tree_core::{PlainAct, PlainInput, Refusal, Reply};

// The plain data of the input that a line spells.
fn plain_of(alloc: Global, line: &str) -> Result<PlainInput<Global>, LineFault> {
    let input = parse_line(alloc, alloc, line.as_bytes())?;
    Ok(input.plain(alloc)?)
}

// The line as its input is written again, or None where it is no input.
fn written_again(alloc: Global, line: &str) -> Result<Option<Vec<u8>>, Fail> {
    let Ok(plain) = plain_of(alloc, line) else {
        return Ok(None);
    };
    let mut written = Vec::new(alloc);
    write_input(alloc, &plain, &mut written)?;
    Ok(Some(written))
}

// The lines of a script that are inputs are written again as they are. How many there were.
fn check_lines(rt: &impl Abort, alloc: Global, script: &str) -> Result<u32, Fail> {
    let mut count = 0u32;
    for line in script.split('\n') {
        if let Some(written) = written_again(alloc, line)? {
            same(rt, line, written.as_slice(), line.as_bytes());
            count = count.saturating_add(1);
        }
    }
    Ok(count)
}

// The same of the scripts of these rows.
fn check_scripts(rt: &impl Abort, alloc: Global, rows: &str) -> Result<u32, Fail> {
    let mut count = 0u32;
    for row in rows.split("# ") {
        let case = Case::read(row);
        count = count.saturating_add(check_lines(rt, alloc, case.script)?);
    }
    Ok(count)
}

#[test]
fn the_lines_of_the_worked_rows_are_written_again(rt: HostRuntime) -> Result<(), Fail> {
    let count = check_scripts(&rt, rt.alloc(), ROWS)?;
    let more = check_scripts(&rt, rt.alloc(), FAULTY_ROWS)?;
    holds(
        &rt,
        "over a hundred lines",
        count.saturating_add(more) > 100,
    );
    Ok(())
}

// An input that no process number can be told by.
fn without_number() -> Option<PlainInput<Global>> {
    Some(PlainInput {
        actor: Actor::new(1)?,
        at: At::new(0)?,
        act: PlainAct::Started(Sid(1), 1, 0),
    })
}

#[test]
fn an_input_without_spelling_is_not_written(rt: HostRuntime) -> Result<(), Fail> {
    let input = without_number().ok_or("input")?;
    let mut written = Vec::new(rt.alloc());
    let found = write_input(rt.alloc(), &input, &mut written).err();
    let is_unspelt = found == Some(SpellFault::Unspelt) && written.is_empty();
    holds(&rt, "no process number", is_unspelt);
    Ok(())
}

// What a writer of six bytes takes of this line before it fails, if it fails so.
fn first_six_bytes(alloc: Global, line: &str) -> Result<Option<Vec<u8>>, Fail> {
    let input = plain_of(alloc, line)?;
    let mut writer = FailingWriter {
        taken: Vec::new(alloc),
        room: 6,
        fails: true,
    };
    let found = write_input(alloc, &input, &mut writer).err();
    Ok(if found == Some(SpellFault::Write) {
        Some(writer.taken)
    } else {
        None
    })
}

#[test]
fn a_failed_write_leaves_the_beginning(rt: HostRuntime) -> Result<(), Fail> {
    let line = "5 3 cancel 17";
    let written = first_six_bytes(rt.alloc(), line)?.ok_or("a failed write")?;
    same(&rt, line, written.as_slice(), b"5 3 ca");
    Ok(())
}

#[test]
fn a_reply_is_written_without_number(rt: HostRuntime) -> Result<(), Fail> {
    let mut written = Vec::new(rt.alloc());
    write_reply(rt.alloc(), &Reply::Refused(Refusal::Stale), &mut written)?;
    same(&rt, "a refusal", written.as_slice(), b"refused Stale");
    Ok(())
}
