//! The text of a reply, as a transcript and a recorded script have it.
ghost use Rattle.std.specs.Prelude.{◌≡◌, ◌++◌, OnOk};
ghost use Rattle.std.specs.List.{flat_map};
ghost use Rattle.s6_script.specs.ReplyText.{reason, dropped_text, listed_text, truth_text, truth_field, number_field, exit_code, signal_number, row_text, end_text, death_text, failure_text, reply_text};

use super::digits::{push_number, push_spaced};
use s6_events::{At, Exit, Sid};
use std::alloc::{AllocError, Allocator};
use supervise_core::Row;
use tree_core::{Listed, Refusal, Reply};

// The word by which a reply says why an act was refused: the name of the reason.
fn reason_text(refusal: Refusal) -> &'static str
    ensures { result.now ≡ reason refusal }
{
    match refusal {
        Refusal::NoService => "NoService",
        Refusal::Stale => "Stale",
        Refusal::Reserved => "Reserved",
        Refusal::TooMany => "TooMany",
        Refusal::NoSuch => "NoSuch",
        Refusal::Closing => "Closing",
        Refusal::Repeated => "Repeated",
        Refusal::Empty => "Empty",
        Refusal::Exists => "Exists",
        Refusal::Ended => "Ended",
        Refusal::Spent => "Spent",
    }
}

// Adds a service that a scan dropped: a space, a minus and its serial.
fn push_dropped<A: Allocator>(text: &mut Vec<u8, A>, sid: Sid) -> Result<(), AllocError>
    ensures { OnOk result (text.new.items ≡ text.old.items ++ dropped_text sid) }
{
    text.extend_from_slice(b" -")?;
    push_number(text, sid.0)
}

// Adds each service that a scan dropped, by its serial.
fn push_all_dropped<A: Allocator>(text: &mut Vec<u8, A>, sids: &[Sid]) -> Result<(), AllocError>
    ensures { OnOk result (text.new.items ≡ text.old.items ++ flat_map dropped_text sids.now) }
{
    for sid in sids {
        push_dropped(text, *sid)?;
    }
    Ok(())
}

// Adds, behind a space, what became of a name that a scan found: its new service, that there was no
// place, or that it couldn't be read.
fn push_listed<A: Allocator>(text: &mut Vec<u8, A>, listed: &Listed) -> Result<(), AllocError>
    ensures { OnOk result (text.new.items ≡ text.old.items ++ listed_text listed.now) }
{
    match listed {
        Listed::Added(sid, name) => {
            text.extend_from_slice(b" +")?;
            push_number(text, sid.0)?;
            text.push(b':')?;
            text.extend_from_slice(name.as_bytes())?;
        }
        Listed::Full(name) => {
            text.extend_from_slice(b" full:")?;
            text.extend_from_slice(name.as_bytes())?;
        }
        Listed::Unread(name) => {
            text.extend_from_slice(b" unread:")?;
            text.extend_from_slice(name.as_bytes())?;
        }
    }
    Ok(())
}

// Adds what became of each name that a scan found and that no service had before.
fn push_all_listed<A: Allocator>(text: &mut Vec<u8, A>, all: &[Listed]) -> Result<(), AllocError>
    ensures { OnOk result (text.new.items ≡ text.old.items ++ flat_map listed_text all.now) }
{
    for listed in all {
        push_listed(text, listed)?;
    }
    Ok(())
}

// The word of a field of a row that is true or false.
fn truth_bytes(truth: bool) -> &'static str
    ensures { result.now ≡ truth_text truth }
{
    if truth { "true" } else { "false" }
}

// Adds to the text a field of a row that is true or false, behind a space.
fn push_truth<A: Allocator>(text: &mut Vec<u8, A>, truth: bool) -> Result<(), AllocError>
    ensures { OnOk result (text.new.items ≡ text.old.items ++ truth_field truth) }
{
    text.push(b' ')?;
    text.extend_from_slice(truth_bytes(truth).as_bytes())
}

// Adds to the text a field of a row that is a number, behind a space: -1 where it is absent.
fn push_field<A: Allocator>(text: &mut Vec<u8, A>, number: Option<u64>) -> Result<(), AllocError>
    ensures { OnOk result (text.new.items ≡ text.old.items ++ number_field number) }
{
    match number {
        None => text.extend_from_slice(b" -1"),
        Some(number) => push_spaced(text, number),
    }
}

// The exit code of a program's end; None where there was no end, or a signal killed it.
fn code_of(exit: Option<Exit>) -> Option<u64>
    ensures { result ≡ exit_code exit }
{
    match exit {
        Some(Exit::Code(code)) => Some(code as u64),
        _ => None,
    }
}

// The number of the signal that killed a program; None where there was no end, or none killed it.
fn signal_of(exit: Option<Exit>) -> Option<u64>
    ensures { result ≡ signal_number exit }
{
    match exit {
        Some(Exit::Killed(signal)) => Some(signal as u64),
        _ => None,
    }
}

// The process number in a row, as `push_field` takes it; None where there is none.
fn pid_of(pid: Option<u32>) -> Option<u64>
    ensures { result ≡ pid }
{
    pid.map(|pid| pid as u64)
}

// Adds the five fields of a row that are true or false, in the order of svstat.
fn push_truths<A: Allocator>(text: &mut Vec<u8, A>, row: &Row) -> Result<(), AllocError>
    ensures { OnOk result (text.new.items ≡ text.old.items
        ++ (truth_field row.now.up ++ truth_field row.now.wanted_up
        ++ truth_field row.now.normally_up ++ truth_field row.now.ready
        ++ truth_field row.now.paused)) }
{
    push_truth(text, row.up)?;
    push_truth(text, row.wanted_up)?;
    push_truth(text, row.normally_up)?;
    push_truth(text, row.ready)?;
    push_truth(text, row.paused)
}

// Adds the five fields of a row that are numbers, in the order of svstat.
fn push_numbers<A: Allocator>(text: &mut Vec<u8, A>, row: &Row) -> Result<(), AllocError>
    ensures { OnOk result (text.new.items ≡ text.old.items
        ++ (number_field row.now.pid ++ number_field (exit_code row.now.exit)
        ++ number_field (signal_number row.now.exit) ++ number_field row.now.up_down_for
        ++ number_field row.now.ready_for)) }
{
    push_field(text, pid_of(row.pid))?;
    push_field(text, code_of(row.exit))?;
    push_field(text, signal_of(row.exit))?;
    push_field(text, row.up_down_for)?;
    push_field(text, row.ready_for)
}

/// Adds a row: its serial, its name, and its ten fields, without a newline.
pub fn push_row<A: Allocator>(text: &mut Vec<u8, A>, row: &Row) -> Result<(), AllocError>
    ensures { OnOk result (text.new.items ≡ text.old.items ++ row_text row.now) }
{
    text.extend_from_slice(b"row ")?;
    push_number(text, row.sid.0)?;
    text.push(b' ')?;
    text.extend_from_slice(row.name.as_bytes())?;
    push_truths(text, row)?;
    push_numbers(text, row)
}

// Adds to the text how a run ended: `c` and its exit code, or `s` and the signal that killed it.
fn push_end<A: Allocator>(text: &mut Vec<u8, A>, exit: Exit) -> Result<(), AllocError>
    ensures { OnOk result (text.new.items ≡ text.old.items ++ end_text exit) }
{
    match exit {
        Exit::Code(code) => {
            text.push(b'c')?;
            push_number(text, u64::from(code))
        }
        Exit::Killed(signal) => {
            text.push(b's')?;
            push_number(text, u64::from(signal))
        }
    }
}

// Adds a death to the text, behind a space: its moment in milliseconds, a colon, and how the run
// ended.
fn push_death<A: Allocator>(text: &mut Vec<u8, A>, death: (At, Exit)) -> Result<(), AllocError>
    ensures { OnOk result (text.new.items ≡ text.old.items ++ death_text death) }
{
    let (at, exit) = death;
    push_spaced(text, at.millis())?;
    text.push(b':')?;
    push_end(text, exit)
}

// Adds each death of a service's tally, behind a space: its moment, and how the run ended.
fn push_deaths<A: Allocator>(text: &mut Vec<u8, A>, deaths: &[(At, Exit)]) -> Result<(), AllocError>
    ensures { OnOk result (text.new.items ≡ text.old.items ++ flat_map death_text deaths.now) }
{
    for death in deaths {
        push_death(text, *death)?;
    }
    Ok(())
}

// The text of the answer to a permafailon: 125 where the last deaths are a permanent failure, as
// s6-permafailon exits, else 0.
fn failure_bytes(fails: bool) -> &'static str
    ensures { result.now ≡ failure_text fails }
{
    if fails {
        "permafail 125"
    } else {
        "permafail 0"
    }
}

/// Adds the text of the reply, without a newline.
pub fn push_reply<A: Allocator>(text: &mut Vec<u8, A>, reply: &Reply<A>) -> Result<(), AllocError>
    ensures { OnOk result (text.new.items ≡ text.old.items ++ reply_text reply.now) }
{
    match reply {
        Reply::Done => text.extend_from_slice(b"done")?,
        Reply::Refused(refusal) => {
            text.extend_from_slice(b"refused ")?;
            text.extend_from_slice(reason_text(*refusal).as_bytes())?;
        }
        Reply::Row(row) => push_row(text, row)?,
        Reply::Tally(report) => {
            text.extend_from_slice(b"tally")?;
            push_deaths(text, report.deaths())?;
        }
        Reply::PermanentFailure(fails) => {
            text.extend_from_slice(failure_bytes(*fails).as_bytes())?;
        }
        Reply::Waiter(waiter) => {
            text.extend_from_slice(b"wait")?;
            push_spaced(text, waiter.0)?;
        }
        Reply::Subscription(subscription) => {
            text.extend_from_slice(b"sub")?;
            push_spaced(text, subscription.0)?;
        }
        Reply::Scanned(report) => {
            text.extend_from_slice(b"scanned")?;
            push_all_dropped(text, report.dropped())?;
            push_all_listed(text, report.listed())?;
        }
    }
    Ok(())
}
