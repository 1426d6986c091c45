//! The services as lines of JSON, one object a line. A directory that the last scan could not read
//! (unread) has the same members, most of them null.
ghost use Rattle.std.specs.Prelude.{◌≡◌, ◌++◌, ◌∷◌, IfOk, OnOk, option_map};
ghost use Rattle.std.specs.List.{flat_map};
ghost use Rattle.tool_lines.specs.JsonLines.{truth_text, number_text, key_text, quoted, truth_member, number_member, exit_code, signal_number, head_text, truths_text, run_text, ages_text, word_text, times_text, end_text, service_line, unread_head, null_truths_text, null_run_text, null_ages_text, null_times_text, unread_line, json_line};

use crate::list_entry::{ListEntry, ListedService};
use crate::told_word::ToldWord;
use s6_events::{Exit, Name};
use s6_script::push_number;
use std::alloc::{AllocError, Global};
use supervise_core::Row;

// The exit code with which a service's last run ended; None where a signal killed it, while the
// service is up, and before any run has ended.
fn exit_code(exit: Option<Exit>) -> Option<u64>
    ensures { result ≡ exit_code exit }
{
    match exit {
        Some(Exit::Code(code)) => Some(u64::from(code)),
        _ => None,
    }
}

// The number of the signal that killed a service's last run; None where it ended with a code, while
// the service is up, and before any run has ended.
fn signal_number(exit: Option<Exit>) -> Option<u64>
    ensures { result ≡ signal_number exit }
{
    match exit {
        Some(Exit::Killed(signal)) => Some(u64::from(signal)),
        _ => None,
    }
}

// The process number of a service's run in 64 bits, as `push_member` takes numbers; None where
// there is no process.
fn pid_of(pid: Option<u32>) -> Option<u64>
    ensures { result ≡ pid }
{
    pid.map(|pid| u64::from(pid))
}

/// Adds a text in quotes. It must have no byte that JSON escapes.
pub fn push_quoted(text: &mut Vec<u8>, word: &[u8]) -> Result<(), AllocError>
    ensures { OnOk result (text.new.items ≡ text.old.items ++ quoted word.now) }
{
    text.push(b'"')?;
    text.extend_from_slice(word)?;
    text.extend_from_slice(b"\"")
}

/// Adds a key and its colon.
pub fn push_key(text: &mut Vec<u8>, key: &[u8]) -> Result<(), AllocError>
    ensures { OnOk result (text.new.items ≡ text.old.items ++ key_text key.now) }
{
    push_quoted(text, key)?;
    text.extend_from_slice(b":")
}

// Adds a further member of an object: a key and `true` or `false`.
fn push_truth(text: &mut Vec<u8>, key: &[u8], truth: bool) -> Result<(), AllocError>
    ensures { OnOk result (text.new.items ≡ text.old.items ++ truth_member key.now truth) }
{
    text.push(b',')?;
    push_key(text, key)?;
    let word: &[u8] = if truth { b"true" } else { b"false" };
    text.extend_from_slice(word)
}

/// Adds a further member of an object: a key and a number, or null where there is none.
pub fn push_member(text: &mut Vec<u8>, key: &[u8], number: Option<u64>) -> Result<(), AllocError>
    ensures { OnOk result (text.new.items ≡ text.old.items ++ number_member key.now number) }
{
    text.push(b',')?;
    push_key(text, key)?;
    match number {
        Some(number) => push_number(text, number),
        None => text.extend_from_slice(b"null"),
    }
}

// Adds the first three members of the object: the name, the serial and the state of the service.
fn push_head(text: &mut Vec<u8>, service: &ListedService) -> Result<(), AllocError>
    ensures { OnOk result (text.new.items ≡ text.old.items ++ head_text service.now) }
{
    push_key(text, b"name")?;
    push_quoted(text, service.row.name.as_bytes())?;
    push_member(text, b"serial", Some(service.row.sid.0))?;
    text.push(b',')?;
    push_key(text, b"state")?;
    push_quoted(text, service.state.as_bytes())
}

// Adds the members that are true or false.
fn push_truths(text: &mut Vec<u8>, row: &Row) -> Result<(), AllocError>
    ensures { OnOk result (text.new.items ≡ text.old.items ++ truths_text row.now) }
{
    push_truth(text, b"up", row.up)?;
    push_truth(text, b"wantedup", row.wanted_up)?;
    push_truth(text, b"normallyup", row.normally_up)?;
    push_truth(text, b"ready", row.ready)?;
    push_truth(text, b"paused", row.paused)
}

// Adds the members for its run: the process number while it is up, and how the last run ended.
fn push_run(text: &mut Vec<u8>, row: &Row) -> Result<(), AllocError>
    ensures { OnOk result (text.new.items ≡ text.old.items ++ run_text row.now) }
{
    push_member(text, b"pid", pid_of(row.pid))?;
    push_member(text, b"exitcode", exit_code(row.exit))?;
    push_member(text, b"signal", signal_number(row.exit))
}

// Adds the members for its ages: for how long it has been up or down, and for how long ready.
fn push_ages(text: &mut Vec<u8>, row: &Row) -> Result<(), AllocError>
    ensures { OnOk result (text.new.items ≡ text.old.items ++ ages_text row.now) }
{
    push_member(text, b"updownfor", row.up_down_for)?;
    push_member(text, b"readyfor", row.ready_for)
}

// Adds a text in quotes, or null where there is none.
fn push_word(text: &mut Vec<u8>, word: Option<&ToldWord>) -> Result<(), AllocError>
    ensures { OnOk result (text.new.items
        ≡ text.old.items ++ word_text (option_map (λ w. w.now) word.entry)) }
{
    match word {
        Some(word) => push_quoted(text, word.as_bytes()),
        None => text.extend_from_slice(b"null"),
    }
}

// Adds the members for its ages, and the time of day since which it is up or down.
fn push_times(text: &mut Vec<u8>, service: &ListedService) -> Result<(), AllocError>
    ensures { OnOk result (text.new.items ≡ text.old.items ++ times_text service.now) }
{
    push_ages(text, &service.row)?;
    text.push(b',')?;
    push_key(text, b"since")?;
    push_word(text, service.since.as_ref())
}

// Adds the fault of a directory that could not be read, and the end of the object.
fn push_end(text: &mut Vec<u8>, fault: Option<&ToldWord>) -> Result<(), AllocError>
    ensures { OnOk result (text.new.items
        ≡ text.old.items ++ end_text (option_map (λ w. w.now) fault.entry)) }
{
    text.push(b',')?;
    push_key(text, b"fault")?;
    push_word(text, fault)?;
    text.extend_from_slice(b"}\n")
}

// Adds the line of a service, one object: its name, serial and state, what is true or false of it,
// its run, its times, and at the end null for the fault, since its directory could be read.
#[tactic(auto, unfolding(crate::specs::JsonLines::service_line))]
fn push_service_line(text: &mut Vec<u8>, service: &ListedService) -> Result<(), AllocError>
    ensures { OnOk result (text.new.items ≡ text.old.items ++ service_line service.now) }
{
    text.push(b'{')?;
    push_head(text, service)?;
    push_truths(text, &service.row)?;
    push_run(text, &service.row)?;
    push_times(text, service)?;
    push_end(text, None)
}

// Adds the first three members of the object of a directory that could not be read: it has no
// serial, and its state is `unread`.
fn push_unread_head(text: &mut Vec<u8>, name: &Name) -> Result<(), AllocError>
    ensures { OnOk result (text.new.items ≡ text.old.items ++ unread_head name.now) }
{
    push_key(text, b"name")?;
    push_quoted(text, name.as_bytes())?;
    push_member(text, b"serial", None)?;
    text.push(b',')?;
    push_key(text, b"state")?;
    push_quoted(text, b"unread")
}

// Adds the members that are true or false for a service, as null.
fn push_null_truths(text: &mut Vec<u8>) -> Result<(), AllocError>
    ensures { OnOk result (text.new.items ≡ text.old.items ++ null_truths_text) }
{
    push_member(text, b"up", None)?;
    push_member(text, b"wantedup", None)?;
    push_member(text, b"normallyup", None)?;
    push_member(text, b"ready", None)?;
    push_member(text, b"paused", None)
}

// Adds the members for the run of a service, as null.
fn push_null_run(text: &mut Vec<u8>) -> Result<(), AllocError>
    ensures { OnOk result (text.new.items ≡ text.old.items ++ null_run_text) }
{
    push_member(text, b"pid", None)?;
    push_member(text, b"exitcode", None)?;
    push_member(text, b"signal", None)
}

// Adds the members for the ages of a service, as null.
fn push_null_ages(text: &mut Vec<u8>) -> Result<(), AllocError>
    ensures { OnOk result (text.new.items ≡ text.old.items ++ null_ages_text) }
{
    push_member(text, b"updownfor", None)?;
    push_member(text, b"readyfor", None)
}

// Adds the members for the times of a service, as null.
fn push_null_times(text: &mut Vec<u8>) -> Result<(), AllocError>
    ensures { OnOk result (text.new.items ≡ text.old.items ++ null_times_text) }
{
    push_null_ages(text)?;
    push_member(text, b"since", None)
}

// Adds the line of a directory that could not be read. It has the members of a service's line, in
// their order: the name, no serial, the state `unread`, null for what is true or false of a
// service, for its run and for its times, and at the end the fault.
#[tactic(auto, unfolding(crate::specs::JsonLines::unread_line))]
fn push_unread_line(text: &mut Vec<u8>, name: &Name, fault: &ToldWord) -> Result<(), AllocError>
    ensures { OnOk result (text.new.items ≡ text.old.items ++ unread_line name.now fault.now) }
{
    text.push(b'{')?;
    push_unread_head(text, name)?;
    push_null_truths(text)?;
    push_null_run(text)?;
    push_null_times(text)?;
    push_end(text, Some(fault))
}

// Adds the line of an entry, one object of JSON: that of a service, or of a directory that the last
// scan could not read.
fn push_json_line(text: &mut Vec<u8>, entry: &ListEntry) -> Result<(), AllocError>
    ensures { OnOk result (text.new.items ≡ text.old.items ++ json_line entry.now) }
{
    match entry {
        ListEntry::Service(service) => push_service_line(text, service),
        ListEntry::Unread(name, fault) => push_unread_line(text, name, fault),
    }
}

/// A line for each entry, with one object of JSON.
pub fn json_lines(alloc: Global, entries: &[ListEntry]) -> Result<Vec<u8>, AllocError>
    ensures { IfOk result (λ text. text.items ≡ flat_map json_line entries.now) }
{
    let mut text = Vec::new(alloc);
    for entry in entries {
        push_json_line(&mut text, entry)?;
    }
    Ok(text)
}
