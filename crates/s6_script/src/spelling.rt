//! The spelling of an act: the words by which a script writes it. Each function adds words to the
//! end of a text.
ghost use Rattle.std.specs.Prelude.{◌≡◌, ◌++◌, ◌∷◌, [], map, codes, decimal, OnOk};
ghost use Rattle.std.specs.List.{join_with_byte};
ghost use Rattle.hex.specs.Hex.{encode_lower};
ghost use Rattle.control_letters.specs.ControlLetter.{byte_of};
ghost use Rattle.s6_script.specs.Options.{entry_text};
ghost use Rattle.s6_script.specs.Spelling.{act_spelling};
ghost use Rattle.s6_script.specs.Unbuilt.{act_read};
ghost use Rattle.s6_script.specs.Verb.{exit_words};

use super::death_list::push_permafailon;
use super::digits::{push_spaced, push_word};
use super::entry_options::push_entries;
use super::subscribing::{push_send, push_subscribe};
use super::unbuilt::UnbuiltAct;
use super::waiting::push_wait;
use control_letters::ControlLetter;
use s6_events::{Exit, Name, Sid};
use std::alloc::{AllocError, Allocator};
use tree_core::{Act, Entry, ScanOrder};

/// Adds the byte of each letter. An error where memory is refused.
pub fn push_letters<A: Allocator>(
    text: &mut Vec<u8, A>,
    letters: &[ControlLetter],
) -> Result<(), AllocError>
    ensures { OnOk result (text.new.items ≡ text.old.items ++ map byte_of letters.now) }
{
    for letter in letters {
        text.push(letter.byte())?;
    }
    Ok(())
}

// Adds the words of an exit to the text: `code` and the exit code, or `signal` and the number of
// the signal.
fn push_exit<A: Allocator>(text: &mut Vec<u8, A>, exit: Exit) -> Result<(), AllocError>
    ensures { OnOk result (text.new.items ≡ text.old.items ++ join_with_byte 32 (exit_words exit)) }
{
    match exit {
        Exit::Code(n) => {
            text.extend_from_slice(b"code")?;
            push_spaced(text, u64::from(n))
        }
        Exit::Killed(n) => {
            text.extend_from_slice(b"signal")?;
            push_spaced(text, u64::from(n))
        }
    }
}

// Adds the words of a scan to the text: its verb and the entries of its listing.
pub(crate) fn push_scan<A: Allocator>(
    text: &mut Vec<u8, A>,
    entries: &[Entry],
) -> Result<(), AllocError>
    ensures { OnOk result (text.new.items
        ≡ text.old.items ++ join_with_byte 32 (codes "scan" ∷ map entry_text entries.now)) }
{
    text.extend_from_slice(b"scan")?;
    push_entries(text, entries)?;
    Ok(())
}

/// Adds the words of letters for a service. An error where memory is refused; what was added before
/// stays.
pub fn push_svc<A: Allocator>(
    text: &mut Vec<u8, A>,
    name: &Name,
    letters: &[ControlLetter],
) -> Result<(), AllocError>
    ensures { OnOk result (text.new.items
        ≡ text.old.items ++ join_with_byte 32
        (codes "svc" ∷ name.now ∷ map byte_of letters.now ∷ [])) }
{
    push_named(text, "svc", name)?;
    text.push(b' ')?;
    push_letters(text, letters)
}

// Adds the words of a notification to the text: those of a report, and its bytes as hexadecimal
// digits.
pub(crate) fn push_notify<A: Allocator + Copy>(
    alloc: A,
    text: &mut Vec<u8, A>,
    sid: Sid,
    generation: u64,
    bytes: &[u8],
) -> Result<(), AllocError>
    ensures { OnOk result (text.new.items ≡ text.old.items ++ join_with_byte 32
        (codes "notify" ∷ decimal sid ∷ decimal generation ∷ encode_lower bytes.now ∷ [])) }
{
    let digits = hex::encode(alloc, bytes)?;
    push_report(text, "notify", sid, generation)?;
    push_word(text, digits.as_bytes())
}

/// Adds the words of a verb and a name. An error where memory is refused; what was added before
/// stays.
pub fn push_named<A: Allocator>(
    text: &mut Vec<u8, A>,
    verb: &str,
    name: &Name,
) -> Result<(), AllocError>
    ensures { OnOk result (text.new.items
        ≡ text.old.items ++ join_with_byte 32 (verb.now ∷ name.now ∷ [])) }
{
    text.extend_from_slice(verb.as_bytes())?;
    push_word(text, name.as_bytes())
}

// Adds the words of a verb and a serial.
pub(crate) fn push_serial<A: Allocator>(
    text: &mut Vec<u8, A>,
    verb: &str,
    serial: u64,
) -> Result<(), AllocError>
    ensures { OnOk result (text.new.items
        ≡ text.old.items ++ join_with_byte 32 (verb.now ∷ decimal serial ∷ [])) }
{
    text.extend_from_slice(verb.as_bytes())?;
    push_spaced(text, serial)
}

// Adds the words of a report of a run to the text: a verb, the serial of the service, and the
// generation (the number of the run).
pub(crate) fn push_report<A: Allocator>(
    text: &mut Vec<u8, A>,
    verb: &str,
    sid: Sid,
    generation: u64,
) -> Result<(), AllocError>
    ensures { OnOk result (text.new.items
        ≡ text.old.items ++ join_with_byte 32 (verb.now ∷ decimal sid ∷ decimal generation ∷ [])) }
{
    push_serial(text, verb, sid.0)?;
    push_spaced(text, generation)
}

// Adds the words of a run that was spawned to the text: those of a report, and the process number.
pub(crate) fn push_started<A: Allocator>(
    text: &mut Vec<u8, A>,
    sid: Sid,
    generation: u64,
    pid: u32,
) -> Result<(), AllocError>
    ensures { OnOk result (text.new.items ≡ text.old.items ++ join_with_byte 32
        (codes "started" ∷ decimal sid ∷ decimal generation ∷ decimal pid ∷ [])) }
{
    push_report(text, "started", sid, generation)?;
    push_spaced(text, u64::from(pid))
}

// Adds the words of the end of a `run` or a `finish` to the text: those of a report, with the verb
// `death` or `finished`, and the exit.
pub(crate) fn push_ended<A: Allocator>(
    text: &mut Vec<u8, A>,
    verb: &str,
    sid: Sid,
    generation: u64,
    exit: Exit,
) -> Result<(), AllocError>
    ensures { OnOk result (text.new.items
        ≡ text.old.items ++ join_with_byte 32
        (verb.now ∷ decimal sid ∷ decimal generation ∷ exit_words exit)) }
{
    push_report(text, verb, sid, generation)?;
    text.push(b' ')?;
    push_exit(text, exit)
}

/// Adds the words of an act. An error where memory is refused; what was added before stays.
pub fn push_act<A: Allocator + Copy>(
    alloc: A,
    text: &mut Vec<u8, A>,
    act: &Act<A>,
) -> Result<(), AllocError>
    ensures { OnOk result (text.new.items ≡ text.old.items ++ act_spelling act.now) }
{
    match act {
        Act::Scan(listing) => push_scan(text, listing.entries()),
        Act::Scanctl(ScanOrder::Nuke) => text.extend_from_slice(b"scanctl n"),
        Act::Scanctl(ScanOrder::Terminate) => { text.extend_from_slice(b"scanctl t") }
        Act::Svc(name, letters) => push_svc(text, name, letters.as_slice()),
        Act::Started(sid, generation, pid) => { push_started(text, *sid, *generation, *pid) }
        Act::StartFailed(sid, generation) => { push_report(text, "startfailed", *sid, *generation) }
        Act::Notify(sid, generation, bytes) => {
            push_notify(alloc, text, *sid, *generation, bytes.as_slice())
        }
        Act::Death(sid, generation, exit) => { push_ended(text, "death", *sid, *generation, *exit) }
        Act::FinishEnded(sid, generation, exit) => {
            push_ended(text, "finished", *sid, *generation, *exit)
        }
        Act::Status(name) => push_named(text, "status", name),
        Act::Tally(name) => push_named(text, "tally", name),
        Act::Permafailon(name, seconds, count, list) => {
            push_permafailon(text, name, *seconds, *count, list)
        }
        Act::Wait(condition, mode, timeout, names) => {
            push_wait(text, *condition, *mode, *timeout, names.names())
        }
        Act::Cancel(waiter) => push_serial(text, "cancel", waiter.0),
        Act::Subscribe(target, pattern, repeats) => {
            push_subscribe(text, target, pattern.text(), *repeats)
        }
        Act::Unsubscribe(subscription) => { push_serial(text, "unsubscribe", subscription.0) }
        Act::Send(target, message) => push_send(text, target, message),
        Act::MakeDir(name) => push_named(text, "mkdir", name),
        Act::Tick => text.extend_from_slice(b"tick"),
    }
}

// Makes the text the spelling of an act that was read. The pattern of a subscription, which isn't
// built yet, is spelled by its text.
pub fn spell_read<A: Allocator + Copy>(
    alloc: A,
    text: &mut Vec<u8, A>,
    act: &UnbuiltAct<A>,
) -> Result<(), AllocError>
    ensures { OnOk result (text.new.items ≡ act_spelling (act_read act.now)) }
{
    text.clear();
    match act {
        UnbuiltAct::Whole(act) => push_act(alloc, text, act),
        UnbuiltAct::Subscribe(target, pattern, repeats) => {
            push_subscribe(text, target, pattern, *repeats)
        }
    }
}
