//! The words of an act (what an input asks or reports) in a story: what it is, what it is about,
//! and whether it has a line of its own once it is done.
ghost use Rattle.std.specs.Prelude.{◌≡◌, ◌++◌, ◌∷◌, OnOk};
ghost use Rattle.std.specs.List.{flat_map};
ghost use Rattle.run_stories.specs.Requests.{is_told};
ghost use Rattle.run_stories.specs.ActWords.{head_words, target_text, mode_words, names_text, condition_words, patience_text, wait_text, body_words};

use crate::effect_words::push_service;
use crate::moments::push_seconds;
use s6_events::{Condition, Mode, Name};
use s6_script::{push_letters, push_number};
use std::alloc::{AllocError, Allocator};
use supervise_core::Row;
use tree_core::{Act, ScanOrder, Target};

/// Whether an act has a line of its own once it is done. What a user does to the tree has one, and
/// so has a failed start. A question or a tick has none; a scan, a wait and a subscription are told
/// by their replies, and the other reports by their events.
pub fn is_told<A: Allocator>(act: &Act<A>) -> bool
    ensures { result ≡ is_told act.now }
{
    match act {
        Act::Scanctl(_)
        | Act::Svc(_, _)
        | Act::StartFailed(_, _)
        | Act::Cancel(_)
        | Act::Unsubscribe(_)
        | Act::Send(_, _)
        | Act::MakeDir(_) => true,
        _ => false,
    }
}

/// What an act is, with a space behind it where `push_body` adds more. Of the two commands to all
/// services, nuke ends those that are not listed, terminate ends all.
pub fn head_of<A: Allocator>(act: &Act<A>) -> &'static [u8]
    ensures { result.now ≡ head_words act.now }
{
    match act {
        Act::Scan(_) => b"scan",
        Act::Scanctl(ScanOrder::Nuke) => b"end of all that is not listed",
        Act::Scanctl(ScanOrder::Terminate) => b"end of all",
        Act::Svc(_, _) => b"letters ",
        Act::Started(_, _, _)
        | Act::Notify(_, _, _)
        | Act::Death(_, _, _)
        | Act::FinishEnded(_, _, _) => b"report of ",
        Act::StartFailed(_, _) => b"failed start of ",
        Act::Status(_) => b"status of ",
        Act::Tally(_) => b"deaths of ",
        Act::Permafailon(_, _, _, _) => b"failures of ",
        Act::Wait(_, _, _, _) => b"wait for ",
        Act::Cancel(_) => b"end of wait ",
        Act::Subscribe(_, _, _) => b"subscription to ",
        Act::Unsubscribe(_) => b"end of subscription ",
        Act::Send(_, _) => b"message ",
        Act::MakeDir(_) => b"directory ",
        Act::Tick => b"tick",
    }
}

// Adds to the text which event directory is meant: by the name of its service, or as `directory`
// with its own name.
fn push_target<A: Allocator>(text: &mut Vec<u8, A>, target: &Target) -> Result<(), AllocError>
    ensures { OnOk result (text.new.items ≡ text.old.items ++ target_text target.now) }
{
    match target {
        Target::Service(name) => text.extend_from_slice(name.as_bytes()),
        Target::Directory(name) => {
            text.extend_from_slice(b"directory ")?;
            text.extend_from_slice(name.as_bytes())
        }
    }
}

// The words of a waiter's mode, with a space behind them: whether it waits for all of its services
// or for one of them.
fn mode_bytes(mode: Mode) -> &'static [u8]
    ensures { result.now ≡ mode_words mode }
{
    match mode {
        Mode::All => b"all of ",
        Mode::One => b"one of ",
    }
}

// The words of a waiter's condition, with a space before them: what its services are to be.
fn condition_bytes(condition: Condition) -> &'static [u8]
    ensures { result.now ≡ condition_words condition }
{
    match condition {
        Condition::Up => b" up",
        Condition::Ready => b" ready",
        Condition::Down => b" down",
        Condition::Finished => b" down, finish done",
        Condition::Restarted => b" started again",
        Condition::RestartedReady => b" started again, ready",
    }
}

// Adds a name to the text, behind a comma.
fn push_further_name<A: Allocator>(text: &mut Vec<u8, A>, name: &Name) -> Result<(), AllocError>
    ensures { OnOk result (text.new.items ≡ text.old.items ++ 44 ∷ 32 ∷ name.now) }
{
    text.extend_from_slice(b", ")?;
    text.extend_from_slice(name.as_bytes())
}

// Adds names to the text, each behind a comma.
fn push_further_names<A: Allocator>(text: &mut Vec<u8, A>, names: &[Name]) -> Result<(), AllocError>
    ensures { OnOk result (text.new.items
        ≡ text.old.items ++ flat_map (λ name. 44 ∷ 32 ∷ name) names.now) }
{
    for name in names {
        push_further_name(text, name)?;
    }
    Ok(())
}

// Adds names to the text, with a comma between each two.
fn push_names<A: Allocator>(text: &mut Vec<u8, A>, names: &[Name]) -> Result<(), AllocError>
    ensures { OnOk result (text.new.items ≡ text.old.items ++ names_text names.now) }
{
    if let Some((first, more)) = names.split_first() {
        text.extend_from_slice(first.as_bytes())?;
        push_further_names(text, more)?;
    }
    Ok(())
}

// Adds to the text how long a waiter waits at most, in seconds; nothing where it waits for ever.
// `timeout` is in milliseconds, 0 for none.
fn push_patience<A: Allocator>(text: &mut Vec<u8, A>, timeout: u32) -> Result<(), AllocError>
    ensures { OnOk result (text.new.items ≡ text.old.items ++ patience_text timeout) }
{
    if timeout != 0 {
        text.extend_from_slice(b", for ")?;
        push_seconds(text, u64::from(timeout))?;
    }
    Ok(())
}

// Adds to the text what a waiter waits for: of which services, what they are to be, and for how
// long at most.
fn push_wait<A: Allocator>(
    text: &mut Vec<u8, A>,
    condition: Condition,
    mode: Mode,
    timeout: u32,
    names: &[Name],
) -> Result<(), AllocError>
    ensures { OnOk result (text.new.items
        ≡ text.old.items ++ wait_text condition mode timeout names.now) }
{
    text.extend_from_slice(mode_bytes(mode))?;
    push_names(text, names)?;
    text.extend_from_slice(condition_bytes(condition))?;
    push_patience(text, timeout)
}

/// Adds to the text what an act is about: whom it names, and what it sends or waits for. A report
/// names its service by a serial: its name is found in these rows. An error where memory is
/// refused.
pub fn push_body<A: Allocator>(
    text: &mut Vec<u8, A>,
    rows: &[Row],
    act: &Act<A>,
) -> Result<(), AllocError>
    ensures { OnOk result (text.new.items ≡ text.old.items ++ body_words rows.now act.now) }
{
    match act {
        Act::Scan(_) | Act::Scanctl(_) | Act::Tick => Ok(()),
        Act::Svc(name, letters) => {
            push_letters(text, letters.as_slice())?;
            text.extend_from_slice(b" to ")?;
            text.extend_from_slice(name.as_bytes())
        }
        Act::Started(sid, _, _)
        | Act::StartFailed(sid, _)
        | Act::Notify(sid, _, _)
        | Act::Death(sid, _, _)
        | Act::FinishEnded(sid, _, _) => push_service(text, rows, *sid),
        Act::Status(name)
        | Act::Tally(name)
        | Act::Permafailon(name, _, _, _)
        | Act::MakeDir(name) => text.extend_from_slice(name.as_bytes()),
        Act::Wait(condition, mode, timeout, names) => {
            push_wait(text, *condition, *mode, *timeout, names.names())
        }
        Act::Cancel(waiter) => push_number(text, waiter.0),
        Act::Subscribe(target, pattern, _) => {
            push_target(text, target)?;
            text.extend_from_slice(b", ")?;
            text.extend_from_slice(pattern.text().as_bytes())
        }
        Act::Unsubscribe(subscription) => push_number(text, subscription.0),
        Act::Send(target, message) => {
            text.extend_from_slice(message.as_bytes())?;
            text.extend_from_slice(b" to ")?;
            push_target(text, target)
        }
    }
}
