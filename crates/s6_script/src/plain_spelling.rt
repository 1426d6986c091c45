//! The spelling of an input that is plain data: the line by which a script writes it.
ghost use Rattle.std.specs.Prelude.{◌≡◌, ◌++◌, IfOk, OnOk};
ghost use Rattle.tree_core.specs.Plain.{act_of};
ghost use Rattle.s6_script.specs.Spelling.{act_spelling, spelling};
ghost use Rattle.s6_script.specs.Telling.{SpellsIf};

use super::act_limits::is_spelt;
use super::death_list::push_permafailon_of;
use super::digits::{push_number, push_spaced};
use super::spelling::{
    push_ended, push_named, push_notify, push_report, push_scan, push_serial, push_started,
    push_svc,
};
use super::subscribing::{push_send_of, push_subscribe};
use super::waiting::push_wait;
use std::alloc::{AllocError, Allocator};
use tree_core::{PlainAct, PlainInput, ScanOrder};

// Adds the words of an act to the text: its verb, and what it asks or reports.
fn push_plain_act<A: Allocator + Copy>(
    alloc: A,
    text: &mut Vec<u8, A>,
    act: &PlainAct<A>,
) -> Result<(), AllocError>
    ensures { OnOk result (text.new.items ≡ text.old.items ++ act_spelling (act_of act.now)) }
{
    match act {
        PlainAct::Scan(entries) => push_scan(text, entries.as_slice()),
        PlainAct::Scanctl(ScanOrder::Nuke) => text.extend_from_slice(b"scanctl n"),
        PlainAct::Scanctl(ScanOrder::Terminate) => text.extend_from_slice(b"scanctl t"),
        PlainAct::Svc(name, letters) => push_svc(text, name, letters.as_slice()),
        PlainAct::Started(sid, generation, pid) => push_started(text, *sid, *generation, *pid),
        PlainAct::StartFailed(sid, generation) => {
            push_report(text, "startfailed", *sid, *generation)
        }
        PlainAct::Notify(sid, generation, bytes) => {
            push_notify(alloc, text, *sid, *generation, bytes.as_slice())
        }
        PlainAct::Death(sid, generation, exit) => {
            push_ended(text, "death", *sid, *generation, *exit)
        }
        PlainAct::FinishEnded(sid, generation, exit) => {
            push_ended(text, "finished", *sid, *generation, *exit)
        }
        PlainAct::Status(name) => push_named(text, "status", name),
        PlainAct::Tally(name) => push_named(text, "tally", name),
        PlainAct::Permafailon(name, seconds, count, items) => {
            push_permafailon_of(text, name, *seconds, *count, items.as_slice())
        }
        PlainAct::Wait(condition, mode, timeout, names) => {
            push_wait(text, *condition, *mode, *timeout, names.as_slice())
        }
        PlainAct::Cancel(waiter) => push_serial(text, "cancel", waiter.0),
        PlainAct::Subscribe(target, pattern, repeats) => {
            push_subscribe(text, target, pattern.as_str(), *repeats)
        }
        PlainAct::Unsubscribe(subscription) => push_serial(text, "unsubscribe", subscription.0),
        PlainAct::Send(target, letters) => push_send_of(text, target, letters.as_slice()),
        PlainAct::MakeDir(name) => push_named(text, "mkdir", name),
        PlainAct::Tick => text.extend_from_slice(b"tick"),
    }
}

// Makes the text the words of an input (its moment, its actor, its act), whether it is within the
// limits of a script or not.
#[tactic(auto, using(crate::proofs::Joined::join_act))]
fn join<A: Allocator + Copy>(
    alloc: A,
    text: &mut Vec<u8, A>,
    input: &PlainInput<A>,
) -> Result<(), AllocError>
    ensures { OnOk result (text.new.items ≡ spelling input.now) }
{
    text.clear();
    push_number(text, input.at.millis())?;
    push_spaced(text, u64::from(input.actor.number()))?;
    text.push(b' ')?;
    push_plain_act(alloc, text, &input.act)
}

/// Makes the text the spelling of an input, and returns whether it has one: an input beyond the
/// limits of a script has none. An error where memory is refused.
pub fn spell_plain<A: Allocator + Copy>(
    alloc: A,
    text: &mut Vec<u8, A>,
    input: &PlainInput<A>,
) -> Result<bool, AllocError>
    ensures { IfOk result (λ spelt. SpellsIf spelt text.new.items input.now) }
{
    if !is_spelt(input) {
        return Ok(false);
    }
    join(alloc, text, input)?;
    Ok(true)
}
