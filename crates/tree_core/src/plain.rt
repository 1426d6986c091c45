//! An input as plain data: what a record keeps of it.
ghost use Rattle.std.specs.Prelude.{◌≡◌, IfOk, true};
ghost use Rattle.tree_core.specs.Plain.{act_of};
ghost use Rattle.tree_core.specs.Plan.{is_request};

use super::input::{Act, Input, Target};
use control_letters::ControlLetter;
use death_tally::DeathItem;
use s6_events::{Actor, At, Condition, Exit, Mode, Name, NoMemory, Sid, SubId, WaitId};
use std::alloc::{AllocError, Allocator};
use std::marker::Model;
use svscan_core::{Entry, ScanOrder};

/// An act as plain data: its lists as vectors, its pattern as the text that it was built from.
#[derive(Drop)]
pub enum PlainAct<A: Allocator> {
    Scan(Vec<Entry, A>),
    Scanctl(ScanOrder),
    Svc(Name, Vec<ControlLetter, A>),
    Started(Sid, u64, u32),
    StartFailed(Sid, u64),
    Notify(Sid, u64, Vec<u8, A>),
    Death(Sid, u64, Exit),
    FinishEnded(Sid, u64, Exit),
    Status(Name),
    Tally(Name),
    Permafailon(Name, u32, u32, Vec<DeathItem, A>),
    Wait(Condition, Mode, u32, Vec<Name, A>),
    Cancel(WaitId),
    Subscribe(Target, String<A>, bool),
    Unsubscribe(SubId),
    Send(Target, Vec<u8, A>),
    MakeDir(Name),
    Tick,
}

/// An input as plain data, which a record can keep once the tree has taken the input itself. A
/// clause sees it as the input that it stands for.
#[derive(Drop)]
pub struct PlainInput<A: Allocator> {
    pub actor: Actor,
    pub at: At,
    pub act: PlainAct<A>,
}

impl<A: Allocator> Model for PlainInput<A> {
    ghost use Rattle.tree_core.specs.declared.input.Input.{Input};
    ghost use Rattle.tree_core.specs.Plain.{act_of};

    ghost Value = { Input A };

    ghost view = { λ p. record { actor = p.actor; at = p.at; act = act_of p.act } };
}

// A copy of these items.
fn copy_of<T: Copy, A: Allocator + Copy>(alloc: A, items: &[T]) -> Result<Vec<T, A>, AllocError>
    ensures { IfOk result (λ copy. copy.items ≡ items.now) }
{
    Vec::from_slice(alloc, items)
}

impl<A: Allocator + Copy> Input<A> {
    /// The same input as plain data. `NoMemory` where memory is refused.
    pub fn plain(&self, alloc: A) -> Result<PlainInput<A>, NoMemory>
        ensures { IfOk result (λ plain. plain ≡ self.now) }
    {
        let act = self.act.plain(alloc)?;
        Ok(PlainInput {
            actor: self.actor,
            at: self.at,
            act,
        })
    }
}

impl<A: Allocator + Copy> Act<A> {
    // The same act as plain data.
    fn plain(&self, alloc: A) -> Result<PlainAct<A>, AllocError>
        ensures { IfOk result (λ plain. act_of plain ≡ self.now) }
    {
        match self {
            Act::Started(sid, generation, pid) => Ok(PlainAct::Started(*sid, *generation, *pid)),
            Act::StartFailed(sid, generation) => Ok(PlainAct::StartFailed(*sid, *generation)),
            Act::Notify(sid, generation, bytes) => {
                let bytes = copy_of(alloc, bytes.as_slice())?;
                Ok(PlainAct::Notify(*sid, *generation, bytes))
            }
            Act::Death(sid, generation, exit) => Ok(PlainAct::Death(*sid, *generation, *exit)),
            Act::FinishEnded(sid, generation, exit) => {
                Ok(PlainAct::FinishEnded(*sid, *generation, *exit))
            }
            Act::Tick => Ok(PlainAct::Tick),
            _ => self.plain_request(alloc),
        }
    }

    // The same, of an act that is neither a report nor a tick. It is a function of its own:
    // inlined, each step would fill a place for each of its answers.
    #[inline(never)]
    fn plain_request(&self, alloc: A) -> Result<PlainAct<A>, AllocError>
        requires { is_request self.now ≡ true }
        ensures { IfOk result (λ plain. act_of plain ≡ self.now) }
    {
        Ok(match self {
            Act::Scan(listing) => PlainAct::Scan(copy_of(alloc, listing.entries())?),
            Act::Scanctl(order) => PlainAct::Scanctl(*order),
            Act::Svc(name, letters) => PlainAct::Svc(*name, copy_of(alloc, letters.as_slice())?),
            Act::Status(name) => PlainAct::Status(*name),
            Act::Tally(name) => PlainAct::Tally(*name),
            Act::Permafailon(name, seconds, count, list) => {
                PlainAct::Permafailon(*name, *seconds, *count, copy_of(alloc, list.items())?)
            }
            Act::Wait(condition, mode, timeout, names) => {
                PlainAct::Wait(*condition, *mode, *timeout, copy_of(alloc, names.names())?)
            }
            Act::Cancel(id) => PlainAct::Cancel(*id),
            // `repeats`: the pattern is looked for again after each match.
            Act::Subscribe(target, pattern, repeats) => {
                PlainAct::Subscribe(*target, String::from_str(alloc, pattern.text())?, *repeats)
            }
            Act::Unsubscribe(id) => PlainAct::Unsubscribe(*id),
            Act::Send(target, message) => PlainAct::Send(
                *target,
                copy_of(alloc, message.as_bytes())?,
            ),
            Act::MakeDir(name) => PlainAct::MakeDir(*name),
            // `plain` has dealt with the reports and the tick.
            _ => unreachable!(),
        })
    }
}
