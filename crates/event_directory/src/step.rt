//! A step of all event directories, first prepared and then finished: its letters, and then one
//! change. What the change leaves to be done when the step is made is a `PendingStep`.
ghost use Rattle.std.specs.Prelude.{◌≡◌, ◌<◌, ◌++◌, ◌^◌, [], None, Some, IfOk, OnOk, option_map};
ghost use Rattle.event_directory.specs.Changes.{directory_request_of};
ghost use Rattle.event_directory.specs.Changes.DirectoryRequest.{unsubscribe};
ghost use Rattle.event_directory.specs.Hearing.{hits_of_moments};
ghost use Rattle.event_directory.specs.Register.{shown_in, prepared_in, prepared_by_pending, HasRoom};
ghost use Rattle.event_directory.specs.RegisterChanges.{stored_change, stored_given, stored_told, refusal_in, prepared_change, given_change, told_change, after_step};
ghost use Rattle.event_directory.specs.Remembered.{directories_after_commit};

use crate::directory_change::{DirectoryAnswer, DirectoryChange};
use crate::finds::Finds;
use crate::hit::Hit;
use crate::pending_step::PendingStep;
use crate::register::Register;
use s6_events::{Moment, NoMemory, SubId};
use std::alloc::Allocator;

// Prepares the end of the subscription of this serial. Without such a subscription nothing is left
// to do; `refusal` has refused that before.
fn prepare_leave<F: Finds, A: Allocator + Copy>(
    register: &Register<F, A>,
    id: SubId,
) -> PendingStep<F, A>
    ensures pending { prepared_by_pending result (prepared_in register.now)
        ≡ stored_change F.test (unsubscribe id) (prepared_in register.now) }
    ensures room { HasRoom result register.now }
{
    match register.source(id) {
        Some(source) => PendingStep::Unsubscribe(id, source),
        None => PendingStep::Nothing,
    }
}

// Prepares a change that is not refused, after the moments of its step, and adds the hits that it
// will give to `matches`. Memory that it needs is taken now. Returns what is left to be done when
// the step is made, and the answer.
fn prepare_change<F: Finds, A: Allocator + Copy>(
    register: &mut Register<F, A>,
    change: &DirectoryChange<'_>,
    matches: &mut Vec<(SubId, Hit), A>,
) -> Result<(PendingStep<F, A>, DirectoryAnswer), NoMemory>
    requires { register.old.next < 2 ^ 63 }
    ensures shown { shown_in register.new ≡ shown_in register.old }
    ensures pending { IfOk result
        (λ r. prepared_by_pending r.0 (prepared_in register.new)
        ≡ stored_change F.test (directory_request_of change.now) (prepared_in register.old)) }
    ensures answer { IfOk result
        (λ r. r.1 ≡ stored_told (directory_request_of change.now) (prepared_in register.old)) }
    ensures matches { OnOk result
        (matches.new.items ≡ matches.old.items
        ++ stored_given F.test (directory_request_of change.now) (prepared_in register.old)) }
    ensures room { IfOk result (λ r. HasRoom r.0 register.new) }
{
    match *change {
        DirectoryChange::Nothing => Ok((PendingStep::Nothing, DirectoryAnswer::Done)),
        DirectoryChange::Make(name) => {
            register.reserve_name()?;
            Ok((PendingStep::Make(name), DirectoryAnswer::Done))
        }
        // The letters of a message are prepared like those of the moments, and then nothing is left
        // to be done.
        DirectoryChange::Send(name, message) => {
            register.hear_message(name, message, matches)?;
            Ok((PendingStep::Nothing, DirectoryAnswer::Done))
        }
        DirectoryChange::Subscribe(source) => {
            let pending = register.reserve_subscription(&source)?;
            Ok((pending, DirectoryAnswer::Subscribed(register.next())))
        }
        DirectoryChange::Unsubscribe(id) => {
            let pending = prepare_leave(register, id);
            Ok((pending, DirectoryAnswer::Done))
        }
    }
}

/// Prepares a step: its moments, and then its change, if that is not refused. Adds the hits that
/// they will give to `matches`. NoMemory where memory is refused: what is shown stays then too.
pub fn work_out<F: Finds, A: Allocator + Copy>(
    register: &mut Register<F, A>,
    moments: &[Moment],
    change: &DirectoryChange<'_>,
    matches: &mut Vec<(SubId, Hit), A>,
) -> Result<(PendingStep<F, A>, DirectoryAnswer), NoMemory>
    requires { register.old.next < 2 ^ 63 }
    ensures shown { shown_in register.new ≡ shown_in register.old }
    ensures pending { IfOk result
        (λ r. prepared_by_pending r.0 (prepared_in register.new)
        ≡ prepared_change F.test (directory_request_of change.now)
        (after_step F.test moments.now (shown_in register.old))) }
    ensures answer { IfOk result
        (λ r. r.1 ≡ told_change (directory_request_of change.now)
        (after_step F.test moments.now (shown_in register.old))) }
    ensures matches { OnOk result (matches.new.items
        ≡ matches.old.items ++ hits_of_moments F.test moments.now register.old.followed
        ++ given_change F.test (directory_request_of change.now)
        (after_step F.test moments.now (shown_in register.old))) }
    ensures room { IfOk result (λ r. HasRoom r.0 register.new) }
{
    hear_step(register, moments, matches)?;
    match register.refusal(change) {
        Some(fault) => Ok((PendingStep::Nothing, DirectoryAnswer::Refused(fault))),
        None => prepare_change(register, change, matches),
    }
}

// Prepares the moments of a step: the letters of their marks, with which nothing that was prepared
// before is mixed.
fn hear_step<F: Finds, A: Allocator + Copy>(
    register: &mut Register<F, A>,
    moments: &[Moment],
    matches: &mut Vec<(SubId, Hit), A>,
) -> Result<(), NoMemory>
    ensures shown { shown_in register.new ≡ shown_in register.old }
    ensures prepared { OnOk result
        (prepared_in register.new ≡ after_step F.test moments.now (shown_in register.old)) }
    ensures matches { OnOk result
        (matches.new.items ≡ matches.old.items
        ++ hits_of_moments F.test moments.now register.old.followed) }
{
    register.begin();
    register.hear_moments(moments, matches)
}

/// Makes the change of a prepared step. `offered` is the pattern for a new subscription, and
/// whether it repeats; without it none is made.
pub fn finish_step<F: Finds, A: Allocator + Copy>(
    register: &mut Register<F, A>,
    pending: PendingStep<F, A>,
    offered: Option<(F, bool)>,
)
    requires { HasRoom pending register.old }
    ensures { shown_in register.new
        ≡ directories_after_commit (prepared_by_pending pending (shown_in register.old))
        (option_map (λ o. (F.source o.0, o.1)) offered) }
{
    match pending {
        PendingStep::Nothing => {}
        PendingStep::Make(name) => register.add_name(name),
        // The source has a directory already, which the subscription joins.
        PendingStep::Join(source) => match offered {
            Some((pattern, repeats)) => register.join(&source, pattern, repeats),
            None => {}
        },
        // The source gets its first subscription, and this directory with it.
        PendingStep::Start(directory) => match offered {
            Some((pattern, repeats)) => register.start(directory, pattern, repeats),
            None => {}
        },
        PendingStep::Unsubscribe(id, source) => register.leave(id, source),
    }
}
