//! What an act (what an input asks or reports) asks of the services, the waiters and the event
//! directories: the step's choice. Why it may be refused is in `refusals.rt`.
ghost use Rattle.std.specs.Prelude.{◌≡◌, ◌+◌, ◌<◌, ◌^◌, List, All, IfOk, IsOk, OnOk, true};
ghost use Rattle.event_directory.specs.Changes.{directory_request_of};
ghost use Rattle.s6_events.specs.declared.moment.Moment.{Moment};
ghost use Rattle.svscan_core.specs.Asked.{work_asked, IsOrderly};
ghost use Rattle.svscan_core.specs.Table.{charts_of};
ghost use Rattle.svscan_core.specs.Work.{closing_after};
ghost use Rattle.wait_conditions.specs.Steps.{wait_request_of};
ghost use Rattle.tree_core.specs.Limits.{service_limit};
ghost use Rattle.tree_core.specs.Machine.{Machine};
ghost use Rattle.tree_core.specs.ActReports.{report_in};
ghost use Rattle.tree_core.specs.Choices.{chosen_of, chosen_work, chosen_change, chosen_ask, AsksNothing};
ghost use Rattle.tree_core.specs.Plan.{Chooses, HasFired, is_reading, is_request};

use super::input::Act;
use super::limits::WAIT_NAME_LIMIT;
use super::refusals::{copy_of, judge, letters, report, scan, send, show, subscribe, wait};
use super::reply::Refusal;
use arrayvec::ArrayVec;
use event_directory::{DirectoryChange, Message, Source};
use s6_events::{At, Condition, Mode, Name, NoMemory, Report, Sid, SubId, WaitId};
use std::alloc::Allocator;
use supervise_core::{Change, Row};
use svscan_core::{Entry, Registry, ScanOrder, ServiceWork, closing_after};
use wait_conditions::WaitChange;

/// What a step does for its act: why that is refused, or what it asks of the services, the waiters
/// or the event directories.
#[derive(Drop)]
pub enum Choice<'a> {
    /// The act is refused, and no part is asked.
    Refuse(Refusal),
    /// Nothing is asked: a tick.
    Nothing,
    /// The service of this serial takes this report, which may be stale.
    Report(Sid, Change),
    /// The service of this serial takes these control letters.
    Letters(Sid, Change),
    Listing(&'a [Entry]),
    Command(ScanOrder),
    /// The reply is this status row; no part is asked.
    Show(Row),
    /// The reply has the last deaths of the service of this name, if there is one; no part is
    /// asked.
    Tally(Name),
    /// The reply tells this: whether the last deaths of a service are a permanent failure; no part
    /// is asked.
    Failure(bool),
    /// A waiter for these services is asked for, with a timeout in milliseconds, 0 for none.
    Wait(Condition, Mode, u32, ArrayVec<Sid, WAIT_NAME_LIMIT>),
    Cancel(WaitId),
    MakeDirectory(Name),
    Send(Name, &'a Message),
    Subscribe(Source),
    Unsubscribe(SubId),
}

impl Choice<'_> {
    /// What the choice asks of the services, which is nothing for a request that only reads or that
    /// other parts serve.
    pub fn services(&self) -> ServiceWork<'_>
        ensures { work_asked result ≡ chosen_work (chosen_of self.now) }
    {
        match self {
            Choice::Report(sid, change) => ServiceWork::Change(*sid, change),
            Choice::Letters(sid, change) => ServiceWork::Change(*sid, change),
            Choice::Listing(listing) => ServiceWork::Listing(listing),
            Choice::Command(order) => ServiceWork::Command(*order),
            _ => ServiceWork::Nothing,
        }
    }

    /// What the choice asks of the waiters (each waits for a condition of services) at this moment.
    pub fn waiters(&self, now: At) -> WaitChange<'_>
        ensures { wait_request_of result ≡ chosen_change now (chosen_of self.now) }
    {
        match self {
            Choice::Wait(condition, mode, timeout, sids) => {
                WaitChange::Add(*condition, *mode, sids.as_slice(), *timeout, now)
            }
            Choice::Cancel(id) => WaitChange::Cancel(*id),
            _ => WaitChange::Nothing,
        }
    }

    /// What is asked of the event directories.
    #[inline(always)]
    pub fn directories(&self) -> DirectoryChange<'_>
        ensures { directory_request_of result ≡ chosen_ask (chosen_of self.now) }
    {
        match self {
            Choice::MakeDirectory(name) => DirectoryChange::Make(*name),
            Choice::Send(name, message) => DirectoryChange::Send(*name, message),
            Choice::Subscribe(source) => DirectoryChange::Subscribe(*source),
            Choice::Unsubscribe(id) => DirectoryChange::Unsubscribe(*id),
            _ => DirectoryChange::Nothing,
        }
    }

    /// Whether the tree is closing after it, where it was closing before or not: a command to all
    /// services may close it.
    pub fn closing(&self, closing: bool) -> bool
        ensures { result ≡ closing_after (chosen_work (chosen_of self.now)) closing }
    {
        match self {
            Choice::Command(order) => closing_after(*order, closing),
            _ => closing,
        }
    }
}

// The report that an act is, and the service that it names; None for a request of a user, and for a
// tick.
#[inline(always)]
fn report_in<A: Allocator>(act: &Act<A>) -> Option<(Sid, Report)>
    ensures { result ≡ report_in act.now }
{
    match act {
        Act::Started(sid, generation, pid) => {
            Some((*sid, Report::Started(*sid, *generation, *pid)))
        }
        Act::StartFailed(sid, generation) => Some((*sid, Report::StartFailed(*sid, *generation))),
        Act::Notify(sid, generation, bytes) => {
            Some((*sid, Report::Notify(*sid, *generation, copy_of(bytes))))
        }
        Act::Death(sid, generation, exit) => {
            Some((*sid, Report::Death(*sid, *generation, *exit)))
        }
        Act::FinishEnded(sid, generation, exit) => {
            Some((*sid, Report::FinishEnded(*sid, *generation, *exit)))
        }
        _ => None,
    }
}

/// What a step does for this act. The due timers of these services have not gone off yet; the act
/// is done as if they had. The answer is written into `choice`, since it is large.
#[inline(always)]
pub fn choose<'a, A: Allocator + Copy>(
    alloc: A,
    registry: &Registry<A>,
    act: &'a Act<A>,
    closing: bool,
    now: At,
    choice: &mut Choice<'a>,
) -> Result<(), NoMemory>
    requires { All (λ c. c.generation + 1 < 2 ^ 64) (charts_of registry.now.shown.services) }
    ensures chosen { OnOk result ((m : Machine) → (history : List Moment)
        → HasFired closing now registry.now.shown.services history m
        → Chooses act.now m registry.now.shown.services (chosen_of choice.new)) }
    ensures orderly { OnOk result (registry.now.shown.next_sid + service_limit + 1 < 2 ^ 64
        → IsOrderly registry.now.shown.next_sid (chosen_work (chosen_of choice.new))) }
    ensures quiet { is_reading act.now ≡ true → IsOk result }
    ensures idle { is_reading act.now ≡ true
        → OnOk result (AsksNothing now (chosen_of choice.new)) }
{
    if let Act::Tick = act {
        *choice = Choice::Nothing;
        return Ok(());
    }
    match report_in(act) {
        Some(told) => {
            // `told` is the serial of the service and the report on it.
            *choice = report(registry, told.0, Change::Report(told.1));
            Ok(())
        }
        None => choose_request(alloc, registry, act, closing, now, choice),
    }
}

// As `choose`, for an act that is neither a report nor a tick. It is a function of its own:
// inlined, each step would fill a place for each of its answers.
#[inline(never)]
fn choose_request<'a, A: Allocator + Copy>(
    alloc: A,
    registry: &Registry<A>,
    act: &'a Act<A>,
    closing: bool,
    now: At,
    choice: &mut Choice<'a>,
) -> Result<(), NoMemory>
    requires asked { is_request act.now ≡ true }
    requires generations { All (λ c. c.generation + 1 < 2 ^ 64)
        (charts_of registry.now.shown.services) }
    ensures chosen { OnOk result ((m : Machine) → (history : List Moment)
        → HasFired closing now registry.now.shown.services history m
        → Chooses act.now m registry.now.shown.services (chosen_of choice.new)) }
    ensures orderly { OnOk result (registry.now.shown.next_sid + service_limit + 1 < 2 ^ 64
        → IsOrderly registry.now.shown.next_sid (chosen_work (chosen_of choice.new))) }
    ensures quiet { is_reading act.now ≡ true → IsOk result }
    ensures idle { is_reading act.now ≡ true
        → OnOk result (AsksNothing now (chosen_of choice.new)) }
{
    let chosen = chosen_for(alloc, registry, act, closing, now)?;
    *choice = chosen;
    Ok(())
}

// The choice for an act that is neither a report nor a tick. While the tree is closing, it takes no
// listing and no command to all services.
fn chosen_for<'a, A: Allocator + Copy>(
    alloc: A,
    registry: &Registry<A>,
    act: &'a Act<A>,
    closing: bool,
    now: At,
) -> Result<Choice<'a>, NoMemory>
    requires asked { is_request act.now ≡ true }
    requires generations { All (λ c. c.generation + 1 < 2 ^ 64)
        (charts_of registry.now.shown.services) }
    ensures chosen { IfOk result
        (λ choice. (m : Machine) → (history : List Moment)
        → HasFired closing now registry.now.shown.services history m
        → Chooses act.now m registry.now.shown.services (chosen_of choice)) }
    ensures orderly { IfOk result
        (λ choice. registry.now.shown.next_sid + service_limit + 1 < 2 ^ 64
        → IsOrderly registry.now.shown.next_sid (chosen_work (chosen_of choice))) }
    ensures quiet { is_reading act.now ≡ true → IsOk result }
    ensures idle { is_reading act.now ≡ true
        → IfOk result (λ choice. AsksNothing now (chosen_of choice)) }
{
    match act {
        Act::Scan(listing) => scan(alloc, listing.entries(), closing),
        Act::Scanctl(_) if closing => Ok(Choice::Refuse(Refusal::Closing)),
        Act::Scanctl(order) => Ok(Choice::Command(*order)),
        Act::Svc(name, sent) => Ok(letters(registry, *name, sent, now)),
        Act::Status(name) => Ok(show(registry, *name, now)),
        Act::Tally(name) => Ok(Choice::Tally(*name)),
        Act::Permafailon(name, seconds, count, list) => {
            Ok(judge(registry, *name, now, *seconds, *count, list))
        }
        Act::Wait(condition, mode, timeout, names) => {
            wait(alloc, registry, *condition, *mode, *timeout, names.names())
        }
        Act::Cancel(id) => Ok(Choice::Cancel(*id)),
        // Its pattern is not needed here: it is taken out of the act when the step is made.
        Act::Subscribe(target, _, _) => Ok(subscribe(registry, *target)),
        Act::Unsubscribe(id) => Ok(Choice::Unsubscribe(*id)),
        Act::Send(target, message) => Ok(send(*target, message)),
        Act::MakeDir(name) => Ok(Choice::MakeDirectory(*name)),
        // `choose` has dealt with the reports and the tick.
        _ => unreachable!(),
    }
}
