//! Why an act is refused before a part (services, waiters, event directories) is asked, and the
//! order in which that is looked for. The choice is what a step does for its act: the refusal, or
//! what it asks of a part, which may refuse it too: a stale report in `reports.rt` of
//! supervise_core; a full list in `waiter_limits.rt` of wait_conditions and `refusing.rt` of
//! event_directory.
ghost use Rattle.std.specs.Prelude.{◌≡◌, ◌==◌, ◌+◌, ◌<◌, ◌≤◌, ◌^◌, ◌++◌, List, map, find, bytes_eq, length, option_map, All, IfOk, None, Some, if◌then◌else◌};
ghost use Rattle.std.specs.List.{list_any};
ghost use Rattle.death_tally.specs.PermanentFailure.{are_permanent_failure};
ghost use Rattle.s6_events.specs.Clock.{clock_of};
ghost use Rattle.s6_events.specs.declared.moment.Moment.{Moment};
ghost use Rattle.supervise_core.specs.Chart.{fire_move};
ghost use Rattle.supervise_core.specs.StatusRow.{status_row};
ghost use Rattle.supervise_core.specs.declared.change.Change.TheVariants.{Control};
ghost use Rattle.svscan_core.specs.Moves.{moment_of, services_after, events_after};
ghost use Rattle.svscan_core.specs.Sound.{AllAgree};
ghost use Rattle.svscan_core.specs.Table.{charts_of};
ghost use Rattle.tree_core.specs.ActRefusals.{all_named, serials_named, source_named};
ghost use Rattle.tree_core.specs.Limits.{name_limit};
ghost use Rattle.tree_core.specs.Choices.{chosen_of, report_choice, letters_choice, row_choice, failure_choice, scan_choice, wait_choice, subscribe_choice, send_choice, AsksNothing};
ghost use Rattle.tree_core.specs.Replies.{tally_in};

use super::choice::Choice;
use super::input::Target;
use super::limits::WAIT_NAME_LIMIT;
use super::names::has_repeated_name;
use super::reply::Refusal;
use arrayvec::ArrayVec;
use control_letters::Letters as ControlLetters;
use death_tally::{DeathList, permafails};
use event_directory::{Message, Source};
use s6_events::{At, Condition, Mode, Name, NoMemory, Sid};
use std::alloc::Allocator;
use supervise_core::{Change, Phase};
use svscan_core::{Entry, Registry, has_repeats};

/// A copy of this list.
pub fn copy_of<T: Copy + Default, const N: usize>(list: &ArrayVec<T, N>) -> ArrayVec<T, N>
    ensures { result ≡ list.now }
{
    let mut copy = ArrayVec::new();
    if copy.try_extend_from_slice(list.as_slice()).is_err() {
        // Both lists have room for `N` items.
        unreachable!()
    }
    copy
}

/// The choice for a report to the service of this serial. NoService where no service has it.
#[inline(always)]
pub fn report<'a, A: Allocator + Copy>(
    registry: &Registry<A>,
    sid: Sid,
    change: Change,
) -> Choice<'a>
    ensures { chosen_of result ≡ report_choice
        (list_any (λ c. c.sid == sid) (charts_of registry.now.shown.services)) sid change }
{
    if registry.get(sid).is_none() {
        return Choice::Refuse(Refusal::NoService);
    }
    Choice::Report(sid, change)
}

/// The choice for letters to the service of this name. NoService where no service has it, Ended
/// where its supervisor has ended once the due timers went off.
pub fn letters<'a, A: Allocator + Copy>(
    registry: &Registry<A>,
    name: Name,
    letters: &ControlLetters,
    now: At,
) -> Choice<'a>
    requires { All (λ c. c.generation + 1 < 2 ^ 64) (charts_of registry.now.shown.services) }
    ensures { chosen_of result ≡ letters_choice
        (find (λ c. bytes_eq name c.name)
        (services_after (fire_move now) (charts_of registry.now.shown.services)))
        (Control letters.now) }
{
    let Some(standing) = registry.after_timers(name, now) else {
        return Choice::Refuse(Refusal::NoService);
    };
    if standing.chart().phase == Phase::Gone {
        return Choice::Refuse(Refusal::Ended);
    }
    Choice::Letters(standing.sid(), Change::Control(copy_of(letters)))
}

/// The choice that shows the status row of the service of this name, as it is once the due timers
/// went off. NoService where no service has the name.
pub fn show<'a, A: Allocator + Copy>(registry: &Registry<A>, name: Name, now: At) -> Choice<'a>
    requires { All (λ c. c.generation + 1 < 2 ^ 64) (charts_of registry.now.shown.services) }
    ensures idle { AsksNothing now (chosen_of result) }
    ensures row { (history : List Moment) → clock_of history ≡ now →
        AllAgree registry.now.shown.services history
        → chosen_of result ≡ row_choice
        (option_map (status_row (history
        ++ map moment_of (events_after (fire_move now) (charts_of registry.now.shown.services)))
        now)
        (find (λ c. bytes_eq name c.name)
        (services_after (fire_move now) (charts_of registry.now.shown.services)))) }
{
    match registry.after_timers(name, now) {
        Some(standing) => Choice::Show(standing.status().row(&standing.chart(), now)),
        None => Choice::Refuse(Refusal::NoService),
    }
}

/// The choice that tells whether the last deaths of the service of this name are a permanent
/// failure. NoService where no service has the name.
pub fn judge<'a, A: Allocator + Copy>(
    registry: &Registry<A>,
    name: Name,
    now: At,
    seconds: u32,
    count: u32,
    list: &DeathList,
) -> Choice<'a>
    ensures idle { AsksNothing now (chosen_of result) }
    ensures failure { chosen_of result
        ≡ failure_choice (option_map (are_permanent_failure now seconds count list.now)
        (tally_in name registry.now.shown.services)) }
{
    match registry.named(name) {
        // Its tally, the last deaths, is compared with the list of exits, the count and the
        // seconds.
        Some(service) => { Choice::Failure(permafails(service.tally(), now, seconds, count, list)) }
        None => Choice::Refuse(Refusal::NoService),
    }
}

/// The choice for a listing. Closing while the tree is closing; else Repeated where a name is in it
/// twice. `NoMemory` where memory is refused.
pub fn scan<A: Allocator + Copy>(
    alloc: A,
    listing: &[Entry],
    closing: bool,
) -> Result<Choice<'_>, NoMemory>
    ensures { IfOk result (λ choice. chosen_of choice ≡ scan_choice closing listing.now) }
{
    if closing {
        return Ok(Choice::Refuse(Refusal::Closing));
    }
    if has_repeats(alloc, listing)? {
        return Ok(Choice::Refuse(Refusal::Repeated));
    }
    Ok(Choice::Listing(listing))
}

// The serials of the services of these names, which are at most `WAIT_NAME_LIMIT`. None where a
// name is that of no service.
fn serials_of<A: Allocator + Copy>(
    registry: &Registry<A>,
    names: &[Name],
) -> Option<ArrayVec<Sid, WAIT_NAME_LIMIT>>
    requires { length names.now ≤ name_limit }
    ensures { option_map (λ sids. sids.items) result
        ≡ (if all_named names.now (charts_of registry.now.shown.services)
        then Some (serials_named names.now (charts_of registry.now.shown.services)) else None) }
{
    let mut sids = ArrayVec::new();
    for name in names {
        match registry.find(*name) {
            Some(sid) => sids.push(sid),
            None => return None,
        }
    }
    Some(sids)
}

/// The choice for a wait for the services of these names. Empty, Repeated, TooMany (over 16 names),
/// NoService: the first of these that applies. Where there are 1,024 waiters already, it is refused
/// last, by `refusal_for` of wait_conditions. `NoMemory` where memory is refused.
pub fn wait<'a, A: Allocator + Copy>(
    alloc: A,
    registry: &Registry<A>,
    condition: Condition,
    mode: Mode,
    timeout: u32,
    names: &[Name],
) -> Result<Choice<'a>, NoMemory>
    ensures { IfOk result (λ choice. chosen_of choice
        ≡ wait_choice condition mode timeout names.now (charts_of registry.now.shown.services)) }
{
    if names.is_empty() {
        return Ok(Choice::Refuse(Refusal::Empty));
    }
    if has_repeated_name(alloc, names)? {
        return Ok(Choice::Refuse(Refusal::Repeated));
    }
    if names.len() > WAIT_NAME_LIMIT {
        return Ok(Choice::Refuse(Refusal::TooMany));
    }
    Ok(match serials_of(registry, names) {
        Some(sids) => Choice::Wait(condition, mode, timeout, sids),
        None => Choice::Refuse(Refusal::NoService),
    })
}

/// The choice for a subscription to the event directory of a service or to a free one. NoService
/// where no service has the name.
pub fn subscribe<'a, A: Allocator + Copy>(registry: &Registry<A>, target: Target) -> Choice<'a>
    ensures { chosen_of result ≡ subscribe_choice
        (source_named target (charts_of registry.now.shown.services)) }
{
    let source = match target {
        Target::Directory(name) => Source::Directory(name),
        Target::Service(name) => match registry.find(name) {
            Some(sid) => Source::Service(sid),
            None => return Choice::Refuse(Refusal::NoService),
        },
    };
    Choice::Subscribe(source)
}

/// The choice for a message. Reserved for the event directory of a service, which takes none from
/// outside.
pub fn send<'a>(target: Target, message: &'a Message) -> Choice<'a>
    ensures { chosen_of result ≡ send_choice target message.now }
{
    match target {
        Target::Service(_) => Choice::Refuse(Refusal::Reserved),
        Target::Directory(name) => Choice::Send(name, message),
    }
}
