//! A waiter as it is stored: what it knows of its services, and what a moment (a clock reading, or
//! a mark of a service) makes of it.
ghost use Rattle.std.specs.Prelude.{◌≡◌, ◌==◌, ◌≤◌, [], length, map};
ghost use Rattle.std.specs.List.{list_any};
ghost use Rattle.wait_conditions.specs.Kept.{waiter_view, still_waits, late_at, concerns, watched_then, judged, with_moment};
ghost use Rattle.wait_conditions.specs.States.{state_in, state_over};
ghost use Rattle.wait_conditions.specs.Stands.{new_stored_waiter};
ghost use Rattle.wait_conditions.specs.SupervisorState.{since_of};
ghost use Rattle.wait_conditions.specs.Watch.{wait_terms, new_release};
ghost use Rattle.wait_conditions.specs.Watchers.{touches};
ghost use Rattle.wait_conditions.specs.declared.verdict.WaitState.TheVariants.{Waiting};
ghost use Rattle.wait_conditions.specs.Watched.{watched_as};
ghost use Rattle.wait_conditions.specs.WaitsFields.{IsCounted};

use crate::counts::{ServiceCounts, count_all, watch_all};
use crate::deadline::reaches_deadline;
use crate::service_states::ServiceStates;
use crate::supervisor_state::SinceState;
use crate::verdict::{Verdict, WaitState, verdict_of};
use crate::watched_service::WatchedService;
use arrayvec::ArrayVec;
use s6_events::{Condition, Mode, Moment, Sid, WaitId};
use std::alloc::Allocator;

/// A waiter: what it was made with, how many moments had come by then, and its state. A deadline is
/// a moment in milliseconds. While it waits it knows its services, and counts those of which the
/// condition holds and those of which it fails; afterwards it knows none.
#[derive(Drop)]
pub struct Waiter {
    pub id: WaitId,
    pub condition: Condition,
    pub mode: Mode,
    pub deadline: Option<u64>,
    /// How many moments had come when it was made.
    pub place: u64,
    pub watched: ArrayVec<WatchedService, 16>,
    pub counts: ServiceCounts,
    /// Whether it waits still, or with which verdict it was released.
    pub standing: WaitState,
}

// Whether the moment is a clock reading at or past the waiter's deadline, if it has one.
fn is_late(deadline: Option<u64>, moment: &Moment) -> bool
    ensures { result ≡ late_at deadline moment.now }
{
    match deadline {
        None => false,
        Some(deadline) => reaches_deadline(deadline, moment),
    }
}

// Whether the service of this serial is one of those that a waiter watches.
fn has_service(watched: &[WatchedService], sid: Sid) -> bool
    ensures { result ≡ list_any (λ w. w.sid == sid) watched.now }
{
    watched.iter().any(|service| service.sid.0 == sid.0)
}

// Whether a moment is a mark of one of the waiter's services, or reaches its deadline.
fn is_concerned(waiter: &Waiter, moment: &Moment) -> bool
    ensures { result ≡ concerns moment.now (waiter_view waiter.now) }
{
    match moment {
        Moment::Clock(_) => is_late(waiter.deadline, moment),
        Moment::Event(sid, _) => has_service(waiter.watched.as_slice(), *sid),
    }
}

/// Whether the waiter waits still.
pub fn waits_still(waiter: &Waiter) -> bool
    ensures { result ≡ still_waits (waiter_view waiter.now) }
{
    matches!(waiter.standing, WaitState::Waiting)
}

/// Whether the waiter waits, and a moment concerns it.
pub fn is_touched(waiter: &Waiter, moment: &Moment) -> bool
    ensures { result ≡ touches moment.now (waiter_view waiter.now) }
{
    waits_still(waiter) && is_concerned(waiter, moment)
}

// The waiter's services take in the moment, and it counts anew of how many its condition holds or
// fails.
fn watch(waiter: &mut Waiter, moment: &Moment)
    requires { IsCounted waiter.old }
    ensures waiter { waiter_view waiter.new ≡ record (waiter_view waiter.old)
        { watched = watched_then moment.now (waiter_view waiter.old) } }
    ensures counted { IsCounted waiter.new }
{
    waiter.counts = watch_all(
        waiter.watched.as_mut_slice(),
        waiter.counts,
        waiter.condition,
        moment,
    );
}

// The waiter takes the verdict by its counters, and forgets its services where that releases it.
// `late`: its deadline has come.
fn judge(waiter: &mut Waiter, late: bool)
    requires { IsCounted waiter.old }
    ensures waiter { waiter_view waiter.new ≡ judged late (waiter_view waiter.old) }
    ensures counted { IsCounted waiter.new }
{
    waiter.standing = verdict_of(waiter.counts, waiter.mode, waiter.watched.len(), late);
    if waiter.standing != WaitState::Waiting {
        waiter.watched.clear();
        waiter.counts = ServiceCounts::none();
    }
}

/// The waiter takes in the moment, if it waits and the moment concerns it.
pub fn take_in(waiter: &mut Waiter, moment: &Moment)
    requires { IsCounted waiter.old }
    ensures waiter { waiter_view waiter.new ≡ with_moment moment.now (waiter_view waiter.old) }
    ensures counted { IsCounted waiter.new }
{
    if is_touched(waiter, moment) {
        let late = is_late(waiter.deadline, moment);
        watch(waiter, moment);
        judge(waiter, late);
    }
}

/// A copy of this waiter.
pub fn copy_of(waiter: &Waiter) -> Waiter
    requires { IsCounted waiter.now }
    ensures waiter { waiter_view result ≡ waiter_view waiter.now }
    ensures counted { IsCounted result }
{
    let mut watched = ArrayVec::new();
    // Both lists have room for 16.
    watched
        .try_extend_from_slice(waiter.watched.as_slice())
        .unwrap();
    Waiter {
        id: waiter.id,
        condition: waiter.condition,
        mode: waiter.mode,
        deadline: waiter.deadline,
        place: waiter.place,
        watched,
        counts: waiter.counts,
        standing: waiter.standing,
    }
}

// What is known of these services after some moments (`moments`) that `states` has not taken in
// yet. No mark has come since the waiter was made.
fn watch_services<A: Allocator>(
    condition: Condition,
    sids: &[Sid],
    states: &ServiceStates<A>,
    moments: &[Moment],
) -> ArrayVec<WatchedService, 16>
    requires { length sids.now ≤ 16 }
    ensures { result.items ≡ map (λ sid. watched_as condition sid
        (state_over sid moments.now (state_in states.now.runs sid)) (since_of sid [])) sids.now }
{
    let mut watched = ArrayVec::new();
    for sid in sids {
        let state = states.after(*sid, moments);
        watched.push(WatchedService::new(condition, *sid, state, SinceState::fresh()));
    }
    watched
}

/// A waiter that is made once `place` moments have come. `states`, what is known of every service,
/// has not taken in yet the last ones of these, which are `moments`.
pub fn new_waiter<A: Allocator>(
    id: WaitId,
    place: u64,
    condition: Condition,
    mode: Mode,
    sids: &[Sid],
    deadline: Option<u64>,
    states: &ServiceStates<A>,
    moments: &[Moment],
) -> Waiter
    requires { length sids.now ≤ 16 }
    ensures waiter { waiter_view result
        ≡ new_stored_waiter id place (wait_terms condition mode sids.now deadline)
        (λ sid. state_over sid moments.now (state_in states.now.runs sid)) }
    ensures counted { IsCounted result }
{
    let watched = watch_services(condition, sids, states, moments);
    let counts = count_all(watched.as_slice());
    let mut waiter = Waiter {
        id,
        condition,
        mode,
        deadline,
        place,
        watched,
        counts,
        standing: WaitState::Waiting,
    };
    // It may be released at once; a deadline is never reached then.
    judge(&mut waiter, false);
    waiter
}

/// The verdict of a new waiter that is released at once; None where it waits.
pub fn release_at_once(waiter: &Waiter) -> Option<Verdict>
    ensures { result ≡ new_release Waiting (waiter_view waiter.now).standing }
{
    match waiter.standing {
        WaitState::Waiting => None,
        WaitState::Released(verdict) => Some(verdict),
    }
}
