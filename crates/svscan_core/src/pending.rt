//! A step that is worked out before anything is changed.
ghost use Rattle.std.specs.Prelude.{◌≡◌, ◌+◌, ◌≤◌, [], length, IsOk, OnOk, false, true};
ghost use Rattle.supervise_core.specs.Chart.{fire_move};
ghost use Rattle.svscan_core.specs.Asked.{work_asked, IsOrderly};
ghost use Rattle.svscan_core.specs.Limits.{service_limit};
ghost use Rattle.svscan_core.specs.Moving.{services_so_far, step_so_far, KeepNames, Takes};
ghost use Rattle.svscan_core.specs.Pending.{planned_of, prepared_of, step_timers, IsBlank, IsEmptyScan, KeepsLimits};
ghost use Rattle.svscan_core.specs.Registry.{registry_prepared};
ghost use Rattle.svscan_core.specs.SoFar.{AreInOrder, HaveGenerations, IsSoundSoFar, KeepSerials};
ghost use Rattle.svscan_core.specs.Sound.{IsSound};
ghost use Rattle.svscan_core.specs.Table.{charts_of};
ghost use Rattle.svscan_core.specs.Timers.{in_reach, timer_change_of};
ghost use Rattle.svscan_core.specs.Work.{AreDue};
ghost use Rattle.svscan_core.specs.Work.Work.{do_nothing};
ghost use Rattle.svscan_core.specs.Worked.{IsStepOf, IsWorkOf, WorkIsDone};

use super::moves::Moves;
use super::scan::{Scanning, plan_scan};
use super::slots::Slots;
use super::visit::Visit;
use super::work::ServiceWork;
use deadlines::TimerChange;
use s6_events::{At, NoMemory, Sid};
use std::alloc::Allocator;
use supervise_core::{ChartState, Out};

/// A step that is worked out before anything is changed: how services change, which leave and which
/// come, and what is answered. The lists keep their memory from step to step.
#[derive(Drop)]
pub struct Pending<A: Allocator> {
    pub moves: Moves<A>,
    pub scan: Scanning<A>,
    /// Whether the work was a report that was stale.
    pub stale: bool,
    /// What the step does to the timers; it is listed once all else is worked out.
    pub timers: Vec<TimerChange, A>,
}

// The moment at which a timer is due; None where there is no timer, or its moment is past the
// greatest one and never comes.
fn reachable(timer: Option<u64>) -> Option<At>
    ensures { result ≡ in_reach timer }
{
    match timer {
        Some(due) => At::new(due),
        None => None,
    }
}

// The change that sets the timer of a service to what its state says.
fn timer_change(chart: &ChartState) -> TimerChange
    ensures { result ≡ timer_change_of chart.now }
{
    match reachable(chart.timer) {
        Some(at) => TimerChange::Set(chart.sid, at),
        None => TimerChange::Clear(chart.sid),
    }
}

// Whether no service changes, leaves or comes, so that no timer changes either.
fn is_blank<A: Allocator + Copy>(moves: &Moves<A>, scan: &Scanning<A>) -> bool
    ensures touched { result ≡ true → moves.now.touched.items ≡ [] }
    ensures dropped { result ≡ true → scan.now.dropped_sids.items ≡ [] }
    ensures added { result ≡ true → scan.now.added.items ≡ [] }
    ensures blank { moves.now.touched.items ≡ [] → scan.now.dropped_sids.items ≡ []
        → scan.now.added.items ≡ [] → result ≡ true }
{
    moves.touched.is_empty() && scan.dropped_sids.is_empty() && scan.added.is_empty()
}

// Lists what the step does to the timers: first those of the services that it changes, then of
// those that leave and of those that come.
fn list_timers<A: Allocator + Copy>(
    moves: &Moves<A>,
    scan: &Scanning<A>,
    timers: &mut Vec<TimerChange, A>,
) -> Result<(), NoMemory>
    ensures timers { OnOk result (timers.new.items ≡ step_timers moves.now scan.now) }
    ensures quiet { moves.now.touched.items ≡ [] → scan.now.dropped_sids.items ≡ []
        → scan.now.added.items ≡ [] → IsOk result }
{
    timers.clear();
    if is_blank(moves, scan) {
        return Ok(());
    }
    for touched in moves.touched.as_slice() {
        timers.push(timer_change(&touched.standing.chart()))?;
    }
    for sid in scan.dropped_sids.as_slice() {
        timers.push(TimerChange::Clear(*sid))?;
    }
    for service in scan.added.as_slice() {
        timers.push(timer_change(&service.chart()))?;
    }
    Ok(())
}

impl<A: Allocator + Copy> Pending<A> {
    /// Nothing is worked out yet. The next new service gets the serial `next_sid`.
    pub fn new(alloc: A, next_sid: u64) -> Pending<A>
        ensures { IsBlank next_sid result }
    {
        Pending {
            moves: Moves::new(alloc),
            scan: Scanning::new(alloc, next_sid),
            stale: false,
            timers: Vec::new(alloc),
        }
    }

    /// Empties the lists, and keeps their memory, for the next step. The next new service gets the
    /// serial `next_sid`.
    pub fn clear(&mut self, next_sid: u64)
        ensures { IsBlank next_sid self.new }
    {
        self.moves.clear();
        self.scan.clear(next_sid);
        self.stale = false;
        self.timers.clear();
    }

    // Works out the work on the services as the step has them so far: after the due timers, if
    // these went off.
    fn do_work(
        &mut self,
        slots: &Slots<A>,
        work: &ServiceWork,
        now: At,
        out: &mut Out,
    ) -> Result<(), NoMemory>
        requires empty { IsEmptyScan self.old.scan }
        requires stale { self.old.stale ≡ false }
        requires few { length self.old.moves.orders.items ≤ service_limit }
        requires sound { IsSoundSoFar self.old.scan.next_sid slots.now.services
            self.old.moves.touched.items }
        requires serials { KeepSerials slots.now.services self.old.moves.touched.items }
        requires listing { IsOrderly self.old.scan.next_sid (work_asked work.now) }
        ensures worked { OnOk result (WorkIsDone (work_asked work.now) now self.old.scan.next_sid
            (step_so_far slots.now.services self.old.moves)
            (prepared_of slots.now.services self.new.moves self.new.scan self.new.stale)) }
        ensures touched { KeepNames slots.now.services self.old.moves.touched.items
            → OnOk result (KeepNames slots.now.services self.new.moves.touched.items) }
        ensures limits { OnOk result (KeepsLimits self.new) }
        ensures quiet { work_asked work.now ≡ do_nothing → IsOk result }
        ensures still { work_asked work.now ≡ do_nothing → self.new ≡ self.old }
    {
        match work {
            ServiceWork::Nothing => Ok(()),
            ServiceWork::Change(sid, change) => {
                // Only a report can be stale: one of another run than the present one, which is
                // refused.
                self.stale = self.moves.change_one(slots, *sid, change, now, out)?;
                Ok(())
            }
            ServiceWork::Command(order) => {
                self.moves
                    .visit_all(slots, Visit::Command(*order), now, out)?;
                Ok(())
            }
            ServiceWork::Listing(listing) => {
                plan_scan(slots, &mut self.moves, &mut self.scan, listing, now, out)?;
                Ok(())
            }
        }
    }

    /// Works out the work alone: no timer goes off. Nothing is changed yet: what is to be changed
    /// and given is noted here.
    pub fn work_alone(
        &mut self,
        slots: &Slots<A>,
        next_sid: u64,
        work: &ServiceWork,
        now: At,
        out: &mut Out,
    ) -> Result<(), NoMemory>
        requires sound { IsSound next_sid (charts_of slots.now.services) }
        requires generations { HaveGenerations 1 (charts_of slots.now.services) }
        requires listing { IsOrderly next_sid (work_asked work.now) }
        ensures prepared { OnOk result (IsWorkOf (work_asked work.now) now
            (record { services = slots.now.services; next_sid = next_sid })
            (registry_prepared slots.now.services (planned_of self.new))) }
        ensures touched { OnOk result (KeepNames slots.now.services self.new.moves.touched.items) }
        ensures limits { OnOk result (KeepsLimits self.new) }
    {
        self.clear(next_sid);
        self.do_work(slots, work, now, out)?;
        list_timers(&self.moves, &self.scan, &mut self.timers)?;
        Ok(())
    }

    /// Works out the whole step: the due timers first, and then the work. Nothing is changed yet:
    /// what is to be changed and given is noted here. `due` has the serials of the services whose
    /// timers are due.
    pub fn work_out(
        &mut self,
        slots: &Slots<A>,
        next_sid: u64,
        due: &[Sid],
        work: &ServiceWork,
        now: At,
        out: &mut Out,
    ) -> Result<(), NoMemory>
        requires sound { IsSound next_sid (charts_of slots.now.services) }
        requires generations { HaveGenerations 2 (charts_of slots.now.services) }
        requires due { AreDue due.now now (charts_of slots.now.services) }
        requires listing { IsOrderly next_sid (work_asked work.now) }
        ensures prepared { OnOk result (IsStepOf (work_asked work.now) now
            (record { services = slots.now.services; next_sid = next_sid })
            (registry_prepared slots.now.services (planned_of self.new))) }
        ensures touched { OnOk result (KeepNames slots.now.services self.new.moves.touched.items) }
        ensures limits { OnOk result (KeepsLimits self.new) }
        ensures quiet { due.now ≡ [] → work_asked work.now ≡ do_nothing → IsOk result }
        ensures blank { due.now ≡ [] → work_asked work.now ≡ do_nothing
            → OnOk result (IsBlank next_sid self.new) }
    {
        self.clear(next_sid);
        fire_due(slots, &mut self.moves, due, now, out)?;
        self.do_work(slots, work, now, out)?;
        list_timers(&self.moves, &self.scan, &mut self.timers)?;
        Ok(())
    }
}

// The timer of each service goes off, if it is due, in rising serial; `due` has the serials of
// these services. Where it is empty, no service is looked at.
fn fire_due<A: Allocator + Copy>(
    slots: &Slots<A>,
    moves: &mut Moves<A>,
    due: &[Sid],
    now: At,
    out: &mut Out,
) -> Result<(), NoMemory>
    requires due { AreDue due.now now
        (services_so_far slots.now.services moves.old.touched.items) }
    requires generations { HaveGenerations 1
        (services_so_far slots.now.services moves.old.touched.items) }
    requires order { AreInOrder (services_so_far slots.now.services moves.old.touched.items) }
    ensures takes { OnOk result (Takes now (fire_move now)
        (step_so_far slots.now.services moves.old) (step_so_far slots.now.services moves.new)) }
    ensures names { KeepNames slots.now.services moves.old.touched.items
        → OnOk result (KeepNames slots.now.services moves.new.touched.items) }
    ensures few { OnOk result (length moves.new.orders.items
        ≤ length moves.old.orders.items + length slots.now.services) }
    ensures quiet { due.now ≡ [] → IsOk result }
    ensures still { due.now ≡ [] → moves.new ≡ moves.old }
{
    if due.is_empty() {
        return Ok(());
    }
    moves.visit_all(slots, Visit::Fire, now, out)
}
