//! The waiters of all services, and what is known of every service for new ones.
ghost use Rattle.std.specs.Prelude.{◌≡◌, ◌≤◌, ◌<◌, ◌+◌, ◌*◌, ◌^◌, [], IfOk, IsOk, OnOk, IsOkAnd, All, None, ℕ, is_some, length, map};
ghost use Rattle.wait_conditions.specs.Kept.{standing_kept, NoneBegan, releases_seen};
ghost use Rattle.wait_conditions.specs.NextDeadline.{earliest, next_deadline, stored_until};
ghost use Rattle.wait_conditions.specs.PlanFields.{list_change_of, JoinsCounted};
ghost use Rattle.wait_conditions.specs.Refusal.{deadline_of};
ghost use Rattle.wait_conditions.specs.Stands.{WaitsFor, waits_shown, needed_from, place_or_end};
ghost use Rattle.wait_conditions.specs.WaitsPlans.{FitsWaits, MakesPlan, PlansChange, joining, adding, JoinsAt, JoinsNext};
ghost use Rattle.wait_conditions.specs.WaitsPlans.ListChange.{stay};
ghost use Rattle.wait_conditions.specs.declared.wait_plan.PlannedChange.TheVariants.{Stay};
ghost use Rattle.wait_conditions.specs.Steps.{wait_request_of, releases_by};
ghost use Rattle.wait_conditions.specs.Steps.WaitRequest.{no_wait_request, add_one};
ghost use Rattle.wait_conditions.specs.declared.wait_change.WaitAnswer.TheVariants as answer;
ghost use Rattle.wait_conditions.specs.Watch.{Watch, new_watch, releases, state_named};
ghost use Rattle.wait_conditions.specs.Watch.{wait_terms, new_waiter};

use crate::deadline::deadline_for;
use crate::image::WaitsImage;
use crate::planning::{keep_moments, list_serials, release_all};
use crate::service_states::ServiceStates;
use crate::verdict::WaitState;
use crate::wait_change::{WaitAnswer, WaitChange};
use crate::wait_plan::{ChangePlan, PlannedChange, WaitsPlan};
use crate::waiter::{new_waiter, release_at_once};
use crate::waiter_limits::refusal_for;
use crate::waiter_list::{WaiterList, place_or_end};
use s6_events::{At, Condition, Mode, Moment, NoMemory, Sid, WaitId};
use std::alloc::Allocator;
use std::marker::Model;

/// Fewer moments than this are counted: 2^63.
pub(crate) const COUNT_LIMIT: u64 = 9_223_372_036_854_775_808;

/// The waiters that stand (a waiter does until it is cancelled, released or not), at most
/// `WAITER_LIMIT`, and what is known of every service. Pages `s6-svwait` and `s6-svlisten`; that
/// the history alone says when a waiter is released is chosen here.
///
/// `prepare` works a step out, which changes nothing that is shown, and `commit` makes it; `add`,
/// `moment` and `cancel` do one thing alone, at once. No moment is kept: each waiter counts those
/// of its services of which its condition holds, and those of which it fails. A step looks at all
/// waiters only where its marks are of several services or a deadline may be reached; else at those
/// that watch the one service of its marks.
#[derive(Drop)]
pub struct Waits<A: Allocator> {
    // How many moments have come.
    pub(crate) count: u64,
    // What is known of every service, for new waiters.
    pub(crate) states: ServiceStates<A>,
    pub(crate) list: WaiterList<A>,
    // The serial of the next new waiter.
    pub(crate) next: u64,
    // The list of the last step's moments, kept so that the next step can use its memory.
    pub(crate) spare: Vec<Moment, A>,
}

impl<A: Allocator> Model for Waits<A> {
    ghost use Rattle.wait_conditions.specs.Stands.{StoredWaits};

    ghost Value = { StoredWaits };

    ghost use Rattle.wait_conditions.specs.WaitsFields.{waits_view, IsSoundWaits};

    ghost view = { waits_view };

    ghost invariant = { IsSoundWaits };
}

impl<A: Allocator + Copy> Waits<A> {
    /// No waiter is made yet, and no moment has come. It keeps the allocator.
    pub fn new(alloc: A) -> Waits<A>
        ensures empty { WaitsFor result new_watch }
        ensures serials { result.next ≡ 1 }
    {
        Waits {
            count: 0,
            states: ServiceStates::new(alloc),
            list: WaiterList::new(alloc),
            next: 1,
            spare: Vec::new(alloc),
        }
    }

    /// The state of the waiter of this serial; None where there is none.
    pub fn result(&self, id: WaitId) -> Option<WaitState>
        ensures { (w : Watch) → WaitsFor self.now w → result ≡ state_named w id }
    {
        self.stored_result(id)
    }

    // The state of the waiter of this serial; None where there is none. For the proof.
    fn stored_result(&self, id: WaitId) -> Option<WaitState>
        ensures { result ≡ standing_kept id self.now.waiters }
    {
        self.list.standing(id)
    }

    /// All that is shown as plain data. `NoMemory` where memory is refused.
    pub fn image(&self, alloc: A) -> Result<WaitsImage<A>, NoMemory>
        ensures { IfOk result (λ image. image ≡ waits_shown self.now) }
    {
        let waiters = self.list.images(alloc)?;
        Ok(WaitsImage {
            count: self.count,
            states: Vec::from_slice(alloc, self.states.runs())?,
            waiters,
            next: self.next,
        })
    }

    /// The earliest deadline of the waiters that wait still; None where none of them has one.
    pub fn next_deadline(&self) -> Option<u64>
        ensures { (w : Watch) → WaitsFor self.now w → result ≡ next_deadline w }
    {
        self.stored_deadline()
    }

    // The earliest deadline of the waiters that wait. For the proof.
    fn stored_deadline(&self) -> Option<u64>
        ensures { result ≡ earliest (map stored_until self.now.waiters) }
    {
        self.list.next_deadline()
    }

    /// The place from which on moments are still needed: where the oldest waiter that waits still
    /// began, or past all that came where none waits.
    pub fn needed_from(&self) -> u64
        ensures value { result ≡ needed_from (waits_shown self.now) }
        ensures least { (place : ℕ) → NoneBegan place self.now.waiters → place ≤ self.now.count
            → place ≤ result }
        ensures needed { NoneBegan result self.now.waiters }
        ensures within { (end : ℕ) → All (λ k. k.place ≤ end) self.now.waiters →
            self.now.count ≤ end
            → result ≤ end }
    {
        place_or_end(self.list.oldest(), self.count)
    }

    /// Works out a step: its moments in order, and after all of them one change. The releases come
    /// by moment and then in rising serial. A waiter that is added begins after these moments, and
    /// its verdict is looked at right then. Nothing that is shown changes. NoMemory also where 2^63
    /// moments would have come. A step with no moment and no change takes no memory, and releases
    /// nothing.
    #[inline(always)]
    pub fn prepare(
        &mut self,
        moments: &[Moment],
        change: &WaitChange,
    ) -> Result<WaitsPlan<A>, NoMemory>
        requires { self.old.next < 2 ^ 63 }
        ensures released { IfOk result
            (λ plan. (w : Watch) → WaitsFor self.old w
            → plan.released ≡ releases_by w moments.now) }
        ensures moments { IfOk result (λ plan. plan.moments ≡ moments.now) }
        ensures change { IfOk result (λ plan. PlansChange (waits_shown self.old) moments.now
            (wait_request_of change.now) plan.answer plan.change plan.next) }
        ensures fits { IfOk result (λ plan. FitsWaits plan self.new) }
        ensures shown { waits_shown self.new ≡ waits_shown self.old }
        ensures quiet { moments.now ≡ [] → wait_request_of change.now ≡ no_wait_request
            → IsOkAnd result (λ plan. (plan.released ≡ []) × (plan.answer ≡ answer.Nothing)) }
    {
        self.prepare_stored(moments, change)
    }

    // Works out a step, which `commit` makes. For the proof of `prepare`.
    #[inline(always)]
    fn prepare_stored(
        &mut self,
        moments: &[Moment],
        change: &WaitChange,
    ) -> Result<WaitsPlan<A>, NoMemory>
        requires { self.old.next < 2 ^ 63 }
        ensures released { IfOk result (λ plan. plan.released
            ≡ releases_seen moments.now self.old.waiters) }
        ensures moments { IfOk result (λ plan. plan.moments ≡ moments.now) }
        ensures change { IfOk result (λ plan. PlansChange (waits_shown self.old) moments.now
            (wait_request_of change.now) plan.answer plan.change plan.next) }
        ensures fits { IfOk result (λ plan. FitsWaits plan self.new) }
        ensures shown { waits_shown self.new ≡ waits_shown self.old }
        ensures quiet { moments.now ≡ [] → wait_request_of change.now ≡ no_wait_request
            → IsOkAnd result (λ plan. plan.answer ≡ answer.Nothing) }
    {
        // Without a waiter, and where nothing is asked, the moments touch nobody.
        if self.list.is_empty() {
            if let WaitChange::Nothing = change {
                self.make_room(moments.len(), change)?;
                let own = keep_moments(&mut self.spare, moments)?;
                return Ok(WaitsPlan::of_nobody(own, self.next));
            }
        }
        self.prepare_any(moments, change)
    }

    // Works out a step on copies of the waiters that it touches. Apart, as most steps touch none.
    #[inline(never)]
    fn prepare_any(
        &mut self,
        moments: &[Moment],
        change: &WaitChange,
    ) -> Result<WaitsPlan<A>, NoMemory>
        requires { self.old.next < 2 ^ 63 }
        ensures released { IfOk result (λ plan. plan.released
            ≡ releases_seen moments.now self.old.waiters) }
        ensures moments { IfOk result (λ plan. plan.moments ≡ moments.now) }
        ensures change { IfOk result (λ plan. PlansChange (waits_shown self.old) moments.now
            (wait_request_of change.now) plan.answer plan.change plan.next) }
        ensures fits { IfOk result (λ plan. FitsWaits plan self.new) }
        ensures shown { waits_shown self.new ≡ waits_shown self.old }
        ensures quiet { moments.now ≡ [] → wait_request_of change.now ≡ no_wait_request
            → IsOkAnd result (λ plan. plan.answer ≡ answer.Nothing) }
    {
        let alloc = self.list.allocator();
        self.make_room(moments.len(), change)?;
        let mut copies = self.list.copy_touched(moments)?;
        let touched = list_serials(alloc, &copies)?;
        let released = release_all(alloc, &mut copies, moments)?;
        let planned = self.plan_change(moments, change)?;
        let own = keep_moments(&mut self.spare, moments)?;
        Ok(WaitsPlan {
            released,
            answer: planned.answer,
            moments: own,
            change: planned.change,
            next: planned.next,
            touched,
        })
    }

    // Makes room for the moments of a step, and for a new waiter. NoMemory also past 2^63 moments.
    fn make_room(&mut self, moments: usize, change: &WaitChange) -> Result<(), NoMemory>
        ensures shown { waits_shown self.new ≡ waits_shown self.old }
        ensures count { OnOk result (self.new.count + moments < 2 ^ 63) }
        ensures runs { OnOk result (2 * moments ≤ self.new.spare_runs) }
        ensures waiters { OnOk result
            (adding (wait_request_of change.now) ≤ self.new.spare_waiters) }
        ensures quiet { moments ≡ 0 → wait_request_of change.now ≡ no_wait_request → IsOk result }
    {
        if moments as u64 >= COUNT_LIMIT - self.count {
            return Err(NoMemory);
        }
        self.states.reserve(moments)?;
        if let WaitChange::Add(_, _, _, _, _) = change {
            self.list.reserve_one()?;
        }
        Ok(())
    }

    // Plans the change of a step, after these moments. `next` is the serial of the next new waiter.
    #[inline(always)]
    fn plan_change(
        &self,
        moments: &[Moment],
        change: &WaitChange,
    ) -> Result<ChangePlan<A>, NoMemory>
        requires serials { self.now.next < 2 ^ 63 }
        requires count { self.now.count + length moments.now < 2 ^ 63 }
        ensures plans { IfOk result
            (λ planned. PlansChange (waits_shown self.now) moments.now (wait_request_of change.now)
            planned.answer (list_change_of planned.change) planned.next) }
        ensures room { IfOk result
            (λ planned. joining (list_change_of planned.change)
            ≤ adding (wait_request_of change.now)) }
        ensures counted { IfOk result (λ planned. JoinsCounted planned.change) }
        ensures place { IfOk result (λ planned. JoinsAt (self.now.count + length moments.now)
            (list_change_of planned.change)) }
        ensures serial { IfOk result
            (λ planned. JoinsNext self.now.next (list_change_of planned.change) planned.next) }
        ensures quiet { wait_request_of change.now ≡ no_wait_request
            → IsOkAnd result (λ planned. planned.answer ≡ answer.Nothing) }
    {
        match change {
            WaitChange::Nothing => Ok(ChangePlan::stay(WaitAnswer::Nothing, self.next)),
            WaitChange::Add(condition, mode, sids, timeout, start) => {
                self.plan_add(moments, *condition, *mode, sids, *timeout, *start)
            }
            WaitChange::Cancel(id) => {
                let stood = self.stored_result(*id).is_some();
                Ok(ChangePlan {
                    answer: WaitAnswer::Cancelled(stood),
                    change: PlannedChange::Leave(*id),
                    next: self.next,
                })
            }
        }
    }

    // Plans the waiter that is asked for, or its refusal. Apart: other steps need no place for one.
    #[inline(never)]
    fn plan_add(
        &self,
        moments: &[Moment],
        condition: Condition,
        mode: Mode,
        sids: &[Sid],
        timeout: u32,
        start: At,
    ) -> Result<ChangePlan<A>, NoMemory>
        requires serials { self.now.next < 2 ^ 63 }
        requires count { self.now.count + length moments.now < 2 ^ 63 }
        ensures plans { IfOk result (λ planned. PlansChange (waits_shown self.now) moments.now
            (add_one (wait_terms condition mode sids.now (deadline_of timeout start)))
            planned.answer (list_change_of planned.change) planned.next) }
        ensures room { IfOk result (λ planned. joining (list_change_of planned.change) ≤ 1) }
        ensures counted { IfOk result (λ planned. JoinsCounted planned.change) }
        ensures place { IfOk result (λ planned. JoinsAt (self.now.count + length moments.now)
            (list_change_of planned.change)) }
        ensures serial { IfOk result
            (λ planned. JoinsNext self.now.next (list_change_of planned.change) planned.next) }
    {
        if let Some(fault) = refusal_for(self.list.len(), sids) {
            return Ok(ChangePlan::stay(WaitAnswer::Refused(fault), self.next));
        }
        let id = WaitId(self.next);
        // How many moments will have come when it is made.
        let place = self.count + moments.len() as u64;
        let deadline = deadline_for(timeout, start);
        let waiter = new_waiter(
            id,
            place,
            condition,
            mode,
            sids,
            deadline,
            &self.states,
            moments,
        );
        let verdict = release_at_once(&waiter);
        let waiter = Box::new(self.list.allocator(), waiter)?;
        Ok(ChangePlan {
            answer: WaitAnswer::Added(id, verdict),
            change: PlannedChange::Join(waiter),
            next: self.next + 1,
        })
    }

    /// Makes the step of a plan, which has to be one of these waiters as they stand now.
    pub fn commit(&mut self, plan: WaitsPlan<A>)
        requires { FitsWaits plan self.old }
        ensures makes { MakesPlan plan (waits_shown self.old) (waits_shown self.new) }
        ensures began { (place : ℕ) → NoneBegan place self.old.waiters → place ≤ self.old.count
            → NoneBegan place self.new.waiters }
    {
        self.make(plan);
    }

    // Makes the step of a plan; `spare` keeps the memory of its moments. For the proof of `commit`.
    #[inline(always)]
    fn make(&mut self, plan: WaitsPlan<A>)
        requires { FitsWaits plan self.old }
        ensures { MakesPlan plan (waits_shown self.old) (waits_shown self.new) }
    {
        let WaitsPlan {
            moments,
            touched,
            change,
            next,
            ..
        } = plan;
        self.states.take_in_all(&moments);
        self.list.change(&touched, &moments);
        self.count += moments.len() as u64;
        self.next = next;
        self.spare = moments;
        match change {
            PlannedChange::Stay => {}
            PlannedChange::Join(waiter) => self.list.push_boxed(waiter),
            PlannedChange::Leave(id) => self.list.remove(id),
        }
    }
}
