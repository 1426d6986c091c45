//! Changes of the waiters by themselves, for whoever embeds this crate alone: no program of this
//! tree calls them.
ghost use Rattle.std.specs.Prelude.{◌≡◌, ◌<◌, ◌+◌, ◌*◌, ◌^◌, [], ◌∷◌, IfOk, IfErr, OnOk, OnErr, None, is_some, length};
ghost use Rattle.std.specs.List.{filter_map};
ghost use Rattle.wait_conditions.specs.Kept.{release_seen};
ghost use Rattle.wait_conditions.specs.Refusal.{add_refusal, fault_told, deadline_of};
ghost use Rattle.wait_conditions.specs.Stands.{WaitsFor, waits_shown};
ghost use Rattle.wait_conditions.specs.WaitsPlans.{AddsWaiter, CancelsWaiter, MakesStep};
ghost use Rattle.wait_conditions.specs.WaitsPlans.ListChange.{stay};
ghost use Rattle.wait_conditions.specs.declared.verdict.WaitState.TheVariants.{Waiting};
ghost use Rattle.wait_conditions.specs.Watch.{Watch, releases, waits_after_moment, after_add, after_cancel, state_named};
ghost use Rattle.wait_conditions.specs.Watch.{wait_terms, new_waiter, new_release, waiter_state};

use crate::add_fault::AddFault;
use crate::deadline::deadline_for;
use crate::planning::{list_serials, release_all};
use crate::verdict::Verdict;
use crate::waiter::{new_waiter, release_at_once};
use crate::waiter_limits::refusal_for;
use crate::waits::{COUNT_LIMIT, Waits};
use s6_events::{At, Condition, Mode, Moment, NoMemory, Sid, WaitId};
use std::alloc::Allocator;

impl<A: Allocator + Copy> Waits<A> {
    /// Makes a waiter for these services, 1 to 16, each named once. Its deadline is `timeout`
    /// milliseconds after `start`; 0 is none. Returns its serial, and its verdict where it is
    /// released at once. At a fault, the first by number, nothing changes.
    pub fn add(
        &mut self,
        condition: Condition,
        mode: Mode,
        sids: &[Sid],
        timeout: u32,
        start: At,
    ) -> Result<(WaitId, Option<Verdict>), AddFault>
        requires { self.old.next < 2 ^ 63 }
        ensures ok { IfOk result (λ made. (w : Watch) → WaitsFor self.old w →
            let asked = wait_terms condition mode sids.now (deadline_of timeout start) in
            (made.0 ≡ w.next)
            × (made.1 ≡ new_release Waiting (waiter_state w.history (new_waiter w asked)))
            × WaitsFor self.new (after_add w asked)) }
        ensures possible { IfOk result
            (λ made. (w : Watch) → WaitsFor self.old w
            → add_refusal (length w.waiters) sids.now ≡ None) }
        ensures fault { IfErr result
            (λ fault. (w : Watch) → WaitsFor self.old w
            → fault ≡ fault_told (add_refusal (length w.waiters) sids.now)) }
        ensures serial { OnOk result (self.new.next ≡ self.old.next + 1) }
        ensures err { OnErr result (self.new ≡ self.old) }
    {
        self.admit(condition, mode, sids, timeout, start)
    }

    // Makes a waiter that begins after all moments so far, or says why not. For the proof of `add`.
    fn admit(
        &mut self,
        condition: Condition,
        mode: Mode,
        sids: &[Sid],
        timeout: u32,
        start: At,
    ) -> Result<(WaitId, Option<Verdict>), AddFault>
        requires { self.old.next < 2 ^ 63 }
        ensures ok { IfOk result (λ made. AddsWaiter (waits_shown self.old) (waits_shown self.new)
            (wait_terms condition mode sids.now (deadline_of timeout start)) made.0 made.1) }
        ensures possible { IfOk result
            (λ made. add_refusal (length self.old.waiters) sids.now ≡ None) }
        ensures fault { IfErr result
            (λ fault. fault ≡ fault_told (add_refusal (length self.old.waiters) sids.now)) }
        ensures serial { OnOk result (self.new.next ≡ self.old.next + 1) }
        ensures err { OnErr result (self.new ≡ self.old) }
    {
        if let Some(fault) = refusal_for(self.list.len(), sids) {
            return Err(fault);
        }
        self.list.reserve_one()?;
        let id = WaitId(self.next);
        let deadline = deadline_for(timeout, start);
        let waiter = new_waiter(
            id,
            self.count,
            condition,
            mode,
            sids,
            deadline,
            &self.states,
            &[],
        );
        let verdict = release_at_once(&waiter);
        self.list.push(waiter);
        self.next += 1;
        Ok((id, verdict))
    }

    /// Takes in the next moment. Returns the waiters that it releases, in rising serial, with their
    /// verdicts. NoMemory, which changes nothing, also where 2^63 moments would have come.
    pub fn moment(&mut self, moment: &Moment) -> Result<Vec<(WaitId, Verdict), A>, NoMemory>
        ensures ok { IfOk result (λ released. (w : Watch) → WaitsFor self.old w →
            (released.items ≡ releases w moment.now)
            × WaitsFor self.new (waits_after_moment w moment.now)) }
        ensures serials { self.new.next ≡ self.old.next }
        ensures err { OnErr result (self.new ≡ self.old) }
    {
        self.take_moment(moment)
    }

    // Takes in the next moment, first on copies of the waiters. For the proof of `moment`.
    fn take_moment(&mut self, moment: &Moment) -> Result<Vec<(WaitId, Verdict), A>, NoMemory>
        ensures ok { IfOk result (λ released.
            (released.items ≡ filter_map (release_seen moment.now) self.old.waiters)
            × MakesStep (moment.now ∷ []) stay self.old.next
            (waits_shown self.old) (waits_shown self.new)) }
        ensures serials { self.new.next ≡ self.old.next }
        ensures err { OnErr result (self.new ≡ self.old) }
    {
        if self.count + 1 >= COUNT_LIMIT {
            return Err(NoMemory);
        }
        let moments = [*moment];
        let alloc = self.list.allocator();
        let mut copies = self.list.copy_touched(&moments)?;
        let touched = list_serials(alloc, &copies)?;
        let released = release_all(alloc, &mut copies, &moments)?;
        self.states.reserve(1)?;
        self.states.take_in(moment);
        self.list.change(&touched, &moments);
        self.count += 1;
        Ok(released)
    }

    /// Ends the waiter of this serial, released or not, and returns whether there was one.
    pub fn cancel(&mut self, id: WaitId) -> bool
        ensures stood { (w : Watch) → WaitsFor self.old w → result ≡ is_some (state_named w id) }
        ensures after { (w : Watch) → WaitsFor self.old w → WaitsFor self.new (after_cancel w id) }
        ensures serials { self.new.next ≡ self.old.next }
    {
        let stood = self.result(id).is_some();
        self.take_out(id);
        stood
    }

    // Takes the waiter of this serial out, if there is one. For the proof of `cancel`.
    fn take_out(&mut self, id: WaitId)
        ensures { CancelsWaiter (waits_shown self.old) (waits_shown self.new) id }
    {
        self.list.remove(id);
    }
}
