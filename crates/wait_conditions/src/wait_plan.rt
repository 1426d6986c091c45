//! A step of the waiters that is worked out and not made yet.
ghost use Rattle.std.specs.Prelude.{◌≡◌, []};
ghost use Rattle.wait_conditions.specs.WaitsPlans.ListChange.{stay};
ghost use Rattle.wait_conditions.specs.declared.wait_change.WaitAnswer.TheVariants.{Nothing};
ghost use Rattle.wait_conditions.specs.declared.wait_plan.PlannedChange.TheVariants.{Stay};

use crate::verdict::Verdict;
use crate::wait_change::WaitAnswer;
use crate::waiter::Waiter;
use s6_events::{Moment, WaitId};
use std::alloc::Allocator;
use std::marker::Model;

/// What becomes of the list of waiters after the moments of a step.
#[derive(Drop)]
pub enum PlannedChange<A: Allocator> {
    /// No waiter is added or taken out.
    Stay,
    /// This new waiter is added.
    // A waiter is large, and most steps make none: so a plan has a place for its box alone.
    Join(Box<Waiter, A>),
    /// The waiter of this serial is taken out, if there is one.
    Leave(WaitId),
}

/// A step of the waiters that is worked out and not made yet: what it gives, and all that
/// `Waits::commit` needs to make it.
#[derive(Drop)]
pub struct WaitsPlan<A: Allocator> {
    pub(crate) released: Vec<(WaitId, Verdict), A>,
    pub(crate) answer: WaitAnswer,
    pub(crate) moments: Vec<Moment, A>,
    pub(crate) change: PlannedChange<A>,
    // The serial of the next new waiter, after the step.
    pub(crate) next: u64,
    // The serials of the waiters that the moments touch, which rise.
    pub(crate) touched: Vec<WaitId, A>,
}

impl<A: Allocator> Model for WaitsPlan<A> {
    ghost use Rattle.wait_conditions.specs.WaitsPlans.{PlannedWaits};

    ghost Value = { PlannedWaits };

    ghost use Rattle.wait_conditions.specs.PlanFields.{plan_view, IsSoundPlan};

    ghost view = { plan_view };

    ghost invariant = { IsSoundPlan };
}

impl<A: Allocator> WaitsPlan<A> {
    /// The releases by the moments of the step, by moment and then in rising serial.
    pub fn released(&self) -> &[(WaitId, Verdict)]
        ensures { result.now ≡ self.now.released }
    {
        self.released.as_slice()
    }

    /// The answer to its change.
    pub fn answer(&self) -> WaitAnswer
        ensures { result ≡ self.now.answer }
    {
        self.answer
    }
}

impl<A: Allocator + Copy> WaitsPlan<A> {
    /// The plan of these moments alone, where there is no waiter: nobody is touched or released.
    /// `next` is the serial of the next new waiter.
    pub(crate) fn of_nobody(moments: Vec<Moment, A>, next: u64) -> WaitsPlan<A>
        ensures { result ≡ record {
          released = [];
          answer = Nothing;
          moments = moments.items;
          touched = [];
          change = stay;
          next = next;
        } }
    {
        let alloc = *moments.allocator();
        WaitsPlan {
            released: Vec::new(alloc),
            answer: WaitAnswer::Nothing,
            moments,
            change: PlannedChange::Stay,
            next,
            touched: Vec::new(alloc),
        }
    }
}

/// What becomes of the list of waiters in a step, and what is answered.
#[derive(Drop)]
pub(crate) struct ChangePlan<A: Allocator> {
    pub(crate) answer: WaitAnswer,
    pub(crate) change: PlannedChange<A>,
    pub(crate) next: u64,
}

impl<A: Allocator> ChangePlan<A> {
    /// A plan in which the list of waiters stays as it is. `next` is the serial of the next new
    /// waiter.
    pub(crate) fn stay(answer: WaitAnswer, next: u64) -> ChangePlan<A>
        ensures answer { result.answer ≡ answer }
        ensures change { result.change ≡ Stay }
        ensures next { result.next ≡ next }
    {
        ChangePlan {
            answer,
            change: PlannedChange::Stay,
            next,
        }
    }
}
