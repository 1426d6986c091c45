//! The table of services (the registry): a step is prepared, which changes nothing that is shown,
//! then committed, which takes no memory.
ghost use Rattle.std.specs.Prelude.{◌≡◌, ◌==◌, ◌+◌, ◌<◌, ◌≤◌, ◌^◌, ◌++◌, [], List, map, find, length, slice_get, bytes_eq, option_map, IfSome, IfOk, IsOk, OnOk};
ghost use Rattle.s6_events.specs.Clock.{clock_of};
ghost use Rattle.s6_events.specs.declared.moment.Moment.{Moment};
ghost use Rattle.supervise_core.specs.Chart.{fire_move};
ghost use Rattle.supervise_core.specs.Service.{AgreesAs};
ghost use Rattle.svscan_core.specs.Asked.{work_asked, IsOrderly};
ghost use Rattle.svscan_core.specs.Limits.{order_limit};
ghost use Rattle.svscan_core.specs.Moves.{moment_of, services_after, events_after};
ghost use Rattle.svscan_core.specs.Registry.{registry_prepared, table_of, idle_of, IsPlanOf};
ghost use Rattle.svscan_core.specs.SoFar.{HaveGenerations};
ghost use Rattle.svscan_core.specs.Sound.{AllAgree, IsSound};
ghost use Rattle.svscan_core.specs.Table.{new_table, charts_of};
ghost use Rattle.svscan_core.specs.Work.{AreDue};
ghost use Rattle.svscan_core.specs.Work.Work.{do_nothing};
ghost use Rattle.svscan_core.specs.Worked.{IsStepOf};

use super::commit::commit_changes;
use super::entry::Listed;
use super::event::Event;
use super::image::{RegistryImage, images_of};
use super::pending::Pending;
use super::registry_plan::RegistryPlan;
use super::slots::Slots;
use super::table::{self, find_sid, nth_sid};
use super::work::ServiceWork;
use deadlines::TimerChange;
use s6_events::{At, Name, NoMemory, Order, Sid};
use std::alloc::Allocator;
use std::marker::Model;
use supervise_core::{Out, Service, ServiceState};

/// The services of a scan directory, at most `SERVICE_LIMIT`, in rising serial. A step is worked
/// out first (`prepare`), which changes nothing that is shown, and then made (`commit`), which
/// takes no memory; or one thing alone is done at once (`scan`, `control`, `change`). The step that
/// was worked out last lies in the registry, in memory that is kept from step to step. Page
/// `s6-svscan`.
#[derive(Drop)]
pub struct Registry<A: Allocator> {
    pub(crate) slots: Slots<A>,
    // The serial of the next new service.
    pub(crate) next_sid: u64,
    // The step that was worked out last.
    pub(crate) pending: Pending<A>,
    // Counts the steps that were worked out, modulo 2^64. The plan of the last one has this as its
    // number.
    pub(crate) number: u64,
    // The marks and orders of one service's change, while a step is worked out. It is kept here
    // since it is large.
    pub(crate) out: Out,
}

impl<A: Allocator> Model for Registry<A> {
    ghost use Rattle.svscan_core.specs.Registry.{RegistryView};

    ghost Value = { RegistryView };

    ghost use Rattle.svscan_core.specs.RegistryFields.{registry_view, IsSoundRegistry};

    ghost view = { registry_view };

    ghost invariant = { IsSoundRegistry };
}

impl<A: Allocator + Copy> Registry<A> {
    /// A registry with no service; the first one gets the serial 1.
    pub fn new(alloc: A) -> Registry<A>
        ensures shown { result.shown ≡ new_table }
    {
        Registry {
            slots: Slots::new(alloc),
            next_sid: 1,
            pending: Pending::new(alloc, 1),
            number: 0,
            out: Out::new(),
        }
    }

    /// How many services there are: at most `SERVICE_LIMIT`. No two of them have the same name, and
    /// their serials rise and are below the next one.
    pub fn len(&self) -> usize
        ensures count { result ≡ length self.now.shown.services }
        ensures sound { IsSound self.now.shown.next_sid (charts_of self.now.shown.services) }
    {
        self.slots.len()
    }

    /// The allocator that it was made with.
    pub fn allocator(&self) -> A {
        self.slots.allocator()
    }

    /// The serial of the service of this name.
    pub fn find(&self, name: Name) -> Option<Sid>
        ensures { result ≡ option_map (λ c. c.sid)
            (find (λ c. bytes_eq name c.name) (charts_of self.now.shown.services)) }
    {
        find_sid(&self.slots, &name)
    }

    /// The service of this serial.
    pub fn get(&self, sid: Sid) -> Option<&Service<A>>
        ensures { option_map (λ s. s.now) result
            ≡ find (λ s. s.chart.sid == sid) self.now.shown.services }
    {
        table::get(&self.slots, sid)
    }

    /// The service at this place, in rising serial from 0.
    pub fn at(&self, place: usize) -> Option<&Service<A>>
        ensures { option_map (λ s. s.now) result ≡ slice_get self.now.shown.services place }
    {
        self.slots.nth(place)
    }

    /// The service of this name.
    pub fn named(&self, name: Name) -> Option<&Service<A>>
        ensures { option_map (λ s. s.now) result
            ≡ find (λ s. bytes_eq name s.chart.name) self.now.shown.services }
    {
        self.slots.find(&name)
    }

    /// All services as plain data, and the serial of the next one. `NoMemory` where memory is
    /// refused.
    pub fn image(&self, alloc: A) -> Result<RegistryImage<A>, NoMemory>
        ensures { IfOk result (λ image. image ≡ self.now.shown) }
    {
        let services = images_of(alloc, &self.slots)?;
        Ok(RegistryImage {
            services,
            next_sid: self.next_sid,
        })
    }

    /// What the service of this name would be if all due timers went off now; None where no service
    /// has the name. Nothing is changed. Each history that agrees with all services agrees with
    /// this one too, once the marks of all these timers have joined it.
    pub fn after_timers(&self, name: Name, now: At) -> Option<ServiceState>
        requires { HaveGenerations 1 (charts_of self.now.shown.services) }
        ensures chart { option_map (λ s. s.chart) result
            ≡ find (λ c. bytes_eq name c.name)
            (services_after (fire_move now) (charts_of self.now.shown.services)) }
        ensures agrees { (history : List Moment) → clock_of history ≡ now
            → AllAgree self.now.shown.services history
            → IfSome result (λ s. AgreesAs s
            (history ++ map moment_of (events_after (fire_move now)
            (charts_of self.now.shown.services)))) }
    {
        table::after_timers(&self.slots, &name, now)
    }

    /// Works out a step: each service whose timer is due takes its rule, and then the work is done.
    /// `due` has the serials of the services whose timers are due. Nothing that is shown changes;
    /// the step that was worked out before is forgotten. `commit` makes this one, unless something
    /// that is shown has changed since. `NoMemory` where memory is refused; never where no timer is
    /// due and no work is asked.
    pub fn prepare(
        &mut self,
        due: &[Sid],
        work: &ServiceWork,
        now: At,
    ) -> Result<RegistryPlan, NoMemory>
        requires due { AreDue due.now now (charts_of self.old.shown.services) }
        requires listing { IsOrderly self.old.shown.next_sid (work_asked work.now) }
        requires generations { HaveGenerations 2 (charts_of self.old.shown.services) }
        ensures shown { self.new.shown ≡ self.old.shown }
        ensures fits { IfOk result (λ plan. IsPlanOf self.new plan) }
        ensures few { OnOk result (length self.new.planned.orders ≤ order_limit) }
        ensures prepared { OnOk result (IsStepOf (work_asked work.now) now self.old.shown
            (registry_prepared self.new.shown.services self.new.planned)) }
        ensures quiet { due.now ≡ [] → work_asked work.now ≡ do_nothing → IsOk result }
        ensures still { due.now ≡ [] → work_asked work.now ≡ do_nothing
            → OnOk result (registry_prepared self.new.shown.services self.new.planned
            ≡ idle_of self.new.shown) }
    {
        // Where the marks and orders of one service's change lie while the step is worked out.
        let out = &mut self.out;
        self.pending
            .work_out(&self.slots, self.next_sid, due, work, now, out)?;
        // Room for the services that the step adds, so that `commit` takes no memory.
        self.slots.reserve(self.pending.scan.added.len())?;
        // The plan that is answered only names this step, by a number; the step itself stays in the
        // registry.
        self.number = self.number.wrapping_add(1);
        Ok(RegistryPlan::of(self.number))
    }

    /// The marks that the step gives that was worked out last, in the order made.
    pub fn events(&self) -> &[Event]
        ensures { result.now ≡ self.now.planned.events }
    {
        self.pending.moves.events.as_slice()
    }

    /// The orders that this step gives, in the order made.
    pub fn orders(&self) -> &[Order]
        ensures { result.now ≡ self.now.planned.orders }
    {
        self.pending.moves.orders.as_slice()
    }

    /// Whether this step is a report that was stale: of another run than the present one, or not
    /// awaited. Then it changes nothing.
    pub fn is_stale(&self) -> bool
        ensures { result ≡ self.now.planned.stale }
    {
        self.pending.stale
    }

    /// The serials of the services that a commit of this step will drop, which rise.
    pub fn dropped(&self) -> &[Sid]
        ensures { result.now ≡ self.now.planned.dropped }
    {
        self.pending.scan.dropped_sids.as_slice()
    }

    /// What becomes of each listed name for which there was no service, in the order of the names'
    /// bytes.
    pub fn listed(&self) -> &[Listed]
        ensures { result.now ≡ self.now.planned.listed }
    {
        self.pending.scan.listed.as_slice()
    }

    /// What a commit of this step does to the timers: deadlines that agree with the services before
    /// it agree with those after it, once these changes are made.
    pub fn timers(&self) -> &[TimerChange]
        ensures { result.now ≡ self.now.planned.timers }
    {
        self.pending.timers.as_slice()
    }

    /// Makes the step that was worked out last, whose plan this is; nothing that is shown has
    /// changed since. It takes no memory.
    pub fn commit(&mut self, plan: RegistryPlan)
        requires { IsPlanOf self.old plan }
        ensures { self.new.shown
            ≡ table_of (registry_prepared self.old.shown.services self.old.planned) }
    {
        // Only the contract reads the number: the caller hands in the plan of the last step.
        let RegistryPlan { number: _ } = plan;
        let Pending { moves, scan, .. } = &mut self.pending;
        commit_changes(
            &mut self.slots,
            moves.touched.as_slice(),
            scan.dropped.as_slice(),
            &mut scan.added,
        );
        self.next_sid = scan.next_sid;
    }
}
