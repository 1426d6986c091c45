//! Changes of the table of services by themselves, for whoever embeds this crate alone: no program
//! of this tree calls them.
ghost use Rattle.std.specs.Prelude.{◌≡◌, ◌==◌, ◌+◌, ◌<◌, ◌^◌, slice_get, is_some, option_map, IfSome, IfNone, IfOk, OnOk, OnErr, false};
ghost use Rattle.std.specs.List.{list_any};
ghost use Rattle.svscan_core.specs.Asked.{work_asked, IsOrderly};
ghost use Rattle.svscan_core.specs.Changed.{GivesChange, TakesChange};
ghost use Rattle.svscan_core.specs.Limits.{service_limit};
ghost use Rattle.svscan_core.specs.Listing.{names_in};
ghost use Rattle.svscan_core.specs.Names.{repeats_name};
ghost use Rattle.svscan_core.specs.Registry.{registry_prepared, IsPlanOf};
ghost use Rattle.svscan_core.specs.SoFar.{HaveGenerations};
ghost use Rattle.svscan_core.specs.Table.{charts_of};
ghost use Rattle.svscan_core.specs.Work.Work.{apply_listing, command};
ghost use Rattle.svscan_core.specs.Worked.{IsWorkOf, WorkIsMade};

use super::entry::{Entry, ScanOrder};
use super::registry::Registry;
use super::registry_plan::{RegistryAnswer, RegistryPlan};
use super::table::{self, find_sid, nth_sid};
use super::work::ServiceWork;
use s6_events::{At, NoMemory, Sid};
use std::alloc::Allocator;
use supervise_core::{Change, Out};

impl<A: Allocator + Copy> Registry<A> {
    /// The serial of the service at this place, in rising serial from 0.
    pub fn nth(&self, place: usize) -> Option<Sid>
        ensures { result ≡ option_map (λ c. c.sid)
            (slice_get (charts_of self.now.shown.services) place) }
    {
        nth_sid(&self.slots, place)
    }

    /// The serial of the next service that is added. A caller can test by it what `prepare` and
    /// `scan` require of that serial.
    pub fn next_sid(&self) -> Sid
        ensures { result ≡ self.now.shown.next_sid }
    {
        Sid(self.next_sid)
    }

    /// The service of this serial takes a change at once, and no other one does. None where no
    /// service has the serial: nothing changes then.
    pub fn change(&mut self, sid: Sid, change: &Change, now: At) -> Option<Out>
        requires { HaveGenerations 1 (charts_of self.old.shown.services) }
        ensures takes { TakesChange sid change.now now self.old.shown.services
            self.new.shown.services }
        ensures next_sid { self.new.shown.next_sid ≡ self.old.shown.next_sid }
        ensures known { is_some result
            ≡ list_any (λ c. c.sid == sid) (charts_of self.old.shown.services) }
        ensures unknown { IfNone result (self.new.shown ≡ self.old.shown) }
        ensures gives { IfSome result (GivesChange sid change.now now
            self.old.shown.services self.new.shown.services) }
    {
        table::change(&mut self.slots, sid, change, now)
    }

    // What this step gives, copied. `NoMemory` where memory for that is refused.
    fn answer(&self, alloc: A) -> Result<RegistryAnswer<A>, NoMemory>
        ensures events { IfOk result (λ answer. answer.events.items ≡ self.now.planned.events) }
        ensures orders { IfOk result (λ answer. answer.orders.items ≡ self.now.planned.orders) }
        ensures dropped { IfOk result (λ answer. answer.dropped.items ≡ self.now.planned.dropped) }
        ensures listed { IfOk result (λ answer. answer.listed.items ≡ self.now.planned.listed) }
    {
        Ok(RegistryAnswer {
            events: self.events().to_vec(alloc)?,
            orders: self.orders().to_vec(alloc)?,
            dropped: self.dropped().to_vec(alloc)?,
            listed: self.listed().to_vec(alloc)?,
        })
    }

    // Works out a step that has this work alone: no timer goes off, and nothing that is shown
    // changes yet.
    fn prepare_alone(&mut self, work: &ServiceWork, now: At) -> Result<RegistryPlan, NoMemory>
        requires listing { IsOrderly self.old.shown.next_sid (work_asked work.now) }
        requires generations { HaveGenerations 1 (charts_of self.old.shown.services) }
        ensures shown { self.new.shown ≡ self.old.shown }
        ensures fits { IfOk result (λ plan. IsPlanOf self.new plan) }
        ensures prepared { OnOk result (IsWorkOf (work_asked work.now) now self.old.shown
            (registry_prepared self.new.shown.services self.new.planned)) }
    {
        // Where the marks and orders of one service's change lie while the step is worked out.
        let out = &mut self.out;
        self.pending
            .work_alone(&self.slots, self.next_sid, work, now, out)?;
        // Room for the services that the step adds, so that `commit` takes no memory.
        self.slots.reserve(self.pending.scan.added.len())?;
        // The plan that is answered only names this step, by a number; the step itself stays in the
        // registry.
        self.number = self.number.wrapping_add(1);
        Ok(RegistryPlan::of(self.number))
    }

    // Does the work at once: it is worked out (`prepare_alone`), what it gives is copied, and it is
    // committed.
    fn make(&mut self, work: &ServiceWork, now: At) -> Result<RegistryAnswer<A>, NoMemory>
        requires listing { IsOrderly self.old.shown.next_sid (work_asked work.now) }
        requires generations { HaveGenerations 1 (charts_of self.old.shown.services) }
        ensures made { IfOk result
            (WorkIsMade (work_asked work.now) now self.old.shown self.new.shown) }
        ensures unchanged { OnErr result (self.new.shown ≡ self.old.shown) }
    {
        let plan = self.prepare_alone(work, now)?;
        let answer = self.answer(self.slots.allocator())?;
        self.commit(plan);
        Ok(answer)
    }

    /// Takes a listing of the scan directory, at once. Each service whose name is listed becomes
    /// active and takes the configuration that was read; each other one becomes inactive. An
    /// inactive one whose supervisor has ended is dropped. Each name that has no service gets one,
    /// in the order of the names' bytes, unless its directory couldn't be read or there are
    /// `SERVICE_LIMIT` services. The listing has no name twice. `NoMemory` where memory is refused:
    /// nothing that is shown changes then. Page `s6-svscan`.
    pub fn scan(&mut self, listing: &[Entry], now: At) -> Result<RegistryAnswer<A>, NoMemory>
        requires listing { repeats_name (names_in listing.now) ≡ false }
        requires generations { HaveGenerations 1 (charts_of self.old.shown.services) }
        requires next { self.old.shown.next_sid + (service_limit + 1) < 2 ^ 64 }
        ensures made { IfOk result
            (WorkIsMade (apply_listing listing.now) now self.old.shown self.new.shown) }
        ensures unchanged { OnErr result (self.new.shown ≡ self.old.shown) }
    {
        let work = ServiceWork::Listing(listing);
        self.make(&work, now)
    }

    /// Takes a command to all services, at once: nuke gives each inactive service the letters `x`
    /// and `d`; terminate makes each service inactive and gives it both. `NoMemory` where memory is
    /// refused: nothing that is shown changes then. Page `s6-svscanctl`; which letters they get is
    /// chosen here.
    pub fn control(&mut self, order: ScanOrder, now: At) -> Result<RegistryAnswer<A>, NoMemory>
        requires generations { HaveGenerations 1 (charts_of self.old.shown.services) }
        ensures made { IfOk result
            (WorkIsMade (command order) now self.old.shown self.new.shown) }
        ensures unchanged { OnErr result (self.new.shown ≡ self.old.shown) }
    {
        self.make(&ServiceWork::Command(order), now)
    }
}
