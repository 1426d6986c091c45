//! A scan, worked out before anything is changed: what the listing makes of each service, which are
//! dropped, which names are added.
ghost use Rattle.std.specs.Prelude.{◌≡◌, ℕ, ◌+◌, ◌<◌, ◌≤◌, ◌^◌, ◌++◌, ◌∷◌, [], List, filter, length, IfOk, OnOk, true, false};
ghost use Rattle.supervise_core.specs.declared.chart_state.ChartState.{ChartState};
ghost use Rattle.svscan_core.specs.Adding.{adding_of, state_behind, Grows};
ghost use Rattle.svscan_core.specs.Additions.{AdditionsGoOn, OnlyAdds, StandsAsBefore};
ghost use Rattle.svscan_core.specs.Limits.{service_limit};
ghost use Rattle.svscan_core.specs.Listing.{names_in};
ghost use Rattle.svscan_core.specs.Moving.{services_so_far, step_so_far, KeepNames};
ghost use Rattle.svscan_core.specs.Names.{lists, repeats_name};
ghost use Rattle.svscan_core.specs.Pending.{prepared_of, IsEmptyScan};
ghost use Rattle.svscan_core.specs.Scan.{after_look, stays, leaves, with_service, with_new_name, with_name, with_names};
ghost use Rattle.svscan_core.specs.SoFar.{IsSoundSoFar};
ghost use Rattle.svscan_core.specs.Table.{charts_of, names_of, serials_of};
ghost use Rattle.svscan_core.specs.Work.Work.{apply_listing};
ghost use Rattle.svscan_core.specs.Worked.{WorkIsDone};

use super::entry::{Entry, Listed};
use super::limits::SERVICE_LIMIT;
use super::listing::{SortedListing, sort_listing};
use super::moves::{ChangedService, Moves, standing_at};
use super::slots::Slots;
use super::visit::Visit;
use s6_events::{At, Name, NoMemory, Sid};
use servicedir::Config;
use std::alloc::Allocator;
use supervise_core::{ChartState, Out, Phase, Service, ServiceState};

/// What a listing drops and adds, before anything is changed. The lists keep their memory from step
/// to step.
#[derive(Drop)]
pub struct Scanning<A: Allocator> {
    /// The names of the services that leave.
    pub dropped: Vec<Name, A>,
    /// Their serials, which rise.
    pub dropped_sids: Vec<Sid, A>,
    /// The new services, in rising serial.
    pub added: Vec<Service<A>, A>,
    /// What becomes of each listed name for which there is no service.
    pub listed: Vec<Listed, A>,
    /// The serial of the next new service.
    pub next_sid: u64,
}

/// Makes a service active or inactive, as the listing has its name or not, and gives it the
/// configuration that was read, if any. Page `s6-svscan`.
pub fn look_at<A: Allocator + Copy>(
    standing: &mut ServiceState,
    listing: &SortedListing<A>,
    now: At,
)
    ensures { standing.new ≡ record standing.old
        { chart = after_look listing.now now standing.old.chart } }
{
    let name = standing.chart().name;
    standing.set_active(listing.has(&name), now);
    if let Some(config) = listing.config_of(&name) {
        standing.set_config(config);
    }
}

// Whether a service stays: it leaves where its directory and its supervisor are both gone.
fn is_retained(chart: &ChartState) -> bool
    ensures { result ≡ stays chart.now }
{
    chart.active || chart.phase != Phase::Gone
}

/// Notes the services that leave, and returns how many stay. `touched` are the changes of the step
/// so far. Page `s6-svscan`.
pub fn plan_drops<A: Allocator + Copy>(
    slots: &Slots<A>,
    touched: &[ChangedService],
    scan: &mut Scanning<A>,
) -> Result<usize, NoMemory>
    ensures dropped { OnOk result
        (scan.new.dropped.items ≡ scan.old.dropped.items
        ++ names_of (filter leaves (services_so_far slots.now.services touched.now))) }
    ensures dropped_sids { OnOk result
        (scan.new.dropped_sids.items
        ≡ scan.old.dropped_sids.items
        ++ serials_of (filter leaves (services_so_far slots.now.services touched.now))) }
    ensures retained { IfOk result
        (λ retained. retained ≡ length
        (filter stays (services_so_far slots.now.services touched.now))) }
    ensures added { scan.new.added.items ≡ scan.old.added.items }
    ensures listed { scan.new.listed.items ≡ scan.old.listed.items }
    ensures next_sid { scan.new.next_sid ≡ scan.old.next_sid }
{
    let mut retained = 0;
    for place in 0..slots.len() {
        if let Some(standing) = standing_at(slots, touched, place) {
            let chart = standing.chart();
            if is_retained(&chart) {
                retained += 1;
            } else {
                scan.drop_service(&chart)?;
            }
        }
    }
    Ok(retained)
}

impl<A: Allocator + Copy> Scanning<A> {
    /// Nothing is dropped or added yet. The next new service gets the serial `next_sid`.
    pub fn new(alloc: A, next_sid: u64) -> Scanning<A>
        ensures empty { IsEmptyScan result }
        ensures next_sid { result.next_sid ≡ next_sid }
    {
        Scanning {
            dropped: Vec::new(alloc),
            dropped_sids: Vec::new(alloc),
            added: Vec::new(alloc),
            listed: Vec::new(alloc),
            next_sid,
        }
    }

    /// Empties the lists, and keeps their memory, for the next scan. The next new service gets the
    /// serial `next_sid`.
    pub fn clear(&mut self, next_sid: u64)
        ensures empty { IsEmptyScan self.new }
        ensures next_sid { self.new.next_sid ≡ next_sid }
    {
        self.dropped.clear();
        self.dropped_sids.clear();
        self.added.clear();
        self.listed.clear();
        self.next_sid = next_sid;
    }

    // Notes that this service leaves.
    fn drop_service(&mut self, chart: &ChartState) -> Result<(), NoMemory>
        ensures dropped { OnOk result
            (self.new.dropped.items ≡ self.old.dropped.items ++ chart.now.name ∷ []) }
        ensures dropped_sids { OnOk result
            (self.new.dropped_sids.items ≡ self.old.dropped_sids.items ++ chart.now.sid ∷ []) }
        ensures added { self.new.added.items ≡ self.old.added.items }
        ensures listed { self.new.listed.items ≡ self.old.listed.items }
        ensures next_sid { self.new.next_sid ≡ self.old.next_sid }
    {
        self.dropped.push(chart.name)?;
        self.dropped_sids.push(chart.sid)?;
        Ok(())
    }

    // Gives the name a service of the next serial, whose supervisor starts with this configuration.
    fn add_service(
        &mut self,
        alloc: A,
        moves: &mut Moves<A>,
        name: &Name,
        config: Config,
        out: &mut Out,
    ) -> Result<(), NoMemory>
        requires next { self.old.next_sid + 1 < 2 ^ 64 }
        ensures state { OnOk result
            ((retained : List ChartState)
            → state_behind retained (adding_of self.new moves.new)
            ≡ with_service config (state_behind retained (adding_of self.old moves.old)) name.now) }
        ensures goes_on { OnOk result (AdditionsGoOn (adding_of self.old moves.old)
            (adding_of self.new moves.new)) }
        ensures count { OnOk result
            (length self.new.added.items ≡ length self.old.added.items + 1) }
        ensures orders { OnOk result
            (length moves.new.orders.items ≤ length moves.old.orders.items + 1) }
        ensures next { OnOk result (self.new.next_sid ≡ self.old.next_sid + 1) }
        ensures only { OnlyAdds self.old self.new moves.old moves.new }
    {
        let sid = Sid(self.next_sid);
        let service = Service::begin_into(alloc, sid, *name, config, out)?;
        // The mark and the order of its start, which are among what the step gives.
        moves.give(sid, out)?;
        self.added.push(service)?;
        self.listed.push(Listed::Added(sid, *name))?;
        self.next_sid += 1;
        Ok(())
    }

    // Adds a service for a name that has none, unless its directory couldn't be read (`found` is
    // None) or the limit is reached. `retained` services stay.
    fn add_new_name(
        &mut self,
        alloc: A,
        moves: &mut Moves<A>,
        retained: usize,
        name: &Name,
        found: Option<Config>,
        out: &mut Out,
    ) -> Result<(), NoMemory>
        requires few { retained + length self.old.added.items ≤ service_limit }
        requires next { self.old.next_sid + 1 < 2 ^ 64 }
        ensures state { OnOk result
            ((services : List ChartState) → length services ≡ retained
            → state_behind services (adding_of self.new moves.new)
            ≡ with_new_name found (state_behind services (adding_of self.old moves.old)) name.now) }
        ensures goes_on { OnOk result (AdditionsGoOn (adding_of self.old moves.old)
            (adding_of self.new moves.new)) }
        ensures grows { OnOk result
            (Grows retained (adding_of self.old moves.old) (adding_of self.new moves.new)) }
        ensures only { OnlyAdds self.old self.new moves.old moves.new }
    {
        let Some(config) = found else {
            self.listed.push(Listed::Unread(*name))?;
            return Ok(());
        };
        if retained + self.added.len() >= SERVICE_LIMIT {
            self.listed.push(Listed::Full(*name))?;
            return Ok(());
        }
        self.add_service(alloc, moves, name, config, out)
    }

    // Adds a service for a listed name, unless it has one, its directory couldn't be read, or the
    // limit is reached. `retained` services stay.
    fn add_name(
        &mut self,
        slots: &Slots<A>,
        moves: &mut Moves<A>,
        retained: usize,
        name: &Name,
        listing: &SortedListing<A>,
        out: &mut Out,
    ) -> Result<(), NoMemory>
        requires few { retained + length self.old.added.items ≤ service_limit }
        requires next { self.old.next_sid + 1 < 2 ^ 64 }
        ensures state { OnOk result ((services : List ChartState) → length services ≡ retained
            → StandsAsBefore slots.now.services
            (services ++ charts_of self.old.added.items) name.now
            → state_behind services (adding_of self.new moves.new)
            ≡ with_name listing.now (state_behind services (adding_of self.old moves.old))
            name.now) }
        ensures goes_on { OnOk result (AdditionsGoOn (adding_of self.old moves.old)
            (adding_of self.new moves.new)) }
        ensures grows { OnOk result
            (Grows retained (adding_of self.old moves.old) (adding_of self.new moves.new)) }
        ensures only { OnlyAdds self.old self.new moves.old moves.new }
    {
        if slots.has(name) {
            return Ok(());
        }
        let found = listing.config_of(name);
        self.add_new_name(slots.allocator(), moves, retained, name, found, out)
    }

    // Adds a service for each of these listed names that has none, as far as its directory could be
    // read and the limit allows; `retained` services stay. Page `s6-svscan`.
    fn add_names(
        &mut self,
        slots: &Slots<A>,
        moves: &mut Moves<A>,
        retained: usize,
        names: &[Name],
        listing: &SortedListing<A>,
        out: &mut Out,
    ) -> Result<(), NoMemory>
        requires once { repeats_name names.now ≡ false }
        requires few { retained + length self.old.added.items ≤ service_limit }
        requires next { self.old.next_sid + (service_limit + 1) < 2 ^ 64 }
        ensures state { OnOk result ((services : List ChartState) → length services ≡ retained
            → ((name : List ℕ) → lists names.now name ≡ true
            → StandsAsBefore slots.now.services (services ++ charts_of self.old.added.items) name)
            → state_behind services (adding_of self.new moves.new)
            ≡ with_names listing.now (state_behind services (adding_of self.old moves.old))
            names.now) }
        ensures goes_on { OnOk result (AdditionsGoOn (adding_of self.old moves.old)
            (adding_of self.new moves.new)) }
        ensures grows { OnOk result
            (Grows retained (adding_of self.old moves.old) (adding_of self.new moves.new)) }
        ensures only { OnlyAdds self.old self.new moves.old moves.new }
    {
        for name in names {
            self.add_name(slots, moves, retained, name, listing, out)?;
        }
        Ok(())
    }
}

/// Works out what the listing does to the services as the step has them so far. Each is looked at;
/// those whose directory and supervisor are both gone leave; and each listed name that has no
/// service gets a new one, in the order of the names' bytes, unless its directory couldn't be read,
/// while there are fewer than `SERVICE_LIMIT`. Nothing of it is done yet. `NoMemory` where memory
/// for the plan is refused. Page `s6-svscan`.
pub fn plan_scan<A: Allocator + Copy>(
    slots: &Slots<A>,
    moves: &mut Moves<A>,
    scan: &mut Scanning<A>,
    listing: &[Entry],
    now: At,
    out: &mut Out,
) -> Result<(), NoMemory>
    requires empty { IsEmptyScan scan.old }
    requires sound { IsSoundSoFar scan.old.next_sid slots.now.services moves.old.touched.items }
    requires listing { repeats_name (names_in listing.now) ≡ false }
    requires next { scan.old.next_sid + (service_limit + 1) < 2 ^ 64 }
    ensures worked { OnOk result (WorkIsDone (apply_listing listing.now) now scan.old.next_sid
        (step_so_far slots.now.services moves.old)
        (prepared_of slots.now.services moves.new scan.new false)) }
    ensures names { KeepNames slots.now.services moves.old.touched.items
        → OnOk result (KeepNames slots.now.services moves.new.touched.items) }
    ensures few { OnOk result (length scan.new.added.items ≤ service_limit) }
    ensures most { OnOk result
        (length moves.new.orders.items ≤ length moves.old.orders.items + service_limit) }
{
    let sorted = sort_listing(slots.allocator(), listing)?;
    // Each service becomes active or inactive, and takes the configuration that was read.
    moves.visit_all(slots, Visit::Look(&sorted), now, out)?;
    let retained = plan_drops(slots, moves.touched.as_slice(), scan)?;
    let names = sorted.names(slots.allocator())?;
    scan.add_names(slots, moves, retained, names.as_slice(), &sorted, out)?;
    Ok(())
}
