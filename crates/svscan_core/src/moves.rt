//! The services that a step has changed so far (`touched`), and what it has given: `events`, which
//! are marks of services, and `orders`.
ghost use Rattle.std.specs.Prelude.{◌≡◌, ◌+◌, ◌<◌, ◌≤◌, ◌^◌, ◌*◌, ◌++◌, ◌∷◌, [], map, length, IfOk, OnOk, Some, slice_get, option_map};
ghost use Rattle.supervise_core.specs.Service.{service_view};
ghost use Rattle.supervise_core.specs.declared.chart_state.ChartState.{ChartState};
ghost use Rattle.supervise_core.specs.Chart.{changed_by};
ghost use Rattle.supervise_core.specs.MatchesMove.{most_orders};
ghost use Rattle.std.specs.List.{list_any};
ghost use Rattle.svscan_core.specs.Moves.{service_mark};
ghost use Rattle.svscan_core.specs.Work.{change_move_at};
ghost use Rattle.svscan_core.specs.Moving.{services_so_far, with_changes, step_so_far, AreUnvisited, KeepNames, Takes};
ghost use Rattle.svscan_core.specs.SoFar.{AreInOrder, HaveGenerations, IsVisited, KeepSerials};
ghost use Rattle.svscan_core.specs.Table.{charts_of};
ghost use Rattle.svscan_core.specs.Visit.{visit_move};
ghost use Rattle.svscan_core.specs.declared.visit.Visit.TheVariants.{Fire};

use super::event::Event;
use super::place::place_of;
use super::slots::Slots;
use super::visit::Visit;
use s6_events::{At, Exit, Mark, NoMemory, Order, Sid};
use std::alloc::Allocator;
use supervise_core::{Change, Out, ServiceState};

/// How a step changes the service at a place.
#[derive(Clone, Copy)]
pub struct ChangedService {
    /// The place of the service among all, in rising serial from 0.
    pub place: usize,
    /// Its state and status after the change.
    pub standing: ServiceState,
    /// The death that the change adds to its tally, if any.
    pub death: Option<(At, Exit)>,
}

/// The services that a step changes, and what it gives. The lists keep their memory from step to
/// step. What a change of one service gives is written into an `Out` that the caller passes in,
/// because that is large and `Moves` gets moved.
#[derive(Drop)]
pub struct Moves<A: Allocator> {
    pub touched: Vec<ChangedService, A>,
    pub events: Vec<Event, A>,
    pub orders: Vec<Order, A>,
}

/// The service at a place (its state and its status), as the step has it so far: after the last
/// change of it, if it was changed.
pub fn standing_at<'a, A: Allocator + Copy>(
    slots: &'a Slots<A>,
    touched: &'a [ChangedService],
    place: usize,
) -> Option<&'a ServiceState>
    ensures { option_map (λ s. s.now) result ≡ option_map service_view
        (slice_get (with_changes slots.now.services touched.now) place) }
{
    let mut standing = slots.nth(place)?.standing();
    for other in touched {
        if other.place == place {
            standing = &other.standing;
        }
    }
    Some(standing)
}

// The service at a place, as the step has it so far. Only the first `before` changes are looked at:
// those behind them are known to be of other services.
fn standing_before<'a, A: Allocator + Copy>(
    slots: &'a Slots<A>,
    touched: &'a [ChangedService],
    before: usize,
    place: usize,
) -> Option<&'a ServiceState>
    requires earlier { before ≤ length touched.now }
    requires unvisited { AreUnvisited slots.now.services before place touched.now }
    ensures { option_map (λ s. s.now) result ≡ option_map service_view
        (slice_get (with_changes slots.now.services touched.now) place) }
{
    standing_at(slots, &touched[..before], place)
}

// Adds the marks of a service as events.
fn add_events<A: Allocator>(
    events: &mut Vec<Event, A>,
    sid: Sid,
    marks: &[Mark],
) -> Result<(), NoMemory>
    ensures events { OnOk result
        (events.new.items ≡ events.old.items ++ map (service_mark sid) marks.now) }
{
    for mark in marks {
        events.push(Event { sid, mark: *mark })?;
    }
    Ok(())
}

impl<A: Allocator + Copy> Moves<A> {
    /// No service is changed yet, and nothing is given.
    pub fn new(alloc: A) -> Moves<A>
        ensures touched { result.touched.items ≡ [] }
        ensures events { result.events.items ≡ [] }
        ensures orders { result.orders.items ≡ [] }
    {
        Moves {
            touched: Vec::new(alloc),
            events: Vec::new(alloc),
            orders: Vec::new(alloc),
        }
    }

    /// Empties the lists, and keeps their memory.
    pub fn clear(&mut self)
        ensures touched { self.new.touched.items ≡ [] }
        ensures events { self.new.events.items ≡ [] }
        ensures orders { self.new.orders.items ≡ [] }
    {
        self.touched.clear();
        self.events.clear();
        self.orders.clear();
    }

    /// Adds the marks and orders of a service, which lie in `out`, to what the step gives.
    pub fn give(&mut self, sid: Sid, out: &Out) -> Result<(), NoMemory>
        ensures touched { self.new.touched.items ≡ self.old.touched.items }
        ensures events { OnOk result
            (self.new.events.items ≡ self.old.events.items
            ++ map (service_mark sid) out.now.events.items) }
        ensures orders { OnOk result
            (self.new.orders.items ≡ self.old.orders.items ++ out.now.orders.items) }
    {
        self.orders.extend_from_slice(out.orders.as_slice())?;
        add_events(&mut self.events, sid, out.events.as_slice())
    }

    // Notes how a service changes, and adds the marks and the orders that this gives, which lie in
    // `out`.
    fn touch(&mut self, changed: &ChangedService, out: &Out) -> Result<(), NoMemory>
        ensures touched { OnOk result
            (self.new.touched.items ≡ self.old.touched.items ++ changed.now ∷ []) }
        ensures events { OnOk result
            (self.new.events.items ≡ self.old.events.items
            ++ map (service_mark changed.now.standing.chart.sid) out.now.events.items) }
        ensures orders { OnOk result
            (self.new.orders.items ≡ self.old.orders.items ++ out.now.orders.items) }
    {
        // Most changes order nothing.
        if !out.orders.is_empty() {
            self.orders.extend_from_slice(out.orders.as_slice())?;
        }
        add_events(
            &mut self.events,
            changed.standing.sid(),
            out.events.as_slice(),
        )?;
        self.touched.reserve(1)?;
        self.touched.push_reserved(*changed);
        Ok(())
    }

    // Applies the visit (what each service in turn takes: its timer, a command to all, or a look at
    // its directory) to the service at this place, unless it would change nothing. Of the changes
    // so far, those from `before` on are of other services.
    fn visit_at<'a>(
        &mut self,
        slots: &'a Slots<A>,
        visit: Visit<'a, A>,
        before: usize,
        place: usize,
        now: At,
        out: &mut Out,
    ) -> Result<(), NoMemory>
        requires next { (c : ChartState)
            → slice_get (services_so_far slots.now.services self.old.touched.items) place
            ≡ Some c → c.generation + 1 < 2 ^ 64 }
        requires order { AreInOrder (services_so_far slots.now.services self.old.touched.items) }
        requires earlier { before ≤ length self.old.touched.items }
        requires unvisited { AreUnvisited slots.now.services before place
            self.old.touched.items }
        ensures visited { OnOk result (IsVisited visit.entry now place slots.now.services
            self.old self.new) }
        ensures few { OnOk result (length self.new.orders.items
            ≤ length self.old.orders.items + 2) }
        ensures fires { visit.entry ≡ Fire
            → OnOk result (length self.new.orders.items ≤ length self.old.orders.items + 1) }
        ensures unvisited { OnOk result (AreUnvisited slots.now.services before (place + 1)
            self.new.touched.items) }
    {
        let touched = self.touched.as_slice();
        // None where there is no service at this place.
        let Some(standing) = standing_before(slots, touched, before, place) else {
            return Ok(());
        };
        // The visit would change nothing in this service.
        if visit.passes(standing, now) {
            return Ok(());
        }
        let mut changed = ChangedService {
            place,
            standing: *standing,
            // A visit reports no death.
            death: None,
        };
        // The visit is made to a copy of the service's state and status; `out` gets the marks and
        // orders.
        visit.make(&mut changed.standing, now, out);
        self.touch(&changed, out)?;
        Ok(())
    }

    /// Applies the visit (what each service in turn takes: its timer, a command to all, or a look
    /// at its directory) to each service in turn.
    pub fn visit_all<'a>(
        &mut self,
        slots: &'a Slots<A>,
        visit: Visit<'a, A>,
        now: At,
        out: &mut Out,
    ) -> Result<(), NoMemory>
        requires generations { HaveGenerations 1
            (services_so_far slots.now.services self.old.touched.items) }
        requires order { AreInOrder (services_so_far slots.now.services self.old.touched.items) }
        ensures takes { OnOk result
            (Takes now (visit_move visit.entry now) (step_so_far slots.now.services self.old)
            (step_so_far slots.now.services self.new)) }
        ensures names { KeepNames slots.now.services self.old.touched.items
            → OnOk result (KeepNames slots.now.services self.new.touched.items) }
        ensures few { OnOk result (length self.new.orders.items
            ≤ length self.old.orders.items + 2 * length slots.now.services) }
        ensures fires { visit.entry ≡ Fire
            → OnOk result (length self.new.orders.items
            ≤ length self.old.orders.items + length slots.now.services) }
    {
        // No service is visited twice: the changes that this visit adds, from here on, are of
        // services that it has done with.
        let before = self.touched.len();
        for place in 0..slots.len() {
            self.visit_at(slots, visit, before, place, now, out)?;
        }
        Ok(())
    }

    /// The service of this serial takes the change, and no other one is looked at. Returns whether
    /// the change was a stale report; false where no service has the serial.
    pub fn change_one(
        &mut self,
        slots: &Slots<A>,
        sid: Sid,
        change: &Change,
        now: At,
        out: &mut Out,
    ) -> Result<bool, NoMemory>
        requires generations { HaveGenerations 1
            (services_so_far slots.now.services self.old.touched.items) }
        requires order { AreInOrder (charts_of slots.now.services) }
        requires serials { KeepSerials slots.now.services self.old.touched.items }
        ensures takes { OnOk result
            (Takes now (change_move_at sid change.now now) (step_so_far slots.now.services self.old)
            (step_so_far slots.now.services self.new)) }
        ensures stale { IfOk result
            (λ stale. stale ≡ list_any (λ c. (change_move_at sid change.now now c).stale)
            (services_so_far slots.now.services self.old.touched.items)) }
        ensures names { KeepNames slots.now.services self.old.touched.items
            → OnOk result (KeepNames slots.now.services self.new.touched.items) }
        ensures few { OnOk result (length self.new.orders.items
            ≤ length self.old.orders.items + most_orders change.now) }
    {
        let Some(place) = place_of(slots, sid) else {
            return Ok(false);
        };
        // `place_of` found a service there, so that this is never None.
        let Some(standing) = standing_at(slots, self.touched.as_slice(), place) else {
            return Ok(false);
        };
        // The change is made to a copy of the service's state and status; the death that it reports
        // is set below.
        let mut changed = ChangedService {
            place,
            standing: *standing,
            death: None,
        };
        out.clear();
        changed.standing.change_onto(change, now, out);
        let stale = out.stale;
        // The death that the change reports, if it does and was not stale, for the service's tally
        // of deaths.
        changed.death = change.counted_death(stale, now);
        self.touch(&changed, out)?;
        Ok(stale)
    }
}
