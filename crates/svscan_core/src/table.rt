//! Questions to the table of services (`slots`), and a change of one service in it. A place counts
//! the services from 0, in the order in which they were added; a serial names a service for good.
ghost use Rattle.std.specs.Prelude.{◌≡◌, ◌+◌, ◌<◌, ◌^◌, ◌++◌, ◌==◌, List, map, find, bytes_eq, is_some, option_map, slice_get, IfSome, IfNone};
ghost use Rattle.std.specs.List.{list_any};
ghost use Rattle.s6_events.specs.Clock.{clock_of};
ghost use Rattle.s6_events.specs.declared.moment.Moment.{Moment};
ghost use Rattle.supervise_core.specs.Chart.{fire_move};
ghost use Rattle.supervise_core.specs.Service.{AgreesAs, KeepsAgreeing};
ghost use Rattle.svscan_core.specs.Changed.{GivesChange, TakesChange};
ghost use Rattle.svscan_core.specs.Moves.{moment_of, services_after, events_after};
ghost use Rattle.svscan_core.specs.SoFar.{AreInOrder, HaveGenerations};
ghost use Rattle.svscan_core.specs.Sound.{AllAgree};
ghost use Rattle.svscan_core.specs.Table.{charts_of};

use super::place::place_of;
use super::slots::Slots;
use s6_events::{At, Name, Sid};
use std::alloc::Allocator;
use supervise_core::{Change, Out, Service, ServiceState};

/// The serial of the service of this name; None where no service has it.
pub fn find_sid<A: Allocator + Copy>(slots: &Slots<A>, name: &Name) -> Option<Sid>
    ensures { result ≡ option_map (λ c. c.sid)
        (find (λ c. bytes_eq name.now c.name) (charts_of slots.now.services)) }
{
    Some(slots.find(name)?.sid())
}

/// The serial of the service at this place, in the order in which they were added; None past the
/// last one.
pub fn nth_sid<A: Allocator + Copy>(slots: &Slots<A>, place: usize) -> Option<Sid>
    ensures { result ≡ option_map (λ c. c.sid) (slice_get (charts_of slots.now.services) place) }
{
    Some(slots.nth(place)?.sid())
}

/// The service of this serial; None where no service has it.
pub fn get<A: Allocator + Copy>(slots: &Slots<A>, sid: Sid) -> Option<&Service<A>>
    requires { AreInOrder (charts_of slots.now.services) }
    ensures { option_map (λ s. s.now) result ≡ find (λ s. s.chart.sid == sid) slots.now.services }
{
    slots.nth(place_of(slots, sid)?)
}

/// The service of this serial takes a change. Returns what that gives; None where no service has
/// the serial, and then every service stays as it is. No memory is taken. The changes are those of
/// page `s6-supervise`.
pub fn change<A: Allocator + Copy>(
    slots: &mut Slots<A>,
    sid: Sid,
    change: &Change,
    now: At,
) -> Option<Out>
    requires order { AreInOrder (charts_of slots.old.services) }
    requires generations { HaveGenerations 1 (charts_of slots.old.services) }
    ensures takes { TakesChange sid change.now now slots.old.services slots.new.services }
    ensures known { is_some result ≡ list_any (λ c. c.sid == sid) (charts_of slots.old.services) }
    ensures unknown { IfNone result (slots.new.services ≡ slots.old.services) }
    ensures gives { IfSome result
        (GivesChange sid change.now now slots.old.services slots.new.services) }
    ensures room { slots.new.room ≡ slots.old.room }
{
    let place = place_of(slots, sid)?;
    // A copy of the service's state and status, in which the change is made.
    let mut standing = *slots.nth(place)?.standing();
    let out = standing.change(change, now);
    // The service takes over the changed copy, and the death that the change reported, if it did.
    slots.adopt(place, &standing, change.counted_death(out.stale, now));
    Some(out)
}

// The state once its timer went off; its marks and orders are not wanted.
fn fire_timer(standing: ServiceState, now: At) -> ServiceState
    requires { standing.chart.generation + 1 < 2 ^ 64 }
    ensures chart { result.chart ≡ (fire_move now standing.chart).chart }
    ensures agrees { KeepsAgreeing now (fire_move now standing.chart).marks standing result }
{
    let mut fired = standing;
    let _out = fired.change(&Change::Fire, now);
    fired
}

// The state once its timer went off, if it is due.
fn after_timer(standing: ServiceState, now: At) -> ServiceState
    requires { standing.chart.generation + 1 < 2 ^ 64 }
    ensures chart { result.chart ≡ (fire_move now standing.chart).chart }
    ensures agrees { KeepsAgreeing now (fire_move now standing.chart).marks standing result }
{
    if standing.timer().is_some_and(|due| due <= now.millis()) {
        fire_timer(standing, now)
    } else {
        standing
    }
}

/// What the service of this name would be if all due timers went off now; None where no service has
/// the name. No memory is taken.
pub fn after_timers<A: Allocator + Copy>(
    slots: &Slots<A>,
    name: &Name,
    now: At,
) -> Option<ServiceState>
    requires order { AreInOrder (charts_of slots.now.services) }
    requires generations { HaveGenerations 1 (charts_of slots.now.services) }
    ensures chart { option_map (λ s. s.chart) result
        ≡ find (λ c. bytes_eq name.now c.name)
        (services_after (fire_move now) (charts_of slots.now.services)) }
    ensures agrees { (history : List Moment) → clock_of history ≡ now
        → AllAgree slots.now.services history
        → IfSome result (λ s. AgreesAs s
        (history ++ map moment_of (events_after (fire_move now) (charts_of slots.now.services)))) }
{
    let standing = *slots.find(name)?.standing();
    Some(after_timer(standing, now))
}
