//! What each service in turn takes: its timer, a command to all, or a look at its directory.
ghost use Rattle.std.specs.Prelude.{◌≡◌, ◌+◌, ◌<◌, ◌≤◌, ◌^◌, length, true};
ghost use Rattle.supervise_core.specs.ChartState.{no_move};
ghost use Rattle.supervise_core.specs.Chart.{fire_move, changed_by};
ghost use Rattle.supervise_core.specs.MatchesMove.{MatchesMove, most_orders};
ghost use Rattle.supervise_core.specs.Service.{KeepsAgreeing};
ghost use Rattle.svscan_core.specs.Visit.{visit_move};
ghost use Rattle.svscan_core.specs.declared.visit.Visit.TheVariants.{Fire};

use super::entry::ScanOrder;
use super::listing::SortedListing;
use super::nuke_and_terminate::{nuke, terminate};
use super::scan::look_at;
use s6_events::At;
use std::alloc::Allocator;
use supervise_core::{Change, Out, ServiceState};

/// What each service in turn takes: the rule of its timer, a command to all services, or a look at
/// its directory.
#[derive(Clone, Copy)]
pub enum Visit<'a, A: Allocator> {
    /// Its timer goes off, if it is due.
    Fire,
    /// It takes a command to all services.
    Command(ScanOrder),
    /// The listing tells whether its directory is there, and what its files say.
    Look(&'a SortedListing<A>),
}

/// The service takes a change; `out` then has the marks and orders of that change, and nothing
/// else.
pub fn make_change(standing: &mut ServiceState, change: &Change, now: At, out: &mut Out)
    requires { standing.old.chart.generation + 1 < 2 ^ 64 }
    ensures gives { MatchesMove (changed_by change.now now standing.old.chart) standing.new.chart
        out.new }
    ensures agrees { KeepsAgreeing now out.new.events.items standing.old standing.new }
    ensures sid { standing.new.chart.sid ≡ standing.old.chart.sid }
    ensures name { standing.new.chart.name ≡ standing.old.chart.name }
    ensures few { length out.new.orders.items ≤ most_orders change.now }
{
    out.clear();
    standing.change_onto(change, now, out);
}

// Its timer goes off, if it is due.
fn fire_timer(standing: &mut ServiceState, now: At, out: &mut Out)
    requires { standing.old.chart.generation + 1 < 2 ^ 64 }
    ensures gives { MatchesMove (fire_move now standing.old.chart) standing.new.chart out.new }
    ensures agrees { KeepsAgreeing now out.new.events.items standing.old standing.new }
    ensures sid { standing.new.chart.sid ≡ standing.old.chart.sid }
    ensures name { standing.new.chart.name ≡ standing.old.chart.name }
    ensures few { length out.new.orders.items ≤ 1 }
{
    make_change(standing, &Change::Fire, now, out);
}

impl<A: Allocator + Copy> Visit<'_, A> {
    /// Whether the visit is known to change nothing in this service and to give nothing: its timer
    /// isn't due, or it is active, where nuke is only for inactive ones.
    pub fn passes(self, standing: &ServiceState, now: At) -> bool
        ensures { result ≡ true → visit_move self.entry now standing.now.chart
            ≡ no_move standing.now.chart }
    {
        match self {
            Visit::Fire => !standing.timer().is_some_and(|due| due <= now.millis()),
            Visit::Command(ScanOrder::Nuke) => standing.chart().active,
            Visit::Command(ScanOrder::Terminate) | Visit::Look(_) => false,
        }
    }

    /// The service takes the visit; `out` has the marks and orders of that, and nothing else.
    pub fn make(self, standing: &mut ServiceState, now: At, out: &mut Out)
        requires next { standing.old.chart.generation + 1 < 2 ^ 64 }
        ensures gives { MatchesMove
            (visit_move self.entry now standing.old.chart) standing.new.chart out.new }
        ensures agrees { KeepsAgreeing now out.new.events.items standing.old standing.new }
        ensures sid { standing.new.chart.sid ≡ standing.old.chart.sid }
        ensures name { standing.new.chart.name ≡ standing.old.chart.name }
        ensures few { length out.new.orders.items ≤ 2 }
        ensures fires { self.entry ≡ Fire → length out.new.orders.items ≤ 1 }
    {
        match self {
            Visit::Fire => fire_timer(standing, now, out),
            Visit::Command(ScanOrder::Nuke) => nuke(standing, now, out),
            Visit::Command(ScanOrder::Terminate) => terminate(standing, now, out),
            Visit::Look(listing) => {
                look_at(standing, listing, now);
                // A look at its directory gives no mark and no order.
                out.clear();
            }
        }
    }
}
