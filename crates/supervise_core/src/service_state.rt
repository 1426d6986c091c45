//! A service without its tally, in a copy that takes the same changes.
ghost use Rattle.std.specs.Prelude.{◌≡◌, ◌+◌, ◌<◌, ◌≤◌, ◌^◌, ◌++◌, List, length};
ghost use Rattle.s6_events.specs.declared.mark.Mark.{Mark};
ghost use Rattle.supervise_core.specs.Chart.{with_activity, with_config, changed_by};
ghost use Rattle.supervise_core.specs.EventGrammar.{LeadsTo};
ghost use Rattle.supervise_core.specs.MatchesMove.{MatchesMove, AppendsMove, most_marks, most_orders};
ghost use Rattle.supervise_core.specs.Service.{KeepsAgreeing};

use super::change::Change;
use super::chart_state::ChartState;
use super::out::Out;
use super::row::Status;
use s6_events::{At, Sid};
use servicedir::Config;
use std::marker::Model;

/// A service without its tally: its chart state, and what it stores of its marks. It is copyable
/// and takes each change as its service does, so that a change is known before it is made. No
/// change takes memory.
#[derive(Clone, Copy)]
pub struct ServiceState {
    pub(crate) chart: ChartState,
    pub(crate) status: Status,
}

impl Model for ServiceState {
    ghost use Rattle.supervise_core.specs.Service.{ServiceView};

    ghost Value = { ServiceView };

    ghost view = { λ s. record { chart = s.chart; status = s.status } };

    ghost inverse = { λ s. record { chart = s.chart; status = s.status } };
}

impl ServiceState {
    // A service with this state and this status.
    pub(crate) fn new(chart: ChartState, status: Status) -> ServiceState
        ensures chart { result.chart ≡ chart }
        ensures status { result.status ≡ status }
    {
        ServiceState { chart, status }
    }

    /// Its state.
    pub fn chart(&self) -> ChartState
        ensures { result ≡ self.now.chart }
    {
        let ServiceState { chart, .. } = self;
        *chart
    }

    /// What is stored of its marks, for its status row.
    pub fn status(&self) -> Status
        ensures { result ≡ self.now.status }
    {
        let ServiceState { status, .. } = self;
        *status
    }

    /// The serial of its service.
    pub fn sid(&self) -> Sid
        ensures { result ≡ self.now.chart.sid }
    {
        self.chart.sid
    }

    /// The number of the moment at which its timer goes off.
    pub fn timer(&self) -> Option<u64>
        ensures { result ≡ self.now.chart.timer }
    {
        self.chart.timer
    }

    /// Takes any of the changes, as its service does.
    pub fn change(&mut self, change: &Change, now: At) -> Out
        requires { self.old.chart.generation + 1 < 2 ^ 64 }
        ensures gives { MatchesMove
            (changed_by change.now now self.old.chart) self.new.chart result }
        ensures agrees { KeepsAgreeing now result.events.items self.old self.new }
        ensures sid { self.new.chart.sid ≡ self.old.chart.sid }
        ensures name { self.new.chart.name ≡ self.old.chart.name }
        ensures few { length result.orders.items ≤ most_orders change.now }
    {
        let mut out = Out::new();
        self.change_onto(change, now, &mut out);
        out
    }

    /// Takes any of the changes, as its service does, and adds the marks and orders that this gives
    /// to what is in `out`. For letters `out` must hold no order, even where they are few. All
    /// marks of the service together begin a word of (`s` (`u` `U`? `d` `O`? `D`)* `x`)*: where
    /// some marks led to its state before, these and the marks of the change lead to its state
    /// after. Page `s6-supervise`, "Events".
    pub fn change_onto(&mut self, change: &Change, now: At, out: &mut Out)
        requires marks { length out.old.events.items + most_marks change.now ≤ 4 }
        requires room { length out.old.orders.items + most_orders change.now ≤ 126 }
        requires next { self.old.chart.generation + 1 < 2 ^ 64 }
        ensures gives { AppendsMove
            (changed_by change.now now self.old.chart) self.new.chart out.old out.new }
        ensures grammar { (marks : List Mark) → LeadsTo marks self.old.chart
            → LeadsTo (marks ++ (changed_by change.now now self.old.chart).marks) self.new.chart }
        ensures agrees { KeepsAgreeing now
            (changed_by change.now now self.old.chart).marks self.old self.new }
        ensures sid { self.new.chart.sid ≡ self.old.chart.sid }
        ensures name { self.new.chart.name ≡ self.old.chart.name }
        ensures few { length out.new.orders.items
            ≤ length out.old.orders.items + most_orders change.now }
    {
        // The marks that are in `out` already were recorded with their own changes.
        let before = out.events.len();
        self.chart.change_onto(change, now, out);
        self.status
            .record_marks(&out.events.as_slice()[before..], now);
    }

    /// Tells it whether its directory is listed. Page `s6-svscan`.
    pub fn set_active(&mut self, active: bool, now: At)
        ensures { self.new ≡ record self.old { chart = with_activity active now self.old.chart } }
    {
        self.chart.set_active(active, now);
    }

    /// Takes the configuration that was now read of its directory; how many deaths are kept stays
    /// as it was. Page `servicedir`.
    pub fn set_config(&mut self, config: Config)
        ensures { self.new ≡ record self.old { chart = with_config config self.old.chart } }
    {
        self.chart.set_config(config);
    }
}
