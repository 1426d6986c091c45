//! A service: its `standing`, which is its `chart` (the state that changes act on) and its `status`
//! (what is stored of its marks for the status row); and its `tally`, the last deaths.
ghost use Rattle.std.specs.Prelude.{◌≡◌, ◌+◌, ◌<◌, ◌++◌, List, IfOk};
ghost use Rattle.s6_events.specs.declared.moment.Moment.{Moment};
ghost use Rattle.supervise_core.specs.ChartState.{new_service};
ghost use Rattle.supervise_core.specs.Moves.{begin_move};
ghost use Rattle.supervise_core.specs.MatchesMove.{MatchesMove};
ghost use Rattle.supervise_core.specs.EventGrammar.{LeadsTo};
ghost use Rattle.supervise_core.specs.Status.{mark_moments};
ghost use Rattle.death_tally.specs.LastDeaths.{new_tally};
ghost use Rattle.supervise_core.specs.Service.{AgreesWith, with_view, tally_with, service_view};
ghost use Rattle.supervise_core.specs.StatusRow.{status_row};

use super::chart_state::ChartState;
use super::image::ServiceImage;
use super::out::Out;
use super::row::{Row, Status};
use super::service_state::ServiceState;
use death_tally::Tally;
use s6_events::{At, Exit, Name, NoMemory, Sid};
use servicedir::Config;
use std::alloc::Allocator;
use std::marker::Model;

/// A service under its supervisor, with its last deaths. No change of it takes memory.
#[derive(Drop)]
pub struct Service<A: Allocator> {
    // All of it but its tally.
    pub(crate) standing: ServiceState,
    pub(crate) tally: Tally<A>,
}

impl<A: Allocator> Model for Service<A> {
    ghost use Rattle.supervise_core.specs.Service.{Supervised};

    ghost Value = { Supervised };

    ghost view = { λ s. record { chart = s.standing.chart; status = s.standing.status; tally = s.tally } };
}

impl<A: Allocator + Copy> Service<A> {
    /// A new active service, whose supervisor starts: mark `s`, and the first run is ordered unless
    /// the directory has `down`. It takes the memory of its tally, for as many deaths as the
    /// configuration says. `NoMemory` where that is refused. Page `s6-supervise`, "Detailed
    /// operation", and `servicedir`, `max-death-tally`. Nothing of it depends on the moment.
    pub fn begin(
        alloc: A,
        sid: Sid,
        name: Name,
        config: Config,
        _now: At,
    ) -> Result<(Service<A>, Out), NoMemory>
        ensures gives { IfOk result
            (λ made. MatchesMove (begin_move (new_service sid name config)) made.0.chart made.1) }
        ensures tally { IfOk result (λ made. made.0.tally ≡ new_tally config.max_death_tally) }
        ensures grammar { IfOk result (λ made. LeadsTo made.1.events.items made.0.chart) }
        ensures agrees { (history : List Moment)
            → IfOk result (λ made. AgreesWith made.0
            (history ++ mark_moments sid made.1.events.items)) }
    {
        let mut out = Out::new();
        let service = Service::begin_into(alloc, sid, name, config, &mut out)?;
        Ok((service, out))
    }

    /// A new active service, whose supervisor starts: mark `s`, and the first run is ordered unless
    /// the directory has `down`. Both are put into `out`, in place of what that held: it is large,
    /// and a scan that adds many services fills one. It takes the memory of its tally, for as many
    /// deaths as the configuration says. Where memory is refused, nothing is said of `out`.
    pub fn begin_into(
        alloc: A,
        sid: Sid,
        name: Name,
        config: Config,
        out: &mut Out,
    ) -> Result<Service<A>, NoMemory>
        ensures gives { IfOk result
            (λ made. MatchesMove (begin_move (new_service sid name config)) made.chart out.new) }
        ensures tally { IfOk result (λ made. made.tally ≡ new_tally config.max_death_tally) }
        ensures grammar { IfOk result (λ made. LeadsTo out.new.events.items made.chart) }
        ensures agrees { (history : List Moment)
            → IfOk result (λ made. AgreesWith made
            (history ++ mark_moments sid out.new.events.items)) }
    {
        let tally = Tally::new(alloc, config.max_death_tally)?;
        let chart = ChartState::begin_into(sid, name, config, out);
        // What is stored of its marks for the status row: as before any mark.
        let status = Status::new();
        let standing = ServiceState { chart, status };
        Ok(Service { standing, tally })
    }

    /// A copy of its chart state, which is its state without its deaths. The copy takes the same
    /// changes.
    pub fn chart(&self) -> ChartState
        ensures { result ≡ self.now.chart }
    {
        self.standing.chart()
    }

    /// Its serial.
    pub fn sid(&self) -> Sid
        ensures { result ≡ self.now.chart.sid }
    {
        self.standing.sid()
    }

    /// The number of the moment at which its timer goes off.
    pub fn timer(&self) -> Option<u64>
        ensures { result ≡ self.now.chart.timer }
    {
        self.standing.timer()
    }

    /// What it stores of its marks, for its status row.
    pub fn status(&self) -> Status
        ensures { result ≡ self.now.status }
    {
        self.standing.status()
    }

    /// Its tally: its last deaths, and how many it keeps at most. Page `servicedir`,
    /// `max-death-tally`.
    pub fn tally(&self) -> &Tally<A>
        ensures { result.now ≡ self.now.tally }
    {
        &self.tally
    }

    /// All of it as plain data. `NoMemory` where memory is refused.
    pub fn image(&self, alloc: A) -> Result<ServiceImage<A>, NoMemory>
        ensures { IfOk result (λ image. image ≡ self.now) }
    {
        Ok(ServiceImage {
            chart: self.standing.chart(),
            status: self.standing.status(),
            deaths: self.tally.list(alloc)?,
            most: self.tally.most(),
        })
    }

    /// All of it but its tally. A copy of that takes the same changes, and `adopt` then takes it
    /// over.
    pub fn standing(&self) -> &ServiceState
        ensures { result.now ≡ service_view self.now }
    {
        &self.standing
    }

    // Adds the death to the tally, if there is one.
    pub(crate) fn join(&mut self, death: Option<(At, Exit)>)
        ensures { self.new ≡ record self.old { tally = tally_with self.old.tally death } }
    {
        if let Some((at, exit)) = death {
            self.tally.add(at, exit);
        }
    }

    /// Takes over the state and the status of `standing`, a copy of its own that took changes, and
    /// adds to its tally the death that these reported, if they did.
    pub fn adopt(&mut self, standing: &ServiceState, death: Option<(At, Exit)>)
        ensures { self.new ≡ with_view standing.now death self.old }
    {
        self.standing = *standing;
        self.join(death);
    }

    /// Its status row, which is that of every history that agrees with what it stores. Page
    /// `s6-svstat`.
    pub fn row(&self, now: At) -> Row
        ensures { (history : List Moment) → AgreesWith self.now history
            → result ≡ status_row history now self.now.chart }
    {
        self.standing.status.row(&self.standing.chart, now)
    }
}
