//! Changes of a service by itself, for whoever embeds this crate alone: no program of this tree
//! calls them. Each follows the same rule as the change that the tree makes.
ghost use Rattle.std.specs.Prelude.{◌≡◌, ◌+◌, ◌<◌, ◌^◌, ◌++◌, List};
ghost use Rattle.s6_events.specs.declared.moment.Moment.{Moment};
ghost use Rattle.supervise_core.specs.ChartState.{no_move};
ghost use Rattle.supervise_core.specs.Chart.{started_move, start_failed_move, notify_move, death_move, finish_ended_move, control_move, fire_move, with_activity, with_config, changed_by};
ghost use Rattle.supervise_core.specs.MatchesMove.{MatchesMove};
ghost use Rattle.supervise_core.specs.EventGrammar.{LeadsTo};
ghost use Rattle.s6_events.specs.declared.mark.Mark.{Mark};
ghost use Rattle.supervise_core.specs.Service.{AgreesWith, KeepsAgreeing, death_by, death_unless, tally_with, service_view};

use super::change::Change;
use super::out::Out;
use super::service::Service;
use control_letters::Letters;
use s6_events::{At, Exit};
use servicedir::Config;
use std::alloc::Allocator;

impl<A: Allocator + Copy> Service<A> {
    /// `run` of this generation was spawned: mark `u`. Stale unless its start was under way. Page
    /// `s6-supervise`, "Events".
    pub fn started(&mut self, generation: u64, pid: u32, now: At) -> Out
        ensures gives { MatchesMove
            (started_move generation pid now self.old.chart) self.new.chart result }
        ensures tally { self.new.tally ≡ self.old.tally }
        ensures agrees { KeepsAgreeing now result.events.items (service_view self.old)
            (service_view self.new) }
    {
        let mut out = Out::new();
        self.standing
            .chart
            .started_onto(generation, pid, now, &mut out);
        self.standing
            .status
            .record_marks(out.events.as_slice(), now);
        out
    }

    /// `run` or `finish` of this generation could not be spawned. The supervisor ends, if it was
    /// told to; else `run` is tried again after 60000 ms, if it is wanted up. `finish` counts as
    /// done. Stale unless the start of `run` was under way, or `finish` was there. Page
    /// `s6-supervise`, "Detailed operation"; what a failed spawn of `finish` means is chosen here.
    pub fn start_failed(&mut self, generation: u64, now: At) -> Out
        requires { self.old.chart.generation + 1 < 2 ^ 64 }
        ensures gives { MatchesMove
            (start_failed_move generation now self.old.chart) self.new.chart result }
        ensures tally { self.new.tally ≡ self.old.tally }
        ensures agrees { KeepsAgreeing now result.events.items (service_view self.old)
            (service_view self.new) }
    {
        let mut out = Out::new();
        self.standing
            .chart
            .start_failed_onto(generation, now, &mut out);
        self.standing
            .status
            .record_marks(out.events.as_slice(), now);
        out
    }

    /// `run` of this generation wrote these bytes to its notification descriptor: mark `U` at its
    /// first newline. Stale unless it was up. Page `notifywhenup`.
    pub fn notify(&mut self, generation: u64, bytes: &[u8], now: At) -> Out
        ensures gives { MatchesMove
            (notify_move generation bytes.now now self.old.chart) self.new.chart result }
        ensures tally { self.new.tally ≡ self.old.tally }
        ensures agrees { KeepsAgreeing now result.events.items (service_view self.old)
            (service_view self.new) }
    {
        let mut out = Out::new();
        self.standing
            .chart
            .notify_onto(generation, bytes, now, &mut out);
        self.standing
            .status
            .record_marks(out.events.as_slice(), now);
        out
    }

    /// `run` of this generation died: mark `d`, then `finish`, or mark `D` and what comes next.
    /// Stale unless it was up. Page `s6-supervise`, "Detailed operation".
    pub fn death(&mut self, generation: u64, exit: Exit, now: At) -> Out
        requires { self.old.chart.generation + 1 < 2 ^ 64 }
        ensures gives { MatchesMove
            (death_move generation exit now self.old.chart) self.new.chart result }
        ensures tally { self.new.tally
            ≡ tally_with self.old.tally (death_unless result.stale now exit) }
        ensures agrees { KeepsAgreeing now result.events.items (service_view self.old)
            (service_view self.new) }
    {
        let mut out = Out::new();
        self.standing
            .chart
            .death_onto(generation, exit, now, &mut out);
        self.standing
            .status
            .record_marks(out.events.as_slice(), now);
        // A stale report, which was refused, adds no death to the tally.
        self.join(if out.stale { None } else { Some((now, exit)) });
        out
    }

    /// `finish` of this generation ended: mark `D` and what comes next; with the exit code 125,
    /// mark `O` first. Stale unless it was there. Pages `servicedir`, "finish", and `s6-supervise`,
    /// "Events".
    pub fn finish_ended(&mut self, generation: u64, exit: Exit, now: At) -> Out
        requires { self.old.chart.generation + 1 < 2 ^ 64 }
        ensures gives { MatchesMove
            (finish_ended_move generation exit now self.old.chart) self.new.chart result }
        ensures tally { self.new.tally ≡ self.old.tally }
        ensures agrees { KeepsAgreeing now result.events.items (service_view self.old)
            (service_view self.new) }
    {
        let mut out = Out::new();
        self.standing
            .chart
            .finish_ended_onto(generation, exit, now, &mut out);
        self.standing
            .status
            .record_marks(out.events.as_slice(), now);
        out
    }

    /// A user sent these letters; they are done in the order written. Once the supervisor has ended
    /// no letter does anything. Page `s6-svc`.
    pub fn control(&mut self, letters: &Letters, now: At) -> Out
        requires { self.old.chart.generation + 1 < 2 ^ 64 }
        ensures gives { MatchesMove
            (control_move letters.now.items now self.old.chart) self.new.chart result }
        ensures tally { self.new.tally ≡ self.old.tally }
        ensures agrees { KeepsAgreeing now result.events.items (service_view self.old)
            (service_view self.new) }
    {
        let mut out = Out::new();
        self.standing
            .chart
            .take_letters(letters.as_slice(), now, &mut out);
        self.standing
            .status
            .record_marks(out.events.as_slice(), now);
        out
    }

    /// Its timer goes off, where it is due: a start, a SIGKILL or a new supervisor. Else nothing
    /// happens. Page `s6-supervise`.
    pub fn fire(&mut self, now: At) -> Out
        requires { self.old.chart.generation + 1 < 2 ^ 64 }
        ensures gives { MatchesMove (fire_move now self.old.chart) self.new.chart result }
        ensures tally { self.new.tally ≡ self.old.tally }
        ensures agrees { KeepsAgreeing now result.events.items (service_view self.old)
            (service_view self.new) }
    {
        let mut out = Out::new();
        self.standing.chart.fire_onto(now, &mut out);
        self.standing
            .status
            .record_marks(out.events.as_slice(), now);
        out
    }

    /// Takes any of the changes. All its marks together begin a word of (`s` (`u` `U`? `d` `O`?
    /// `D`)* `x`)*: where some marks led to its state before, these and the marks of the change
    /// lead to its state after. Page `s6-supervise`, "Events".
    pub fn change(&mut self, change: &Change, now: At) -> Out
        requires { self.old.chart.generation + 1 < 2 ^ 64 }
        ensures gives { MatchesMove
            (changed_by change.now now self.old.chart) self.new.chart result }
        ensures tally { self.new.tally
            ≡ tally_with self.old.tally (death_by change.now result.stale now) }
        ensures grammar { (marks : List Mark) → LeadsTo marks self.old.chart
            → LeadsTo (marks ++ result.events.items) self.new.chart }
        ensures agrees { KeepsAgreeing now result.events.items (service_view self.old)
            (service_view self.new) }
    {
        let out = self.standing.chart.change(change, now);
        self.standing
            .status
            .record_marks(out.events.as_slice(), now);
        // The death that the change reported, if it did, joins the tally.
        self.join(change.counted_death(out.stale, now));
        out
    }

    /// Tells it whether its directory is listed. Page `s6-svscan`. That gives no mark and no order.
    pub fn set_active(&mut self, active: bool, now: At) -> Out
        ensures gives { MatchesMove
            (no_move (with_activity active now self.old.chart)) self.new.chart result }
        ensures tally { self.new.tally ≡ self.old.tally }
        ensures agrees { (history : List Moment) → AgreesWith self.old history
            → AgreesWith self.new history }
    {
        self.standing.set_active(active, now);
        Out::new()
    }

    /// Takes the configuration that was now read of its directory; how many deaths are kept stays
    /// as it was. Page `servicedir`. That gives no mark and no order.
    pub fn set_config(&mut self, config: Config) -> Out
        ensures gives { MatchesMove
            (no_move (with_config config self.old.chart)) self.new.chart result }
        ensures tally { self.new.tally ≡ self.old.tally }
        ensures agrees { (history : List Moment) → AgreesWith self.old history
            → AgreesWith self.new history }
    {
        self.standing.set_config(config);
        Out::new()
    }
}
