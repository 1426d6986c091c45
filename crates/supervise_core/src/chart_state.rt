//! The state of a service and its supervisor, without its tally (the last deaths), and the one call
//! that takes any change of it.
ghost use Rattle.std.specs.Prelude.{◌≡◌, ◌+◌, ◌<◌, ◌≤◌, ◌^◌, length};
ghost use Rattle.supervise_core.specs.ChartState.{new_service};
ghost use Rattle.supervise_core.specs.Moves.{begin_move};
ghost use Rattle.supervise_core.specs.Chart.{changed_by};
ghost use Rattle.supervise_core.specs.MatchesMove.{MatchesMove, AppendsMove, most_marks, most_orders};

use super::change::Change;
use super::out::Out;
use super::phase::Phase;
use s6_events::{At, Exit, Name, Report, Sid};
use servicedir::Config;

/// The state of a service and its supervisor, without its tally of deaths. (The chart is the table
/// of what each change does in each phase.) It is copyable and takes each change as its service
/// does, so that the marks and orders of a change are known before it is made. No change takes
/// memory.
#[derive(Clone, Copy, Debug, PartialEq, Eq)]
pub struct ChartState {
    pub sid: Sid,
    pub name: Name,
    /// What its directory said when it was last read; how many deaths are kept stays as it first
    /// said.
    pub config: Config,
    pub phase: Phase,
    /// It is started again when it is down.
    pub wanted_up: bool,
    /// Its supervisor ends as soon as it is down.
    pub exit_requested: bool,
    /// It was told to go down while its start was under way; the down signal follows when it is
    /// spawned.
    pub down_pending: bool,
    /// Since when the present run, or in Finish the dead one, has been ready; None where it hasn't
    /// said so.
    pub ready_since: Option<At>,
    /// It was told to stop by SIGSTOP.
    pub paused: bool,
    /// The number of runs that were ordered.
    pub generation: u64,
    /// The process number of the last run that was spawned.
    pub pid: u32,
    /// The descriptor on which the last run says that it is ready, as it was configured when that
    /// run was ordered.
    pub notification_fd: Option<u8>,
    /// The moment of its last death.
    pub died_at: At,
    /// How it ended then; None before any death.
    pub last_exit: Option<Exit>,
    /// Its directory is in the last listing.
    pub active: bool,
    /// The number of the moment, in milliseconds, at which its timer goes off. What it does follows
    /// from the phase: in Down a start, in Up and Finish a SIGKILL, in Gone a new supervisor.
    pub timer: Option<u64>,
}

/// What fills the unused places of a list of fixed size.
impl Default for ChartState {
    // What fills the unused places of a list of fixed size: nobody reads it.
    fn default() -> ChartState {
        ChartState::new(Sid(0), Name::default(), Config::plain())
    }
}

impl ChartState {
    // An active service whose supervisor has not started yet: no run was ordered, and none has
    // died. Its directory is listed (`active`).
    fn new(sid: Sid, name: Name, config: Config) -> ChartState
        ensures { result ≡ new_service sid name config }
    {
        ChartState {
            sid,
            name,
            config,
            // No supervisor is there.
            phase: Phase::Gone,
            wanted_up: false,
            exit_requested: false,
            down_pending: false,
            ready_since: None,
            paused: false,
            generation: 0,
            pid: 0,
            notification_fd: None,
            died_at: At::zero(),
            last_exit: None,
            active: true,
            timer: None,
        }
    }

    /// A new active service, whose supervisor starts: mark `s`, and the first run is ordered unless
    /// the directory has `down`. Both are put into `out`, in place of what that held. Page
    /// `s6-supervise`, "Detailed operation".
    pub fn begin_into(sid: Sid, name: Name, config: Config, out: &mut Out) -> ChartState
        ensures gives { MatchesMove (begin_move (new_service sid name config)) result out.new }
        ensures few { length out.new.orders.items ≤ 1 }
    {
        let mut chart = ChartState::new(sid, name, config);
        out.clear();
        chart.begin_supervisor(out);
        chart
    }

    /// Takes any of the changes (a report, letters, its timer, a look at its directory), and
    /// returns the marks and orders that it gives.
    pub fn change(&mut self, change: &Change, now: At) -> Out
        requires { self.old.generation + 1 < 2 ^ 64 }
        ensures gives { MatchesMove (changed_by change.now now self.old) self.new result }
        ensures sid { self.new.sid ≡ self.old.sid }
        ensures few { length result.orders.items ≤ most_orders change.now }
    {
        let mut out = Out::new();
        self.change_onto(change, now, &mut out);
        out
    }

    /// Takes any of the changes: a report of a run of this generation (its number), letters of a
    /// user, its timer (`Fire`), or what a look at its directory found. The marks and orders that
    /// this gives are added to what is in `out`. For letters `out` must hold no order, even where
    /// they are few: there has to be room for the orders of 63 letters.
    pub fn change_onto(&mut self, change: &Change, now: At, out: &mut Out)
        requires marks { length out.old.events.items + most_marks change.now ≤ 4 }
        requires room { length out.old.orders.items + most_orders change.now ≤ 126 }
        requires next { self.old.generation + 1 < 2 ^ 64 }
        ensures gives { AppendsMove (changed_by change.now now self.old) self.new out.old out.new }
        ensures sid { self.new.sid ≡ self.old.sid }
        ensures few { length out.new.orders.items
            ≤ length out.old.orders.items + most_orders change.now }
    {
        match change {
            Change::Report(Report::Started(_, generation, pid)) => {
                self.started_onto(*generation, *pid, now, out)
            }
            Change::Report(Report::StartFailed(_, generation)) => {
                self.start_failed_onto(*generation, now, out)
            }
            Change::Report(Report::Notify(_, generation, bytes)) => {
                self.notify_onto(*generation, bytes.as_slice(), now, out)
            }
            Change::Report(Report::Death(_, generation, exit)) => {
                self.death_onto(*generation, *exit, now, out)
            }
            Change::Report(Report::FinishEnded(_, generation, exit)) => {
                self.finish_ended_onto(*generation, *exit, now, out)
            }
            Change::Control(letters) => self.take_letters(letters.as_slice(), now, out),
            Change::Fire => self.fire_onto(now, out),
            Change::SetConfig(config) => self.set_config(*config),
            Change::SetActive(active) => self.set_active(*active, now),
        }
    }
}
