//! The reports: what each does in the phase that it belongs to. In any other phase, or of another
//! run than the present one, it is stale: it is refused and changes nothing.
ghost use Rattle.std.specs.Prelude.{◌≡◌, ◌+◌, ◌<◌, ◌≤◌, ◌^◌, length};
ghost use Rattle.supervise_core.specs.Reports.{started_move, start_failed_move, notify_move, death_move, finish_ended_move, failed_spawn_move, is_awaiting, is_running, is_in_finish, says_ready};
ghost use Rattle.supervise_core.specs.MatchesMove.{AppendsMove};

use super::chart_state::ChartState;
use super::out::Out;
use super::phase::Phase;
use finish_core::{Verdict125, verdict};
use s6_events::{At, Exit, Mark};

/// The milliseconds after which a spawn of `run` that failed is tried again.
const SPAWN_PAUSE: u32 = 60000;

// The reports of the outside. A report of another generation, or in a phase to which it does not
// belong, is stale.
impl ChartState {
    // Whether the run of this generation was ordered, and nothing is known of it yet.
    fn is_awaiting(&self, generation: u64) -> bool
        ensures { result ≡ is_awaiting generation self.now }
    {
        self.phase == Phase::Starting && self.generation == generation
    }

    // Whether the run of this generation is there.
    fn is_running(&self, generation: u64) -> bool
        ensures { result ≡ is_running generation self.now }
    {
        self.phase == Phase::Up && self.generation == generation
    }

    // Whether the finish of this generation is there.
    fn is_in_finish(&self, generation: u64) -> bool
        ensures { result ≡ is_in_finish generation self.now }
    {
        self.phase == Phase::Finish && self.generation == generation
    }

    // Whether these bytes, which the run wrote to its notification descriptor, say for the first
    // time that it is ready: by a newline.
    fn says_ready(&self, bytes: &[u8]) -> bool
        ensures { result ≡ says_ready bytes.now self.now }
    {
        self.notification_fd.is_some() && self.ready_since.is_none() && bytes.contains(&b'\n')
    }

    /// `run` of this number (`generation`) was spawned: mark `u`. Where it was told to go down
    /// meanwhile (`down_pending`), the down signal follows. The report is stale, and changes
    /// nothing, unless the start of this run was under way. The mark and the orders, at most two,
    /// are added to what is in `out`.
    pub fn started_onto(&mut self, generation: u64, pid: u32, now: At, out: &mut Out)
        requires marks { length out.old.events.items < 4 }
        requires room { length out.old.orders.items + 2 ≤ 126 }
        ensures gives { AppendsMove
            (started_move generation pid now self.old) self.new out.old out.new }
        ensures sid { self.new.sid ≡ self.old.sid }
        ensures few { length out.new.orders.items ≤ length out.old.orders.items + 2 }
    {
        if !self.is_awaiting(generation) {
            out.stale = true;
            return;
        }
        self.phase = Phase::Up;
        self.pid = pid;
        // Nothing stays of the run before: this one is neither stopped nor ready.
        self.paused = false;
        self.ready_since = None;
        out.events.push(Mark::Spawned);
        if self.down_pending {
            self.down_pending = false;
            self.send_down_signal(now, out);
        }
    }

    /// `run` or `finish` of this number (`generation`) could not be spawned. `run` is tried again
    /// later, or its supervisor ends (`miss_spawn`); `finish` counts as done: mark `D`, and what
    /// comes next (`settle`). The report is stale, and changes nothing, where neither was awaited.
    /// The marks, at most two, and the order are added to what is in `out`.
    pub fn start_failed_onto(&mut self, generation: u64, now: At, out: &mut Out)
        requires marks { length out.old.events.items + 2 ≤ 4 }
        requires room { length out.old.orders.items < 126 }
        requires next { self.old.generation + 1 < 2 ^ 64 }
        ensures gives { AppendsMove
            (start_failed_move generation now self.old) self.new out.old out.new }
        ensures sid { self.new.sid ≡ self.old.sid }
        ensures few { length out.new.orders.items ≤ length out.old.orders.items + 1 }
    {
        if self.is_awaiting(generation) {
            self.miss_spawn(now, out);
        } else if self.is_in_finish(generation) {
            out.events.push(Mark::FinishDone);
            self.settle(now, out);
        } else {
            out.stale = true;
        }
    }

    // The run could not be spawned: the supervisor ends, if it was told to; else `run` is tried
    // again after 60000 ms, if it is wanted up.
    fn miss_spawn(&mut self, now: At, out: &mut Out)
        requires { length out.old.events.items < 4 }
        ensures gives { AppendsMove (failed_spawn_move now self.old) self.new out.old out.new }
        ensures quiet { out.new.orders.items ≡ out.old.orders.items }
    {
        self.phase = Phase::Down;
        // The down signal that was to follow the spawn is not needed.
        self.down_pending = false;
        if self.exit_requested {
            self.end_supervisor(now, out);
        } else if self.wanted_up {
            self.timer = Some(now.later(SPAWN_PAUSE));
        }
    }

    /// `run` of this number (`generation`) wrote these bytes to its notification descriptor: mark
    /// `U` at its first newline, and else nothing. The report is stale, and changes nothing, unless
    /// this run was up. The mark is added to what is in `out`.
    pub fn notify_onto(&mut self, generation: u64, bytes: &[u8], now: At, out: &mut Out)
        requires { length out.old.events.items < 4 }
        ensures gives { AppendsMove
            (notify_move generation bytes.now now self.old) self.new out.old out.new }
        ensures sid { self.new.sid ≡ self.old.sid }
        ensures few { length out.new.orders.items ≤ length out.old.orders.items }
    {
        if !self.is_running(generation) {
            out.stale = true;
            return;
        }
        if self.says_ready(bytes) {
            self.ready_since = Some(now);
            out.events.push(Mark::Ready);
        }
    }

    /// `run` of this number (`generation`) died: mark `d`. Then `finish` is ordered where there is
    /// one; else mark `D`, and what comes next (`settle`): the supervisor ends, or the service
    /// rests, or it is started again. The report is stale, and changes nothing, unless this run was
    /// up. The marks, at most three, and the order are added to what is in `out`.
    pub fn death_onto(&mut self, generation: u64, exit: Exit, now: At, out: &mut Out)
        requires marks { length out.old.events.items + 3 ≤ 4 }
        requires room { length out.old.orders.items < 126 }
        requires next { self.old.generation + 1 < 2 ^ 64 }
        ensures gives { AppendsMove
            (death_move generation exit now self.old) self.new out.old out.new }
        ensures sid { self.new.sid ≡ self.old.sid }
        ensures few { length out.new.orders.items ≤ length out.old.orders.items + 1 }
    {
        if !self.is_running(generation) {
            out.stale = true;
            return;
        }
        out.events.push(Mark::Died);
        // When it died and how: for the moment of the next start, and for the status row.
        self.died_at = now;
        self.last_exit = Some(exit);
        self.paused = false;
        // The SIGKILL after `timeout-kill`, for which the timer may be set, is not needed any more.
        self.timer = None;
        if self.config.finish {
            self.start_finish(exit, now, out);
        } else {
            out.events.push(Mark::FinishDone);
            self.settle(now, out);
        }
    }

    /// `finish` of the run of this number (`generation`) ended: mark `D`, and what comes next
    /// (`settle`). With the exit code 125 the service has failed for good: mark `O` comes first,
    /// and it is no longer wanted up. The report is stale, and changes nothing, unless this
    /// `finish` was there. The marks, at most three, and the order are added to what is in `out`.
    pub fn finish_ended_onto(&mut self, generation: u64, exit: Exit, now: At, out: &mut Out)
        requires marks { length out.old.events.items + 3 ≤ 4 }
        requires room { length out.old.orders.items < 126 }
        requires next { self.old.generation + 1 < 2 ^ 64 }
        ensures gives { AppendsMove
            (finish_ended_move generation exit now self.old) self.new out.old out.new }
        ensures sid { self.new.sid ≡ self.old.sid }
        ensures few { length out.new.orders.items ≤ length out.old.orders.items + 1 }
    {
        if !self.is_in_finish(generation) {
            out.stale = true;
            return;
        }
        if verdict(exit) == Verdict125::Permanent {
            out.events.push(Mark::PermanentFailure);
            self.wanted_up = false;
        }
        out.events.push(Mark::FinishDone);
        self.settle(now, out);
    }
}
