//! The moves of which reports, letters and timers are made: a start, a down signal, `finish`, and
//! what comes after it.
ghost use Rattle.std.specs.Prelude.{◌≡◌, ◌+◌, ◌<◌, ◌≤◌, ◌^◌, ◌++◌, length};
ghost use Rattle.supervise_core.specs.Moves.{run_move, begin_move, down_signal_move, kill_timer, end_move, settle_move, finish_move};
ghost use Rattle.supervise_core.specs.MatchesMove.{AppendsMove};

use super::chart_state::ChartState;
use super::out::Out;
use super::phase::Phase;
use finish_core::{finish_args, restart_due};
use s6_events::{At, Exit, Mark, Order};

/// SIGCONT, which follows each down signal, so that a stopped `run` gets that signal.
const CONTINUE: u8 = 18;

/// The milliseconds after which an ended supervisor whose directory is active starts again.
pub const SUPERVISOR_PAUSE: u32 = 1000;

// The moves that reports and timers are made of. Each adds its marks and orders to those of its
// change.
impl ChartState {
    // Orders the next start of `run`, which gets the next number (`generation`); reports on it will
    // name that number.
    pub(crate) fn start_run(&mut self, out: &mut Out)
        requires room { length out.old.orders.items < 126 }
        requires next { self.old.generation + 1 < 2 ^ 64 }
        ensures { AppendsMove (run_move self.old) self.new out.old out.new }
    {
        self.generation += 1;
        self.phase = Phase::Starting;
        // No `d` came since this start was ordered, and no timer is set while it is under way.
        self.down_pending = false;
        self.timer = None;
        // Kept for this run, since the configuration may change while it is there.
        self.notification_fd = self.config.notification_fd;
        let order = Order::Run(self.sid, self.generation, self.name, self.notification_fd);
        out.orders.push(order);
    }

    // The supervisor starts: mark `s`. `run` is wanted up and ordered, unless the directory has
    // `down`. Nothing stays of what an earlier supervisor was told.
    pub(crate) fn begin_supervisor(&mut self, out: &mut Out)
        requires marks { length out.old.events.items < 4 }
        requires room { length out.old.orders.items < 126 }
        requires next { self.old.generation + 1 < 2 ^ 64 }
        ensures { AppendsMove (begin_move self.old) self.new out.old out.new }
    {
        out.events.push(Mark::SupervisorStarted);
        self.phase = Phase::Down;
        self.wanted_up = !self.config.down;
        self.exit_requested = false;
        self.down_pending = false;
        self.paused = false;
        self.ready_since = None;
        self.timer = None;
        if self.wanted_up {
            self.start_run(out);
        }
    }

    // `run` gets its down signal, and SIGCONT so that a stopped one gets it too. Where it has not
    // died after `timeout-kill`, the timer kills it.
    pub(crate) fn send_down_signal(&mut self, now: At, out: &mut Out)
        requires { length out.old.orders.items < 125 }
        ensures { AppendsMove (down_signal_move now self.old) self.new out.old out.new }
    {
        out.orders.push(Order::Signal(self.sid, self.generation, self.config.down_signal));
        out.orders
            .push(Order::Signal(self.sid, self.generation, CONTINUE));
        // SIGCONT makes it go on.
        self.paused = false;
        self.timer = self.kill_timer(now);
    }

    // The moment at which the run that gets a down signal is to be killed: the one that an earlier
    // down signal set, else `timeout_kill` milliseconds from now; None where that is 0.
    fn kill_timer(&self, now: At) -> Option<u64>
        ensures { result ≡ kill_timer now self.now.config.timeout_kill self.now.timer }
    {
        match self.timer {
            Some(due) => Some(due),
            None if self.config.timeout_kill == 0 => None,
            None => Some(now.later(self.config.timeout_kill)),
        }
    }

    // Orders `finish` for a run that ended with this exit. Where it has not ended after
    // `timeout_finish` milliseconds, the timer kills it; 0 is no limit.
    pub(crate) fn start_finish(&mut self, exit: Exit, now: At, out: &mut Out)
        requires { length out.old.orders.items < 126 }
        ensures { AppendsMove (finish_move exit now self.old) self.new out.old out.new }
    {
        // The first two arguments of `finish`, which tell it how the run ended.
        let (code, signal) = finish_args(exit);
        self.phase = Phase::Finish;
        self.timer = if self.config.timeout_finish == 0 {
            None
        } else {
            Some(now.later(self.config.timeout_finish))
        };
        out.orders.push(Order::Finish(self.sid, self.generation, self.name, code, signal));
    }

    // The supervisor ends: mark `x`. Where the directory is listed, the timer is set to start a new
    // one.
    pub(crate) fn end_supervisor(&mut self, now: At, out: &mut Out)
        requires { length out.old.events.items < 4 }
        ensures { AppendsMove (end_move now self.old) self.new out.old out.new }
    {
        out.events.push(Mark::SupervisorEnded);
        self.phase = Phase::Gone;
        self.timer = if self.active {
            Some(now.later(SUPERVISOR_PAUSE))
        } else {
            None
        };
    }

    // `finish` is done, or there is none: the supervisor ends, if it was told to; else the service
    // is started, now or by the timer, if it is wanted up; else it stays down.
    pub(crate) fn settle(&mut self, now: At, out: &mut Out)
        requires marks { length out.old.events.items < 4 }
        requires room { length out.old.orders.items < 126 }
        requires next { self.old.generation + 1 < 2 ^ 64 }
        ensures { AppendsMove (settle_move now self.old) self.new out.old out.new }
    {
        // The earliest moment of the next start. It depends on how long the dead run was ready,
        // which is forgotten below.
        let due = restart_due(self.ready_since, self.died_at, now);
        self.phase = Phase::Down;
        self.timer = None;
        self.ready_since = None;
        if self.exit_requested {
            self.end_supervisor(now, out);
        } else if self.wanted_up {
            if due <= now.millis() {
                self.start_run(out);
            } else {
                self.timer = Some(due);
            }
        }
    }
}
