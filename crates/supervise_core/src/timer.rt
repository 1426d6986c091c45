//! The timer of a service: what it does in each phase. To which moment it is set is in `moves.rt`.
ghost use Rattle.std.specs.Prelude.{◌≡◌, ◌+◌, ◌<◌, ◌≤◌, ◌^◌, length};
ghost use Rattle.supervise_core.specs.Timer.{fire_move, timer_rule, is_due};
ghost use Rattle.supervise_core.specs.MatchesMove.{AppendsMove};

use super::chart_state::ChartState;
use super::out::Out;
use super::phase::Phase;
use s6_events::{At, Order, SIGKILL};

// The timer.
impl ChartState {
    /// Whether its timer is due: it is set to a moment that is not after `now`.
    pub fn is_due(&self, now: At) -> bool
        ensures { result ≡ is_due now self.now.timer }
    {
        self.timer.is_some_and(|due| due <= now.millis())
    }

    /// Its timer goes off, where it is due; else nothing happens. The mark and the order that this
    /// gives are added to what is in `out`.
    pub fn fire_onto(&mut self, now: At, out: &mut Out)
        requires marks { length out.old.events.items < 4 }
        requires room { length out.old.orders.items < 126 }
        requires next { self.old.generation + 1 < 2 ^ 64 }
        ensures gives { AppendsMove (fire_move now self.old) self.new out.old out.new }
        ensures sid { self.new.sid ≡ self.old.sid }
        ensures few { length out.new.orders.items ≤ length out.old.orders.items + 1 }
        ensures fresh { out.new.stale ≡ out.old.stale }
    {
        if self.is_due(now) {
            self.take_timer_rule(out);
        }
    }

    // What the timer does, by the phase. It was set in Down for the next start; in Up to kill a run
    // that is slow to go down (`timeout-kill`); in Finish to kill a `finish` that is slow to end
    // (`timeout-finish`); in Gone for a new supervisor. In Starting none is set.
    fn take_timer_rule(&mut self, out: &mut Out)
        requires marks { length out.old.events.items < 4 }
        requires room { length out.old.orders.items < 126 }
        requires next { self.old.generation + 1 < 2 ^ 64 }
        ensures { AppendsMove (timer_rule self.old.phase self.old) self.new out.old out.new }
    {
        match self.phase {
            Phase::Down => self.start_run(out),
            Phase::Starting => {}
            Phase::Up => {
                out.orders
                    .push(Order::Signal(self.sid, self.generation, SIGKILL));
                self.timer = None;
            }
            Phase::Finish => {
                out.orders
                    .push(Order::KillFinish(self.sid, self.generation));
                self.timer = None;
            }
            Phase::Gone => self.begin_supervisor(out),
        }
    }
}
