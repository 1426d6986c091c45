//! What a scan makes of a service that was added before: it becomes active where its directory is
//! listed, else inactive.
ghost use Rattle.std.specs.Prelude.{◌≡◌};
ghost use Rattle.supervise_core.specs.Chart.{with_activity};

use super::chart_state::ChartState;
use super::moves::SUPERVISOR_PAUSE;
use super::phase::Phase;
use s6_events::At;

impl ChartState {
    /// Tells the service whether its directory is listed. Where its supervisor has ended, a new one
    /// starts 1000 ms after the directory came back, and none while the directory is away. Page
    /// `s6-svscan`; the 1000 ms are chosen here.
    pub fn set_active(&mut self, active: bool, now: At)
        ensures { self.new ≡ with_activity active now self.old }
    {
        if self.phase == Phase::Gone {
            if !active {
                // No new supervisor starts while the directory is away.
                self.timer = None;
            } else if !self.active {
                // Its directory was away. Where it was listed all along, the timer of the
                // supervisor's end still runs.
                self.timer = Some(now.later(SUPERVISOR_PAUSE));
            }
        }
        self.active = active;
    }
}
