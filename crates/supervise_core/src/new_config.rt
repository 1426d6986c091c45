//! What a scan makes of a service whose directory was read again: it takes the new configuration.
ghost use Rattle.std.specs.Prelude.{◌≡◌};
ghost use Rattle.supervise_core.specs.Chart.{with_config};

use super::chart_state::ChartState;
use servicedir::Config;

impl ChartState {
    /// Takes the configuration that was now read of its directory. How many deaths are kept stays
    /// as it was when the service was added. Page `servicedir`.
    pub fn set_config(&mut self, config: Config)
        ensures { self.new ≡ with_config config self.old }
    {
        self.config = Config {
            max_death_tally: self.config.max_death_tally,
            ..config
        };
    }
}
