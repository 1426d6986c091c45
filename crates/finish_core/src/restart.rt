//! When a dead service is started again.
ghost use Rattle.std.specs.Prelude.{◌≡◌};
ghost use Rattle.finish_core.specs.Restart.{restart_moment};

use s6_events::At;

/// The pause between a death and the restart, in milliseconds, where the service had not been ready
/// for longer than that.
const PAUSE: u32 = 1000;

/// The number of the moment, in milliseconds, at which a service whose `finish` is done starts
/// again: `now` where it had been ready for more than 1000 ms when it died, else the later of `now`
/// and 1000 ms after its death. Page `s6-supervise`, "Detailed operation"; from which moment the
/// second counts is chosen here.
pub fn restart_due(ready_since: Option<At>, death: At, now: At) -> u64
    ensures { result ≡ restart_moment ready_since death now }
{
    match ready_since {
        Some(since) if death.millis().saturating_sub(since.millis()) > u64::from(PAUSE) =>
            now.millis(),
        _ => now.millis().max(death.later(PAUSE)),
    }
}
