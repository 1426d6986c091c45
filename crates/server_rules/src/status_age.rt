//! How old a status may be.
ghost use Rattle.std.specs.Prelude.{◌≡◌};
ghost use Rattle.server_rules.specs.StatusAge.{is_recent};

/// A status may be told while the last step is less old than this, in milliseconds.
const STATUS_AGE: u64 = 1000;

/// Whether a last step at the moment `step` is so recent that a status may be told now. Both
/// moments are in milliseconds.
pub fn is_recent(step: u64, now: u64) -> bool
    ensures { result ≡ is_recent step now }
{
    now.saturating_sub(step) < STATUS_AGE
}
