//! The changes of a service.
ghost use Rattle.std.specs.Prelude.{◌≡◌};
ghost use Rattle.supervise_core.specs.Service.{death_by};

use control_letters::Letters;
use s6_events::{At, Exit, Report};
use servicedir::Config;

/// What may happen to a service: a report of the outside, letters of a user, its timer, or a look
/// at its directory.
#[derive(Clone, Debug, PartialEq, Eq, Drop)]
pub enum Change {
    /// A report of its `run` or its `finish`. The phase and the generation in the report tell
    /// whether it is stale, never the serial: a report is handed to the service that it names.
    Report(Report),
    /// A user sent these letters.
    Control(Letters),
    /// Its timer goes off, if it is set to a moment that is not after now; else nothing happens.
    Fire,
    /// Its directory was read again.
    SetConfig(Config),
    /// Its directory is listed, or no longer listed.
    SetActive(bool),
}

impl Change {
    /// The death that this change, at this moment, adds to the tally (the last deaths) of a
    /// service: that of a death report, unless it was refused as `stale` (of another run than the
    /// present one). None for any other change.
    pub fn counted_death(&self, stale: bool, now: At) -> Option<(At, Exit)>
        ensures { result ≡ death_by self.now stale now }
    {
        match self {
            Change::Report(Report::Death(_, _, exit)) if !stale => Some((now, *exit)),
            _ => None,
        }
    }
}
