//! What the exit of `finish` says: 125 is a permanent failure. What becomes of the service then is
//! in `reports.rt` of supervise_core.
ghost use Rattle.std.specs.Prelude.{◌≡◌};
ghost use Rattle.finish_core.specs.ExitVerdict.{verdict_of};

use s6_events::Exit;

/// The exit code by which `finish` says that its service has failed for good.
const PERMANENT_FAILURE: u8 = 125;

/// What the end of `finish` says of its service. Page `servicedir`, "finish".
#[derive(Clone, Copy, Debug, PartialEq, Eq)]
pub enum Verdict125 {
    /// It has failed for good: it is not to be started again.
    Permanent,
    /// Nothing more than that `finish` is done.
    Ordinary,
}

/// The verdict of a `finish` that ended with this exit: permanent for the exit code 125, else
/// ordinary. Page `servicedir`, "finish".
pub fn verdict(exit: Exit) -> Verdict125
    ensures { result ≡ verdict_of exit }
{
    match exit {
        Exit::Code(PERMANENT_FAILURE) => Verdict125::Permanent,
        _ => Verdict125::Ordinary,
    }
}
