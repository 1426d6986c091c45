//! The current letter of a service: the newest of its marks s, u, U, d and D, where an s counts as
//! D.
ghost use Rattle.std.specs.Prelude.{◌≡◌, Some};
ghost use Rattle.s6_events.specs.CurrentLetter.{letter_after};

use super::mark::Mark;

/// The current letter of a service after `mark`, where it was `letter` before. It is the newest of
/// the marks u, U, d and D; where a supervisor starts (mark s), it is D, as for a service that is
/// down with `finish` done. The marks O and x leave it as it was. Before any mark it is D. Page
/// `s6-svstat`.
pub fn letter_after(letter: Mark, mark: Mark) -> Mark
    ensures { result ≡ letter_after (Some mark) letter }
{
    match mark {
        Mark::SupervisorStarted => Mark::FinishDone,
        Mark::PermanentFailure | Mark::SupervisorEnded => letter,
        Mark::Spawned | Mark::Ready | Mark::Died | Mark::FinishDone => mark,
    }
}
