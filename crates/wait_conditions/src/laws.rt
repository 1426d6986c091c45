//! Laws of a waiter's release. Each is the contract of a function that does nothing, so that its
//! statement is proved.
ghost use Rattle.wait_conditions.specs.Laws.{GrowsByMoments, ReleasedAtTheLeast, ReleasedByTheLastMoment, ReleasesNoneBefore, ReleasesRise, WaitsThroughout};

/// A waiter that is released has the verdict over the least number of moments since its place, from
/// 0 on, at which its verdict isn't waiting.
pub fn released_at_the_least()
    ensures { ReleasedAtTheLeast }
{}

/// A waiter that waits still: its verdict is waiting over each number of moments since its place.
pub fn waits_throughout()
    ensures { WaitsThroughout }
{}

/// With one more moment, a waiter that waits takes its verdict over all moments, and a released one
/// keeps its own.
pub fn one_moment_more()
    ensures { GrowsByMoments }
{}

/// A waiter that one more moment releases is released at the least number of moments since its
/// place at which its verdict isn't waiting, and this moment is the last of them.
pub fn released_by_the_last_moment()
    ensures { ReleasedByTheLastMoment }
{}

/// The releases of one moment come in rising serial.
pub fn releases_rise()
    ensures { ReleasesRise }
{}

/// A clock reading before the deadline of each waiter that waits still releases none.
pub fn none_before_a_deadline()
    ensures { ReleasesNoneBefore }
{}
