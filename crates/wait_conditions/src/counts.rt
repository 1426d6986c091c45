//! The counters of a waiter, by which `verdict.rt` gives its verdict: of how many of its services
//! the condition holds, of how many it fails (is given up), and of how many of these for good.
ghost use Rattle.std.specs.Prelude.{◌≡◌, ◌≤◌, [], map, length, false, is_some};
ghost use Rattle.s6_events.specs.Newest.{mark_of};
ghost use Rattle.wait_conditions.specs.Counts.{recounted, counts_after, counts_of};
ghost use Rattle.wait_conditions.specs.Verdict.{is_failure_for_good};
ghost use Rattle.wait_conditions.specs.Watched.{watched_after};

use crate::condition_fails::Failure;
use crate::supervisor_state::mark_in;
use crate::watched_service::WatchedService;
use s6_events::{Condition, Moment};

/// Of how many of a waiter's services the condition holds, of how many it fails, and of how many of
/// these for good.
#[derive(Clone, Copy, Debug)]
pub struct ServiceCounts {
    pub holding: usize,
    pub failing: usize,
    pub permanent: usize,
}

// A counter once one service has changed. `was`: the service was counted before; `now`: it is to be
// counted now.
fn recount(count: usize, was: bool, now: bool) -> usize
    requires { count ≤ 16 }
    ensures { result ≡ recounted count was now }
{
    let more = if now { count + 1 } else { count };
    if was { more.saturating_sub(1) } else { more }
}

// Whether a condition fails for good, since the service failed for good. `failure` is why it fails,
// or None where it doesn't.
fn is_permanent_failure(failure: Option<Failure>) -> bool
    ensures { result ≡ is_failure_for_good failure }
{
    matches!(failure, Some(Failure::Permanent))
}

impl ServiceCounts {
    /// The counters of no service.
    pub fn none() -> ServiceCounts
        ensures { result ≡ counts_of [] }
    {
        ServiceCounts {
            holding: 0,
            failing: 0,
            permanent: 0,
        }
    }

    // The counters once one of the services, counted as `was`, has become `now`.
    fn after(self, was: &WatchedService, now: &WatchedService) -> ServiceCounts
        requires holding { self.holding ≤ 16 }
        requires failing { self.failing ≤ 16 }
        requires permanent { self.permanent ≤ 16 }
        ensures { result ≡ counts_after self was.now now.now }
    {
        ServiceCounts {
            holding: recount(self.holding, was.holds, now.holds),
            failing: recount(self.failing, was.failure.is_some(), now.failure.is_some()),
            permanent: recount(
                self.permanent,
                is_permanent_failure(was.failure),
                is_permanent_failure(now.failure),
            ),
        }
    }

    // The counters once one more service, which was not counted before, has joined.
    fn with(self, joining: &WatchedService) -> ServiceCounts
        requires holding { self.holding ≤ 16 }
        requires failing { self.failing ≤ 16 }
        requires permanent { self.permanent ≤ 16 }
        ensures holding { result.holding ≡ recounted self.holding false joining.now.holds }
        ensures failing { result.failing
            ≡ recounted self.failing false (is_some joining.now.failure) }
        ensures permanent { result.permanent
            ≡ recounted self.permanent false (is_failure_for_good joining.now.failure) }
    {
        ServiceCounts {
            holding: recount(self.holding, false, joining.holds),
            failing: recount(self.failing, false, joining.failure.is_some()),
            permanent: recount(self.permanent, false, is_permanent_failure(joining.failure)),
        }
    }
}

/// The counters of these services.
pub fn count_all(watched: &[WatchedService]) -> ServiceCounts
    requires { length watched.now ≤ 16 }
    ensures { result ≡ counts_of watched.now }
{
    let mut counts = ServiceCounts::none();
    for service in watched {
        counts = counts.with(service);
    }
    counts
}

/// Each service that the waiter watches takes in the moment. Returns the counters after it.
pub fn watch_all(
    watched: &mut [WatchedService],
    counts: ServiceCounts,
    condition: Condition,
    moment: &Moment,
) -> ServiceCounts
    requires counted { counts ≡ counts_of watched.old }
    requires few { length watched.old ≤ 16 }
    ensures watched { watched.new
        ≡ map (λ w. watched_after condition (mark_of w.sid moment.now) w) watched.old }
    ensures counted { result ≡ counts_of watched.new }
{
    let mut counts = counts;
    for i in 0..watched.len() {
        let was = watched[i];
        // The service after its mark, if the moment is a mark of it.
        let now = was.after(condition, mark_in(was.sid, moment));
        counts = counts.after(&was, &now);
        watched[i] = now;
    }
    counts
}
