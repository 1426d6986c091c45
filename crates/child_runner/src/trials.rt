//! Starts that failed for a fault of the moment: when each is tried again, and whom nobody wants
//! any more.
ghost use Rattle.std.specs.Prelude.{◌≡◌};
ghost use Rattle.child_runner.specs.Trials.{begun_at, time_left, is_over, tried_at, is_unwanted};

use crate::shared_child::ServiceProcess;
use s6_events::{Name, Order};
use std::alloc::Global;
use std::sync::Arc;
use std::time::{Clock, Duration};

/// How long after a try the next one comes, in milliseconds.
pub(crate) const TRIAL_PAUSE: u64 = 100;

/// For how long a start is tried, in milliseconds.
pub(crate) const TRIAL_TIME: u64 = 5_000;

/// When a start was tried first, and when last, in milliseconds of the system's clock.
#[derive(Clone, Copy, PartialEq, Eq, Debug)]
pub(crate) struct Schedule {
    pub begun: u64,
    pub tried: u64,
}

impl Schedule {
    /// The schedule of a start whose first try was at the moment `now`.
    pub fn begin(now: u64) -> Schedule
        ensures { result ≡ begun_at now }
    {
        Schedule {
            begun: now,
            tried: now,
        }
    }

    /// After how many milliseconds, from the moment `now` on, it is tried again.
    pub fn time_left(&self, now: u64) -> u64
        ensures { result ≡ time_left now self.now }
    {
        TRIAL_PAUSE.saturating_sub(now.saturating_sub(self.tried))
    }

    /// Whether it is given up, if it fails at the moment `now`.
    pub fn is_over(&self, now: u64) -> bool
        ensures { result ≡ is_over now self.now }
    {
        now.saturating_sub(self.begun) >= TRIAL_TIME
    }

    /// Notes that it was tried at the moment `now`.
    pub fn note_try(&mut self, now: u64)
        ensures { self.new ≡ tried_at now self.old }
    {
        self.tried = now;
    }
}

/// Which starts are wanted no more.
#[derive(Clone, Copy, PartialEq, Eq, Debug)]
pub enum Unwanted {
    /// Those of `run` of the service of this name.
    Run(Name),
    /// Those of each `run`. A `finish` is started all the same.
    EachRun,
    /// Those of `finish` of the service of this name.
    Finish(Name),
    /// All of them.
    All,
}

impl Unwanted {
    /// Whether the start that this order asks for is wanted no more.
    pub(crate) fn holds_of(&self, order: &Order) -> bool
        ensures { result ≡ is_unwanted order.now self.now }
    {
        match (self, order) {
            (Unwanted::Run(unwanted), Order::Run(_, _, name, _)) => unwanted == name,
            (Unwanted::Finish(unwanted), Order::Finish(_, _, name, _, _)) => unwanted == name,
            (Unwanted::EachRun, Order::Run(..)) => true,
            (Unwanted::All, _) => true,
            _ => false,
        }
    }
}

/// A start that is tried again: the child, which counts as starting meanwhile, and the order to
/// start it.
#[derive(Drop)]
pub(crate) struct Trial {
    pub process: Arc<ServiceProcess, Global>,
    pub order: Order,
    pub schedule: Schedule,
}

/// The present moment of the system's monotonic clock, in milliseconds; 0 where the system has
/// none.
pub(crate) fn millis_of<R: Clock>(rt: &R) -> u64 {
    let passed = rt.monotonic().unwrap_or(Duration::from_millis(0));
    u64::try_from(passed.as_millis()).unwrap_or(u64::MAX)
}
