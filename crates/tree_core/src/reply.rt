//! The replies to an act, and the reasons of a refusal.
ghost use Rattle.std.specs.Prelude.{◌≡◌};

use s6_events::{At, Exit, Name, Sid, SubId, WaitId};
use std::alloc::Allocator;
use std::marker::Model;
use supervise_core::Row;
use svscan_core::Listed;

/// Why an act was refused. A refused act changes nothing itself; still the clock moves on in its
/// step, and the due timers go off, but for `Spent`. The reasons are chosen here.
#[derive(Clone, Copy, Debug, PartialEq, Eq)]
pub enum Refusal {
    /// No service has this name or serial.
    NoService = 1,
    /// A report of another run than the present one, or one that is not awaited in the present
    /// phase of the service.
    Stale = 2,
    /// A message from outside to the event directory of a service.
    Reserved = 3,
    /// A limit of the tree is reached.
    TooMany = 4,
    /// There is no free directory of this name, or no subscription or waiter of this serial.
    NoSuch = 5,
    /// The tree is closing, since a terminate was done; it takes no listing and no command to all
    /// services.
    Closing = 6,
    /// A name was given twice.
    Repeated = 7,
    /// No name was given.
    Empty = 8,
    /// There is a free directory of this name already.
    Exists = 9,
    /// The supervisor of the service has ended.
    Ended = 10,
    /// The tree has taken 2^48 steps. Then nothing at all is done.
    Spent = 11,
}

/// What a scan answers: the services that were dropped, in rising serial, and what became of each
/// name for which there was no service, in the order of the names' bytes.
#[derive(Drop)]
pub struct ScanReport<A: Allocator> {
    dropped: Vec<Sid, A>,
    listed: Vec<Listed, A>,
}

impl<A: Allocator> Model for ScanReport<A> {
    ghost use Rattle.tree_core.specs.ScanReport.{Reported};

    ghost Value = { Reported };

    ghost view = { λ r. record { dropped = r.dropped.items; listed = r.listed.items } };
}

impl<A: Allocator> ScanReport<A> {
    /// The report of these.
    pub fn new(dropped: Vec<Sid, A>, listed: Vec<Listed, A>) -> ScanReport<A>
        ensures dropped { result.dropped ≡ dropped.items }
        ensures listed { result.listed ≡ listed.items }
    {
        ScanReport { dropped, listed }
    }

    /// The services that were dropped.
    pub fn dropped(&self) -> &[Sid]
        ensures { result.now ≡ self.now.dropped }
    {
        self.dropped.as_slice()
    }

    /// What became of each name for which there was no service.
    pub fn listed(&self) -> &[Listed]
        ensures { result.now ≡ self.now.listed }
    {
        self.listed.as_slice()
    }
}

/// The last deaths of a service, each with its moment, oldest first.
#[derive(Drop)]
pub struct TallyReport<A: Allocator> {
    deaths: Vec<(At, Exit), A>,
}

impl<A: Allocator> Model for TallyReport<A> {
    ghost use Rattle.std.specs.Prelude.{List, ℕ};
    ghost use Rattle.s6_events.specs.declared.exit.Exit.{Exit};

    ghost Value = { List (ℕ × Exit) };

    ghost view = { λ r. r.deaths.items };
}

impl<A: Allocator> TallyReport<A> {
    /// The report of these.
    pub fn new(deaths: Vec<(At, Exit), A>) -> TallyReport<A>
        ensures { result ≡ deaths.items }
    {
        TallyReport { deaths }
    }

    /// The deaths, oldest first.
    pub fn deaths(&self) -> &[(At, Exit)]
        ensures { result.now ≡ self.now }
    {
        self.deaths.as_slice()
    }
}

/// The answer to an act.
#[derive(Drop)]
pub enum Reply<A: Allocator> {
    /// It was done.
    Done,
    /// It was refused.
    Refused(Refusal),
    /// The scan was done.
    Scanned(ScanReport<A>),
    /// The status row that was asked for.
    Row(Row),
    /// The last deaths that were asked for.
    Tally(TallyReport<A>),
    /// Whether the last deaths are a permanent failure.
    PermanentFailure(bool),
    /// The waiter that was made.
    Waiter(WaitId),
    /// The subscription that was made.
    Subscription(SubId),
}
