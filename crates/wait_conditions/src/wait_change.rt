//! What a step asks of the waiters, and their answer.
use crate::add_fault::AddFault;
use crate::verdict::Verdict;
use s6_events::{At, Condition, Mode, Sid, WaitId};

/// What a step asks of the waiters, after its moments.
#[derive(Clone, Copy)]
pub enum WaitChange<'a> {
    /// Nothing.
    Nothing,
    /// A waiter for these services is to be made. Its timeout is in milliseconds, 0 for none, and
    /// counts from this moment. Page `s6-svwait`.
    Add(Condition, Mode, &'a [Sid], u32, At),
    /// The waiter of this serial is to end.
    Cancel(WaitId),
}

/// What a step answers to its change.
#[derive(Clone, Copy, Debug, PartialEq, Eq)]
pub enum WaitAnswer {
    /// Nothing was asked.
    Nothing,
    /// The serial of the new waiter, and its verdict where it is released at once.
    Added(WaitId, Option<Verdict>),
    /// Why no waiter is made; it is never NoMemory.
    Refused(AddFault),
    /// Whether there was such a waiter.
    Cancelled(bool),
}
