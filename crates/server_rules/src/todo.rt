//! What is to be done for a connection.
use crate::letters::ToldLetter;
use crate::own_answer::OwnAnswer;
use crate::status_lines::Subject;
use std::alloc::Global;
use tree_core::{Act, Match, Release};

/// What answers a request.
#[derive(Clone, Copy, PartialEq, Eq, Debug)]
pub enum Answer {
    /// The reply to the step, or to the scan, that was under way.
    TheReply,
    /// The status of these services.
    Status(Subject),
    /// That letters are told from now on.
    Following,
    /// How many steps the record has.
    Recorded(u64),
    /// The clock.
    Clock,
    /// An answer of the server's own.
    Own(OwnAnswer),
}

/// What a step tells a connection beside its replies: it made the subscription or the waiter, or it
/// follows the service.
#[derive(Clone, Copy, PartialEq, Eq, Debug)]
pub enum News {
    /// A message matched a subscription.
    Match(Match),
    /// A waiter was released.
    Release(Release),
    /// A service told a letter.
    Letter(ToldLetter),
}

/// What is to be done for a connection.
#[derive(Drop)]
pub enum Todo {
    Nothing,
    /// A step with this act is handed in.
    Submit(Act<Global>),
    /// The directory is read, and a scan handed in.
    Scan,
    /// The run is handed over, and recorded.
    Record,
    /// This is posted, as the answer to the first request that has none yet.
    Give(Answer),
    /// The news are posted.
    Tell,
    /// Its slot is free.
    Free,
}
