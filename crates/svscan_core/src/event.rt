//! A mark with the service that told it.
use s6_events::{Mark, Sid};

/// A mark of a service.
#[derive(Clone, Copy, PartialEq, Eq, Debug)]
pub struct Event {
    pub sid: Sid,
    pub mark: Mark,
}
