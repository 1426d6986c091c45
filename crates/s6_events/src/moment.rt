//! One moment of the history: a clock reading or a mark of a service.
use crate::at::At;
use crate::ids::Sid;
use crate::mark::Mark;

/// An entry of the history: the clock moved on, or the supervisor of a service gave a mark.
#[derive(Clone, Copy, PartialEq, Eq, Debug)]
pub enum Moment {
    /// The clock moved on to this moment.
    Clock(At),
    /// The supervisor of this service gave this mark.
    Event(Sid, Mark),
}
