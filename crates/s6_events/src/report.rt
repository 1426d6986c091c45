//! What the outside tells of a service's processes.
use crate::exit::Exit;
use crate::ids::Sid;
use arrayvec::ArrayVec;

/// What became of a `run` or a `finish` whose start was ordered. The first field is the serial of
/// the service, the second the generation that the order had. Page `s6-supervise`, "Detailed
/// operation".
#[derive(Clone, Debug, PartialEq, Eq, Drop)]
pub enum Report {
    /// `run` was spawned, with this process number.
    Started(Sid, u64, u32),
    /// `run`, or `finish`, could not be spawned.
    StartFailed(Sid, u64),
    /// `run` wrote these bytes, 1 to 64, to its notification descriptor. Page `notifywhenup`.
    Notify(Sid, u64, ArrayVec<u8, 64>),
    /// `run` died.
    Death(Sid, u64, Exit),
    /// `finish` ended.
    FinishEnded(Sid, u64, Exit),
}
