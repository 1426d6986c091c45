//! The shade of a lane: what it shows of a service at a moment, by the marks of the service (its
//! supervision) and by its status row.
ghost use Rattle.std.specs.Prelude.{◌≡◌};
ghost use Rattle.run_stories.specs.Lanes.{supervision_after, done_shade, row_shade, shade_of};

use s6_events::Mark;
use supervise_core::Row;

/// What a lane shows of a service at a moment.
#[derive(Clone, Copy, PartialEq, Eq)]
pub enum Shade {
    /// No such service is supervised: the lane is empty.
    Absent,
    /// It is up.
    Up,
    /// It is up, and has said that it is ready.
    Ready,
    /// It has died, and its `finish` isn't done.
    Finishing,
    /// It is down and wanted up: it pauses before its next start, or its first start has not come
    /// yet.
    Pausing,
    /// It is down, and stays down.
    Down,
    /// Its `finish` reported a permanent failure, and it is down.
    Failed,
}

/// What the marks of a service say about it and its status row doesn't.
#[derive(Clone, Copy)]
pub enum Supervision {
    /// Its supervisor is there.
    Supervised,
    /// Its supervisor is there, and it failed for good since it was last up.
    Failed,
    /// Its supervisor has ended.
    Gone,
}

/// What the marks of a service say of it (its supervision) after one more mark: whether its
/// supervisor is there, and whether it failed for good.
pub fn supervision_after(supervision: Supervision, mark: Mark) -> Supervision
    ensures { result ≡ supervision_after supervision mark }
{
    match mark {
        Mark::SupervisorStarted | Mark::Spawned => Supervision::Supervised,
        Mark::PermanentFailure => Supervision::Failed,
        Mark::SupervisorEnded => Supervision::Gone,
        Mark::Ready | Mark::Died | Mark::FinishDone => supervision,
    }
}

// The shade of a service that is down with its `finish` done: where it is wanted up it pauses
// before its next start, else it stays down.
fn done_shade(supervision: Supervision, wanted_up: bool) -> Shade
    ensures { result ≡ done_shade wanted_up supervision }
{
    if wanted_up {
        return Shade::Pausing;
    }
    match supervision {
        Supervision::Failed => Shade::Failed,
        Supervision::Supervised | Supervision::Gone => Shade::Down,
    }
}

// The shade of a service whose supervisor is there. A row that is neither up nor ready is that of a
// service whose `finish` isn't done.
fn row_shade(supervision: Supervision, row: &Row) -> Shade
    ensures { result ≡ row_shade row.now.up row.now.ready row.now.wanted_up supervision }
{
    if row.up {
        if row.ready { Shade::Ready } else { Shade::Up }
    } else if !row.ready {
        Shade::Finishing
    } else {
        done_shade(supervision, row.wanted_up)
    }
}

/// The shade of a service of this supervision and this status row.
pub fn shade_of(supervision: Supervision, row: &Row) -> Shade
    ensures { result ≡ shade_of supervision row.now }
{
    match supervision {
        Supervision::Gone => Shade::Absent,
        Supervision::Supervised | Supervision::Failed => row_shade(supervision, row),
    }
}
