//! Which waiters some moments (clock readings, and marks of services) may touch, told without a
//! look at any waiter: their reach.
ghost use Rattle.std.specs.Prelude.{◌≡◌, []};
ghost use Rattle.wait_conditions.specs.Reach.{with_service, TouchWithin};
ghost use Rattle.wait_conditions.specs.declared.reach.Reach.TheVariants as reach;

use s6_events::{Moment, Sid};

/// The waiters that some moments may touch: none, those that watch one service, or any.
#[derive(Clone, Copy, Debug)]
pub enum Reach {
    Nobody,
    WatchersOf(Sid),
    Anybody,
}

impl Reach {
    // The reach with one more mark, of this service: marks of two services may touch any waiter.
    fn with_service(self, sid: Sid) -> Reach
        ensures { result ≡ with_service sid self }
    {
        match self {
            Reach::Nobody => Reach::WatchersOf(sid),
            Reach::WatchersOf(other) => if other.0 == sid.0 {
                self
            } else {
                Reach::Anybody
            },
            Reach::Anybody => self,
        }
    }
}

/// Whom these moments may touch, where no waiter that waits has a deadline before `due`.
pub fn reach_of(moments: &[Moment], due: u64) -> Reach
    ensures within { TouchWithin due result moments.now }
    ensures quiet { moments.now ≡ [] → result ≡ reach.Nobody }
{
    let mut reach = Reach::Nobody;
    for moment in moments {
        match moment {
            Moment::Clock(at) => {
                // A clock reading touches only waiters whose deadline it reaches.
                if at.millis() >= due {
                    return Reach::Anybody;
                }
            }
            Moment::Event(sid, _) => reach = reach.with_service(*sid),
        }
    }
    reach
}
