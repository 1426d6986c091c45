//! A moment in milliseconds.
ghost use Rattle.std.specs.Prelude.{◌≡◌, ◌≤◌, ◌+◌, None, Some, nat_le, if◌then◌else◌};
ghost use Rattle.s6_events.specs.At.{last_moment};

use std::marker::Model;

/// The greatest moment, in milliseconds.
const LAST_MOMENT: u64 = 1_000_000_000_000_000;

/// A moment in milliseconds, from 0 to 10^15. Moments and their limit are chosen here: s6 stamps
/// with TAI64N labels.
#[derive(Clone, Copy, PartialEq, Eq, PartialOrd, Ord, Hash, Debug, Default)]
pub struct At {
    millis: u64,
}

impl Model for At {
    ghost use Rattle.std.specs.Prelude.{ℕ, ◌≤◌};
    ghost use Rattle.s6_events.specs.At.{last_moment};

    ghost Value = { ℕ };

    ghost view = { λ a. a.millis };

    ghost invariant = { λ a. a.millis ≤ last_moment };

    ghost inverse = { λ n. record { millis = n } };
}

impl At {
    /// The moment 0, at which every clock begins.
    pub fn zero() -> At
        ensures { result ≡ 0 }
    {
        At { millis: 0 }
    }

    /// The moment of `millis` milliseconds; None where `millis` is more than 10^15.
    pub fn new(millis: u64) -> Option<At>
        ensures { result ≡ (if nat_le millis last_moment then Some millis else None) }
    {
        if millis <= LAST_MOMENT {
            Some(At { millis })
        } else {
            None
        }
    }

    /// Its milliseconds.
    pub fn millis(self) -> u64
        ensures value { result ≡ self }
        ensures bound { result ≤ last_moment }
    {
        self.millis
    }

    /// The number of the moment that is `millis` milliseconds later. It is a plain number, since it
    /// may be past the greatest moment; then that moment never comes.
    pub fn later(self, millis: u32) -> u64
        ensures { result ≡ self + millis }
    {
        self.millis + u64::from(millis)
    }
}
