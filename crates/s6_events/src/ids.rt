//! The serials of services, subscriptions and waiters, and the actors that give inputs; all of
//! these are chosen here.
ghost use Rattle.std.specs.Prelude.{◌≡◌, ◌≤◌, None, Some, nat_le, if◌then◌else◌};

use std::marker::Model;

/// The serial of a service, counted from 1 and never used again: where a name comes again, it is
/// another service with another serial.
#[derive(Clone, Copy, PartialEq, Eq, PartialOrd, Ord, Hash, Debug, Default)]
pub struct Sid(pub u64);

impl Model for Sid {
    ghost use Rattle.std.specs.Prelude.{ℕ};

    ghost Value = { ℕ };

    ghost view = { λ s. s.0 };

    ghost inverse = { λ n. record { 0 = n } };
}

/// The serial of a subscription, counted from 1 and never used again.
#[derive(Clone, Copy, PartialEq, Eq, PartialOrd, Ord, Hash, Debug, Default)]
pub struct SubId(pub u64);

impl Model for SubId {
    ghost use Rattle.std.specs.Prelude.{ℕ};

    ghost Value = { ℕ };

    ghost view = { λ s. s.0 };

    ghost inverse = { λ n. record { 0 = n } };
}

/// The serial of a waiter, counted from 1 and never used again.
#[derive(Clone, Copy, PartialEq, Eq, PartialOrd, Ord, Hash, Debug, Default)]
pub struct WaitId(pub u64);

impl Model for WaitId {
    ghost use Rattle.std.specs.Prelude.{ℕ};

    ghost Value = { ℕ };

    ghost view = { λ s. s.0 };

    ghost inverse = { λ n. record { 0 = n } };
}

/// Who gives an input: one of 16 actors, with the numbers 0 to 15. What an input does never depends
/// on it.
#[derive(Clone, Copy, PartialEq, Eq, PartialOrd, Ord, Hash, Debug, Default)]
pub struct Actor {
    number: u8,
}

impl Model for Actor {
    ghost use Rattle.std.specs.Prelude.{ℕ, ◌≤◌};

    ghost Value = { ℕ };

    ghost view = { λ a. a.number };

    ghost invariant = { λ a. a.number ≤ 15 };

    ghost inverse = { λ n. record { number = n } };
}

impl Actor {
    /// The actor of this number, or None where it is over 15.
    pub fn new(number: u8) -> Option<Actor>
        ensures { result ≡ (if nat_le number 15 then Some number else None) }
    {
        if number <= 15 {
            Some(Actor { number })
        } else {
            None
        }
    }

    /// Its number.
    pub fn number(self) -> u8
        ensures value { result ≡ self }
        ensures bound { result ≤ 15 }
    {
        self.number
    }
}
